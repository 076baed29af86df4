//! The events of the demo's log.

ghost use Rattle.std.specs.Prelude.{◌≡◌, ◌++◌, OnOk, string_bytes, decimal};
ghost use Rattle.log_reader.specs.DemoEvents.{event_behind, person_at, state_behind, name_of, written};

use crate::demo_draws::Draws;
use itoa::Buffer;
use std::alloc::AllocError;

// Identities are below this.
const IDENTITIES: u64 = 100;

// So many people make requests.
const PEOPLE: u64 = 5;

// Kinds below 4 are requests, those below 7 grants, and the last one is a drop.
const KINDS: u64 = 8;

/// Who makes a request.
#[derive(Clone, Copy)]
pub enum Person {
    Ann,
    Bob,
    Cat,
    Dan,
    Eve,
}

impl Person {
    fn at(place: u64) -> Person
        ensures { result ≡ person_at place }
    {
        match place {
            0 => Person::Ann,
            1 => Person::Bob,
            2 => Person::Cat,
            3 => Person::Dan,
            _ => Person::Eve,
        }
    }

    fn name(self) -> &'static str
        ensures { result.now ≡ name_of self }
    {
        match self {
            Person::Ann => "ann",
            Person::Bob => "bob",
            Person::Cat => "cat",
            Person::Dan => "dan",
            Person::Eve => "eve",
        }
    }
}

/// An event: what is done with the thing of this identity, and who asks for it.
#[derive(Clone, Copy)]
pub enum DemoEvent {
    Request { id: u64, who: Person },
    Grant { id: u64 },
    Drop { id: u64 },
}

impl DemoEvent {
    /// Draws an event.
    pub fn draw(draws: &mut Draws) -> DemoEvent
        ensures event { result ≡ event_behind draws.old.state }
        ensures draws { draws.new.state ≡ state_behind draws.old.state }
    {
        let kind = draws.below(KINDS);
        let id = draws.below(IDENTITIES);
        match kind {
            0..=3 => DemoEvent::Request {
                id,
                who: Person::at(draws.below(PEOPLE)),
            },
            4..=6 => DemoEvent::Grant { id },
            _ => DemoEvent::Drop { id },
        }
    }

    /// Puts its text behind a log.
    pub fn push_to(self, log: &mut String) -> Result<(), AllocError>
        ensures { OnOk result (string_bytes log.new ≡ string_bytes log.old ++ written self) }
    {
        match self {
            DemoEvent::Request { id, who } => {
                push_named(log, " req(", id)?;
                log.push_str(",")?;
                log.push_str(who.name())?;
            }
            DemoEvent::Grant { id } => push_named(log, " grant(", id)?,
            DemoEvent::Drop { id } => push_named(log, " drop(", id)?,
        }
        log.push_str(")")
    }
}

// Puts the front of an event behind a log.
fn push_named(log: &mut String, name: &str, id: u64) -> Result<(), AllocError>
    ensures { OnOk result (string_bytes log.new ≡ string_bytes log.old ++ name.now ++ decimal id) }
{
    log.push_str(name)?;
    log.push_str(Buffer::new().format(id))
}
