//! The texts of a run that needs no files: each seed gives a log of its own.

ghost use Rattle.std.specs.Prelude.{◌≡◌, ◌++◌, ◌+◌, ◌<◌, IfOk, OnOk, string_bytes};
ghost use Rattle.std.specs.List.{flat_map};
ghost use Rattle.log_reader.specs.DemoEvents.{events_behind, state_behind_all, moments, written, line_of};
ghost use Rattle.log_reader.specs.DemoDraws.{drawn, moved_on};
ghost use Rattle.log_reader.specs.DemoTexts.{signature_text, policy_text, log_text, changes_text};

use crate::demo_draws::Draws;
use crate::demo_event::DemoEvent;
use itoa::Buffer;
use std::alloc::{AllocError, Global};

const SIGNATURE: &str = "req(id:int,who:string) grant(id:int) drop(id:int)\n";

const POLICY: &str = "(req(i,w) AND NOT ONCE[0,50] drop(i)) IMPLIES EVENTUALLY[0,20] grant(i)\n";

const CHANGES: &str = "before 250 i=hash:4\n\
    before 500 i=hash:2 w=hash:3\n\
    before 750 w=hash:5\n\
    before 1000 i=cut:25,50,75\n\
    before 1250 i=hash:1\n\
    before 1500 i=hash:8\n";

const TIME_POINTS: u64 = 2_000;

// A time-point is less than this later than the one before it.
const WAIT_BOUND: u64 = 4;

// A time-point has fewer events than this.
const EVENT_BOUND: u64 = 6;

/// The texts of a run, each as its file would have it: a signature, a policy, a log over that signature and
/// a script of changes of the strategy, which is empty at first.
#[derive(Drop)]
pub struct Demo {
    pub sig: String,
    pub policy: String,
    pub log: String,
    pub changes: String,
}

/// The demo of this seed. Only its log depends on the seed: 2,000 time-points with up to five events each.
pub fn generate(alloc: Global, seed: u64) -> Result<Demo, AllocError>
    ensures sig { IfOk result (λ demo. string_bytes demo.sig ≡ signature_text) }
    ensures policy { IfOk result (λ demo. string_bytes demo.policy ≡ policy_text) }
    ensures log { IfOk result (λ demo. string_bytes demo.log ≡ log_text seed) }
    ensures changes { IfOk result (λ demo. string_bytes demo.changes ≡ changes_text) }
{
    let mut log = String::new(alloc);
    push_log(&mut log, seed)?;
    Ok(Demo {
        sig: String::from_str(alloc, SIGNATURE)?,
        policy: String::from_str(alloc, POLICY)?,
        log,
        changes: String::from_str(alloc, CHANGES)?,
    })
}

fn push_log(log: &mut String, seed: u64) -> Result<(), AllocError>
    ensures { OnOk result (string_bytes log.new ≡ string_bytes log.old ++ log_text seed) }
{
    let mut draws = Draws { state: seed };
    let mut time: u64 = 0;
    for _ in 0..TIME_POINTS {
        time += draws.below(WAIT_BOUND);
        push_line(log, &mut draws, time)?;
    }
    Ok(())
}

// Draws the events of a time-point, and puts its line behind a log.
fn push_line(log: &mut String, draws: &mut Draws, time: u64) -> Result<(), AllocError>
    ensures line { OnOk result (string_bytes log.new ≡ string_bytes log.old ++ line_of (record {
      time = time;
      events = events_behind (drawn 6 draws.old.state) (moved_on draws.old.state);
    })) }
    ensures draws { OnOk result (draws.new.state
        ≡ state_behind_all (drawn 6 draws.old.state) (moved_on draws.old.state)) }
{
    log.push_str("@")?;
    log.push_str(Buffer::new().format(time))?;
    let count = draws.below(EVENT_BOUND);
    push_events(log, draws, count)?;
    log.push_str(";\n")
}

// Draws so many events, and puts them behind a log.
fn push_events(log: &mut String, draws: &mut Draws, count: u64) -> Result<(), AllocError>
    ensures events { OnOk result (string_bytes log.new
        ≡ string_bytes log.old ++ flat_map written (events_behind count draws.old.state)) }
    ensures draws { OnOk result (draws.new.state ≡ state_behind_all count draws.old.state) }
{
    for _ in 0..count {
        DemoEvent::draw(draws).push_to(log)?;
    }
    Ok(())
}
