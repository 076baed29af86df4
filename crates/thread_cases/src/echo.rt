//! A work that gives back what it takes, and may run out of memory.
ghost use Rattle.std.specs.Prelude.{◌≡◌, ◌++◌, List, [], ◌∷◌, IfErr, IfOk};
ghost use Rattle.turn_hub.specs.Work.{Leads, Takes};

use std::alloc::{AllocError, Global};
use turn_hub::Work;

/// Gives each number that it takes, as long as it has room.
#[derive(Drop)]
pub struct Echo {
    /// Which one it is.
    pub name: u32,
    /// So many numbers more it takes. At the next one it has no memory.
    pub room: u32,
}

impl Work for Echo {
    ghost use Rattle.thread_cases.specs.Echoes.{May, Refused, StandsFor, Told, less, none, tells};

    type Item = u32;

    type Out = u32;

    type Seed = u32;

    ghost seed = { λ w. w.name };

    ghost stands = { StandsFor };

    ghost told = { Told };

    ghost may = { May };

    ghost refused = { Refused };

    ghost tells = { tells };

    ghost may_none = { none };

    ghost may_less = { less };

    fn work(&mut self, _alloc: Global, item: u32, outs: &mut Vec<u32>) -> Result<(), AllocError> {
        let Some(left) = self.room.checked_sub(1) else {
            return Err(AllocError);
        };
        outs.push(item)?;
        self.room = left;
        Ok(())
    }
}
