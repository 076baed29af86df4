//! A work that says to a gate when it takes an item.
ghost use Rattle.std.specs.Prelude.{◌≡◌, ◌++◌, List, [], ◌∷◌, IfOk};
ghost use Rattle.turn_hub.specs.Work.{Leads, Takes};

use crate::numbers::Numbers;
use std::alloc::{AllocError, Global};
use turn_hub::Work;

/// Gives nothing for what it takes. Of it nothing is known.
#[derive(Drop)]
pub struct Counted<'a> {
    /// The gate of its cell.
    pub gate: &'a Numbers,
}

impl Work for Counted<'_> {
    type Item = u32;

    type Out = u32;

    type Seed = u32;

    ghost seed = { λ w. 0 };

    ghost stands = { λ name took gave w. Unit {0} };

    ghost told = { λ name took gave. Unit {0} };

    ghost may = { λ name items. Unit {0} };

    ghost refused = { λ w. Unit {0} };

    ghost tells = { λ name took gave w s. tt };

    ghost may_none = { λ name. tt };

    ghost may_less = { λ name a b m. tt };

    fn work(&mut self, _alloc: Global, _item: u32, _outs: &mut Vec<u32>) -> Result<(), AllocError> {
        self.gate.take();
        Ok(())
    }
}
