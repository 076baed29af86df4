//! What a cell does with the items that it is handed.

ghost use Rattle.std.specs.Prelude.{◌≡◌, ◌++◌, List, [], ◌∷◌, IfErr, IfOk};
ghost use Rattle.turn_hub.specs.Work.{Takes, Leads};

use std::alloc::{AllocError, Global};

/// A value that takes items one by one, and gives outs for them.
pub trait Work: Drop {
    /// What it takes.
    type Item: Drop;

    /// What it gives.
    type Out: Drop;

    /// What is known of a work before it took anything.
    type Seed;

    /// The seed of a work that took nothing.
    ghost seed: { Self → Self.Seed };

    /// With this seed, after these items were taken and these outs given, this is what the work is.
    ghost stands: { Self.Seed → List Self.Item → List Self.Out → Self → Type 0 };

    /// With this seed, these outs may be the answer to these items.
    ghost told: { Self.Seed → List Self.Item → List Self.Out → Type 0 };

    /// With this seed, these items may be handed over in this order.
    ghost may: { Self.Seed → List Self.Item → Type 0 };

    /// This is what a work is once memory was refused to it: it is only dropped.
    ghost refused: { Self → Type 0 };

    /// Takes the item, and appends what it gives.
    fn work(
        &mut self,
        alloc: Global,
        item: Self::Item,
        outs: &mut Vec<Self::Out>,
    ) -> Result<(), AllocError>
        requires { Takes stands may self.old (item ∷ []) }
        ensures did { IfOk result (λ _. (gave : List Self.Out) × (outs.new.items ≡ outs.old.items ++ gave)
            × Leads stands may self.old (item ∷ []) self.new gave) }
        ensures failed { IfErr result (λ _. refused self.new) };

    /// What stands is told.
    ghost tells: { (s : Self.Seed) (t : List Self.Item) (g : List Self.Out) (w : Self) → stands s t g w → told s t g };

    /// Nothing may be handed over.
    ghost may_none: { (s : Self.Seed) → may s [] };

    /// A front of what may be handed over may be.
    ghost may_less: { (s : Self.Seed) (a b : List Self.Item) → may s (a ++ b) → may s a };
}
