//! What main does beside the threads.
ghost use Rattle.std.specs.Prelude.{List};
ghost use Rattle.turn_hub.specs.declared.hub.Hand.{Hand};

use std::alloc::AllocError;
use turn_hub::{Hand, Work};

/// Something that main does while threads serve the hub.
pub trait MainTask<W: Work> {
    ghost use Rattle.std.specs.Prelude.{List};
    ghost use Rattle.turn_hub.specs.declared.hub.Hand.{Hand};

    /// What comes of it.
    type Answer: Drop;

    /// With these hands it can be done.
    ghost can: { Self → List (Hand W W.Item W.Out W.Seed) → Type 0 };

    /// What was before, the answer, and what is after.
    ghost did: { Self → Self.Answer → Self → Type 0 };

    /// Does it, with the hands that main serves itself. At an error of `ready` there was no memory for the threads.
    fn run(&mut self, ready: Result<(), AllocError>, own: &mut Vec<Hand<W>>) -> Self::Answer
        requires { can self.old own.old.items }
        ensures { did self.old result self.new };
}
