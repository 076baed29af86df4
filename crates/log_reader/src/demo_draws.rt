//! Numbers that look as if drawn by chance, and are the same at each run.

ghost use Rattle.std.specs.Prelude.{◌≡◌, ◌<◌};
ghost use Rattle.log_reader.specs.DemoDraws.{drawn, moved_on};

const FACTOR: u64 = 6_364_136_223_846_793_005;

const STEP: u64 = 1_442_695_040_888_963_407;

// So many low bits of the state are not drawn.
const LOW_BITS: u32 = 33;

/// A source of numbers, by its state.
#[derive(Clone, Copy)]
pub struct Draws {
    pub state: u64,
}

impl Draws {
    /// The next number, below the limit.
    pub fn below(&mut self, limit: u64) -> u64
        requires { 0 < limit }
        ensures state { self.new.state ≡ moved_on self.old.state }
        ensures drawn { result ≡ drawn limit self.old.state }
        ensures below { result < limit }
    {
        self.state = self.state.wrapping_mul(FACTOR).wrapping_add(STEP);
        (self.state >> LOW_BITS) % limit
    }
}
