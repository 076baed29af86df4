//! Timestamps that are read without cutting tokens.
ghost use Rattle.std.specs.Prelude.{◌≡◌};
ghost use Rattle.log_reader.specs.declared.stage.Stage.TheVariants.{AfterAt};
ghost use Rattle.log_reader.specs.Quick.{TakesStamp};

use crate::partial::Partial;
use crate::short_numbers::number_before;
use crate::stage::Stage;

impl<'a> Partial<'a> {
    /// Takes a timestamp of few digits straight from bytes, where one may stand there, and answers how many bytes it
    /// has. It does what the token would do.
    pub fn take_stamp(&mut self, at: usize, bytes: &[u8]) -> Option<usize>
        ensures { TakesStamp self.old at bytes.now result self.new }
    {
        match self.stage {
            Stage::AfterAt => self.stamp_straight(at, bytes),
            _ => None,
        }
    }

    fn stamp_straight(&mut self, _at: usize, bytes: &[u8]) -> Option<usize>
        requires { self.old.stage ≡ AfterAt }
        ensures { TakesStamp self.old _at bytes.now result self.new }
    {
        match number_before(bytes) {
            Some((time, count)) if time >= self.time => {
                self.stage = Stage::AfterStamp;
                self.time = time;
                Some(count)
            }
            _ => None,
        }
    }
}
