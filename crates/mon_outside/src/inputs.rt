//! Files that can be opened and read.

ghost use Rattle.std.specs.Prelude.{◌≡◌, ℕ, ◌<◌, ◌≤◌, List, Bool, [], ◌∷◌, length, is_ok, IsTrue, IfOk, OnOk, OnErr};
ghost use Rattle.std.specs.declared.option.Option.{Option};
ghost use Rattle.mon_outside.specs.Causes.{HasCause};
ghost use Rattle.mon_outside.specs.Files.{Files};
ghost use Rattle.mon_outside.specs.Inputs.{Name, Opens, Moves, asked_more};

use crate::Failed;

/// Files by their names, of which at most one is open.
pub trait Inputs {
    /// The files, where they are told.
    ghost files: { Self → Option Files };

    /// What is left of the open file, where it is told.
    ghost rest: { Self → Option (List ℕ) };

    /// Whether a file is open.
    ghost is_open: { Self → Bool };

    /// The names that `open` was asked for so far, in order, where they are told.
    ghost asked: { Self → Option (List Name) };

    /// How often a call has failed. It never falls.
    ghost faults: { Self → ℕ };

    /// Opens the file of this name at its start, after closing the one that was open. A name that no
    /// file has may fail, or open a file without bytes.
    fn open(&mut self, name: &str) -> Result<(), Failed>
        ensures files { files self.new ≡ files self.old }
        ensures opens { OnOk result (Opens (files self.old) name.now (rest self.new)) }
        ensures opened { is_open self.new ≡ is_ok result }
        ensures asks { asked self.new ≡ asked_more (asked self.old) (name.now ∷ []) }
        ensures cause { HasCause (faults self.old) (faults self.new) result };

    /// Moves the next bytes of the open file to the front of the buffer, and answers how many: 0 is the
    /// file's end.
    fn read(&mut self, buffer: &mut [u8]) -> Result<usize, Failed>
        requires room { 0 < length buffer.old }
        requires opened { IsTrue (is_open self.old) }
        ensures files { files self.new ≡ files self.old }
        ensures stays_open { is_open self.new ≡ is_open self.old }
        ensures asks_nothing { asked self.new ≡ asked self.old }
        ensures within { IfOk result (λ count. count ≤ length buffer.new) }
        ensures moves { IfOk result (Moves (rest self.old) (rest self.new) buffer.new) }
        ensures failed { OnErr result (rest self.new ≡ rest self.old) }
        ensures cause { HasCause (faults self.old) (faults self.new) result };
}
