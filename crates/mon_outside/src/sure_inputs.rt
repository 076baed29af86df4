//! Files in memory of which no call fails, for a run that has no outside.

ghost use Rattle.std.specs.Prelude.{◌≡◌, ◌<◌, ◌≤◌, length, min, is_ok, is_some, Some, None, IfOk, IsOk};
ghost use Rattle.std.specs.Prelude.{IsTrue, OnOk, OnErr, IfSome};
ghost use Rattle.mon_outside.specs.Causes.{HasCause};
ghost use Rattle.mon_outside.specs.Files.{content};
ghost use Rattle.mon_outside.specs.Inputs.{Opens, Moves};
ghost use Rattle.mon_outside.specs.Memory.{as_files};

use crate::mem_inputs::find_file;
use crate::{Failed, Inputs, NamedFile};
use std::marker::Model;

/// Files in memory, read in pieces. Every call succeeds: a name that no file has opens a file without bytes.
#[derive(Drop)]
pub struct SureInputs<'a> {
    files: &'a [NamedFile],
    piece: usize,
    rest: Option<&'a [u8]>,
}

impl<'a> Model for SureInputs<'a> {
    ghost use Rattle.std.specs.Prelude.{◌<◌};
    ghost use Rattle.std.specs.Option.{option_copied};
    ghost use Rattle.mon_outside.specs.Memory.{as_files, SureFiles};

    ghost Value = { SureFiles };

    ghost view = { λ s. record { files = as_files s.files.now; piece = s.piece; rest = option_copied s.rest } };

    ghost invariant = { λ s. 0 < s.piece };
}

impl<'a> SureInputs<'a> {
    /// These files, of which at most `piece` bytes are given a read. Of two files of one name the first
    /// counts.
    pub fn new(files: &'a [NamedFile], piece: usize) -> Self
        requires { 0 < piece }
        ensures { result ≡ record { files = as_files files.now; piece = piece; rest = None } }
    {
        SureInputs {
            files,
            piece,
            rest: None,
        }
    }
}

impl Inputs for SureInputs<'_> {
    ghost files = { λ s. Some s.files };

    ghost rest = { λ s. s.rest };

    ghost is_open = { λ s. is_some s.rest };

    // Names would take memory, which a call that opens has none of.
    ghost asked = { λ _. None };

    ghost faults = { λ _. 0 };

    fn open(&mut self, name: &str) -> Result<(), Failed>
        ensures files { self.new.files ≡ self.old.files }
        ensures opens { OnOk result (Opens (Some self.old.files) name.now self.new.rest) }
        ensures opened { is_some self.new.rest ≡ is_ok result }
        ensures cause { HasCause 0 0 result }
        ensures ok { IsOk result }
        ensures rest { self.new.rest ≡ Some (content self.old.files name.now) }
        ensures piece { self.new.piece ≡ self.old.piece }
    {
        self.rest = Some(find_file(self.files, name).unwrap_or(&[]));
        Ok(())
    }

    fn read(&mut self, buffer: &mut [u8]) -> Result<usize, Failed>
        requires room { 0 < length buffer.old }
        requires opened { IsTrue (is_some self.old.rest) }
        ensures files { self.new.files ≡ self.old.files }
        ensures stays_open { is_some self.new.rest ≡ is_some self.old.rest }
        ensures within { IfOk result (λ count. count ≤ length buffer.new) }
        ensures moves { IfOk result (Moves self.old.rest self.new.rest buffer.new) }
        ensures failed { OnErr result (self.new.rest ≡ self.old.rest) }
        ensures cause { HasCause 0 0 result }
        ensures ok { IsOk result }
        ensures piece { self.new.piece ≡ self.old.piece }
        ensures pieces { IfOk result (λ count. IfSome self.old.rest (λ rest.
            count ≡ min self.old.piece (min (length buffer.old) (length rest)))) }
    {
        let rest = self.rest.unwrap();
        let count = self.piece.min(buffer.len().min(rest.len()));
        buffer[..count].copy_from_slice(&rest[..count]);
        self.rest = Some(&rest[count..]);
        Ok(count)
    }
}
