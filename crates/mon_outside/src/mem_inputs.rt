//! Files in memory, for tests: they fail at the calls that they are told to fail at.

ghost use Rattle.std.specs.Prelude.{◌≡◌, ◌<◌, ◌≤◌, length, min, ◌||◌, is_ok, is_err, is_none, is_some, Some};
ghost use Rattle.std.specs.Prelude.{None, IfOk, IsTrue, OnOk, OnErr, IfSome};
ghost use Rattle.std.specs.Option.{option_copied};
ghost use Rattle.mon_outside.specs.Causes.{HasCause};
ghost use Rattle.mon_outside.specs.Files.{find_file};
ghost use Rattle.mon_outside.specs.Inputs.{Opens, Moves};
ghost use Rattle.mon_outside.specs.Memory.{as_files, fails_next, after_call};

use crate::failing_calls::Calls;
use crate::{Failed, Inputs};
use std::marker::Model;

/// A file in memory.
#[derive(Drop)]
pub struct NamedFile {
    pub name: String,
    pub bytes: Vec<u8>,
}

// The bytes of the first file of this name.
pub(crate) fn find_file<'a>(files: &'a [NamedFile], name: &str) -> Option<&'a [u8]>
    ensures { option_copied result ≡ find_file (as_files files.now) name.now }
{
    for file in files {
        if file.name.as_str() == name {
            return Some(file.bytes.as_slice());
        }
    }
    None
}

/// Files in memory, read in pieces.
#[derive(Drop)]
pub struct MemInputs<'a> {
    files: &'a [NamedFile],
    piece: usize,
    calls: Calls<'a>,
    rest: Option<&'a [u8]>,
}

impl<'a> Model for MemInputs<'a> {
    ghost use Rattle.std.specs.Prelude.{◌<◌};
    ghost use Rattle.std.specs.Option.{option_copied};
    ghost use Rattle.mon_outside.specs.Memory.{as_files, MemoryFiles};

    ghost Value = { MemoryFiles };

    ghost view = { λ m.
        record { files = as_files m.files.now; piece = m.piece; plan = m.calls; rest = option_copied m.rest } };

    ghost invariant = { λ m. 0 < m.piece };
}

impl<'a> MemInputs<'a> {
    /// These files, of which at most `piece` bytes are given a read. The opens and reads whose numbers
    /// stand in `fail` fail, counted together from 0, and so does each opening of a name that no file
    /// has. Of two files of one name the first counts.
    pub fn new(files: &'a [NamedFile], piece: usize, fail: &'a [u64]) -> Self
        requires { 0 < piece }
        ensures { result ≡ record {
          files = as_files files.now;
          piece = piece;
          rest = None;
          plan = record { fail = fail.now; calls = 0; faults = 0 };
        } }
    {
        MemInputs {
            files,
            piece,
            calls: Calls::new(fail),
            rest: None,
        }
    }
}

impl Inputs for MemInputs<'_> {
    ghost files = { λ m. Some m.files };

    ghost rest = { λ m. m.rest };

    ghost is_open = { λ m. is_some m.rest };

    // Names would take memory, which a call that opens has none of.
    ghost asked = { λ _. None };

    ghost faults = { λ m. m.plan.faults };

    fn open(&mut self, name: &str) -> Result<(), Failed>
        ensures files { self.new.files ≡ self.old.files }
        ensures opens { OnOk result (Opens (Some self.old.files) name.now self.new.rest) }
        ensures opened { is_some self.new.rest ≡ is_ok result }
        ensures cause { HasCause self.old.plan.faults self.new.plan.faults result }
        ensures fails { is_err result
            ≡ (fails_next self.old.plan || is_none (find_file self.old.files name.now)) }
        ensures plan { self.new.plan ≡ after_call self.old.plan (is_err result) }
        ensures piece { self.new.piece ≡ self.old.piece }
    {
        let found = if self.calls.fails_next() {
            None
        } else {
            find_file(self.files, name)
        };
        self.rest = found;
        self.calls.count(found.is_none());
        match found {
            Some(_) => Ok(()),
            None => Err(Failed),
        }
    }

    fn read(&mut self, buffer: &mut [u8]) -> Result<usize, Failed>
        requires room { 0 < length buffer.old }
        requires opened { IsTrue (is_some self.old.rest) }
        ensures files { self.new.files ≡ self.old.files }
        ensures stays_open { is_some self.new.rest ≡ is_some self.old.rest }
        ensures within { IfOk result (λ count. count ≤ length buffer.new) }
        ensures moves { IfOk result (Moves self.old.rest self.new.rest buffer.new) }
        ensures failed { OnErr result (self.new.rest ≡ self.old.rest) }
        ensures cause { HasCause self.old.plan.faults self.new.plan.faults result }
        ensures fails { is_err result ≡ fails_next self.old.plan }
        ensures plan { self.new.plan ≡ after_call self.old.plan (is_err result) }
        ensures piece { self.new.piece ≡ self.old.piece }
        ensures pieces { IfOk result (λ count. IfSome self.old.rest (λ rest.
            count ≡ min self.old.piece (min (length buffer.old) (length rest)))) }
    {
        let fails = self.calls.fails_next();
        self.calls.count(fails);
        if fails {
            return Err(Failed);
        }
        let rest = self.rest.unwrap();
        let count = self.piece.min(buffer.len().min(rest.len()));
        buffer[..count].copy_from_slice(&rest[..count]);
        self.rest = Some(&rest[count..]);
        Ok(count)
    }
}
