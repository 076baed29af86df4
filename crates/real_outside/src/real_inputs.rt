//! The real files and standard input, about whose names and contents nothing is told.
ghost use Rattle.std.specs.Prelude.{◌≡◌, ◌<◌, ◌≤◌, None, codes, false, length, is_ok, IfOk, OnErr, OnOk, IsTrue};
ghost use Rattle.std.specs.Io.KnownBytes.{ReadConsumes};
ghost use Rattle.mon_outside.specs.Causes.{HasCause};
ghost use Rattle.std.specs.Str.{bytes_eq};
ghost use Rattle.mon_outside.specs.Inputs.{Moves, Opens};
ghost use Rattle.real_outside.specs.Real.{count_after, is_input, is_opened, rest_told, untold};

use crate::retrying::{one_more, read_some};
use mon_outside::{Failed, Inputs};
use std::fs;
use std::io::Read;
use std::rt::Files;

// What is open.
#[derive(Drop)]
enum Source<F: Drop> {
    Closed,
    Input,
    File(F),
}

/// Files by their paths, and standard input under the name `-`.
#[derive(Drop)]
pub struct RealInputs<'a, R: Files, S: Read + Drop> {
    rt: &'a R,
    input: S,
    source: Source<R::File>,
    failures: u64,
}

impl<'a, R: Files, S: Read + Drop> RealInputs<'a, R, S> {
    /// Nothing is open, and no call has failed. `input` is standard input, of which nothing is read here.
    pub fn new(rt: &'a R, input: S) -> Self
        ensures input { result.input ≡ input }
        ensures closed { is_opened result.source ≡ false }
        ensures unfailed { result.failures ≡ 0 }
    {
        RealInputs {
            rt,
            input,
            source: Source::Closed,
            failures: 0,
        }
    }

    // Reads of the open file or of standard input; of standard input nothing is read where a file is open.
    fn read_source(&mut self, buffer: &mut [u8]) -> Result<usize, Failed>
        requires opened { IsTrue (is_opened self.old.source) }
        ensures opened { is_opened self.new.source ≡ is_opened self.old.source }
        ensures same { is_input self.new.source ≡ is_input self.old.source }
        ensures apart { is_input self.old.source ≡ false → self.new.input ≡ self.old.input }
        ensures within { IfOk result (λ count. count ≤ length buffer.new) }
        ensures told { ReadConsumes
            (rest_told S.remaining R.File.remaining self.old.input self.old.source)
            (rest_told S.remaining R.File.remaining self.new.input self.new.source) result buffer.new }
        ensures failures { self.new.failures ≡ self.old.failures }
    {
        match &mut self.source {
            Source::Closed => unreachable!(),
            Source::Input => read_some(&mut self.input, buffer),
            Source::File(file) => read_some(file, buffer),
        }
    }
}

impl<R: Files, S: Read + Drop> Inputs for RealInputs<'_, R, S> {
    ghost files = { λ _. None };

    ghost rest = { untold };

    ghost is_open = { λ s. is_opened s.source };

    ghost asked = { λ _. None };

    ghost faults = { λ s. s.failures };

    // Beside what each input keeps to: standard input has the name `-`, and no file has. Nothing of it is read here.
    fn open(&mut self, name: &str) -> Result<(), Failed>
        ensures opens { OnOk result (Opens None name.now (untold self.new)) }
        ensures opened { is_opened self.new.source ≡ is_ok result }
        ensures input { IfOk result (λ _. is_input self.new.source ≡ bytes_eq name.now (codes "-")) }
        ensures unread { self.new.input ≡ self.old.input }
        ensures cause { HasCause self.old.failures self.new.failures result }
        ensures counted { self.new.failures ≡ count_after self.old.failures result }
    {
        if name == "-" {
            self.source = Source::Input;
            return Ok(());
        }
        match fs::open(self.rt, name) {
            Ok(file) => {
                self.source = Source::File(file);
                Ok(())
            }
            Err(_) => {
                self.source = Source::Closed;
                self.failures = one_more(self.failures);
                Err(Failed)
            }
        }
    }

    // Beside what each input keeps to: what the open file's reader tells is what was read, and of standard input
    // nothing is read where a file is open.
    fn read(&mut self, buffer: &mut [u8]) -> Result<usize, Failed>
        requires room { 0 < length buffer.old }
        requires opened { IsTrue (is_opened self.old.source) }
        ensures stays_open { is_opened self.new.source ≡ is_opened self.old.source }
        ensures same { is_input self.new.source ≡ is_input self.old.source }
        ensures apart { is_input self.old.source ≡ false → self.new.input ≡ self.old.input }
        ensures within { IfOk result (λ count. count ≤ length buffer.new) }
        ensures moves { IfOk result (Moves (untold self.old) (untold self.new) buffer.new) }
        ensures failed { OnErr result (untold self.new ≡ untold self.old) }
        ensures cause { HasCause self.old.failures self.new.failures result }
        ensures counted { self.new.failures ≡ count_after self.old.failures result }
        ensures told { ReadConsumes
            (rest_told S.remaining R.File.remaining self.old.input self.old.source)
            (rest_told S.remaining R.File.remaining self.new.input self.new.source) result buffer.new }
    {
        let read = self.read_source(buffer);
        if read.is_err() {
            self.failures = one_more(self.failures);
        }
        read
    }
}
