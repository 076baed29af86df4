//! The words of a line.
ghost use Rattle.std.specs.Prelude.{◌≡◌, ◌∷◌, [], IfOk, MatchOption, OnOk};
ghost use Rattle.std.specs.Fmt.{decimal};

use crate::fault::CaseFault;
use std::alloc::{AllocError, Global};
use std::marker::Model;

/// The words of a line, read one by one.
#[derive(Drop)]
pub struct Words<'a> {
    words: &'a [&'a [u8]],
    at: usize,
}

/// The words of a line, each parted from the next by one space.
pub fn split_words<'a>(alloc: Global, line: &'a [u8]) -> Result<Vec<&'a [u8]>, AllocError> {
    line.split(|byte| *byte == b' ').collect(alloc)
}

impl<'a> Model for Words<'a> {
    ghost use Rattle.std.specs.Prelude.{List, ℕ, drop};
    ghost use Rattle.definitions_check.specs.Words.{texts};

    ghost Value = { List (List ℕ) };

    ghost view = { λ w. texts (drop w.at w.words.now) };
}

impl<'a> Words<'a> {
    ghost use Rattle.definitions_check.specs.Words.{texts};

    pub fn new(words: &'a [&'a [u8]]) -> Self
        ensures { result ≡ texts words.entry.now }
    {
        Words { words, at: 0 }
    }

    /// The next word, or `None` at the end.
    #[tactic(auto, using(std::proofs::lemmas::List::drop_all))]
    pub fn take(&mut self) -> Option<&'a [u8]>
        ensures { MatchOption result (self.old ≡ []) (λ word. self.old ≡ word.now ∷ self.new) }
    {
        match self.words.get(self.at) {
            Some(word) => {
                self.at += 1;
                Some(*word)
            }
            None => None,
        }
    }

    pub fn next(&mut self) -> Result<&'a [u8], CaseFault>
        ensures { IfOk result (λ word. self.old ≡ word.now ∷ self.new) }
    {
        match self.take() {
            Some(word) => Ok(word),
            None => Err(CaseFault::MissingWord),
        }
    }

    pub fn end(&mut self) -> Result<(), CaseFault>
        ensures { OnOk result (self.old ≡ []) }
    {
        match self.take() {
            Some(_) => Err(CaseFault::ExtraWord),
            None => Ok(()),
        }
    }
}

/// The number that a word writes in decimal digits, with no zero in front.
pub fn natural(alloc: Global, word: &[u8]) -> Result<u64, CaseFault>
    ensures { IfOk result (λ number. decimal number ≡ word.now) }
{
    let Ok(text) = str::from_utf8(word) else {
        return Err(CaseFault::Number);
    };
    let Ok(number) = text.parse::<u64>() else {
        return Err(CaseFault::Number);
    };
    let digits = number.to_string(alloc)?;
    if digits.as_bytes() == word {
        Ok(number)
    } else {
        Err(CaseFault::Number)
    }
}

/// The same within 32 bits.
pub fn small_natural(alloc: Global, word: &[u8]) -> Result<u32, CaseFault>
    ensures { IfOk result (λ number. decimal number ≡ word.now) }
{
    let number = natural(alloc, word)?;
    match u32::try_from(number) {
        Ok(small) => Ok(small),
        Err(_) => Err(CaseFault::Number),
    }
}
