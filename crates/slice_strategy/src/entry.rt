//! What is done with the values of one variable.
ghost use Rattle.std.specs.Prelude.{◌≡◌, ◌<◌, ◌%◌, ◌^◌, ◌-◌, IfOk, length, min, sum};
ghost use Rattle.std.specs.List.{filter};
ghost use Rattle.std.specs.Ordering.{int_cmp, is_le};
ghost use Rattle.mfotl_model.specs.Strategies.{parts_of, remainder, strategy_part, workers_of};
ghost use Rattle.slice_strategy.specs.Entries.{entries_of, entry_of};

use mfotl_model::{Text, Value};
use std::alloc::{AllocError, Global};

/// Into which parts the values of a variable are cut.
#[derive(Drop)]
pub enum Entry {
    /// All values are in one part.
    Uncut,
    /// Into so many parts, by the remainder of an integer, or of the sum of a text's bytes.
    Hash(u64),
    /// At each of these integers, which ascend: it belongs to the part above. Texts are all in part 0.
    Cut(Vec<i64>),
}

impl Entry {
    /// How many parts there are.
    pub fn parts(&self) -> u64
        ensures { result ≡ parts_of (entry_of self.now) }
    {
        match self {
            Entry::Uncut => 1,
            Entry::Hash(count) => *count,
            Entry::Cut(cuts) => cuts.len() as u64 + 1,
        }
    }

    /// The part that a value is in, counted from 0.
    pub fn part(&self, value: &Value) -> u64
        requires { 0 < parts_of (entry_of self.now) }
        ensures { result ≡ strategy_part (entry_of self.now) value.now }
    {
        match (self, value) {
            (Entry::Uncut, _) | (Entry::Cut(_), Value::Text(_)) => 0,
            (Entry::Hash(count), Value::Int(number)) => remainder(*number, *count),
            (Entry::Hash(count), Value::Text(text)) => byte_sum(text, *count),
            (Entry::Cut(cuts), Value::Int(number)) => cuts_up_to(cuts.as_slice(), *number),
        }
    }

    pub fn copy(&self, alloc: Global) -> Result<Self, AllocError>
        ensures { IfOk result (λ entry. entry_of entry ≡ entry_of self.now) }
    {
        match self {
            Entry::Uncut => Ok(Entry::Uncut),
            Entry::Hash(count) => Ok(Entry::Hash(*count)),
            Entry::Cut(cuts) => Ok(Entry::Cut(cuts.as_slice().to_vec(alloc)?)),
        }
    }
}

/// How many workers there are with these entries, or the greatest number if there are more.
pub fn count_workers(entries: &[Entry]) -> u64
    ensures { result ≡ min (workers_of (entries_of entries.now)) (2 ^ 64 - 1) }
{
    let mut workers = 1u64;
    for entry in entries {
        workers = workers.saturating_mul(entry.parts());
    }
    workers
}

// Of a negative integer too it is at least 0.
fn remainder(number: i64, count: u64) -> u64
    requires { 0 < count }
    ensures { result ≡ remainder number count }
{
    i128::from(number).rem_euclid(i128::from(count)) as u64
}

// The remainder of the sum of the bytes.
fn byte_sum(text: &Text, count: u64) -> u64
    requires { 0 < count }
    ensures { result ≡ sum text.now % count }
{
    let sum: u128 = text.as_bytes().iter().map(|byte| u128::from(*byte)).sum();
    (sum % u128::from(count)) as u64
}

// How many of the cuts the number has reached.
fn cuts_up_to(cuts: &[i64], number: i64) -> u64
    ensures { result ≡ length (filter (λ c. is_le (int_cmp c number)) cuts.now) }
{
    cuts.iter().filter(|cut| **cut <= number).count() as u64
}
