//! How many items each worker was handed that were not collected.
ghost use Rattle.std.specs.Prelude.{◌≡◌, ◌≤◌, ◌+◌, IfOk, length, cond, get_or, nat_eq, ℕ};
ghost use Rattle.std.specs.List.{list_all};

use std::alloc::AllocError;

/// Adds counts of 0 until there are so many.
pub(crate) fn grow_counts(counts: &mut Vec<u64>, len: usize) -> Result<(), AllocError>
    requires { length counts.old.items ≤ len }
    ensures len { IfOk result (λ _. length counts.new.items ≡ len) }
    ensures same { IfOk result (λ _. (q : ℕ) → get_or counts.new.items q 0 ≡ get_or counts.old.items q 0) }
{
    for _ in counts.len()..len {
        counts.push(0)?;
    }
    Ok(())
}

/// Counts so many more for the worker.
pub(crate) fn raise(counts: &mut Vec<u64>, worker: u32, more: u64) -> Result<(), AllocError>
    ensures len { IfOk result (λ _. length counts.new.items ≡ length counts.old.items) }
    ensures more { IfOk result (λ _. (q : ℕ) → get_or counts.new.items q 0
        ≡ get_or counts.old.items q 0 + cond (nat_eq q worker) more 0) }
{
    if worker as usize >= counts.len() {
        return Err(AllocError);
    }
    let count = counts[worker as usize];
    counts[worker as usize] = count.checked_add(more).ok_or(AllocError)?;
    Ok(())
}

/// Counts so many less for the worker. Of one that has no count nothing is outstanding.
pub(crate) fn lower(counts: &mut Vec<u64>, worker: u32, less: u64)
    requires { less ≤ get_or counts.old.items worker 0 }
    ensures len { length counts.new.items ≡ length counts.old.items }
    ensures less { (q : ℕ) → get_or counts.new.items q 0 + cond (nat_eq q worker) less 0 ≡ get_or counts.old.items q 0 }
{
    if worker as usize >= counts.len() {
        return;
    }
    let count = counts[worker as usize];
    counts[worker as usize] = count - less;
}

/// Whether no worker has anything that was not collected.
pub(crate) fn none_outstanding(counts: &[u64]) -> bool
    ensures { result ≡ list_all (nat_eq 0) counts.now }
{
    counts.iter().all(|count| 0 == *count)
}
