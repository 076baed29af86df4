//! Lists for workers, one for each.
ghost use Rattle.std.specs.Prelude.{◌≡◌, [], IfOk, OnOk, length, map, replicate};
ghost use Rattle.std.specs.List.{zip};
ghost use Rattle.state_split.specs.Shares.{each_longer};

use std::alloc::{AllocError, Global};

/// So many lists without elements.
pub(crate) fn empty_shares<T: Drop>(alloc: Global, count: u32) -> Result<Vec<Vec<T>>, AllocError>
    ensures { IfOk result (λ shares. map (λ s. s.items) shares.items ≡ replicate count []) }
{
    let mut shares = Vec::with_capacity(alloc, count as usize)?;
    for _ in 0..count {
        shares.push(Vec::new(alloc))?;
    }
    Ok(shares)
}

/// So many copies of the list.
pub(crate) fn copies<T: Copy>(
    alloc: Global,
    list: &[T],
    count: u32,
) -> Result<Vec<Vec<T>>, AllocError>
    ensures { IfOk result (λ copies. map (λ c. c.items) copies.items ≡ replicate count list.now) }
{
    let mut copies = Vec::with_capacity(alloc, count as usize)?;
    for _ in 0..count {
        copies.push(Vec::from_slice(alloc, list)?)?;
    }
    Ok(copies)
}

/// Puts an element behind those in each of the lists.
pub(crate) fn lengthen<T: Drop>(shares: &mut Vec<Vec<T>>, added: Vec<T>) -> Result<(), AllocError>
    requires { length added.items ≡ length shares.old.items }
    ensures { OnOk result
        (map (λ s. s.items) shares.new.items ≡ each_longer (map (λ s. s.items) shares.old.items) added.items) }
{
    let mut added = added.into_iter();
    for at in 0..shares.len() {
        let Some(element) = added.next() else {
            unreachable!();
        };
        shares[at].push(element)?;
    }
    Ok(())
}

/// Each element of the first list with that of the second.
pub(crate) fn paired<A: Drop, B: Drop>(
    alloc: Global,
    first: Vec<A>,
    second: Vec<B>,
) -> Result<Vec<(A, B)>, AllocError>
    ensures { IfOk result (λ pairs. pairs.items ≡ zip first.items second.items) }
{
    first.into_iter().zip(second).collect(alloc)
}
