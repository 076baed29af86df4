//! Rows dealt among workers, by one walk through them.
ghost use Rattle.std.specs.Prelude.{◌≡◌, ◌≤◌, IfOk, OnOk, filter, length, map};
ghost use Rattle.slice_strategy.specs.Limits.{max_workers};
ghost use Rattle.slice_strategy.specs.Sharing.{given_to};
ghost use Rattle.state_split.specs.Shares.{OneEach, with_last};
ghost use Rattle.state_split.specs.Sieves.{is_kept};

use crate::kept::Kept;
use crate::shares::empty_shares;
use crate::sorter::Sorter;
use std::alloc::{AllocError, Global};

// Puts a copy of the row behind those in the share.
fn give_copy<K: Kept>(alloc: Global, kept: &K, share: &mut Vec<K>) -> Result<(), AllocError>
    ensures { OnOk result
        (map K.told share.new.items ≡ with_last (K.told kept.now) (map K.told share.old.items)) }
{
    share.push(kept.copied(alloc)?)?;
    Ok(())
}

// Puts the row into the shares of the workers that it goes to: itself into the last, copies into the others.
fn hand_out<S: Sorter, K: Kept>(
    alloc: Global,
    sorter: &S,
    columns: &[u32],
    kept: K,
    shares: &mut Vec<Vec<K>>,
) -> Result<(), AllocError>
    requires can { S.tells sorter.now }
    requires each { length shares.old.items ≡ S.count sorter.now }
    requires few { S.count sorter.now ≤ max_workers }
    ensures { OnOk result (map (λ s. map K.told s.items) shares.new.items
        ≡ given_to (with_last (K.told kept))
        (λ k. is_kept (S.region sorter.now k) columns.now (K.row_of (K.told kept))) 0
        (map (λ s. map K.told s.items) shares.old.items)) }
{
    let Some(first) = sorter.next_worker(0, columns, kept.row()) else {
        return Ok(());
    };
    let mut last = first;
    while let Some(next) = sorter.next_worker(last + 1, columns, kept.row()) {
        give_copy(alloc, &kept, &mut shares[last as usize])?;
        last = next;
    }
    shares[last as usize].push(kept)?;
    Ok(())
}

/// The rows over these columns that go to each worker. A row is copied for all but the last of those that it goes to.
pub(crate) fn dealt_rows<S: Sorter, K: Kept>(
    alloc: Global,
    sorter: &S,
    columns: &[u32],
    rows: Vec<K>,
) -> Result<Vec<Vec<K>>, AllocError>
    requires { S.tells sorter.now }
    ensures { IfOk result (λ shares. OneEach (S.count sorter.now) (λ k share. map K.told share.items
        ≡ filter (λ e. is_kept (S.region sorter.now k) columns.now (K.row_of e)) (map K.told rows.items))
        shares.items) }
{
    let workers = sorter.workers();
    let mut shares = empty_shares(alloc, workers)?;
    for kept in rows {
        hand_out(alloc, sorter, columns, kept, &mut shares)?;
    }
    Ok(shares)
}
