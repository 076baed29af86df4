//! How hands are dealt to threads.
ghost use Rattle.std.specs.Prelude.{◌≡◌, ◌<◌, [], IfOk, length};
ghost use Rattle.turn_hub.specs.declared.hub.Hub.{Hub};
ghost use Rattle.hub_threads.specs.Bells.{bell_count};
ghost use Rattle.hub_threads.specs.Hands.{AreDealt, AreGroupsOf, AreHandsOf, cells_of, dealt, group_cells};

use crate::bells::Bells;
use std::alloc::{AllocError, Global};
use turn_hub::{Hand, Work};

// So many groups without hands.
fn empty_groups<W: Work>(alloc: Global, count: usize) -> Result<Vec<Vec<Hand<W>>>, AllocError>
    ensures count { IfOk result (λ groups. length groups.items ≡ count) }
    ensures none { IfOk result (λ groups. group_cells groups.items ≡ dealt count []) }
    ensures hands { IfOk result (λ groups. (hub : Hub W W.Item W.Out W.Seed) → AreGroupsOf hub groups.items) }
{
    let mut groups = Vec::new(alloc);
    for _ in 0..count {
        groups.push(Vec::new(alloc))?;
    }
    Ok(groups)
}

// Deals the hands to so many groups, one after the other.
fn deal_round<W: Work>(
    alloc: Global,
    hands: Vec<Hand<W>>,
    count: usize,
) -> Result<Vec<Vec<Hand<W>>>, AllocError>
    requires { 0 < count }
    ensures dealt { IfOk result (λ groups. group_cells groups.items ≡ dealt count (cells_of hands.items)) }
    ensures hands { IfOk result (λ groups.
        (hub : Hub W W.Item W.Out W.Seed) → AreHandsOf hub hands.items → AreGroupsOf hub groups.items) }
{
    let total = hands.len();
    let mut groups = empty_groups(alloc, count)?;
    let mut left = hands.into_iter();
    for k in 0..total {
        let Some(hand) = left.next() else { break };
        groups[k % count].push(hand)?;
    }
    Ok(groups)
}

// The hands in groups for at most so many threads, and those that main serves: all of them where there is no thread.
// Thread t has the hands k with k mod threads = t, and none is without a hand.
fn deal<W: Work>(
    alloc: Global,
    hands: Vec<Hand<W>>,
    threads: u32,
) -> Result<(Vec<Vec<Hand<W>>>, Vec<Hand<W>>), AllocError>
    ensures dealt { IfOk result (λ r. AreDealt (cells_of hands.items) threads r.0.items r.1.items) }
    ensures groups { IfOk result (λ r.
        (hub : Hub W W.Item W.Out W.Seed) → AreHandsOf hub hands.items → AreGroupsOf hub r.0.items) }
    ensures own { IfOk result (λ r.
        (hub : Hub W W.Item W.Out W.Seed) → AreHandsOf hub hands.items → AreHandsOf hub r.1.items) }
{
    let count = hands.len().min(threads as usize);
    if count == 0 {
        return Ok((Vec::new(alloc), hands));
    }
    let groups = deal_round(alloc, hands, count)?;
    Ok((groups, Vec::new(alloc)))
}

/// The hands in groups for at most so many threads, those that main serves, and a bell for each group's thread. Hand k
/// goes to thread k mod threads, and no group is without a hand; main's are all of them where there is no thread. An
/// error is that of refused memory, and the hands are let go.
pub fn deal_with_bells<W: Work>(
    alloc: Global,
    hands: Vec<Hand<W>>,
    threads: u32,
) -> Result<(Vec<Vec<Hand<W>>>, Vec<Hand<W>>, Bells), AllocError>
    ensures dealt { IfOk result (λ r. AreDealt (cells_of hands.items) threads r.0.items r.1.items) }
    ensures groups { IfOk result (λ r.
        (hub : Hub W W.Item W.Out W.Seed) → AreHandsOf hub hands.items → AreGroupsOf hub r.0.items) }
    ensures own { IfOk result (λ r.
        (hub : Hub W W.Item W.Out W.Seed) → AreHandsOf hub hands.items → AreHandsOf hub r.1.items) }
    ensures bells { IfOk result (λ r. bell_count r.2 ≡ length r.0.items) }
{
    let (groups, own) = deal(alloc, hands, threads)?;
    let bells = Bells::new(alloc, groups.len())?;
    Ok((groups, own, bells))
}
