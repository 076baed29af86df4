//! Two lists, each in the order of its keys, walked side by side.
ghost use Rattle.std.specs.Prelude.{◌≡◌, ◌++◌, [], IfNone, IfOk, OnOk, Some, map, option_to_list};
ghost use Rattle.std.specs.List.{AllByRecursion};
ghost use Rattle.std.specs.declared.cmp.Ordering.TheVariants.{Equal};
ghost use Rattle.state_merge.specs.Pairs.{IsStep, order_of_firsts, walked};

use std::alloc::{AllocError, Global};
use std::cmp::Ordering;
use std::collections::VecDeque;

/// What stands in a list by its key.
pub(crate) trait Keyed: Drop + Sized {
    ghost use Rattle.std.specs.declared.cmp.Ordering.{Ordering};

    /// What uniting two depends on besides them.
    type Limit: Copy;

    // what there is to tell of it
    ghost Told: { Type 0 };

    ghost told: { Self → Told };

    // the order of the keys
    ghost order: { Self → Self → Ordering };

    // holds of those that can be united
    ghost fits: { Self → Type 0 };

    // what there is to tell of two for one key, united
    ghost both: { Self.Limit → Self → Self → Told };

    fn order(&self, other: &Self) -> Ordering
        ensures { result ≡ order self.now other.now };

    /// What both, which are for one key, come to.
    fn united(self, alloc: Global, limit: Self::Limit, other: Self) -> Result<Self, AllocError>
        requires first { fits self }
        requires second { fits other }
        ensures { IfOk result (λ one. told one ≡ both limit self other) };
}

// Which of the first ones comes first. One that stands alone does.
fn order_of_firsts<K: Keyed>(first: &VecDeque<K>, second: &VecDeque<K>) -> Ordering
    ensures { result ≡ order_of_firsts K.order first.now.items second.now.items }
{
    match (first.front(), second.front()) {
        (Some(one), Some(other)) => one.order(other),
        (None, Some(_)) => Ordering::Greater,
        (_, None) => Ordering::Less,
    }
}

fn take_first<K: Drop>(list: &mut VecDeque<K>) -> Option<K>
    ensures first { list.old.items ≡ option_to_list result ++ list.new.items }
    ensures none { IfNone result (list.old.items ≡ []) }
{
    list.pop_front()
}

// Takes the first one of each list, for one key, as what both come to.
fn take_both<K: Keyed>(
    alloc: Global,
    limit: K::Limit,
    first: &mut VecDeque<K>,
    second: &mut VecDeque<K>,
) -> Result<K, AllocError>
    requires first { AllByRecursion K.fits first.old.items }
    requires second { AllByRecursion K.fits second.old.items }
    requires same { order_of_firsts K.order first.old.items second.old.items ≡ Equal }
    ensures first { OnOk result (AllByRecursion K.fits first.new.items) }
    ensures second { OnOk result (AllByRecursion K.fits second.new.items) }
    ensures step { IfOk result (λ both. IsStep K.order K.told (K.both limit)
        first.old.items second.old.items (Some both) first.new.items second.new.items) }
{
    let Some((one, other)) = take_first(first).zip(take_first(second)) else {
        unreachable!();
    };
    one.united(alloc, limit, other)
}

// Takes the one that comes next by the keys. For two of one key that is what both come to.
fn take_next<K: Keyed>(
    alloc: Global,
    limit: K::Limit,
    first: &mut VecDeque<K>,
    second: &mut VecDeque<K>,
) -> Result<Option<K>, AllocError>
    requires first { AllByRecursion K.fits first.old.items }
    requires second { AllByRecursion K.fits second.old.items }
    ensures first { OnOk result (AllByRecursion K.fits first.new.items) }
    ensures second { OnOk result (AllByRecursion K.fits second.new.items) }
    ensures step { IfOk result (λ next. IsStep K.order K.told (K.both limit)
        first.old.items second.old.items next first.new.items second.new.items) }
{
    match order_of_firsts(first, second) {
        Ordering::Less => Ok(take_first(first)),
        Ordering::Equal => Ok(Some(take_both(alloc, limit, first, second)?)),
        Ordering::Greater => Ok(take_first(second)),
    }
}

// Puts behind what is there, for each key, what both have for it.
fn push_joined<K: Keyed>(
    alloc: Global,
    limit: K::Limit,
    all: &mut Vec<K>,
    first: Vec<K>,
    second: Vec<K>,
) -> Result<(), AllocError>
    requires first { AllByRecursion K.fits first.items }
    requires second { AllByRecursion K.fits second.items }
    ensures { OnOk result (map K.told all.new.items ≡ map K.told all.old.items
        ++ walked K.order K.told (K.both limit) first.items second.items) }
{
    let mut ones = VecDeque::from_vec(first);
    let mut others = VecDeque::from_vec(second);
    while let Some(next) = take_next(alloc, limit, &mut ones, &mut others)? {
        all.push(next)?;
    }
    Ok(())
}

/// For each key what both have for it, by one walk over the two lists.
pub(crate) fn joined<K: Keyed>(
    alloc: Global,
    limit: K::Limit,
    first: Vec<K>,
    second: Vec<K>,
) -> Result<Vec<K>, AllocError>
    requires first { AllByRecursion K.fits first.items }
    requires second { AllByRecursion K.fits second.items }
    ensures { IfOk result (λ all. map K.told all.items
        ≡ walked K.order K.told (K.both limit) first.items second.items) }
{
    let mut all = Vec::with_capacity(alloc, first.len())?;
    push_joined(alloc, limit, &mut all, first, second)?;
    Ok(all)
}
