//! A queue that keeps two items in place, and takes memory only for more.
#![tactic(auto)]

ghost use Rattle.std.specs.Prelude.{◌≡◌, ◌==◌, ◌-◌, ◌<◌, ◌∷◌, ◌++◌, [], IfOk, OnErr, OnOk, MatchOption, drop};
ghost use Rattle.std.specs.Prelude.{length, slice_index_or};

use std::alloc::{AllocError, Global};
use std::collections::VecDeque;
use std::marker::Model;

// Most queues have one item or two, which take no memory beside the queue. A deque stays once there is one, so that a
// queue that is emptied and filled again and again takes memory once.
#[derive(Drop)]
enum Held<T> {
    Zero,
    One(T),
    Two(T, T),
    Many(Box<VecDeque<T>>),
}

/// Up to two items stand in place, in a word more than their own, and more take memory beside the queue.
#[derive(Drop)]
pub struct ShortQueue<T> {
    held: Held<T>,
}

impl<T> Model for ShortQueue<T> {
    ghost use Rattle.std.specs.Prelude.{List};
    ghost use Rattle.short_queue.specs.HeldItems.{held_items};

    ghost Value = { List T };

    ghost view = { λ q. held_items q.held };
}

// Three items, in a box.
fn three<T: Copy + Drop>(
    alloc: Global,
    first: T,
    second: T,
    third: T,
) -> Result<Box<VecDeque<T>>, AllocError>
    ensures { IfOk result (λ items. items.value.items ≡ first ∷ second ∷ third ∷ []) }
{
    let mut items = VecDeque::with_capacity(alloc, 4)?;
    items.push_back(first)?;
    items.push_back(second)?;
    items.push_back(third)?;
    Ok(Box::new(alloc, items)?)
}

impl<T: Copy + Drop> ShortQueue<T> {
    pub fn new() -> Self
        ensures { result ≡ [] }
    {
        ShortQueue { held: Held::Zero }
    }

    /// The items of a list. More than two stay in the list's memory.
    pub fn from_vec(alloc: Global, items: Vec<T>) -> Result<Self, AllocError>
        ensures { IfOk result (λ queue. queue ≡ items.items) }
    {
        let held = match items.as_slice() {
            [] => Held::Zero,
            [item] => Held::One(*item),
            [first, second] => Held::Two(*first, *second),
            _ => Held::Many(Box::new(alloc, VecDeque::from_vec(items))?),
        };
        Ok(ShortQueue { held })
    }

    pub fn len(&self) -> usize
        ensures { result ≡ length self.now }
    {
        match &self.held {
            Held::Zero => 0,
            Held::One(_) => 1,
            Held::Two(_, _) => 2,
            Held::Many(items) => items.len(),
        }
    }

    pub fn is_empty(&self) -> bool
        ensures { result ≡ (length self.now == 0) }
    {
        match &self.held {
            Held::Zero => true,
            Held::One(_) | Held::Two(_, _) => false,
            Held::Many(items) => items.is_empty(),
        }
    }

    /// The first item, if there is one.
    pub fn front(&self) -> Option<T>
        ensures { MatchOption result (self.now ≡ []) (λ item. self.now ≡ item ∷ drop 1 self.now) }
    {
        match &self.held {
            Held::Zero => None,
            Held::One(first) | Held::Two(first, _) => Some(*first),
            Held::Many(items) => items.front().copied(),
        }
    }

    /// The last item, if there is one.
    pub fn back(&self) -> Option<T>
        ensures { MatchOption result (self.now ≡ []) (λ item.
            (0 < length self.now) × (item ≡ slice_index_or self.now (length self.now - 1) item)) }
    {
        match &self.held {
            Held::Zero => None,
            Held::One(last) | Held::Two(_, last) => Some(*last),
            Held::Many(items) => items.back().copied(),
        }
    }

    pub fn get(&self, place: usize) -> T
        requires { place < length self.now }
        ensures { result ≡ slice_index_or self.now place result }
    {
        match &self.held {
            Held::Zero => unreachable!(),
            Held::One(item) => *item,
            Held::Two(first, _) if place == 0 => *first,
            Held::Two(_, last) => *last,
            Held::Many(items) => items[place],
        }
    }

    /// One item more, behind the others.
    pub fn push_back(&mut self, alloc: Global, item: T) -> Result<(), AllocError>
        ensures items { OnOk result (self.new ≡ self.old ++ item ∷ []) }
        ensures err { OnErr result (self.new ≡ self.old) }
    {
        let held = match &mut self.held {
            Held::Zero => Held::One(item),
            Held::One(first) => Held::Two(*first, item),
            Held::Two(first, second) => Held::Many(three(alloc, *first, *second, item)?),
            Held::Many(items) => return Ok(items.push_back(item)?),
        };
        self.held = held;
        Ok(())
    }

    /// Drops the first item.
    pub fn pop_front(&mut self)
        ensures rest { self.new ≡ drop 1 self.old }
    {
        match &mut self.held {
            Held::Zero | Held::One(_) => self.held = Held::Zero,
            Held::Two(_, last) => self.held = Held::One(*last),
            Held::Many(items) => {
                items.pop_front();
            }
        }
    }

    /// The items, copied.
    pub fn to_vec(&self, alloc: Global) -> Result<Vec<T>, AllocError>
        ensures { IfOk result (λ copy. copy.items ≡ self.now) }
    {
        let mut copy = Vec::with_capacity(alloc, self.len())?;
        for place in 0..self.len() {
            copy.push(self.get(place))?;
        }
        Ok(copy)
    }
}
