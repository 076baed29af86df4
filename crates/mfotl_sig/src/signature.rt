//! The predicates of a signature, found by name.
ghost use Rattle.std.specs.Prelude.{◌≡◌, ◌≢◌, ◌↔◌, ◌<◌, ◌^◌, List, [], map, length, All, Contains};
ghost use Rattle.std.specs.Prelude.{None, option_map, IsNone, IfSome, OnOk};
ghost use Rattle.std.specs.List.{AllByRecursion, find};
ghost use Rattle.std.specs.Option.{option_copied};
ghost use Rattle.std.specs.Str.{bytes_eq};
ghost use Rattle.indexmap.specs.IndexMap.{values};
ghost use Rattle.mfotl_sig.specs.Preds.{PredOf, pred_of, named, with_pred, KeyedByName};

use crate::pred::Pred;
use indexmap::IndexMap;
use mfotl_model::{Name, Sort};
use std::alloc::{AllocError, Global};
use std::marker::Model;

// A signature of so many predicates at most is looked through: that is cheaper than to hash a name.
const FEW: usize = 8;

// Names are short, so they are compared byte by byte.
fn is_same(name: &[u8], other: &[u8]) -> bool
    ensures { result ≡ bytes_eq name.now other.now }
{
    if name.len() != other.len() {
        return false;
    }
    for (i, b) in name.iter().enumerate() {
        if *b != other[i] {
            return false;
        }
    }
    true
}

fn first_named<'a>(preds: &'a IndexMap<Vec<u8>, Pred>, name: &[u8]) -> Option<&'a Pred>
    ensures { option_copied result ≡ find (λ p. bytes_eq name.now p.name) (values preds.now) }
{
    preds
        .values()
        .find(|pred| is_same(name, pred.name.as_bytes()))
}

/// The predicates of a signature, in the order of its text.
#[derive(Drop)]
pub struct Signature {
    preds: IndexMap<Vec<u8>, Pred>,
}

impl Model for Signature {
    ghost Value = { List PredOf };

    ghost view = { λ s. map (λ e. pred_of e.1) s.preds.entries };

    ghost invariant = { λ s. AllByRecursion KeyedByName s.preds.entries };
}

impl Signature {
    /// A signature without predicates.
    pub(crate) fn new(alloc: Global) -> Self
        ensures { result ≡ [] }
    {
        Signature {
            preds: IndexMap::new(alloc),
        }
    }

    /// How many predicates there are.
    pub(crate) fn len(&self) -> usize
        ensures { result ≡ length self.now }
    {
        self.preds.len()
    }

    /// The predicate of this name.
    pub fn find(&self, name: &[u8]) -> Option<&Pred>
        ensures found { option_map pred_of (option_copied result) ≡ named name.now self.now }
        ensures none { IsNone result ↔ All (λ p. p.name ≢ name.now) self.now }
        ensures name { IfSome result (λ p. p.now.name ≡ name.now) }
        ensures member { IfSome result (λ p. Contains self.now (pred_of p.now)) }
    {
        if self.preds.len() > FEW {
            self.preds.get(name)
        } else {
            first_named(&self.preds, name)
        }
    }

    /// Adds a predicate at the end, with the next number.
    pub(crate) fn add(
        &mut self,
        alloc: Global,
        name: &[u8],
        sorts: Vec<Sort>,
    ) -> Result<(), AllocError>
        requires absent { named name.now self.old ≡ None }
        requires room { length self.old < 2 ^ 32 }
        ensures { OnOk result (self.new ≡ with_pred self.old name.now sorts.items) }
    {
        let number = self.len() as u32;
        let key = Vec::from_slice(alloc, name)?;
        let text = Name::from_slice(alloc, name)?;
        let pred = Pred {
            number,
            name: text,
            sorts,
        };
        self.preds.insert(key, pred)?;
        Ok(())
    }
}
