//! Texts and names.
ghost use Rattle.std.specs.Prelude.{◌≡◌, IfOk, length, refl};
ghost use Rattle.std.specs.Cmp.{eq_by_cmp_equiv, partial_equiv_from_equiv, partial_order_from_agreeing_total};
ghost use Rattle.std.specs.Ordering.{as_partial_cmp, eq_by_cmp};
ghost use Rattle.mfotl_model.specs.Hashes.{text_writes, texts_alike};
ghost use Rattle.mfotl_model.specs.Values.{text_cmp, text_total};

use crate::text_order::by_eights;
use smallvec::SmallVec;
use std::alloc::{AllocError, Global};
use std::cmp::Ordering;
use std::hash::{Hash, Hasher};
use std::marker::Model;
use std::sync::Arc;

// As many bytes stand in the memory that copies of a text share: a name, an address, an identifier of 36 characters.
const SHORT: usize = 40;

/// A text of a log or a policy: its bytes, without quotes. Copies of a text share them, and up to 40 bytes take
/// memory once.
#[derive(Debug, Drop)]
pub struct Text {
    bytes: Arc<SmallVec<u8, SHORT>>,
}

/// The name of a predicate or of a variable.
pub type Name = Text;

impl Model for Text {
    ghost use Rattle.std.specs.Arc.{arc_value};
    ghost use Rattle.std.specs.Prelude.{List, ℕ};

    ghost Value = { List ℕ };

    ghost view = { λ t. (arc_value t.bytes).items };
}

impl Text {
    pub fn from_slice(alloc: Global, bytes: &[u8]) -> Result<Self, AllocError>
        ensures { IfOk result (λ text. text ≡ bytes.now) }
    {
        let bytes = Arc::new(alloc, SmallVec::from_slice(alloc, bytes)?)?;
        Ok(Text { bytes })
    }

    pub fn as_bytes(&self) -> &[u8]
        ensures { result.now ≡ self.now }
    {
        self.bytes.as_slice()
    }

    pub fn copy(&self, _alloc: Global) -> Result<Self, AllocError>
        ensures { IfOk result (λ text. text ≡ self.now) }
    {
        let bytes = Arc::try_clone(&self.bytes)?;
        Ok(Text { bytes })
    }
}

// The order of two texts, byte by byte.
#[inline(never)]
fn by_bytes(left: &Text, right: &Text) -> Ordering
    ensures { result ≡ text_cmp left.now right.now }
{
    by_eights(left.as_bytes(), right.as_bytes())
}

impl PartialEq for Text {
    ghost eq = { eq_by_cmp text_cmp };

    ghost laws = { partial_equiv_from_equiv (eq_by_cmp_equiv text_total) };

    fn eq(&self, other: &Text) -> bool {
        self.cmp(other).is_eq()
    }
}

impl Eq for Text {
    ghost laws = { eq_by_cmp_equiv text_total };
}

impl PartialOrd for Text {
    ghost partial_cmp = { as_partial_cmp text_cmp };

    ghost laws = { partial_order_from_agreeing_total text_cmp text_total (λ x y. refl) (λ x y. refl) };

    fn partial_cmp(&self, other: &Text) -> Option<Ordering> {
        Some(self.cmp(other))
    }
}

impl Ord for Text {
    ghost cmp = { text_cmp };

    ghost total = { text_total };

    ghost matches_partial_cmp = { λ x y. refl };

    ghost matches_eq = { λ x y. refl };

    fn cmp(&self, other: &Text) -> Ordering {
        by_bytes(self, other)
    }
}

impl Hash for Text {
    ghost hash_input = { text_writes };

    ghost respects_eq = { texts_alike };

    fn hash<H: Hasher>(&self, state: &mut H) {
        state.write(self.as_bytes());
    }
}
