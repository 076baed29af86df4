//! The order of texts by their bytes, eight at a time.
ghost use Rattle.std.specs.Prelude.{◌≡◌};
ghost use Rattle.mfotl_model.specs.Values.{text_cmp};

use std::cmp::Ordering;

// Eight bytes that are read as one number, the first byte as its greatest digit, compare as they do one by one.
pub(crate) fn by_eights(left: &[u8], right: &[u8]) -> Ordering
    ensures { result ≡ text_cmp left.now right.now }
{
    let (mut ours, mut theirs) = (left, right);
    while let (Some((front, rest)), Some((other, more))) = (
        ours.split_first_chunk::<8>(),
        theirs.split_first_chunk::<8>(),
    ) {
        match u64::from_be_bytes(*front).cmp(&u64::from_be_bytes(*other)) {
            Ordering::Equal => (ours, theirs) = (rest, more),
            unequal => return unequal,
        }
    }
    ours.cmp(theirs)
}
