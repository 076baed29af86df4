//! The texts that were read not long ago. A log repeats names, users and hosts: where a text comes again, its value
//! shares the bytes of the one before.
ghost use Rattle.std.specs.Prelude.{◌≡◌, IfOk};
ghost use Rattle.std.specs.Str.{bytes_eq};

use mfotl_model::Text;
use std::alloc::{AllocError, Global};

// So many texts are kept at most.
const SLOTS: usize = 4_096;

// A longer text isn't kept.
const LONGEST: usize = 40;

// An odd number without a pattern in its bits: the golden ratio's.
const SPREAD: u64 = 0x9E37_79B9_7F4A_7C15;

// The first 12 of a mark's 32 bits tell the place.
const PLACE: u32 = 20;

// The place of one text. A text that comes twice while the one that has the place doesn't come takes it: so texts that
// never come again cost little more than their marks, and two that come in turn don't drive each other out. A value that
// no mark follows at once is read anew by its token: a text then counts as coming twice.
#[derive(Drop)]
struct Slot {
    // The mark of the last text that came since then and isn't kept.
    seen: u32,
    // The mark of the text.
    mark: u32,
    text: Option<Text>,
}

/// Texts that may come again. Which ones they are isn't seen in what is answered.
#[derive(Drop)]
pub(crate) struct RecentTexts {
    slots: Vec<Slot>,
}

// The number that few bytes write.
fn number_of(bytes: &[u8]) -> u64 {
    let mut number: u64 = 0;
    for b in bytes {
        number = number.wrapping_mul(256).wrapping_add(u64::from(*b));
    }
    number
}

// A number by which texts differ, most of the time, by their ends or by some bytes before. Names that end with the
// numbers up to one thousand lead to nearly as many places.
fn mark_of(bytes: &[u8]) -> u32 {
    let len = bytes.len();
    let number = match bytes {
        [first, .., a, b, c, d] => {
            u64::from_le_bytes([*a, *b, *c, *d, *first, bytes[len / 4], bytes[len / 2], 0])
        }
        _ => number_of(bytes),
    };
    (number.wrapping_mul(SPREAD) >> 32) as u32
}

// Texts of few bytes are compared byte by byte.
fn is_same(left: &[u8], right: &[u8]) -> bool
    ensures { result ≡ bytes_eq left.now right.now }
{
    if left.len() != right.len() {
        return false;
    }
    for (i, b) in left.iter().enumerate() {
        if *b != right[i] {
            return false;
        }
    }
    true
}

impl Slot {
    fn text(&mut self, alloc: Global, mark: u32, bytes: &[u8]) -> Result<Text, AllocError>
        ensures { IfOk result (λ text. text ≡ bytes.now) }
    {
        match &self.text {
            Some(text) if self.mark == mark && is_same(text.as_bytes(), bytes) => {
                self.seen = 0;
                text.copy(alloc)
            }
            _ => self.new_text(alloc, mark, bytes),
        }
    }

    fn new_text(&mut self, alloc: Global, mark: u32, bytes: &[u8]) -> Result<Text, AllocError>
        ensures { IfOk result (λ text. text ≡ bytes.now) }
    {
        let text = Text::from_slice(alloc, bytes)?;
        if self.seen == mark {
            self.text = Some(text.copy(alloc)?);
            self.mark = mark;
        }
        self.seen = mark;
        Ok(text)
    }
}

impl RecentTexts {
    /// None yet. It takes no memory.
    pub(crate) fn new(alloc: Global) -> Self {
        RecentTexts {
            slots: Vec::new(alloc),
        }
    }

    fn make_slots(&mut self) -> Result<(), AllocError> {
        self.slots.reserve_exact(SLOTS)?;
        for _ in 0..SLOTS {
            self.slots.push(Slot {
                seen: 0,
                mark: 0,
                text: None,
            })?;
        }
        Ok(())
    }

    /// The text of these bytes. The first one takes memory for the places of all.
    pub(crate) fn text(&mut self, alloc: Global, bytes: &[u8]) -> Result<Text, AllocError>
        ensures { IfOk result (λ text. text ≡ bytes.now) }
    {
        if bytes.len() > LONGEST {
            return Text::from_slice(alloc, bytes);
        }
        if self.slots.is_empty() {
            self.make_slots()?;
        }
        let mark = mark_of(bytes);
        match self.slots.get_mut((mark >> PLACE) as usize) {
            Some(slot) => slot.text(alloc, mark, bytes),
            None => Text::from_slice(alloc, bytes),
        }
    }
}
