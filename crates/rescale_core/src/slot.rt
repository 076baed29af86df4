//! What stands in a queue.
ghost use Rattle.std.specs.Prelude.{◌≡◌};
ghost use Rattle.rescale_core.specs.Slots.{ends_place, is_there, item_in, lacks, slot_filled, weight_of};

use rescale_worker::{BoxedPiece, BoxedStrategy, Item};

/// An item, or a piece that is awaited.
#[derive(Drop)]
pub(crate) enum Slot {
    /// An item that is there.
    Ready(Item),
    /// A piece of this generation, once it came, whose strategy is `now`. `last` is said of the last one of a place.
    Awaited {
        generation: u64,
        now: BoxedStrategy,
        last: bool,
        piece: Option<BoxedPiece>,
    },
}

impl Slot {
    /// Whether its item is there.
    pub(crate) fn is_there(&self) -> bool
        ensures { result ≡ is_there self.now }
    {
        match self {
            Slot::Ready(_) => true,
            Slot::Awaited { piece, .. } => piece.is_some(),
        }
    }

    /// Whether it is the last one of a place.
    pub(crate) fn ends_place(&self) -> bool
        ensures { result ≡ ends_place self.now }
    {
        match self {
            Slot::Ready(_) => false,
            Slot::Awaited { last, .. } => *last,
        }
    }

    /// Whether a piece of the generation is missing there.
    pub(crate) fn lacks(&self, generation: u64) -> bool
        ensures { result ≡ lacks generation self.now }
    {
        match self {
            Slot::Ready(_) => false,
            Slot::Awaited {
                generation: own,
                piece,
                ..
            } => *own == generation && piece.is_none(),
        }
    }

    /// How much it counts as.
    pub(crate) fn weight(&self) -> u64
        ensures { result ≡ weight_of self.now }
    {
        match self {
            Slot::Ready(_) => 1,
            Slot::Awaited { last, .. } => *last as u64,
        }
    }

    /// The item, if it is there.
    pub(crate) fn into_item(self) -> Option<Item>
        ensures { result ≡ item_in self }
    {
        match self {
            Slot::Ready(item) => Some(item),
            Slot::Awaited { piece, now, .. } => {
                let piece = piece?;
                Some(Item::Adopt { piece, now })
            }
        }
    }

    /// Puts the piece where one is awaited.
    pub(crate) fn put(&mut self, piece: BoxedPiece)
        ensures { self.new ≡ slot_filled piece self.old }
    {
        match self {
            Slot::Ready(_) => {}
            Slot::Awaited { piece: awaited, .. } => *awaited = Some(piece),
        }
    }
}
