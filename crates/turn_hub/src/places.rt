//! Taking a cell out of its place, and putting it back.

ghost use Rattle.std.specs.Prelude.{◌≡◌, ◌∷◌, Some, None};
ghost use Rattle.atomic_table.specs.Table.{rest};
ghost use Rattle.turn_hub.specs.declared.view.Cell.{Cell as OneCell};
ghost use Rattle.turn_hub.specs.Ends.{hub_id};

use crate::hub::Hub;
use crate::plays::{Place, Sight};
use crate::view::Cell;
use crate::work::Work;
use atomic_table::Seat;

impl<W: Work> Hub<W> {
    // Takes the cell out of its place.
    pub(crate) fn take_cell(
        &self,
        seat: &mut Seat<Place<W>, Sight<W>>,
        place: usize,
    ) -> Cell<W, W::Item, W::Out>
        requires hub { seat.old.table_id ≡ hub_id self.now }
        requires has { (c : OneCell W W.Item W.Out) × (seat.old.me.1 ≡ (place, Some c) ∷ rest seat.old.me.1) }
        ensures seat { (seat.new.table_id ≡ seat.old.table_id) × (seat.new.id ≡ seat.old.id)
            × (seat.new.me ≡ (seat.old.me.0, (place, None) ∷ rest seat.old.me.1)) }
        ensures cell { seat.old.me.1 ≡ (place, Some result) ∷ rest seat.old.me.1 }
    {
        match self.table.shared.exchange(seat, place, None) {
            Some(cell) => cell,
            None => unreachable!(),
        }
    }

    // Puts the cell into its place, which is empty.
    pub(crate) fn put_cell(
        &self,
        seat: &mut Seat<Place<W>, Sight<W>>,
        place: usize,
        cell: Cell<W, W::Item, W::Out>,
    )
        requires hub { seat.old.table_id ≡ hub_id self.now }
        requires empty { seat.old.me.1 ≡ (place, None) ∷ rest seat.old.me.1 }
        ensures seat { (seat.new.table_id ≡ seat.old.table_id) × (seat.new.id ≡ seat.old.id)
            × (seat.new.me ≡ (seat.old.me.0, (place, Some cell) ∷ rest seat.old.me.1)) }
    {
        drop(self.table.shared.exchange(seat, place, Some(cell)));
    }
}
