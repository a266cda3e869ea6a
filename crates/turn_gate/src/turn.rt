//! The state, while an end has the turn.
ghost use Rattle.std.specs.Prelude.{◌≡◌, None, ◌∷◌};
ghost use Rattle.std.specs.Borrow.{Lends, sem};
ghost use Rattle.atomic_table.specs.Table.{rest};

use crate::board::{Place, SharedBoard, Shelf};
use crate::pact::Pact;
use std::marker::Model;
use std::snapshot::Snapshot;

/// The state, and the seat that took it. It is not `Drop`: end it by its end's `end`.
pub struct Turn<P: Pact> {
    pub(crate) state: Box<P::State>,
    pub(crate) of: Snapshot<Place<P>>,
}

impl<P: Pact> Model for Turn<P> {
    ghost use Rattle.turn_gate.specs.Ends.{InTurn, in_turn_coded, left_end, right_end};

    ghost Value = { InTurn P.State P.LeftEntry P.RightEntry P.Fixed };

    ghost coded = { in_turn_coded P.State.code P.LeftEntry.code P.RightEntry.code P.Fixed.code };

    ghost view = { λ t. record {
      state = t.state.value;
      by_left = left_end t.of.value;
      by_right =
          right_end t.of.value;
    } };
}

impl<P: Pact> Turn<P> {
    ghost use Rattle.turn_gate.specs.contracts.turn.Turn.{the_row};
    ghost use Rattle.turn_gate.specs.Ends.{HasShelf, IsOnShelf, left_end, right_end, with_state};

    /// The turn of an end whose take was won: the state of the slot that came with it.
    pub(crate) fn taken(board: &SharedBoard<P>, place: &mut Place<P>) -> Turn<P>
        requires table { place.old.table_id ≡ board.now.table_id }
        requires shelf { HasShelf place.old.me.1 }
        ensures table { place.new.table_id ≡ place.old.table_id }
        ensures id { place.new.id ≡ place.old.id }
        ensures me { place.new.me ≡ (place.old.me.0, (0, None) ∷ rest place.old.me.1) }
        ensures state { IsOnShelf place.old.me.1 result.state }
        ensures left { result.by_left ≡ left_end place.new }
        ensures right { result.by_right ≡ right_end place.new }
    {
        let Some(shelf) = board.exchange(place, 0, None) else {
            unreachable!()
        };
        let Shelf { state, entries: _ } = shelf;
        Turn {
            state,
            of: Snapshot::of(place),
        }
    }

    /// The state, to read and to change.
    pub fn state(&mut self) -> &mut P::State
        ensures* writes_back { sem 𝓛 (Lends
            (the_row P.row P.State.row P.LeftEntry.row P.RightEntry.row P.Fixed.row P.Pact)
            P.State.row self.entry result (with_state self.old)) }
        ensures value { result.now ≡ self.old.state }
    {
        &mut self.state
    }
}
