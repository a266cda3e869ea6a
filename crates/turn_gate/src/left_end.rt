//! The left end of a gate.
ghost use Rattle.std.specs.Prelude.{◌≡◌, ◌+◌, true, false, [], ◌∷◌, ◌++◌, IfSome, IfNone};
ghost use Rattle.turn_gate.specs.Ends.{Wins, refused_once, after_turn};

use crate::board::{Board, FREE, HELD, Place, Shelf};
use crate::pact::Pact;
use crate::plays::{ByLeft, Finish, Take};
use crate::turn::Turn;
use outside::note;
use std::alloc::Global;
use std::marker::Model;
use std::snapshot::Snapshot;
use std::sync::Arc;

/// The left end.
#[derive(Drop)]
pub struct Left<P: Pact> {
    pub(crate) board: Arc<Board<P>, Global>,
    pub(crate) place: Place<P>,
}

impl<P: Pact> Model for Left<P> {
    ghost use Rattle.std.specs.Prelude.{◌≡◌};
    ghost use Rattle.std.specs.Arc.{arc_value};
    ghost use Rattle.turn_gate.specs.Ends.{End, end_coded, in_hand, left_end};
    ghost use Rattle.turn_gate.specs.declared.board.Side.TheVariants.{Left as AtLeft};

    ghost Value = { End P.LeftEntry P.RightEntry P.Fixed };

    ghost coded = { end_coded P.LeftEntry.code P.RightEntry.code P.Fixed.code };

    ghost view = { λ e. left_end e.place };

    ghost invariant = { λ e. (e.place.table_id ≡ (arc_value e.board).shared.table_id)
        × (e.place.table_id.words ≡ 1) × (e.place.table_id.slots ≡ 1)
        × (e.place.me.0.side ≡ AtLeft) × (e.place.me.1 ≡ in_hand e.place.me.0.has) };
}

impl<P: Pact> Left<P> {
    /// Makes one take. `None` says that it found the gate held.
    pub fn try_turn(&mut self) -> Option<Turn<P>>
        requires { self.old.has ≡ false }
        ensures wins { IfSome result (λ t. Wins self.old self.new × (t.by_left ≡ self.new)) }
        ensures unrefused { IfSome result (λ _. self.new.refused ≡ self.old.refused) }
        ensures fixed { IfSome result (λ t. P.fixed t.state ≡ self.new.fixed) }
        ensures agrees { IfSome result (λ t. P.agree t.state self.new.own self.new.found) }
        ensures held { IfNone result (self.new ≡ refused_once self.old) }
    {
        let shared = &self.board.shared;
        let won = shared.compare_exchange::<Take<P>>(&mut self.place, 0, FREE, HELD) == FREE;
        if !won {
            return None;
        }
        Some(Turn::taken(shared, &mut self.place))
    }

    /// Ends the turn, of which the entry says what it did.
    pub fn end(&mut self, turn: Turn<P>, entry: P::LeftEntry)
        requires own { (turn.by_left ≡ self.old) × (self.old.has ≡ true) }
        requires fixed { P.fixed turn.state ≡ self.old.fixed }
        requires agrees { P.agree turn.state (self.old.own ++ entry ∷ []) self.old.found }
        ensures { self.new ≡ after_turn self.old entry }
    {
        let Turn { state, of: _ } = turn;
        let about = (Snapshot::of(&self.place), Snapshot::of(&entry));
        let entries = note::<_, _, ByLeft>(&about);
        let shelf = Shelf { state, entries };
        let shared = &self.board.shared;
        drop(shared.exchange(&mut self.place, 0, Some(shelf)));
        shared.store::<Finish>(&mut self.place, 0, FREE);
        shared.wake_one(0);
    }
}
