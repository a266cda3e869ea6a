//! The right end of a gate.
ghost use Rattle.std.specs.Prelude.{◌≡◌, ◌+◌, ◌≤◌, true, false, [], ◌∷◌, ◌++◌, IfSome, IfNone};
ghost use Rattle.turn_gate.specs.Ends.{Wins, refused_once, after_turn};

use crate::board::{Board, FREE, HELD, Place, Shelf};
use crate::pact::Pact;
use crate::plays::{ByRight, Finish, Look, Take};
use crate::turn::Turn;
use outside::note;
use std::alloc::Global;
use std::marker::Model;
use std::snapshot::Snapshot;
use std::sync::{Arc, Wait};

/// The right end. It alone can wait for its turn.
#[derive(Drop)]
pub struct Right<P: Pact> {
    pub(crate) board: Arc<Board<P>, Global>,
    pub(crate) place: Place<P>,
}

impl<P: Pact> Model for Right<P> {
    ghost use Rattle.std.specs.Prelude.{◌≡◌};
    ghost use Rattle.std.specs.Arc.{arc_value};
    ghost use Rattle.turn_gate.specs.Ends.{End, end_coded, in_hand, right_end};
    ghost use Rattle.turn_gate.specs.declared.board.Side.TheVariants.{Right as AtRight};

    ghost Value = { End P.RightEntry P.LeftEntry P.Fixed };

    ghost coded = { end_coded P.RightEntry.code P.LeftEntry.code P.Fixed.code };

    ghost view = { λ e. right_end e.place };

    ghost invariant = { λ e. (e.place.table_id ≡ (arc_value e.board).shared.table_id)
        × (e.place.table_id.words ≡ 1) × (e.place.table_id.slots ≡ 1)
        × (e.place.me.0.side ≡ AtRight) × (e.place.me.1 ≡ in_hand e.place.me.0.has) };
}

impl<P: Pact> Right<P> {
    /// Makes one take. `None` says that it found the gate held.
    pub fn try_turn(&mut self) -> Option<Turn<P>>
        requires { self.old.has ≡ false }
        ensures wins { IfSome result (λ t. Wins self.old self.new × (t.by_right ≡ self.new)) }
        ensures unrefused { IfSome result (λ _. self.new.refused ≡ self.old.refused) }
        ensures fixed { IfSome result (λ t. P.fixed t.state ≡ self.new.fixed) }
        ensures agrees { IfSome result (λ t. P.agree t.state self.new.found self.new.own) }
        ensures held { IfNone result (self.new ≡ refused_once self.old) }
    {
        let shared = &self.board.shared;
        let won = shared.compare_exchange::<Take<P>>(&mut self.place, 0, FREE, HELD) == FREE;
        if !won {
            return None;
        }
        Some(Turn::taken(shared, &mut self.place))
    }

    /// Ends the turn, of which the entry says what it did. It wakes nobody: a left end never
    /// sleeps.
    pub fn end(&mut self, turn: Turn<P>, entry: P::RightEntry)
        requires own { (turn.by_right ≡ self.old) × (self.old.has ≡ true) }
        requires fixed { P.fixed turn.state ≡ self.old.fixed }
        requires agrees { P.agree turn.state self.old.found (self.old.own ++ entry ∷ []) }
        ensures { self.new ≡ after_turn self.old entry }
    {
        let Turn { state, of: _ } = turn;
        let about = (Snapshot::of(&self.place), Snapshot::of(&entry));
        let entries = note::<_, _, ByRight>(&about);
        let shelf = Shelf { state, entries };
        let shared = &self.board.shared;
        drop(shared.exchange(&mut self.place, 0, Some(shelf)));
        shared.store::<Finish>(&mut self.place, 0, FREE);
    }

    /// Waits for the turn. It sleeps between two takes, until the left end's turn is over.
    pub fn turn<W: Wait>(&mut self, rt: &W) -> Turn<P>
        requires { self.old.has ≡ false }
        ensures wins { Wins self.old self.new × (result.by_right ≡ self.new) }
        ensures refused { self.old.refused ≤ self.new.refused }
        ensures fixed { P.fixed result.state ≡ self.new.fixed }
        ensures agrees { P.agree result.state self.new.found self.new.own }
    {
        for _ in rt.forever() {
            if let Some(turn) = self.try_turn() {
                return turn;
            }
            self.wait(rt);
        }
        unreachable!()
    }

    // Sleeps if the gate is still held.
    fn wait<W: Wait>(&mut self, rt: &W)
        ensures { self.new ≡ self.old }
    {
        let shared = &self.board.shared;
        if shared.load::<Look>(&mut self.place, 0) == HELD {
            shared.park(rt, 0, HELD as u32);
        }
    }
}
