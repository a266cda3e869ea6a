//! The opening of a gate.
ghost use Rattle.std.specs.Prelude.{◌≡◌, [], IfOk, IfErr};
ghost use Rattle.turn_gate.specs.Ends.{new_end, IsNew};
ghost use Rattle.turn_gate.specs.declared.board.Side.TheVariants.{Vacant, Left as AtLeft};
ghost use Rattle.turn_gate.specs.declared.board.Side.TheVariants.{Right as AtRight};

use crate::board::{FREE, Gate, HELD, Known, Place, Shelf, Slot};
use crate::left_end::Left;
use crate::pact::Pact;
use crate::plays::{Begin, Fill, Halves, NoEntries};
use crate::right_end::Right;
use atomic_table::{Shared, Table};
use outside::note;
use std::alloc::{AllocFailed, Global};
use std::snapshot::Snapshot;
use std::sync::Arc;

// The state goes into its slot, the gate becomes free, and is split.
fn fill<P: Pact>(
    shared: &Shared<Slot<P>, Known<P>, Snapshot<P::State>, Gate<P>>,
    place: &mut Place<P>,
    state: Box<P::State>,
) -> Place<P>
    requires words { shared.now.table_id.words ≡ 1 }
    requires vacant { IsNew place.old shared.now.table_id Vacant (P.fixed state.value) }
    requires agrees { P.agree state.value [] [] }
    ensures left { IsNew place.new place.old.table_id AtLeft (P.fixed state.value) }
    ensures right { IsNew result place.old.table_id AtRight (P.fixed state.value) }
{
    shared.load::<Begin>(place, 0);
    let entries = note::<_, _, NoEntries>(&());
    let shelf = Shelf { state, entries };
    drop(shared.exchange(place, 0, Some(shelf)));
    shared.store::<Fill>(place, 0, FREE);
    shared.split_seat::<Halves>(place)
}

/// Opens a gate over the state. An `Err` gives it back: memory was refused.
pub fn open<P: Pact>(alloc: Global, state: P::State) -> Result<(Left<P>, Right<P>), P::State>
    requires { P.agree state [] [] }
    ensures left { IfOk result (λ e. e.0 ≡ new_end e.0.gate e.0.seat (P.fixed state)) }
    ensures right { IfOk result (λ e. e.1 ≡ new_end e.0.gate e.1.seat (P.fixed state)) }
    ensures handed_back { IfErr result (λ s. s ≡ state) }
{
    let state = match Box::new(alloc, state) {
        Ok(state) => state,
        Err(AllocFailed { value }) => return Err(value),
    };
    let about = Snapshot::of(&*state);
    let Ok((table, mut place)) = Table::vacant(alloc, &[HELD], 1, &about) else {
        return Err(Box::into_inner(state));
    };
    let Ok(board) = Arc::new(alloc, table) else {
        return Err(Box::into_inner(state));
    };
    let Ok(other) = Arc::try_clone(&board) else {
        return Err(Box::into_inner(state));
    };
    let theirs = fill::<P>(&board.shared, &mut place, state);
    let left = Left { board, place };
    let right = Right {
        board: other,
        place: theirs,
    };
    Ok((left, right))
}
