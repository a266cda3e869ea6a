//! What the two ends do in a turn.
ghost use Rattle.std.specs.Prelude.{◌≡◌, false, IfSome, IfNone};
ghost use Rattle.turn_gate.specs.Ends.{refused_once};
ghost use Rattle.test_gate.specs.Numbers.{Adds, Takes};

use crate::pact::{Added, Numbers, Taken};
use std::alloc::Global;
use std::mem;
use std::snapshot::Snapshot;
use std::sync::Wait;
use turn_gate::{Left, Right};

/// Adds a number in one turn, and says whether there was memory. `None` where the gate was held.
pub fn add(left: &mut Left<Numbers>, number: u64) -> Option<bool>
    requires { left.old.has ≡ false }
    ensures held { IfNone result (left.new ≡ refused_once left.old) }
    ensures added { IfSome result (λ room. Adds left.old left.new number room) }
{
    let mut turn = left.try_turn()?;
    if turn.state().items.push(number).is_ok() {
        left.end(turn, Added::of(&Some(number)));
        return Some(true);
    }
    left.end(turn, Added::of(&None));
    Some(false)
}

/// Waits for one turn, and takes all numbers in it.
pub fn take_all<W: Wait>(rt: &W, alloc: Global, right: &mut Right<Numbers>) -> Vec<u64>
    requires { right.old.has ≡ false }
    ensures { Takes right.old right.new result.items }
{
    let mut turn = right.turn(rt);
    let row = turn.state();
    let numbers = mem::replace(&mut row.items, Vec::new(alloc));
    let entry = Taken {
        numbers: Snapshot::of(&numbers),
    };
    right.end(turn, entry);
    numbers
}
