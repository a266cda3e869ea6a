//! A gate whose state says which ends have had a turn.
ghost use Rattle.std.specs.Prelude.{◌≡◌, ◌++◌, ◌∷◌, [], false, IfSome, IfNone};
ghost use mathlib.Core.List.{IsPrefix};
ghost use Rattle.turn_gate.specs.Ends.{refused_once, MakesTurn};
ghost use Rattle.test_gate.specs.Visits.{has_any};

use std::sync::Wait;
use turn_gate::{Left, Pact, Right};

/// Which ends have had a turn.
#[derive(Drop)]
pub struct Visited {
    pub left: bool,
    pub right: bool,
}

pub struct Visits;

impl Pact for Visits {
    type State = Visited;

    type LeftEntry = ();

    type RightEntry = ();

    type Fixed = ();

    ghost use Rattle.test_gate.specs.Visits.{IsVisitedBy};

    ghost agree = { IsVisitedBy };

    ghost fixed = { λ _. tt };
}

/// A turn of the left end, which says whether the right end had one before. `None` where the gate
/// was held.
#[tactic(auto, using(crate::proofs::Visiting::left_visits, turn_gate::proofs::Turns::turn_made))]
pub fn visit_left(left: &mut Left<Visits>) -> Option<bool>
    requires { left.old.has ≡ false }
    ensures held { IfNone result (left.new ≡ refused_once left.old) }
    ensures turn { IfSome result (λ _. MakesTurn left.old left.new tt) }
    ensures found { IfSome result (λ before. before ≡ has_any left.new.found) }
{
    let mut turn = left.try_turn()?;
    let visited = turn.state();
    visited.left = true;
    let before = visited.right;
    left.end(turn, ());
    Some(before)
}

/// Waits for a turn of the right end, which says whether the left end had one before.
#[tactic(auto, using(crate::proofs::Visiting::right_visits))]
pub fn visit_right<W: Wait>(rt: &W, right: &mut Right<Visits>) -> bool
    requires { right.old.has ≡ false }
    ensures has { right.new.has ≡ false }
    ensures own { right.new.own ≡ right.old.own ++ tt ∷ [] }
    ensures found { IsPrefix right.old.found right.new.found }
    ensures before { result ≡ has_any right.new.found }
{
    let mut turn = right.turn(rt);
    let visited = turn.state();
    visited.right = true;
    let before = visited.left;
    right.end(turn, ());
    before
}

/// What the left end finds while the right end has its turn, and after it. `None` where the gate
/// was held.
#[tactic(auto, using(crate::proofs::Visiting::right_visits))]
pub fn visit_meanwhile(
    left: &mut Left<Visits>,
    right: &mut Right<Visits>,
) -> Option<(Option<bool>, Option<bool>)>
    requires { (left.old.has ≡ false) × (right.old.has ≡ false) }
    ensures has { (left.new.has ≡ false) × (right.new.has ≡ false) }
    ensures held { IfNone result (right.new ≡ refused_once right.old) }
    ensures turn { IfSome result (λ _. MakesTurn right.old right.new tt) }
    ensures found { IfSome result (λ r. IfSome r.1 (λ had. had ≡ has_any left.new.found)) }
{
    let mut turn = right.try_turn()?;
    let during = visit_left(left);
    turn.state().right = true;
    right.end(turn, ());
    let after = visit_left(left);
    Some((during, after))
}
