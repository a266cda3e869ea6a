//! What each step tells.
ghost use Rattle.std.specs.Prelude.{[], ◌∷◌, ◌++◌};
ghost use Rattle.turn_gate.specs.Gate.{took, began, filled, ended, looked, left_part, right_part};

use crate::board::{Entries, Shelf, View};
use crate::pact::Pact;
use atomic_table::{Play, Seat, Split};
use outside::Notes;
use std::marker::PhantomData;
use std::snapshot::Snapshot;

pub(crate) struct Begin;

impl<S, L, R, F> Play<Option<Shelf<S, L, R>>, View<L, R, F>> for Begin {
    ghost then = { began };
}

pub(crate) struct Fill;

impl<S, L, R, F> Play<Option<Shelf<S, L, R>>, View<L, R, F>> for Fill {
    ghost then = { filled };
}

pub(crate) struct Take<P> {
    pact: PhantomData<P>,
}

impl<P: Pact> Play<
    Option<Shelf<P::State, P::LeftEntry, P::RightEntry>>,
    View<P::LeftEntry, P::RightEntry, P::Fixed>,
> for Take<P> {
    ghost then = { took P.agree P.fixed };
}

pub(crate) struct Finish;

impl<S, L, R, F> Play<Option<Shelf<S, L, R>>, View<L, R, F>> for Finish {
    ghost then = { ended };
}

pub(crate) struct Look;

impl<S, L, R, F> Play<Option<Shelf<S, L, R>>, View<L, R, F>> for Look {
    ghost then = { looked };
}

pub(crate) struct Halves;

impl<L, R, F> Split<View<L, R, F>> for Halves {
    ghost left = { left_part };

    ghost right = { right_part };
}

/// The entries, before any turn.
pub(crate) struct NoEntries;

impl<L, R> Notes<(), Entries<L, R>> for NoEntries {
    ghost noted = { λ _. record { left = []; right = [] } };
}

/// The entries with one more of the left end's, whose seat it is.
pub(crate) struct ByLeft;

impl<S, L, R, F> Notes<
    (
        Snapshot<Seat<Option<Shelf<S, L, R>>, View<L, R, F>>>,
        Snapshot<L>,
    ),
    Entries<L, R>,
> for ByLeft {
    ghost noted = { λ x. record {
      left = x.0.value.me.0.left ++ x.1.value ∷ [];
      right =
          x.0.value.me.0.right;
    } };
}

pub(crate) struct ByRight;

impl<S, L, R, F> Notes<
    (
        Snapshot<Seat<Option<Shelf<S, L, R>>, View<L, R, F>>>,
        Snapshot<R>,
    ),
    Entries<L, R>,
> for ByRight {
    ghost noted = { λ x. record {
      left = x.0.value.me.0.left;
      right =
          x.0.value.me.0.right ++ x.1.value ∷ [];
    } };
}
