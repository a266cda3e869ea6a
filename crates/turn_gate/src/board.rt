//! The table that the two ends share. Word 0 is `FREE`, or `HELD` while an end has the turn. Slot 0
//! has the state while the word is free, and it is out with the end that has the turn.
use crate::pact::Pact;
use atomic_table::{Seat, Shared, Table, TableRule};
use outside::Noted;
use std::alloc::Global;
use std::collections::LinkedList;
use std::marker::PhantomData;
use std::snapshot::Snapshot;

pub(crate) const FREE: u64 = 0;

pub(crate) const HELD: u64 = 1;

/// All entries of both ends. Like a `View` it is told of in clauses alone: no value of it is made.
pub(crate) struct Entries<L, R> {
    pub(crate) left: LinkedList<L>,
    pub(crate) right: LinkedList<R>,
}

/// The state, beside the entries of both ends, which have no bytes.
#[derive(Drop)]
pub(crate) struct Shelf<S, L, R> {
    pub(crate) state: Box<S>,
    pub(crate) entries: Noted<Entries<L, R>>,
}

/// Which end a seat is. Until the gate is split there is one seat, whose slot is first vacant, then
/// out with it to be filled, and then has the state.
pub(crate) enum Side {
    Vacant,
    Filling,
    Whole,
    Left,
    Right,
}

/// What an end knows.
pub(crate) struct View<L, R, F> {
    pub(crate) side: Side,
    /// The left end's entries: its own at the left end, those that it found last at the right end.
    pub(crate) left: LinkedList<L>,
    pub(crate) right: LinkedList<R>,
    /// What no turn changes.
    pub(crate) fixed: F,
    /// Whether it has the turn.
    pub(crate) has: bool,
    /// How many of its takes found the gate held.
    pub(crate) refused: u64,
    /// How many takes of the other end had found the gate held, when this end last gave it up.
    pub(crate) turned_away: u64,
}

pub(crate) struct Gate<P> {
    pact: PhantomData<P>,
}

impl<P: Pact> TableRule<
    Option<Shelf<P::State, P::LeftEntry, P::RightEntry>>,
    View<P::LeftEntry, P::RightEntry, P::Fixed>,
    Snapshot<P::State>,
> for Gate<P> {
    ghost use Rattle.turn_gate.specs.Gate.{Kept, alone};
    ghost use Rattle.turn_gate.specs.declared.board.Side.TheVariants.{Vacant};

    ghost holds = { λ _. Kept P.agree P.fixed };

    ghost first = { λ key. alone Vacant (P.fixed key.value) };
}

pub(crate) type Slot<P> = Option<
    Shelf<<P as Pact>::State, <P as Pact>::LeftEntry, <P as Pact>::RightEntry>,
>;

pub(crate) type Known<P> = View<
    <P as Pact>::LeftEntry,
    <P as Pact>::RightEntry,
    <P as Pact>::Fixed,
>;

pub(crate) type Board<P> = Table<Slot<P>, Known<P>, Snapshot<<P as Pact>::State>, Gate<P>, Global>;

pub(crate) type SharedBoard<P> = Shared<Slot<P>, Known<P>, Snapshot<<P as Pact>::State>, Gate<P>>;

pub(crate) type Place<P> = Seat<Slot<P>, Known<P>>;
