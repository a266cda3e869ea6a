//! What a net in memory keeps for contracts alone. None of it has bytes, and no value of the types
//! here that hold lists is ever made.
use crate::{Comer, LinkPlan, Listen, Noted, Notes, Peer, Turn, Want};
use std::collections::{LinkedList, VecDeque};
use std::snapshot::Snapshot;

// Whom accept gave, and what their links were made from.
pub(crate) type Accepted = LinkedList<(Peer, LinkPlan)>;

// The last poll that answered a turn: what came of it, and as it found the net.
pub(crate) struct LastPoll {
    pub(crate) wants: LinkedList<Want>,
    pub(crate) accepting: bool,
    pub(crate) turn: Turn,
    pub(crate) given: Accepted,
    pub(crate) live: u64,
    pub(crate) number: u64,
    pub(crate) waiting: LinkedList<Comer>,
}

// What is told of a net before any call.
pub(crate) struct Nothing;

impl Notes<(), Accepted> for Nothing {
    ghost use Rattle.std.specs.Prelude.{[]};

    ghost noted = { λ _. [] };
}

impl Notes<(), Option<LinkedList<Listen>>> for Nothing {
    ghost use Rattle.std.specs.Prelude.{None};

    ghost noted = { λ _. None };
}

impl Notes<(), Option<u64>> for Nothing {
    ghost use Rattle.std.specs.Prelude.{None};

    ghost noted = { λ _. None };
}

impl Notes<(), Option<LastPoll>> for Nothing {
    ghost use Rattle.std.specs.Prelude.{None};

    ghost noted = { λ _. None };
}

// Those given before, and one more.
pub(crate) struct OneMore;

impl<'a> Notes<(Snapshot<Noted<Accepted>>, &'a Peer, &'a LinkPlan), Accepted> for OneMore {
    ghost use Rattle.std.specs.Prelude.{◌++◌, ◌∷◌, []};

    ghost noted = { λ x. x.0.value.value ++ (x.1.now, x.2.now) ∷ [] };
}

// The addresses of a bind.
pub(crate) struct Addresses;

impl<'a> Notes<&'a [Listen], Option<LinkedList<Listen>>> for Addresses {
    ghost use Rattle.std.specs.Prelude.{Some};

    ghost noted = { λ listen. Some listen.now };
}

// The first moment that was told, or this one where there was none.
pub(crate) struct FirstMoment;

impl Notes<(Snapshot<Noted<Option<u64>>>, u64), Option<u64>> for FirstMoment {
    ghost use Rattle.std.specs.Prelude.{Some, unwrap_or};

    ghost noted = { λ x. Some (unwrap_or x.0.value.value x.1) };
}

// What a poll saw that answers a turn.
#[derive(Drop)]
pub(crate) struct Seen {
    pub(crate) wants: Snapshot<Vec<Want>>,
    pub(crate) accepting: bool,
    pub(crate) turn: Turn,
    pub(crate) given: Snapshot<Noted<Accepted>>,
    pub(crate) live: u64,
    pub(crate) number: u64,
    pub(crate) waiting: Snapshot<VecDeque<Comer>>,
}

// That poll is the last one.
pub(crate) struct Latest;

impl Notes<Seen, Option<LastPoll>> for Latest {
    ghost use Rattle.std.specs.Prelude.{Some};

    ghost noted = { λ seen. Some (record {
      wants = seen.wants.value.items;
      accepting = seen.accepting;
      turn = seen.turn;
      given = seen.given.value.value;
      live = seen.live;
      number = seen.number;
      waiting = seen.waiting.value.items;
    }) };
}
