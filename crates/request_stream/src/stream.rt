//! Pieces in, units out.
ghost use Rattle.std.specs.Prelude.{◌≡◌, ◌≤◌, ◌<◌, ◌+◌, ◌||◌, ◌++◌, [], true, false, length, map};
ghost use Rattle.std.specs.Prelude.{IfOk, IfErr, OnErr, OnOk, All};
ghost use Rattle.std.specs.List.{list_any};
ghost use Rattle.request_stream.specs.Asks.{asks, sizes, IsAdded, IsCaused};
ghost use Rattle.request_stream.specs.Reading.{ArePositive};
ghost use Rattle.request_stream.specs.Room.{IsWithin};
ghost use Rattle.request_stream.specs.Units.{stamped, units, closing};

use crate::laws::grammar;
use crate::runs::read;
use crate::state::State;
use crate::types::{Limits, StreamFault, Unit};
use crate::whole::start;
use outside::{Noted, Notes, Spill, Spills, note};
use std::alloc::Global;
use std::collections::LinkedList;
use std::marker::Model;
use std::snapshot::Snapshot;

// The bytes of an input, each with its moment. No value of it is made.
type Input = LinkedList<(u64, u8)>;

struct Nothing;

impl Notes<(), Input> for Nothing {
    ghost use Rattle.std.specs.Prelude.{[]};

    ghost noted = { λ _. [] };
}

// What was told, and a piece behind it.
struct More;

impl<'a> Notes<(Snapshot<Noted<Input>>, u64, &'a [u8]), Input> for More {
    ghost use Rattle.std.specs.Prelude.{◌++◌};
    ghost use Rattle.request_stream.specs.Units.{stamped};

    ghost noted = { λ x. x.0.value.value ++ stamped x.1 x.2.now };
}

/// What one connection asks for, from its bytes in any pieces.
#[derive(Drop)]
pub struct Stream<S: Spill> {
    limits: Limits,
    state: State<S>,
    fed: Noted<Input>,
}

impl<S: Spill> Model for Stream<S> {
    ghost use Rattle.request_stream.specs.Reading.{is_failed, is_over};
    ghost use Rattle.request_stream.specs.Room.{held_of};
    ghost use Rattle.request_stream.specs.Story.{Story, Keeps};

    ghost Value = { Story };

    ghost view = { λ s. record {
      limits = s.limits;
      fed = s.fed.value;
      failed = is_failed s.state;
      over = is_over s.state;
      held = held_of s.state;
    } };

    ghost invariant = { λ s. Keeps S.tells s.limits s.state s.fed.value };
}

impl<S: Spill + Drop> Stream<S> {
    /// A stream that was fed nothing yet.
    pub fn new(alloc: Global, limits: Limits) -> Stream<S>
        requires { ArePositive limits }
        ensures limits { result.limits ≡ limits }
        ensures fed { result.fed ≡ [] }
        ensures failed { result.failed ≡ false }
        ensures over { result.over ≡ false }
        ensures held { result.held ≡ 0 }
    {
        grammar();
        Stream {
            limits,
            state: start(alloc),
            fed: note::<_, _, Nothing>(&()),
        }
    }

    /// The units that the piece completes, in order. All its bytes came at `now`, in seconds since
    /// 1970. A fault drops those that the same piece completed, and the stream is then finished.
    pub fn feed<P: Spills<Spill = S>>(
        &mut self,
        alloc: Global,
        now: u64,
        piece: &[u8],
        spills: &mut P,
    ) -> Result<Vec<Unit<S>>, StreamFault<S>>
        ensures limits { self.new.limits ≡ self.old.limits }
        ensures fed { self.new.fed ≡ self.old.fed ++ stamped now piece.now }
        // The units of all bytes so far are those of the bytes before, and these: the bytes of
        // their bodies where the spill tells, all else whatever the spill.
        ensures units { IfOk result (λ us. self.old.failed ≡ false →
            IsAdded S.tells us.items (units self.old.limits self.old.fed)
            (units self.old.limits self.new.fed)) }
        ensures last { IfOk result (λ us. (self.old.failed
            || list_any closing (units self.old.limits self.old.fed)) ≡ true → us.items ≡ []) }
        // Nothing is given behind a fault or a unit that closes.
        ensures dead { IfOk result (λ us. (self.old.failed || self.old.over) ≡ true →
            us.items ≡ []) }
        ensures over { IfOk result (λ us. self.old.failed ≡ false →
            self.new.over ≡ (self.old.over || list_any closing (map asks us.items))) }
        ensures holds { IfOk result (λ us. self.new.held + sizes us.items ≤ self.old.held
            + length piece.now) }
        ensures within { IfOk result (λ us. All (IsWithin self.old.limits) us.items) }
        ensures kept { OnOk result (self.new.failed ≡ self.old.failed) }
        ensures fault { OnErr result (self.new.failed ≡ true) }
        ensures cause { IfErr result (λ f. IsCaused S.faults f) }
        ensures spills { P.faults spills.new ≡ P.faults spills.old }
    {
        grammar();
        let about = (Snapshot::of(&self.fed), now, piece);
        self.fed = note::<_, _, More>(&about);
        let limits = self.limits;
        read(alloc, &limits, &mut self.state, now, piece, spills)
    }

    /// Whether it gives no further unit, whatever comes.
    pub fn finished(&self) -> bool
        ensures over { result ≡ (self.now.failed || self.now.over) }
        ensures units { result ≡ (self.now.failed || list_any closing
            (units self.now.limits self.now.fed)) }
    {
        match &self.state {
            State::Over | State::Failed => true,
            State::Seeking(_) | State::Filling(_) | State::Decoding(_) => false,
        }
    }

    /// How much memory the unit under way takes, in bytes.
    pub fn held(&self) -> u64
        ensures value { result ≡ self.now.held }
        ensures most { result < self.now.limits.max_head + self.now.limits.inbuf_overflow }
    {
        match &self.state {
            State::Seeking(bytes) => bytes.len() as u64,
            State::Filling(part) => part.head.size() + part.body.memory_len(),
            State::Decoding(part) => part.head.size() + part.body.memory_len(),
            State::Over | State::Failed => 0,
        }
    }
}
