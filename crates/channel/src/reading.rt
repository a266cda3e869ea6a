//! What comes in: a recv, and the units that its bytes complete.
ghost use Rattle.std.specs.Prelude.{◌≡◌, ◌<◌, ◌+◌, true, false, None, length};
ghost use Rattle.channel.specs.Agreement.{known_by};
ghost use Rattle.channel.specs.Happening.{Hears, HearsSome, IfAsked, ReadCalls};
ghost use Rattle.channel.specs.Sides.{Came, Sees, TurnsNear, linked};
ghost use Rattle.channel.specs.State.{state_of};

use crate::near::{Moved, Near, end_broken, kill};
use crate::noting::{LeftEntry, Looked, Puts};
use crate::shared::Shared;
use crate::types::Acted;
use outside::{End, Link, Recv, Spill, Spills, note};
use request_stream::{StreamFault, units_grow};
use std::alloc::Global;
use wsgi::App;

impl<L: Link + Drop, A: App<S>, S: Spill + Send + Drop> Near<L, A, S> {
    // The link gave these bytes.
    fn take_in<P: Spills<Spill = S>>(
        &mut self,
        alloc: Global,
        now: u64,
        piece: &[u8],
        state: &mut Shared<A, A::Run, S>,
        spills: &mut P,
    ) -> (Moved, LeftEntry<S>)
        requires some { 0 < length piece.now }
        requires alive { state.old.dead ≡ None }
        requires open { state.old.closing ≡ false }
        requires positive { 0 < self.old.stream.limits.max_head }
        ensures turns { (link : L) → Came (linked L.tells L.state L.faults L.key L.plan) now
            piece.now link self.old.link →
            TurnsNear (linked L.tells L.state L.faults L.key L.plan)
            (known_by S.tells A.tells A.script S.faults A.Run.faults A.Run.spill_faults)
            (record self.old { link = link }) self.new (state_of state.old) (state_of state.new)
            result.1 }
        ensures hears { (link : L) → Came (linked L.tells L.state L.faults L.key L.plan) now
            piece.now link self.old.link →
            Sees (linked L.tells L.state L.faults L.key L.plan) (record self.old { link = link })
            self.new
            (state_of state.old) (state_of state.new) result.1 (Hears L.tells now result.0) }
        ensures asked { IfAsked true result.0 None }
        ensures spills { P.faults spills.new ≡ P.faults spills.old }
    {
        units_grow();
        self.touched = now;
        match self.stream.feed(alloc, now, piece, spills) {
            Ok(units) => {
                let about = (&units, self.stream.held());
                let puts = note::<_, _, Puts>(&about);
                match state.put(units) {
                    Ok(()) => (Moved::Got, puts),
                    Err(_) => (Moved::NoMemory, kill(state, End::NoMemory)),
                }
            }
            Err(StreamFault::Spill(spill)) => {
                let (broken, fallen, entry) = end_broken(state, Some(spill));
                self.buried = true;
                self.broken = broken;
                self.fallen = fallen;
                (Moved::Broke, entry)
            }
            Err(StreamFault::NoMemory) => (Moved::NoMemory, kill(state, End::NoMemory)),
        }
    }

    // Makes one recv.
    fn receive<P: Spills<Spill = S>>(
        &mut self,
        now: u64,
        room: &mut [u8],
        state: &mut Shared<A, A::Run, S>,
        alloc: Global,
        spills: &mut P,
    ) -> (Moved, LeftEntry<S>)
        requires room { 0 < length room.old }
        requires alive { state.old.dead ≡ None }
        requires open { state.old.closing ≡ false }
        requires positive { 0 < self.old.stream.limits.max_head }
        ensures turns { TurnsNear (linked L.tells L.state L.faults L.key L.plan)
            (known_by S.tells A.tells A.script S.faults A.Run.faults A.Run.spill_faults)
            self.old self.new (state_of state.old) (state_of state.new) result.1 }
        ensures hears { Sees (linked L.tells L.state L.faults L.key L.plan) self.old self.new
            (state_of state.old) (state_of state.new) result.1
            (Hears L.tells now result.0) }
        ensures asked { IfAsked true result.0 None }
        ensures spills { P.faults spills.new ≡ P.faults spills.old }
    {
        match self.link.recv(now, room) {
            Recv::Got(count) => self.take_in(alloc, now, &room[..count], state, spills),
            Recv::NotYet => (Moved::PutOff, note::<_, _, Looked>(&())),
            Recv::End => {
                self.ended = true;
                (Moved::Ended, note::<_, _, Looked>(&()))
            }
            Recv::Failed => (Moved::Failed, kill(state, End::LinkFault)),
        }
    }

    // Makes one recv, where more is to be taken in.
    fn receive_some<P: Spills<Spill = S>>(
        &mut self,
        alloc: Global,
        now: u64,
        room: &mut [u8],
        state: &mut Shared<A, A::Run, S>,
        spills: &mut P,
    ) -> (Moved, LeftEntry<S>)
        requires room { 0 < length room.old }
        requires positive { 0 < self.old.stream.limits.max_head }
        ensures turns { TurnsNear (linked L.tells L.state L.faults L.key L.plan)
            (known_by S.tells A.tells A.script S.faults A.Run.faults A.Run.spill_faults)
            self.old self.new (state_of state.old) (state_of state.new) result.1 }
        ensures hears { Sees (linked L.tells L.state L.faults L.key L.plan) self.old self.new
            (state_of state.old) (state_of state.new) result.1
            (HearsSome L.tells now self.old.window result.0) }
        ensures spills { P.faults spills.new ≡ P.faults spills.old }
    {
        if state.dead.is_some() || !self.is_readable(state) {
            return (Moved::Idle, note::<_, _, Looked>(&()));
        }
        self.receive(now, room, state, alloc, spills)
    }

    /// Makes one recv, where more is to be taken in, and puts the units.
    pub(crate) fn read<P: Spills<Spill = S>>(
        &mut self,
        alloc: Global,
        now: u64,
        room: &mut [u8],
        state: &mut Shared<A, A::Run, S>,
        spills: &mut P,
    ) -> (Acted, LeftEntry<S>)
        requires room { 0 < length room.old }
        requires positive { 0 < self.old.stream.limits.max_head }
        ensures turns { TurnsNear (linked L.tells L.state L.faults L.key L.plan)
            (known_by S.tells A.tells A.script S.faults A.Run.faults A.Run.spill_faults)
            self.old self.new (state_of state.old) (state_of state.new) result.1 }
        ensures calls { Sees (linked L.tells L.state L.faults L.key L.plan) self.old self.new
            (state_of state.old) (state_of state.new) result.1
            (ReadCalls L.tells now self.old.window result.0) }
        ensures spills { P.faults spills.new ≡ P.faults spills.old }
    {
        let (moved, entry) = self.receive_some(alloc, now, room, state, spills);
        self.conclude(state, moved, entry)
    }
}
