//! What goes out: a send of the output, and how long nothing may move.
ghost use Rattle.std.specs.Prelude.{◌≡◌, ◌<◌, ◌+◌, true, false, IsTrue, None, length};
ghost use Rattle.channel.specs.Acting.{lent_of, output_length, over_of};
ghost use Rattle.channel.specs.Agreement.{known_by};
ghost use Rattle.channel.specs.Happening.{CheckCalls, DrainCalls, IfAsked, Says, SaysSome};
ghost use Rattle.channel.specs.Sides.{Sees, TurnsNear, is_late, linked};
ghost use Rattle.channel.specs.State.{state_of};

use crate::near::{Moved, Near, end_broken, kill};
use crate::noting::{Drains, LeftEntry, Looked, Then};
use crate::shared::Shared;
use crate::types::Acted;
use outside::{End, Link, Sent, Spill, note};
use std::snapshot::Snapshot;
use wsgi::App;

impl<L: Link + Drop, A: App<S>, S: Spill + Send + Drop> Near<L, A, S> {
    // Makes one send of what stands in memory.
    fn send_lent(&mut self, now: u64, state: &mut Shared<A, A::Run, S>) -> (Moved, LeftEntry<S>)
        requires alive { state.old.dead ≡ None }
        requires some { 0 < length (lent_of state.old.output) }
        ensures asked { IfAsked true result.0 None }
        ensures turns { TurnsNear (linked L.tells L.state L.faults L.key L.plan)
            (known_by S.tells A.tells A.script S.faults A.Run.faults A.Run.spill_faults)
            self.old self.new (state_of state.old) (state_of state.new) result.1 }
        ensures says { Sees (linked L.tells L.state L.faults L.key L.plan) self.old self.new
            (state_of state.old) (state_of state.new) result.1
            (Says L.tells now result.0) }
    {
        let bytes = state.lent();
        match self.link.send(now, bytes) {
            Sent::Took(count) => {
                self.touched = now;
                let taken = &bytes[..count];
                let entry = note::<_, _, Drains>(&taken);
                state.skip(count as u64);
                (Moved::Took, entry)
            }
            Sent::NotYet => (Moved::PutOff, note::<_, _, Looked>(&())),
            Sent::Failed => (Moved::Failed, kill(state, End::LinkFault)),
        }
    }

    // Makes one send of what stands in the spill.
    fn send_stored(
        &mut self,
        now: u64,
        room: &mut [u8],
        state: &mut Shared<A, A::Run, S>,
    ) -> (Moved, LeftEntry<S>)
        requires room { 0 < length room.old }
        requires alive { state.old.dead ≡ None }
        requires some { 0 < output_length (state_of state.old) }
        ensures turns { TurnsNear (linked L.tells L.state L.faults L.key L.plan)
            (known_by S.tells A.tells A.script S.faults A.Run.faults A.Run.spill_faults)
            self.old self.new (state_of state.old) (state_of state.new) result.1 }
        ensures says { Sees (linked L.tells L.state L.faults L.key L.plan) self.old self.new
            (state_of state.old) (state_of state.new) result.1
            (Says L.tells now result.0) }
        ensures asked { IfAsked true result.0 None }
    {
        let Ok(count) = state.offer(room) else {
            let (broken, fallen, entry) = end_broken(state, None);
            self.buried = true;
            self.broken = broken;
            self.fallen = fallen;
            return (Moved::Broke, entry);
        };
        match self.link.send(now, &room[..count]) {
            Sent::Took(taken) => {
                self.touched = now;
                state.skip(taken as u64);
                let bytes = &room[..taken];
                (Moved::Took, note::<_, _, Drains>(&bytes))
            }
            Sent::NotYet => (Moved::PutOff, note::<_, _, Looked>(&())),
            Sent::Failed => (Moved::Failed, kill(state, End::LinkFault)),
        }
    }

    // Makes one send where there is something to send.
    fn send_some(
        &mut self,
        now: u64,
        room: &mut [u8],
        state: &mut Shared<A, A::Run, S>,
    ) -> (Moved, LeftEntry<S>)
        requires room { 0 < length room.old }
        ensures turns { TurnsNear (linked L.tells L.state L.faults L.key L.plan)
            (known_by S.tells A.tells A.script S.faults A.Run.faults A.Run.spill_faults)
            self.old self.new (state_of state.old) (state_of state.new) result.1 }
        ensures says { Sees (linked L.tells L.state L.faults L.key L.plan) self.old self.new
            (state_of state.old) (state_of state.new) result.1
            (SaysSome L.tells now result.0) }
    {
        if state.dead.is_some() || !state.has_output() {
            return (Moved::Idle, note::<_, _, Looked>(&()));
        }
        if state.lent().is_empty() {
            return self.send_stored(now, room, state);
        }
        self.send_lent(now, state)
    }

    /// Makes one send where there is something to send.
    pub(crate) fn drain(
        &mut self,
        now: u64,
        room: &mut [u8],
        state: &mut Shared<A, A::Run, S>,
    ) -> (Acted, LeftEntry<S>)
        requires room { 0 < length room.old }
        ensures turns { TurnsNear (linked L.tells L.state L.faults L.key L.plan)
            (known_by S.tells A.tells A.script S.faults A.Run.faults A.Run.spill_faults)
            self.old self.new (state_of state.old) (state_of state.new) result.1 }
        ensures calls { Sees (linked L.tells L.state L.faults L.key L.plan) self.old self.new
            (state_of state.old) (state_of state.new) result.1
            (DrainCalls L.tells now self.old.window result.0) }
    {
        let (moved, entry) = self.send_some(now, room, state);
        self.conclude(state, moved, entry)
    }

    // Whether nothing moved for too long, and no job is to move it.
    fn is_late(&self, now: u64, state: &Shared<A, A::Run, S>) -> bool
        ensures { result ≡ is_late self.now.window (state_of state.now) self.now.touched now }
    {
        self.window.timeout < now.saturating_sub(self.touched)
            && (!state.is_working() || self.window.high_watermark < state.output_len())
    }

    // Whether the channel is not over yet, and late.
    fn is_timed_out(&self, now: u64, state: &Shared<A, A::Run, S>) -> bool
        ensures open { result ≡ true → over_of (state_of state.now) self.now.ended ≡ None }
        ensures late { result ≡ true → IsTrue (is_late self.now.window (state_of state.now)
            self.now.touched now) }
        ensures on_time { result ≡ false → over_of (state_of state.now) self.now.ended ≡ None →
            is_late self.now.window (state_of state.now) self.now.touched now ≡ false }
    {
        match state.end(self.ended) {
            Some(_) => false,
            None => self.is_late(now, state),
        }
    }

    /// Makes one send where there is something to send, and ends the channel where nothing moved
    /// for too long.
    pub(crate) fn check_idle(
        &mut self,
        now: u64,
        room: &mut [u8],
        state: &mut Shared<A, A::Run, S>,
    ) -> (Acted, LeftEntry<S>)
        requires room { 0 < length room.old }
        requires window { self.old.window ≡ state.old.fixed.value.window }
        ensures turns { TurnsNear (linked L.tells L.state L.faults L.key L.plan)
            (known_by S.tells A.tells A.script S.faults A.Run.faults A.Run.spill_faults)
            self.old self.new (state_of state.old) (state_of state.new) result.1 }
        ensures calls { Sees (linked L.tells L.state L.faults L.key L.plan) self.old self.new
            (state_of state.old) (state_of state.new) result.1
            (CheckCalls L.tells now self.old.window result.0) }
    {
        let (moved, entry) = self.send_some(now, room, state);
        if !self.is_timed_out(now, state) {
            return self.conclude(state, moved, entry);
        }
        let end = End::TimedOut {
            touched: self.touched,
            now,
        };
        let ends = kill(state, end);
        let both = (Snapshot::of(&entry), Snapshot::of(&ends));
        (Acted::Over(end), note::<_, _, Then>(&both))
    }
}
