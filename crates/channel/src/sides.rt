//! A channel for one thread: both sides, and what they did.
ghost use Rattle.std.specs.Prelude.{◌≡◌, ◌≤◌, ◌<◌, ◌||◌, true, false, length, is_some, IsSome};
ghost use Rattle.std.specs.Prelude.{IsTrue, Some};
ghost use Rattle.std.specs.List.{list_any};
ghost use Rattle.outside.specs.Net.{asked_of};
ghost use Rattle.proxy_trust.specs.Rules.{IsSound};
ghost use Rattle.request_stream.specs.Reading.{ArePositive};
ghost use Rattle.request_stream.specs.Units.{closing, units};
ghost use Rattle.outside.specs.declared.types.End.{End as AnEnd};
ghost use Rattle.channel.specs.Acting.{output_length, over_of};
ghost use Rattle.channel.specs.Agreement.{Agrees, known_by};
ghost use Rattle.channel.specs.Happening.{CheckCalls, DrainCalls, ReadCalls};
ghost use Rattle.channel.specs.Histories.{left_past, right_past};
ghost use Rattle.channel.specs.Output.{IsPrefix};
ghost use Rattle.channel.specs.Owed.{PutsAsked, owed_by};
ghost use Rattle.channel.specs.Showing.{shown_by};
ghost use Rattle.channel.specs.Sides.{Answers, IsSameNear, IsUsable, KeepsSide, linked, side_of};
ghost use Rattle.channel.specs.Sides.{view_by};
ghost use Rattle.channel.specs.State.{state_of};
ghost use Rattle.channel.specs.Views.{Advances, EndsBy, Moves, Stirs, is_due, telling, want_of};
ghost use Rattle.channel.specs.Writing.{KeepsWriting, is_scripted, is_settled, steps_left};

use crate::far::{Turned, advance};
use crate::near::Near;
use crate::noting::{LeftEntry, RightEntry};
use crate::shared::Shared;
use crate::types::{Acted, Closed, Progress};
use crate::writing::{Script, Waiting, Writing};
use outside::{Link, Noted, Notes, Peer, Spill, Spills, Want, note};
use std::alloc::Global;
use std::collections::LinkedList;
use std::mem;
use std::snapshot::Snapshot;
use wsgi::{App, AppRun, Site};

/// What both sides did, for contracts alone. No value of it is made.
pub struct Acts<S: Spill> {
    pub left: LinkedList<LeftEntry<S>>,
    pub right: LinkedList<RightEntry<S>>,
}

pub(crate) struct NoActs;

impl<S: Spill> Notes<(), Acts<S>> for NoActs {
    ghost use Rattle.std.specs.Prelude.{[]};

    ghost noted = { λ _. record { left = []; right = [] } };
}

struct AddsLeft;

impl<S: Spill> Notes<(Snapshot<Noted<Acts<S>>>, Snapshot<LeftEntry<S>>), Acts<S>> for AddsLeft {
    ghost use Rattle.std.specs.Prelude.{[], ◌∷◌, ◌++◌};

    ghost noted = { λ x. record {
      left = x.0.value.value.left ++ x.1.value ∷ [];
      right =
          x.0.value.value.right;
    } };
}

struct AddsRight;

impl<S: Spill> Notes<(Snapshot<Noted<Acts<S>>>, Snapshot<RightEntry<S>>), Acts<S>> for AddsRight {
    ghost use Rattle.std.specs.Prelude.{[], ◌∷◌, ◌++◌};

    ghost noted = { λ x. record {
      left = x.0.value.value.left;
      right = x.0.value.value.right ++
          x.1.value ∷ [];
    } };
}

/// Both sides of a channel, of which one thread makes the calls.
#[derive(Drop)]
pub(crate) struct Channel<'a, L: Link, A: App<S>, S: Spill> {
    pub(crate) alloc: Global,
    pub(crate) app: &'a A,
    pub(crate) site: &'a Site,
    pub(crate) near: Near<L, A, S>,
    pub(crate) writing: Writing<A::Run>,
    pub(crate) state: Shared<A, A::Run, S>,
    pub(crate) acts: Noted<Acts<S>>,
    ghost app_is: { state.fixed.value.app ≡ app.now },
    ghost site_is: { state.fixed.value.site ≡ site.now },
    ghost peer_is: { state.fixed.value.peer ≡ near.peer },
    ghost window_is: { state.fixed.value.window ≡ near.window },
    ghost sound: { IsSound site.now.rules },
    ghost positive: { ArePositive state.fixed.value.limits },
    ghost usable: { IsUsable state.fixed.value.window },
    ghost agrees: { Agrees (known_by S.tells A.tells A.script S.faults A.Run.faults
        A.Run.spill_faults)
        (state_of state) (left_past acts.value.left) (right_past acts.value.right) },
    ghost keeps: { KeepsSide S.tells state.fixed.value.limits state.fixed.value.window.timeout
        (side_of (linked L.tells L.state L.faults L.key L.plan) (known_by S.tells A.tells A.script
        S.faults A.Run.faults A.Run.spill_faults) near)
        (left_past acts.value.left) },
    ghost answers: { Answers (side_of (linked L.tells L.state L.faults L.key L.plan) (known_by
        S.tells A.tells A.script S.faults A.Run.faults A.Run.spill_faults) near)
        (state_of state) },
    ghost settled: { IsTrue (is_settled writing) },
    ghost writes: { KeepsWriting A.tells A.Run.rest site.now (A.script app.now) near.peer writing
        (right_past acts.value.right) },
}

impl<'a, L: Link + Drop, A: App<S>, S: Spill + Send + Drop> Channel<'a, L, A, S> {
    pub(crate) fn want(&self) -> Want
        ensures asks { asked_of result ≡ want_of self.now.state.fixed.value.window
            (view_by (linked L.tells L.state L.faults L.key L.plan) self.now.near
            self.now.state self.now.acts (steps_left A.Run.left self.now.writing)) }
        ensures answers { (result.may_read ≡ false) × (result.may_write ≡ false) }
        ensures stirs { Stirs self.now.state.fixed.value.window
            (shown_by self.now.near.stream self.now.near.ended self.now.near.touched
            self.now.state self.now.acts (steps_left A.Run.left self.now.writing)) }
        ensures told { IsTrue L.tells →
            (self.now.near.touched ≡ (L.state self.now.near.link).touched) × (self.now.near.ended ≡
            (L.state self.now.near.link).ended) }
        ensures sent { IsTrue (telling L.tells S.tells A.tells).all → IsPrefix (L.state
            self.now.near.link).sent
            (owed_by A.script self.now.state.fixed.value (L.state
            self.now.near.link).arrivals).output }
    {
        Want {
            key: self.near.link.key(),
            read: self.near.is_readable(&self.state),
            write: self.state.has_output(),
            may_read: false,
            may_write: false,
        }
    }

    pub(crate) fn is_due(&self) -> bool
        ensures { result ≡ is_due self.now.state.fixed.value.window
            (shown_by self.now.near.stream self.now.near.ended self.now.near.touched
            self.now.state self.now.acts (steps_left A.Run.left self.now.writing)) }
    {
        self.state.dead.is_none()
            && self.state.is_working()
            && self.state.output_len() <= self.near.window.high_watermark
    }

    /// Whether nothing more is asked for, whatever comes.
    pub(crate) fn finished(&self) -> bool
        ensures value { result ≡ (self.now.near.stream.failed || self.now.near.stream.over) }
        ensures closes { IsTrue L.tells → list_any closing (units self.now.state.fixed.value.limits
            (L.state self.now.near.link).arrivals) ≡ true → result ≡ true }
    {
        self.near.stream.finished()
    }

    /// How many steps the run of the current answer may have left.
    pub(crate) fn left(&self) -> u64
        ensures { result ≡ steps_left A.Run.left self.now.writing }
    {
        match &self.writing {
            Writing::Scripted(script) => script.run.left(),
            Writing::Waits(waiting) => waiting.script.run.left(),
            Writing::Idle | Writing::Last(..) => 0,
        }
    }

    pub(crate) fn read<P: Spills<Spill = S>>(
        &mut self,
        now: u64,
        room: &mut [u8],
        spills: &mut P,
    ) -> Acted
        requires room { length room.old ≡ self.old.state.fixed.value.window.recv_bytes }
        ensures near { IsSameNear (linked L.tells L.state L.faults L.key L.plan) self.old.near
            self.new.near }
        ensures fixed { self.new.state.fixed ≡ self.old.state.fixed }
        ensures calls { ReadCalls L.tells now self.old.state.fixed.value.window result
            (view_by (linked L.tells L.state L.faults L.key L.plan) self.old.near
            self.old.state self.old.acts (steps_left A.Run.left self.old.writing))
            (view_by (linked L.tells L.state L.faults L.key L.plan) self.new.near
            self.new.state self.new.acts (steps_left A.Run.left self.new.writing)) }
        ensures spills { P.faults spills.new ≡ P.faults spills.old }
    {
        let (acted, entry) = self
            .near
            .read(self.alloc, now, room, &mut self.state, spills);
        let about = (Snapshot::of(&self.acts), Snapshot::of(&entry));
        self.acts = note::<_, _, AddsLeft>(&about);
        acted
    }

    pub(crate) fn drain(&mut self, now: u64, room: &mut [u8]) -> Acted
        requires room { 0 < length room.old }
        ensures near { IsSameNear (linked L.tells L.state L.faults L.key L.plan) self.old.near
            self.new.near }
        ensures fixed { self.new.state.fixed ≡ self.old.state.fixed }
        ensures calls { DrainCalls L.tells now self.old.state.fixed.value.window result
            (view_by (linked L.tells L.state L.faults L.key L.plan) self.old.near
            self.old.state self.old.acts (steps_left A.Run.left self.old.writing))
            (view_by (linked L.tells L.state L.faults L.key L.plan) self.new.near
            self.new.state self.new.acts (steps_left A.Run.left self.new.writing)) }
    {
        let (acted, entry) = self.near.drain(now, room, &mut self.state);
        let about = (Snapshot::of(&self.acts), Snapshot::of(&entry));
        self.acts = note::<_, _, AddsLeft>(&about);
        acted
    }

    pub(crate) fn check_idle(&mut self, now: u64, room: &mut [u8]) -> Acted
        requires room { 0 < length room.old }
        ensures near { IsSameNear (linked L.tells L.state L.faults L.key L.plan) self.old.near
            self.new.near }
        ensures fixed { self.new.state.fixed ≡ self.old.state.fixed }
        ensures calls { CheckCalls L.tells now self.old.state.fixed.value.window result
            (view_by (linked L.tells L.state L.faults L.key L.plan) self.old.near
            self.old.state self.old.acts (steps_left A.Run.left self.old.writing))
            (view_by (linked L.tells L.state L.faults L.key L.plan) self.new.near
            self.new.state self.new.acts (steps_left A.Run.left self.new.writing)) }
    {
        let (acted, entry) = self.near.check_idle(now, room, &mut self.state);
        let about = (Snapshot::of(&self.acts), Snapshot::of(&entry));
        self.acts = note::<_, _, AddsLeft>(&about);
        acted
    }

    pub(crate) fn advance(&mut self) -> Progress
        ensures near { self.new.near ≡ self.old.near }
        ensures fixed { self.new.state.fixed ≡ self.old.state.fixed }
        ensures left { self.new.acts.value.left ≡ self.old.acts.value.left }
        ensures longer { output_length (state_of self.old.state) ≤ output_length (state_of
            self.new.state) }
        ensures moves { Moves
            (shown_by self.old.near.stream self.old.near.ended self.old.near.touched
            self.old.state self.old.acts (steps_left A.Run.left self.old.writing))
            (shown_by self.new.near.stream self.new.near.ended self.new.near.touched
            self.new.state self.new.acts (steps_left A.Run.left self.new.writing)) }
        ensures advances { Advances self.old.state.fixed.value.window result
            (shown_by self.old.near.stream self.old.near.ended self.old.near.touched
            self.old.state self.old.acts (steps_left A.Run.left self.old.writing))
            (shown_by self.new.near.stream self.new.near.ended self.new.near.touched
            self.new.state self.new.acts (steps_left A.Run.left self.new.writing)) }
    {
        if self.state.dead.is_some() {
            return Progress::Dead;
        }
        if self.near.window.high_watermark < self.state.output_len() {
            return Progress::Above;
        }
        let writing = mem::replace(&mut self.writing, Writing::Idle);
        let turned = advance(
            self.alloc,
            self.app,
            self.site,
            &self.near.peer,
            writing,
            &mut self.state,
        );
        let Turned {
            progress,
            writing,
            entry,
        } = turned;
        self.writing = writing;
        let about = (Snapshot::of(&self.acts), Snapshot::of(&entry));
        self.acts = note::<_, _, AddsRight>(&about);
        progress
    }

    /// Hands out what is left.
    pub(crate) fn close(self) -> (Closed<L, A::Run, S>, Option<A::Run>)
        ensures link { result.0.link ≡ self.entry.near.link }
        ensures peer { result.0.peer ≡ self.entry.near.peer }
        ensures sent { IsTrue (telling L.tells S.tells A.tells).all →
            IsPrefix (L.state result.0.link).sent
            (owed_by A.script self.entry.state.fixed.value
            (L.state result.0.link).arrivals).output }
        ensures ends { (end : AnEnd) → over_of (state_of self.entry.state) self.entry.near.ended ≡
            Some end →
            EndsBy (telling L.tells S.tells A.tells) (record {
              spill = S.faults;
              run = A.Run.faults;
              body = A.Run.spill_faults;
            })
            self.entry.state.fixed.value.window.timeout
            (record {
              link = L.state result.0.link;
              faults = L.faults result.0.link;
              owed = owed_by A.script self.entry.state.fixed.value (L.state result.0.link).arrivals;
              broken = result.0.broken;
              fallen = result.0.fallen;
            }) end }
        ensures asked { IsTrue L.tells → PutsAsked self.entry.state.fixed.value.limits
            (L.state result.0.link).arrivals
            (length (left_past self.entry.acts.value.left).put) self.entry.state.dead }
        ensures run { 0 < steps_left A.Run.left self.entry.writing → IsSome result.1 }
    {
        let Channel {
            alloc: _,
            app: _,
            site: _,
            near,
            writing,
            state,
            acts: _,
        } = self;
        (near.into_closed(state), run_of(writing))
    }

    /// Its link and its peer, where it was not opened.
    pub(crate) fn into_link(self) -> (L, Peer)
        ensures link { result.0 ≡ self.entry.near.link }
        ensures peer { result.1 ≡ self.entry.near.peer }
    {
        let Channel {
            alloc: _,
            app: _,
            site: _,
            near,
            writing: _,
            state: _,
            acts: _,
        } = self;
        near.into_link()
    }
}

// The run of a script that is under way.
fn run_of<R: Drop>(writing: Writing<R>) -> Option<R>
    ensures { is_some result ≡ is_scripted writing }
{
    match writing {
        Writing::Scripted(script) => {
            let Script { task: _, run } = script;
            Some(run)
        }
        Writing::Waits(waiting) => {
            let Waiting { text: _, script } = waiting;
            let Script { task: _, run } = script;
            Some(run)
        }
        Writing::Idle => None,
        Writing::Last(_, _) => None,
    }
}
