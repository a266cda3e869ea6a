//! One connection, as its server sees it.
ghost use Rattle.std.specs.Prelude.{◌≡◌, ◌≤◌, ◌<◌, true, false, None, Some, IsTrue, IsSome, IfOk};
ghost use Rattle.std.specs.Prelude.{IfErr, length};
ghost use Rattle.std.specs.List.{list_any};
ghost use Rattle.outside.specs.Link.{opened};
ghost use Rattle.outside.specs.Net.{asked_of};
ghost use Rattle.proxy_trust.specs.Rules.{IsSound};
ghost use Rattle.request_stream.specs.Reading.{ArePositive};
ghost use Rattle.request_stream.specs.Units.{closing, units};
ghost use Rattle.outside.specs.declared.types.End.{End as AnEnd};
ghost use Rattle.channel.specs.Output.{IsPrefix};
ghost use Rattle.channel.specs.Owed.{PutsAsked, owed_by};
ghost use Rattle.channel.specs.Sides.{IsUsable};
ghost use Rattle.channel.specs.Views.{Advances, Calls, CheckCause, Checks, DrainCause, Drains};
ghost use Rattle.channel.specs.Views.{Moves, ReadCause, Reads, Stirs, UnlessOver, fresh, is_due};
ghost use Rattle.channel.specs.Views.{EndsBy, over_of};
ghost use Rattle.channel.specs.Views.{telling, units_of, view, want_of};

use crate::near::Near;
use crate::shared::{Fixed, Shared};
use crate::sides::{Channel, NoActs};
use crate::types::{Acted, Closed, Progress, Window};
use crate::writing::Writing;
use outside::{Link, Notes, Peer, Spill, Spills, Want, note};
use request_stream::Limits;
use spill_buffer::OverflowBuffer;
use std::alloc::{AllocFailed, Global};
use std::marker::Model;
use wsgi::{App, AppRun, Site};

/// The length of the room that a drain and an idle check are lent.
pub const ROOM: usize = 65536;

/// One connection for one thread.
#[derive(Drop)]
pub struct Lane<'a, L: Link, A: App<S>, S: Spill> {
    channel: Box<Channel<'a, L, A, S>, Global>,
}

impl<'a, L: Link, A: App<S>, S: Spill> Model for Lane<'a, L, A, S> {
    ghost use Rattle.channel.specs.Showing.{shown_by};
    ghost use Rattle.channel.specs.Views.{Seen};
    ghost use Rattle.channel.specs.Writing.{steps_left};

    ghost Value = { Seen L A };

    ghost view = { λ l. record {
      link = l.channel.value.near.link;
      peer = l.channel.value.near.peer;
      fixed = l.channel.value.state.fixed.value;
      shown = shown_by l.channel.value.near.stream l.channel.value.near.ended
          l.channel.value.near.touched l.channel.value.state l.channel.value.acts
          (steps_left A.Run.left l.channel.value.writing);
    } };
}

impl<'a, L: Link + Drop, A: App<S>, S: Spill + Send + Drop> Lane<'a, L, A, S> {
    /// What it asks of a poll.
    pub fn want(&self) -> Want
        ensures asks { asked_of result ≡ want_of self.now.fixed.window (view L.state L.faults L.key
            self.now) }
        ensures answers { (result.may_read ≡ false) × (result.may_write ≡ false) }
        ensures stirs { Stirs self.now.fixed.window self.now.shown }
        ensures told { IsTrue L.tells →
            (self.now.shown.touched ≡ (L.state self.now.link).touched) × (self.now.shown.ended ≡
            (L.state self.now.link).ended) }
        ensures sent { IsTrue (telling L.tells S.tells A.tells).all → IsPrefix (L.state
            self.now.link).sent
            (owed_by A.script self.now.fixed (L.state self.now.link).arrivals).output }
    {
        self.channel.want()
    }

    /// Whether a step can be made.
    pub fn due(&self) -> bool
        ensures { result ≡ is_due self.now.fixed.window self.now.shown }
    {
        self.channel.is_due()
    }

    /// Its link.
    pub fn link(&self) -> &L
        ensures { result.now ≡ self.now.link }
    {
        &self.channel.near.link
    }

    /// Whether nothing more is asked for, whatever comes.
    pub fn finished(&self) -> bool
        ensures value { result ≡ self.now.shown.finished }
        ensures closes { IsTrue L.tells → list_any closing (units self.now.fixed.limits
            (L.state self.now.link).arrivals) ≡ true → result ≡ true }
    {
        self.channel.finished()
    }

    /// How many units are ready or current.
    pub fn unit_count(&self) -> u64
        ensures { result ≡ units_of self.now.shown }
    {
        self.channel.state.unit_count()
    }

    /// How many steps the run of the current answer may have left.
    pub fn left(&self) -> u64
        ensures { result ≡ self.now.shown.left }
    {
        self.channel.left()
    }

    /// How many bytes of the answers wait to be sent.
    pub fn output_len(&self) -> u64
        ensures { result ≡ self.now.shown.output }
    {
        self.channel.state.output_len()
    }

    /// Makes one recv into the room, where more is to be taken in.
    pub fn read<P: Spills<Spill = S>>(&mut self, now: u64, room: &mut [u8], spills: &mut P) -> Acted
        requires room { length room.old ≡ self.old.fixed.window.recv_bytes }
        ensures peer { self.new.peer ≡ self.old.peer }
        ensures fixed { self.new.fixed ≡ self.old.fixed }
        ensures plan { L.plan self.new.link ≡ L.plan self.old.link }
        ensures key { L.key self.new.link ≡ L.key self.old.link }
        ensures calls { Calls L.tells now result (view L.state L.faults L.key self.old)
            (view L.state L.faults L.key self.new) }
        ensures reads { UnlessOver result (Reads L.tells self.old.fixed.window (view L.state
            L.faults L.key self.old) (view L.state L.faults L.key self.new)) }
        ensures cause { self.old.shown.dead ≡ None → ReadCause L.tells self.old.fixed.window result
            (view L.state L.faults L.key self.old) (view L.state L.faults L.key self.new) }
        ensures spills { P.faults spills.new ≡ P.faults spills.old }
    {
        self.channel.read(now, room, spills)
    }

    /// Makes one send of the first bytes of the output, where there are any.
    pub fn drain(&mut self, now: u64, room: &mut [u8]) -> Acted
        requires room { length room.old ≡ 65536 }
        ensures unput { self.new.shown.put ≡ self.old.shown.put }
        ensures peer { self.new.peer ≡ self.old.peer }
        ensures fixed { self.new.fixed ≡ self.old.fixed }
        ensures plan { L.plan self.new.link ≡ L.plan self.old.link }
        ensures key { L.key self.new.link ≡ L.key self.old.link }
        ensures calls { Calls L.tells now result (view L.state L.faults L.key self.old)
            (view L.state L.faults L.key self.new) }
        ensures drains { UnlessOver result (Drains L.tells self.old.fixed.window (view L.state
            L.faults L.key self.old) (view L.state L.faults L.key self.new)) }
        ensures cause { self.old.shown.dead ≡ None → DrainCause L.tells result (view L.state
            L.faults L.key self.old) (view L.state L.faults L.key self.new) }
    {
        self.channel.drain(now, room)
    }

    /// Makes one send as a drain does, and ends the connection where it waited for too long.
    pub fn check_idle(&mut self, now: u64, room: &mut [u8]) -> Acted
        requires room { length room.old ≡ 65536 }
        ensures peer { self.new.peer ≡ self.old.peer }
        ensures fixed { self.new.fixed ≡ self.old.fixed }
        ensures plan { L.plan self.new.link ≡ L.plan self.old.link }
        ensures key { L.key self.new.link ≡ L.key self.old.link }
        ensures calls { Calls L.tells now result (view L.state L.faults L.key self.old)
            (view L.state L.faults L.key self.new) }
        ensures checks { UnlessOver result (Checks L.tells now self.old.fixed.window (view L.state
            L.faults L.key self.old) (view L.state L.faults L.key self.new)) }
        ensures cause { self.old.shown.dead ≡ None → CheckCause L.tells now self.old.fixed.window
            result (view L.state L.faults L.key self.old) (view L.state L.faults L.key self.new) }
        ensures unput { self.new.shown.put ≡ self.old.shown.put }
    {
        self.channel.check_idle(now, room)
    }

    /// Begins the next unit, or makes a step of the current one.
    pub fn advance(&mut self) -> Progress
        ensures link { self.new.link ≡ self.old.link }
        ensures peer { self.new.peer ≡ self.old.peer }
        ensures fixed { self.new.fixed ≡ self.old.fixed }
        ensures unput { self.new.shown.put ≡ self.old.shown.put }
        ensures still { (self.new.shown.touched ≡ self.old.shown.touched)
            × (self.new.shown.ended ≡ self.old.shown.ended)
            × (self.new.shown.finished ≡ self.old.shown.finished) }
        ensures moves { Moves self.old.shown self.new.shown }
        ensures longer { self.old.shown.output ≤ self.new.shown.output }
        ensures advances { Advances self.old.fixed.window result self.old.shown self.new.shown }
    {
        self.channel.advance()
    }

    /// Hands out what is left, and the run of an answer that was under way.
    pub fn close(self) -> (Closed<L, A::Run, S>, Option<A::Run>)
        ensures link { result.0.link ≡ self.entry.link }
        ensures peer { result.0.peer ≡ self.entry.peer }
        ensures sent { IsTrue (telling L.tells S.tells A.tells).all → IsPrefix (L.state
            result.0.link).sent
            (owed_by A.script self.entry.fixed (L.state result.0.link).arrivals).output }
        ensures ends { (end : AnEnd) → over_of self.entry.shown ≡ Some end →
            EndsBy (telling L.tells S.tells A.tells) (record {
              spill = S.faults;
              run = A.Run.faults;
              body = A.Run.spill_faults;
            })
            self.entry.fixed.window.timeout
            (record {
              link = L.state result.0.link;
              faults = L.faults result.0.link;
              owed = owed_by A.script self.entry.fixed (L.state result.0.link).arrivals;
              broken = result.0.broken;
              fallen = result.0.fallen;
            }) end }
        ensures asked { IsTrue L.tells → PutsAsked self.entry.fixed.limits
            (L.state result.0.link).arrivals self.entry.shown.put self.entry.shown.dead }
        ensures run { 0 < self.entry.shown.left → IsSome result.1 }
    {
        let Lane { channel } = self;
        Box::into_inner(channel).close()
    }
}

struct Opens;

impl<'a, A> Notes<(&'a A, &'a Site, &'a Peer, Limits, Window), Fixed<A>> for Opens {
    ghost noted = { λ x. record {
      app = x.0.now;
      site = x.1.now;
      peer = x.2.now;
      limits = x.3;
      window
          = x.4;
    } };
}

/// Opens a connection over a new link. An `Err` gives it back: memory was refused.
pub fn open_lane<'a, L: Link + Drop, P: Spills, A: App<P::Spill>>(
    alloc: Global,
    now: u64,
    link: L,
    peer: Peer,
    limits: Limits,
    window: Window,
    app: &'a A,
    site: &'a Site,
    spills: &mut P,
) -> Result<Lane<'a, L, A, P::Spill>, (L, Peer)>
    requires positive { ArePositive limits }
    requires window { IsUsable window }
    requires sound { IsSound site.now.rules }
    requires fresh { IsTrue L.tells → L.state link ≡ opened now }
    ensures link { IfOk result (λ lane. lane.link ≡ link) }
    ensures peer { IfOk result (λ lane. lane.peer ≡ peer) }
    ensures fixed { IfOk result (λ lane. lane.fixed ≡ record {
      app = app.now;
      site = site.now;
      peer
          = peer;
      limits = limits;
      window = window;
    }) }
    ensures shown { IfOk result (λ lane. lane.shown ≡ fresh now) }
    ensures handed_back { IfErr result (λ back. (back.0 ≡ link) × (back.1 ≡ peer)) }
    ensures spills { P.faults spills.new ≡ P.faults spills.old }
{
    let about = (app, site, &peer, limits, window);
    let fixed = note::<_, _, Opens>(&about);
    let output = OverflowBuffer::new(alloc, spills.make(), window.outbuf_overflow);
    let channel = Channel {
        alloc,
        app,
        site,
        near: Near::new(alloc, now, link, peer, limits, window),
        writing: Writing::Idle,
        state: Shared::new(alloc, fixed, output),
        acts: note::<_, _, NoActs>(&()),
    };
    match Box::new(alloc, channel) {
        Ok(channel) => Ok(Lane { channel }),
        Err(refused) => {
            let AllocFailed { value } = refused;
            Err(value.into_link())
        }
    }
}
