//! One connection among many.
ghost use Rattle.std.specs.Prelude.{◌≡◌, ◌&&◌, None, false, length};
ghost use Rattle.outside.specs.Net.{asked_of};
ghost use Rattle.channel.specs.Views.{want_of};
ghost use Rattle.poll_loop.specs.Seat.{Attends, DiesAt, Goes, Hears, IsCalled, IsUncalled, IsUp};
ghost use Rattle.poll_loop.specs.Seat.{OverOr, OverOrHolds, OverOrMarked, MarkHolds, Passes};
ghost use Rattle.poll_loop.specs.Seat.{SeatHolds, Speaks, Strides, eyes_of, is_open, viewed};

use channel::{Acted, Lane, Progress};
use outside::{End, Link, Spill, Spills, Want};
use std::marker::PhantomData;
use wsgi::App;

/// What a seat waits for.
#[derive(Clone, Copy, Debug, PartialEq, Eq)]
pub(crate) enum Mark {
    /// Until bytes come or are taken, it has no step to make.
    Rests,
    /// It has a step to make.
    Works,
    /// It is over, and is to be retired.
    Over(End),
}

/// A connection, what it wants of the next poll, and what it waits for.
#[derive(Drop)]
pub(crate) struct Seat<'a, L: Link, A: App<S>, S: Spill> {
    pub(crate) lane: Lane<'a, L, A, S>,
    pub(crate) want: Want,
    pub(crate) mark: Mark,
    /// What the lane borrows lives as long, so a list of seats can be dropped.
    pub(crate) app: PhantomData<&'a A>,
}

// So many steps are made at most before the others have their turn.
const STRIDE: usize = 16;

// Where so many bytes wait, they are sent before a further step is made.
const ENOUGH: u64 = 32_768;

// Reads where it wants to and may.
fn hear<'a, L: Link + Drop, A: App<S>, S: Spill + Send + Drop, P: Spills<Spill = S>>(
    lane: &mut Lane<'a, L, A, S>,
    ready: Want,
    now: u64,
    room: &mut [u8],
    spills: &mut P,
) -> Option<End>
    requires room { length room.old ≡ lane.old.fixed.window.recv_bytes }
    requires up { IsUp lane.old.shown }
    requires asks { asked_of ready ≡ want_of lane.old.fixed.window
        (viewed (eyes_of L.Link) lane.old) }
    ensures goes { Goes (eyes_of L.Link) now lane.old lane.new }
    ensures hears { OverOr now result lane.new.shown (Hears L.tells lane.old.fixed.window ready
        (viewed (eyes_of L.Link) lane.old) (viewed (eyes_of L.Link) lane.new)) }
    ensures spills { P.faults spills.new ≡ P.faults spills.old }
{
    if !(ready.read && ready.may_read) {
        return None;
    }
    match lane.read(now, room, spills) {
        Acted::Over(end) => Some(end),
        Acted::Did => None,
        Acted::Held => None,
        Acted::Nothing => None,
    }
}

// Begins units and makes steps, until none can be made, enough were, or enough waits to be sent.
fn stride<'a, L: Link + Drop, A: App<S>, S: Spill + Send + Drop>(lane: &mut Lane<'a, L, A, S>)
    requires alive { lane.old.shown.dead ≡ None }
    ensures link { lane.new.link ≡ lane.old.link }
    ensures peer { lane.new.peer ≡ lane.old.peer }
    ensures fixed { lane.new.fixed ≡ lane.old.fixed }
    ensures strides { Strides lane.old.fixed.window lane.old.shown lane.new.shown }
{
    for _ in 0..STRIDE {
        match lane.advance() {
            Progress::More => {}
            Progress::Above => return,
            Progress::Rest => return,
            Progress::Dead => return,
            Progress::Broke(_) => return,
        }
        if ENOUGH <= lane.output_len() {
            return;
        }
    }
}

// Offers the link what waits to be sent, and looks whether the channel is over.
fn speak<'a, L: Link + Drop, A: App<S>, S: Spill + Send + Drop>(
    lane: &mut Lane<'a, L, A, S>,
    now: u64,
    room: &mut [u8],
) -> Option<End>
    requires room { length room.old ≡ 65536 }
    requires dies { DiesAt now lane.old.shown.dead }
    ensures goes { Goes (eyes_of L.Link) now lane.old lane.new }
    ensures speaks { OverOr now result lane.new.shown (Speaks L.tells (viewed
        (eyes_of L.Link) lane.old) (viewed (eyes_of L.Link) lane.new)) }
{
    match lane.drain(now, room) {
        Acted::Over(end) => Some(end),
        Acted::Did => None,
        Acted::Held => None,
        Acted::Nothing => None,
    }
}

fn mark_of<'a, L: Link + Drop, A: App<S>, S: Spill + Send + Drop>(lane: &Lane<'a, L, A, S>) -> Mark
    ensures holds { MarkHolds lane.now.fixed.window result lane.now.shown }
{
    if lane.due() { Mark::Works } else { Mark::Rests }
}

// Reads what came, makes steps, and sends at once what they wrote.
fn converse<'a, L: Link + Drop, A: App<S>, S: Spill + Send + Drop, P: Spills<Spill = S>>(
    lane: &mut Lane<'a, L, A, S>,
    ready: Want,
    now: u64,
    recv_room: &mut [u8],
    send_room: &mut [u8],
    spills: &mut P,
) -> Mark
    requires recv_room { length recv_room.old ≡ lane.old.fixed.window.recv_bytes }
    requires send_room { length send_room.old ≡ 65536 }
    requires up { IsUp lane.old.shown }
    requires asks { asked_of ready ≡ want_of lane.old.fixed.window
        (viewed (eyes_of L.Link) lane.old) }
    requires called { IsCalled lane.old.fixed.window ready lane.old.shown }
    ensures goes { Goes (eyes_of L.Link) now lane.old lane.new }
    ensures attends { OverOrMarked now lane.old.fixed.window result (viewed
        (eyes_of L.Link) lane.new) (Attends L.tells lane.old.fixed.window ready (viewed
        (eyes_of L.Link) lane.old) (viewed (eyes_of L.Link) lane.new)) }
    ensures spills { P.faults spills.new ≡ P.faults spills.old }
{
    match hear(lane, ready, now, recv_room, spills) {
        Some(end) => return Mark::Over(end),
        None => {}
    }
    stride(lane);
    match speak(lane, now, send_room) {
        Some(end) => Mark::Over(end),
        None => mark_of(lane),
    }
}

// Whether a seat is looked at in a turn.
fn is_called(ready: Want, mark: Mark) -> bool
    ensures uncalled { result ≡ false → IsUncalled ready mark }
    ensures rested { IsUncalled ready mark → result ≡ false }
{
    let rests = match mark {
        Mark::Rests => true,
        Mark::Works | Mark::Over(_) => false,
    };
    !rests || (ready.read && ready.may_read) || (ready.write && ready.may_write)
}

// What an idle check leaves of a channel.
fn pass<'a, L: Link + Drop, A: App<S>, S: Spill + Send + Drop>(
    lane: &mut Lane<'a, L, A, S>,
    now: u64,
    room: &mut [u8],
) -> Mark
    requires room { length room.old ≡ 65536 }
    requires up { IsUp lane.old.shown }
    ensures goes { Goes (eyes_of L.Link) now lane.old lane.new }
    ensures passes { OverOrMarked now lane.old.fixed.window result (viewed
        (eyes_of L.Link) lane.new) (Passes L.tells now lane.old.fixed.window (viewed
        (eyes_of L.Link) lane.old) (viewed (eyes_of L.Link) lane.new)) }
{
    match lane.check_idle(now, room) {
        Acted::Over(end) => Mark::Over(end),
        Acted::Did => mark_of(lane),
        Acted::Held => mark_of(lane),
        Acted::Nothing => mark_of(lane),
    }
}

impl<'a, L: Link + Drop, A: App<S>, S: Spill + Send + Drop> Seat<'a, L, A, S> {
    /// One connection's part of a turn.
    pub(crate) fn attend<P: Spills<Spill = S>>(
        &mut self,
        ready: Want,
        now: u64,
        recv_room: &mut [u8],
        send_room: &mut [u8],
        spills: &mut P,
    )
        requires recv_room { length recv_room.old ≡ self.old.lane.fixed.window.recv_bytes }
        requires send_room { length send_room.old ≡ 65536 }
        requires holds { SeatHolds self.old.lane.fixed.window self.old.want self.old.mark (viewed
            (eyes_of L.Link) self.old.lane) }
        requires asks { asked_of ready ≡ asked_of self.old.want }
        ensures goes { Goes (eyes_of L.Link) now self.old.lane self.new.lane }
        ensures attends { OverOrHolds now self.old.lane.fixed.window self.new.want self.new.mark
            (viewed (eyes_of L.Link) self.new.lane)
            (Attends L.tells self.old.lane.fixed.window ready (viewed
            (eyes_of L.Link) self.old.lane) (viewed (eyes_of L.Link) self.new.lane)) }
        ensures spills { P.faults spills.new ≡ P.faults spills.old }
    {
        if !is_called(ready, self.mark) {
            return;
        }
        self.mark = converse(&mut self.lane, ready, now, recv_room, send_room, spills);
        self.want = self.lane.want();
    }

    /// One connection's part of an idle check.
    pub(crate) fn check(&mut self, now: u64, room: &mut [u8])
        requires room { length room.old ≡ 65536 }
        requires up { IsUp self.old.lane.shown }
        ensures goes { Goes (eyes_of L.Link) now self.old.lane self.new.lane }
        ensures passes { OverOrHolds now self.old.lane.fixed.window self.new.want self.new.mark
            (viewed (eyes_of L.Link) self.new.lane)
            (Passes L.tells now self.old.lane.fixed.window (viewed (eyes_of L.Link) self.old.lane)
            (viewed (eyes_of L.Link) self.new.lane)) }
    {
        self.mark = pass(&mut self.lane, now, room);
        self.want = self.lane.want();
    }

    /// Whether it is not to be retired.
    pub(crate) fn is_open(&self) -> bool
        ensures { result ≡ is_open self.now.mark }
    {
        match self.mark {
            Mark::Over(_) => false,
            Mark::Rests | Mark::Works => true,
        }
    }
}
