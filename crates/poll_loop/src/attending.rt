//! The part of a turn that is each connection's own.
ghost use Rattle.std.specs.Prelude.{◌≡◌, length};
ghost use Rattle.poll_loop.specs.Lists.{Both, EachIs, Paired, UpTo};
ghost use Rattle.poll_loop.specs.Seat.{Labours, SeatAsks, SeatChecks, SeatOut, SeatRests};
ghost use Rattle.poll_loop.specs.Seat.{SeatTurns, eyes_of};

use crate::seat::Seat;
use channel::Window;
use outside::{Link, Spill, Spills, Want};
use wsgi::App;

/// What a turn of all connections goes by: its moment, and whether an idle check is due.
#[derive(Clone, Copy)]
pub(crate) struct Round {
    pub(crate) now: u64,
    pub(crate) due: bool,
    pub(crate) window: Window,
}

/// Buffers that are lent to each connection in turn.
#[derive(Drop)]
pub(crate) struct Rooms {
    pub(crate) recv: Vec<u8>,
    pub(crate) send: Vec<u8>,
    ghost send_len: { length send.items ≡ 65536 },
}

// The part of a turn of each connection that the poll was asked for, in the order in which they
// came.
fn attend_all<'a, L: Link + Drop, A: App<S>, S: Spill + Send + Drop, P: Spills<Spill = S>>(
    seats: &mut [Seat<'a, L, A, S>],
    wants: &[Want],
    round: Round,
    rooms: &mut Rooms,
    spills: &mut P,
)
    requires recv { length rooms.old.recv.items ≡ round.window.recv_bytes }
    requires asks { Paired (SeatAsks (eyes_of L.Link) round.window) wants.now seats.old }
    ensures turns { UpTo (SeatTurns (eyes_of L.Link) round.now round.window)
        (length wants.now) wants.now seats.old seats.new }
    ensures rooms { length rooms.new.recv.items ≡ length rooms.old.recv.items }
    ensures spills { P.faults spills.new ≡ P.faults spills.old }
{
    for i in 0..seats.len() {
        if i >= wants.len() {
            return;
        }
        let ready = wants[i];
        seats[i].attend(
            ready,
            round.now,
            rooms.recv.as_mut_slice(),
            rooms.send.as_mut_slice(),
            spills,
        );
    }
}

// The idle check of all connections that aren't over.
fn check_all<'a, L: Link + Drop, A: App<S>, S: Spill + Send + Drop>(
    seats: &mut [Seat<'a, L, A, S>],
    round: Round,
    rooms: &mut Rooms,
)
    requires out { EachIs (SeatOut (eyes_of L.Link) round.now round.window) seats.old }
    ensures checks { Both (SeatChecks (eyes_of L.Link) round.now round.window) seats.old seats.new }
    ensures rooms { length rooms.new.recv.items ≡ length rooms.old.recv.items }
{
    for i in 0..seats.len() {
        if seats[i].is_open() {
            seats[i].check(round.now, rooms.send.as_mut_slice());
        }
    }
}

// Reads, makes steps and sends where something is ready or due, and makes the idle check where that
// is due.
fn labour<'a, L: Link + Drop, A: App<S>, S: Spill + Send + Drop, P: Spills<Spill = S>>(
    seats: &mut [Seat<'a, L, A, S>],
    wants: &[Want],
    round: Round,
    rooms: &mut Rooms,
    spills: &mut P,
)
    requires rest { EachIs (SeatRests (eyes_of L.Link) round.window) seats.old }
    requires asks { Paired (SeatAsks (eyes_of L.Link) round.window) wants.now seats.old }
    requires recv { length rooms.old.recv.items ≡ round.window.recv_bytes }
    ensures labours { Labours round.due (eyes_of L.Link) round.now round.window wants.now seats.old
        seats.new }
    ensures out { EachIs (SeatOut (eyes_of L.Link) round.now round.window) seats.new }
    ensures rooms { length rooms.new.recv.items ≡ length rooms.old.recv.items }
    ensures spills { P.faults spills.new ≡ P.faults spills.old }
{
    attend_all(seats, wants, round, rooms, spills);
    if round.due {
        check_all(seats, round, rooms);
    }
}

/// The same of the connections of a server.
pub(crate) fn labour_all<
    'a,
    L: Link + Drop,
    A: App<S>,
    S: Spill + Send + Drop,
    P: Spills<Spill = S>,
>(
    seats: &mut Vec<Seat<'a, L, A, S>>,
    wants: &[Want],
    round: Round,
    rooms: &mut Rooms,
    spills: &mut P,
)
    requires recv { length rooms.old.recv.items ≡ round.window.recv_bytes }
    requires asks { Paired (SeatAsks (eyes_of L.Link) round.window) wants.now seats.old.items }
    requires rest { EachIs (SeatRests (eyes_of L.Link) round.window) seats.old.items }
    ensures labours { Labours round.due (eyes_of L.Link) round.now round.window wants.now
        seats.old.items seats.new.items }
    ensures out { EachIs (SeatOut (eyes_of L.Link) round.now round.window) seats.new.items }
    ensures rooms { length rooms.new.recv.items ≡ length rooms.old.recv.items }
    ensures spills { P.faults spills.new ≡ P.faults spills.old }
{
    labour(seats.as_mut_slice(), wants, round, rooms, spills);
}
