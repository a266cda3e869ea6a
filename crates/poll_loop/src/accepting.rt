//! From an accept to a seat.
ghost use Rattle.std.specs.Prelude.{◌≡◌, ◌≤◌, ◌<◌, ◌+◌, ◌&&◌, ◌-◌, ◌^◌, false, IsTrue, IsSome};
ghost use Rattle.std.specs.Prelude.{IfNone, IfErr, OnOk, OnErr, length, nat_lt};
ghost use Rattle.outside.specs.Link.{opened};
ghost use Rattle.poll_loop.specs.Connections.{AcceptsAll, Admits, CameAll, CameBy, CameCause};
ghost use Rattle.poll_loop.specs.Connections.{CameUntil, CanAdmit, CountsMore, FaultCause, HasShelf};
ghost use Rattle.poll_loop.specs.Connections.{IsCounted, LeavesNobody, SamePolls, SeatsOne, Stays};
ghost use Rattle.poll_loop.specs.Connections.{Takes};
ghost use Rattle.poll_loop.specs.NoIdle.{Answers};
ghost use Rattle.poll_loop.specs.Seat.{eyes_of};
ghost use Rattle.poll_loop.specs.Settings.{AreUsable, is_below};

use crate::connections::{Came, Connections};
use crate::seat::{Mark, Seat};
use crate::settings::{ServeFault, Settings};
use channel::open_lane;
use outside::{End, Link, Net, NetFault, Peer, Spill, Spills};
use std::alloc::Global;
use std::marker::PhantomData;
use wsgi::App;

/// What a connection is opened by, and when.
#[derive(Drop)]
pub(crate) struct Opening<'a, A> {
    pub(crate) alloc: Global,
    pub(crate) app: &'a A,
    pub(crate) settings: &'a Settings,
    pub(crate) moment: u64,
}

// Whether fewer than are to be served were counted.
pub(crate) fn below(limit: Option<u64>, count: u64) -> bool
    ensures below { result ≡ is_below limit count }
    ensures more { IsTrue result → IsSome limit → count < 2 ^ 64 - 1 }
{
    match limit {
        None => true,
        Some(limit) => count < limit,
    }
}

/// Whether there is room for a connection and more are to be served.
pub(crate) fn accepts(settings: &Settings, seats: usize, accepted: u64) -> bool
    ensures room { result ≡ (nat_lt seats settings.now.connection_limit && is_below
        settings.now.serve_limit accepted) }
    ensures more { IsTrue result → IsSome settings.now.serve_limit → accepted < 2 ^ 64 - 1 }
{
    (seats as u64) < settings.connection_limit && below(settings.serve_limit, accepted)
}

// Gives a new connection a seat, and keeps room for its run. Hands it back where memory is refused.
fn seat_link<'a, L: Link + Drop, A: App<P::Spill>, P: Spills>(
    connections: &mut Connections<'a, L, A, P::Spill>,
    opening: &Opening<'a, A>,
    link: L,
    peer: Peer,
    spills: &mut P,
) -> Result<(), (L, Peer)>
    requires usable { AreUsable opening.now.settings.now }
    requires shelf { HasShelf connections.old }
    requires fresh { IsTrue L.tells → L.state link ≡ opened opening.now.moment }
    ensures seated { OnOk result (SeatsOne (eyes_of L.Link) opening.now.settings.now
        opening.now.app.now opening.now.moment link peer connections.old.seats.items
        connections.new.seats.items) }
    ensures back { IfErr result (λ back. (back.0 ≡ link) × (back.1 ≡ peer)) }
    ensures kept { OnErr result (connections.new.seats.items ≡ connections.old.seats.items) }
    ensures fallen { connections.new.fallen.items ≡ connections.old.fallen.items }
    ensures accepted { connections.new.accepted ≡ connections.old.accepted }
    ensures retired { connections.new.retired ≡ connections.old.retired }
    ensures shelf { HasShelf connections.new }
    ensures spills { P.faults spills.new ≡ P.faults spills.old }
{
    let more = connections.seats.len() + 1;
    if connections.fallen.reserve(more).is_err() || connections.seats.reserve(1).is_err() {
        return Err((link, peer));
    }
    let Opening {
        alloc,
        app,
        settings,
        moment,
    } = *opening;
    let lane = open_lane(
        alloc,
        moment,
        link,
        peer,
        settings.limits,
        settings.window,
        app,
        &settings.site,
        spills,
    )?;
    let want = lane.want();
    let seat = Seat {
        lane,
        want,
        mark: Mark::Rests,
        app: PhantomData,
    };
    match connections.seats.push(seat) {
        Ok(()) => Ok(()),
        Err(_) => unreachable!(),
    }
}

// Accepts once.
fn accept_one<'a, N: Net, A: App<P::Spill>, P: Spills>(
    connections: &mut Connections<'a, N::Link, A, P::Spill>,
    opening: &Opening<'a, A>,
    net: &mut N,
    spills: &mut P,
) -> Came
    requires admits { CanAdmit N.tells opening.now (N.state net.old) connections.old }
    requires more { IsTrue (is_below opening.now.settings.now.serve_limit
        connections.old.accepted) }
    requires bounded { IsSome opening.now.settings.now.serve_limit →
        connections.old.accepted < 2 ^ 64 - 1 }
    ensures takes { Takes (eyes_of N.Link.Link) opening.now.settings.now
        opening.now.app.now opening.now.moment connections.old.seats.items
        connections.new.seats.items }
    ensures few { length connections.new.seats.items ≤ length connections.old.seats.items + 1 }
    ensures accounts { IsTrue N.tells → Admits N.Link.Link P.Spill.Spill A.App A.Run.AppRun
        opening.now connections.old connections.new (N.state net.old) (N.state net.new)
        (P.faults spills.old) (P.faults spills.new) }
    ensures same_polls { IsTrue N.tells → SamePolls (N.state net.old) (N.state net.new) }
    ensures came { IsTrue N.tells → CameBy result (N.state net.old) (N.state net.new) }
    ensures nobody { LeavesNobody result (N.nobody net.new) }
    ensures cause { CameCause result (N.poll_faults net.old) (N.poll_faults net.new) }
    ensures counted { IsCounted opening.now.settings.now connections.new }
    ensures came_more { IsTrue N.tells → CountsMore opening.now.settings.now connections.old
        connections.new (N.state net.old) (N.state net.new) }
    ensures stays { Stays N.Net P.Spills connections.old connections.new net.old net.new spills.old
        spills.new }
{
    match net.accept(opening.alloc, opening.moment) {
        Ok(Some((link, peer))) => {
            connections.accepted = connections.accepted.saturating_add(1);
            match seat_link(connections, opening, link, peer, spills) {
                Ok(()) => Came::One,
                Err((link, peer)) => {
                    net.retire(link, peer, End::NoMemory);
                    connections.retired = connections.retired.saturating_add(1);
                    Came::One
                }
            }
        }
        Ok(None) => Came::Nobody,
        Err(NetFault::Failed) => Came::Failed,
        Err(NetFault::NoMemory) => Came::NoMemory,
    }
}

/// Accepts while there is room for a connection and more are to be served.
fn accept_all<'a, N: Net, A: App<P::Spill>, P: Spills>(
    connections: &mut Connections<'a, N::Link, A, P::Spill>,
    opening: &Opening<'a, A>,
    net: &mut N,
    spills: &mut P,
) -> Came
    requires admits { CanAdmit N.tells opening.now (N.state net.old) connections.old }
    requires more { IsTrue (nat_lt (length connections.old.seats.items)
        opening.now.settings.now.connection_limit
        && is_below opening.now.settings.now.serve_limit connections.old.accepted) }
    ensures takes { Takes (eyes_of N.Link.Link) opening.now.settings.now
        opening.now.app.now opening.now.moment connections.old.seats.items
        connections.new.seats.items }
    ensures within { length connections.new.seats.items ≤ opening.now.settings.now.connection_limit }
    ensures accounts { IsTrue N.tells → Admits N.Link.Link P.Spill.Spill A.App A.Run.AppRun
        opening.now connections.old connections.new (N.state net.old) (N.state net.new)
        (P.faults spills.old) (P.faults spills.new) }
    ensures same_polls { IsTrue N.tells → SamePolls (N.state net.old) (N.state net.new) }
    ensures came { IsTrue N.tells → CameAll result (N.state net.old) (N.state net.new) }
    ensures all { IsTrue N.tells → CameUntil result opening.now.settings.now (N.nobody net.new)
        (length connections.old.seats.items)
        connections.new.accepted (N.state net.old) (N.state net.new) }
    ensures cause { CameCause result (N.poll_faults net.old) (N.poll_faults net.new) }
    ensures counted { IsCounted opening.now.settings.now connections.new }
    ensures came_more { IsTrue N.tells → CountsMore opening.now.settings.now connections.old
        connections.new (N.state net.old) (N.state net.new) }
    ensures stays { Stays N.Net P.Spills connections.old connections.new net.old net.new spills.old
        spills.new }
{
    for _ in 0..opening.settings.connection_limit {
        if !accepts(
            opening.settings,
            connections.seats.len(),
            connections.accepted,
        ) {
            return Came::One;
        }
        match accept_one(connections, opening, net, spills) {
            Came::One => {}
            came => return came,
        }
    }
    Came::One
}

/// The same, where the poll told that somebody came.
pub(crate) fn accept_if<'a, N: Net, A: App<P::Spill>, P: Spills>(
    connections: &mut Connections<'a, N::Link, A, P::Spill>,
    opening: &Opening<'a, A>,
    come: bool,
    net: &mut N,
    spills: &mut P,
) -> Option<ServeFault>
    requires admits { CanAdmit N.tells opening.now (N.state net.old) connections.old }
    requires more { IsTrue come → IsTrue (nat_lt (length connections.old.seats.items)
        opening.now.settings.now.connection_limit
        && is_below opening.now.settings.now.serve_limit connections.old.accepted) }
    ensures takes { Takes (eyes_of N.Link.Link) opening.now.settings.now
        opening.now.app.now opening.now.moment connections.old.seats.items
        connections.new.seats.items }
    ensures within { length connections.old.seats.items ≤ opening.now.settings.now.connection_limit
        →
        length connections.new.seats.items ≤ opening.now.settings.now.connection_limit }
    ensures accounts { IsTrue N.tells → Admits N.Link.Link P.Spill.Spill A.App A.Run.AppRun
        opening.now connections.old connections.new (N.state net.old) (N.state net.new)
        (P.faults spills.old) (P.faults spills.new) }
    ensures same_polls { IsTrue N.tells → SamePolls (N.state net.old) (N.state net.new) }
    ensures answers { IfNone result (IsTrue come → IsTrue N.tells → Answers (N.state net.old)
        (N.state net.new)) }
    ensures all { IfNone result (IsTrue come → IsTrue N.tells → AcceptsAll opening.now.settings.now
        (N.nobody net.new) (length connections.old.seats.items) connections.new.accepted
        (N.state net.old) (N.state net.new)) }
    ensures uncalled { come ≡ false → IsTrue N.tells → (N.state net.new).given ≡
        (N.state net.old).given }
    ensures cause { FaultCause result (N.poll_faults net.old) (N.poll_faults net.new) }
    ensures counted { IsCounted opening.now.settings.now connections.new }
    ensures came_more { IsTrue N.tells → CountsMore opening.now.settings.now connections.old
        connections.new (N.state net.old) (N.state net.new) }
    ensures stays { Stays N.Net P.Spills connections.old connections.new net.old net.new spills.old
        spills.new }
{
    if !come {
        return None;
    }
    match accept_all(connections, opening, net, spills) {
        Came::One | Came::Nobody => None,
        Came::Failed => Some(ServeFault::Net),
        Came::NoMemory => Some(ServeFault::NoMemory),
    }
}
