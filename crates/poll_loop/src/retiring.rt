//! From a seat to the entry of a connection that was retired.
ghost use Rattle.std.specs.Prelude.{◌≡◌, ◌≤◌, ◌<◌, ◌+◌, IsTrue, [], ◌∷◌, All, Some, length, filter};
ghost use Rattle.std.specs.Prelude.{vec_capacity};
ghost use Rattle.channel.specs.Views.{over_of};
ghost use Rattle.outside.specs.Net.{last_moment};
ghost use Rattle.poll_loop.specs.Accounts.{Accounts, books};
ghost use Rattle.poll_loop.specs.Connections.{Counted, IsOpenedBy, OnlyRetires, SeatIsTimely};
ghost use Rattle.poll_loop.specs.Connections.{ShutsDown, holds_down, holds_on, is_kept, seated};
ghost use Rattle.poll_loop.specs.Entries.{IsTimely, is_app_fault};
ghost use Rattle.poll_loop.specs.Lists.{EachIs};
ghost use Rattle.poll_loop.specs.Retiring.{EndsAt, Keeps, PutsRun, Settles};
ghost use Rattle.poll_loop.specs.Seat.{BearsMoment, SeatOut, eyes_of};
ghost use Rattle.poll_loop.specs.Settings.{fixed_by};

use crate::connections::Connections;
use crate::seat::{Mark, Seat};
use crate::settings::Settings;
use channel::{Closed, Lane};
use outside::{End, Link, Net, Spill, Spills};
use wsgi::{App, AppRun};

// The end by which a seat is to be retired, where it is.
fn end_at(mark: Mark) -> Option<End>
    ensures { EndsAt mark result }
{
    match mark {
        Mark::Over(end) => Some(end),
        Mark::Rests => None,
        Mark::Works => None,
    }
}

// Settles a spill, where there is one.
fn settle_spill<P: Spills>(broken: Option<P::Spill>, spills: &mut P)
    ensures settles { Settles P.Spill.faults broken (P.faults spills.old) (P.faults spills.new) }
{
    match broken {
        Some(spill) => spills.settle(spill),
        None => {}
    }
}

// Settles the spill of a run, where there is one.
fn settle_run<R: AppRun<P::Spill>, P: Spills>(run: Option<R>, spills: &mut P)
    ensures settles { Settles R.spill_faults run (P.faults spills.old) (P.faults spills.new) }
{
    match run {
        Some(run) => spills.settle(run.into_spill()),
        None => {}
    }
}

// Keeps a run, where there is one.
fn keep_run<R: Drop>(run: Option<R>, fallen: &mut Vec<R>)
    requires room { length fallen.old.items + 1 ≤ vec_capacity fallen.old }
    ensures keeps { Keeps run fallen.old.items fallen.new.items }
    ensures capacity { vec_capacity fallen.old ≤ vec_capacity fallen.new }
{
    match run {
        Some(run) => match fallen.push(run) {
            Ok(()) => {}
            Err(_) => unreachable!(),
        },
        None => {}
    }
}

fn is_by_app(end: End) -> bool
    ensures { result ≡ is_app_fault end }
{
    match end {
        End::AppFault => true,
        End::Done => false,
        End::LinkFault => false,
        End::SpillFault => false,
        End::NoMemory => false,
        End::ShutDown => false,
        End::TimedOut { .. } => false,
    }
}

// Keeps a run that ended its connection, and settles the spill of any other.
fn put_run<R: AppRun<P::Spill> + Drop, P: Spills>(
    end: End,
    run: Option<R>,
    fallen: &mut Vec<R>,
    spills: &mut P,
)
    requires room { length fallen.old.items + 1 ≤ vec_capacity fallen.old }
    ensures puts { PutsRun (is_app_fault end) R.spill_faults run fallen.old.items fallen.new.items
        (P.faults spills.old) (P.faults spills.new) }
    ensures capacity { vec_capacity fallen.old ≤ vec_capacity fallen.new }
{
    if is_by_app(end) {
        keep_run(run, fallen);
    } else {
        settle_run(run, spills);
    }
}

// Retires one connection. A spill that broke it is settled, and a run that broke it is kept.
fn retire_lane<'a, N: Net, A: App<P::Spill>, P: Spills>(
    lane: Lane<'a, N::Link, A, P::Spill>,
    end: End,
    app: &'a A,
    settings: &Settings,
    fallen: &mut Vec<A::Run>,
    net: &mut N,
    spills: &mut P,
)
    requires over { over_of lane.shown ≡ Some end }
    requires bears { IsTrue N.tells → BearsMoment (last_moment (N.state net.old).last) end }
    requires by { lane.fixed ≡ fixed_by settings.now app.now lane.peer }
    requires live { IsTrue N.tells → 1 ≤ (N.state net.old).live }
    requires timely { IsTrue N.tells → IsTrue N.Link.tells → IsTimely (N.state net.old)
        (N.Link.state lane.link) }
    requires room { length fallen.old.items + 1 ≤ vec_capacity fallen.old }
    requires broke { All (λ run. 0 < A.Run.faults run) fallen.old.items }
    ensures accounts { IsTrue N.tells → Accounts
        (holds_on N.Link.Link P.Spill.Spill A.App A.Run.AppRun settings.now app.now) N.Link.plan
        (books (N.state net.old) (P.faults spills.old) (length fallen.old.items)
        ((lane.entry.peer, N.Link.plan lane.entry.link) ∷ []))
        (books (N.state net.new) (P.faults spills.new) (length fallen.new.items) []) }
    ensures net { IsTrue N.tells → OnlyRetires (N.state net.old) (N.state net.new) }
    ensures room { length fallen.new.items ≤ length fallen.old.items + 1 }
    ensures capacity { vec_capacity fallen.old ≤ vec_capacity fallen.new }
    ensures broke { All (λ run. 0 < A.Run.faults run) fallen.new.items }
    ensures bind { N.bind_faults net.new ≡ N.bind_faults net.old }
    ensures polls { N.poll_faults net.new ≡ N.poll_faults net.old }
    ensures nobody { N.nobody net.old → N.nobody net.new }
    ensures plan { N.plan net.new ≡ N.plan net.old }
    ensures moment { N.moment net.new ≡ N.moment net.old }
    ensures spills { P.faults spills.old ≤ P.faults spills.new }
{
    let (closed, _) = lane.close();
    let Closed {
        link,
        peer,
        broken,
        fallen: run,
    } = closed;
    settle_spill(broken, spills);
    put_run(end, run, fallen, spills);
    net.retire(link, peer, end);
}

// One more was retired, of those that were accepted.
fn one_more(retired: u64, accepted: u64) -> u64
    ensures { retired < accepted → result ≡ retired + 1 }
{
    retired.saturating_add(1)
}

/// Retires all that are over, in their order.
pub(crate) fn retire_over<'a, N: Net, A: App<P::Spill>, P: Spills>(
    connections: &mut Connections<'a, N::Link, A, P::Spill>,
    app: &'a A,
    settings: &Settings,
    moment: u64,
    net: &mut N,
    spills: &mut P,
)
    requires out { EachIs (SeatOut (eyes_of N.Link.Link) moment settings.now.window)
        connections.old.seats.items }
    requires by { EachIs (IsOpenedBy settings.now app.now) connections.old.seats.items }
    requires room { IsTrue N.tells → length connections.old.seats.items ≤ (N.state net.old).live }
    requires timely { IsTrue N.tells → EachIs (SeatIsTimely (eyes_of N.Link.Link)
        (N.state net.old)) connections.old.seats.items }
    requires moment { IsTrue N.tells → last_moment (N.state net.old).last ≡ moment }
    requires counted { Counted settings.now.serve_limit connections.old.accepted
        connections.old.retired (length connections.old.seats.items) }
    requires shelf { length connections.old.fallen.items + length connections.old.seats.items ≤
        vec_capacity connections.old.fallen }
    requires broke { All (λ run. 0 < A.Run.faults run) connections.old.fallen.items }
    ensures kept { connections.new.seats.items ≡ filter is_kept connections.old.seats.items }
    ensures accounts { IsTrue N.tells → Accounts
        (holds_on N.Link.Link P.Spill.Spill A.App A.Run.AppRun settings.now app.now) N.Link.plan
        (books (N.state net.old) (P.faults spills.old) (length connections.old.fallen.items)
        (seated (eyes_of N.Link.Link) connections.old.seats.items))
        (books (N.state net.new) (P.faults spills.new) (length connections.new.fallen.items)
        (seated (eyes_of N.Link.Link) connections.new.seats.items)) }
    ensures net { IsTrue N.tells → OnlyRetires (N.state net.old) (N.state net.new) }
    ensures counted { Counted settings.now.serve_limit connections.new.accepted
        connections.new.retired (length connections.new.seats.items) }
    ensures shelf { length connections.new.fallen.items + length connections.new.seats.items ≤
        vec_capacity connections.new.fallen }
    ensures broke { All (λ run. 0 < A.Run.faults run) connections.new.fallen.items }
    ensures accepted { connections.new.accepted ≡ connections.old.accepted }
    ensures bind { N.bind_faults net.new ≡ N.bind_faults net.old }
    ensures polls { N.poll_faults net.new ≡ N.poll_faults net.old }
    ensures nobody { N.nobody net.old → N.nobody net.new }
    ensures plan { N.plan net.new ≡ N.plan net.old }
    ensures moment { N.moment net.new ≡ N.moment net.old }
    ensures spills { P.faults spills.old ≤ P.faults spills.new }
{
    let mut i = 0;
    while i < connections.seats.len() {
        match end_at(connections.seats[i].mark) {
            Some(end) => {
                let Seat { lane, .. } = connections.seats.remove(i);
                retire_lane(
                    lane,
                    end,
                    app,
                    settings,
                    &mut connections.fallen,
                    net,
                    spills,
                );
                connections.retired = one_more(connections.retired, connections.accepted);
            }
            None => i += 1,
        }
    }
}

// Retires one connection, since the server goes down.
fn shut_lane<'a, N: Net, A: App<S>, S: Spill + Send + Drop>(
    lane: Lane<'a, N::Link, A, S>,
    app: &'a A,
    settings: &Settings,
    net: &mut N,
)
    requires by { lane.fixed ≡ fixed_by settings.now app.now lane.peer }
    requires live { IsTrue N.tells → 1 ≤ (N.state net.old).live }
    requires timely { IsTrue N.tells → IsTrue N.Link.tells → IsTimely (N.state net.old)
        (N.Link.state lane.link) }
    ensures shuts { IsTrue N.tells → ShutsDown
        (holds_down N.Link.Link S.Spill A.App A.Run.AppRun settings.now app.now
        (N.state net.new)) N.Link.plan
        ((lane.entry.peer, N.Link.plan lane.entry.link) ∷ [])
        (N.state net.old) (N.state net.new) }
    ensures bind { N.bind_faults net.new ≡ N.bind_faults net.old }
    ensures polls { N.poll_faults net.new ≡ N.poll_faults net.old }
    ensures plan { N.plan net.new ≡ N.plan net.old }
    ensures moment { N.moment net.new ≡ N.moment net.old }
{
    let (closed, _) = lane.close();
    let Closed { link, peer, .. } = closed;
    net.retire(link, peer, End::ShutDown);
}

/// Retires all that are open, since the server goes down.
pub(crate) fn shut_down<'a, N: Net, A: App<P::Spill>, P: Spills>(
    connections: &mut Connections<'a, N::Link, A, P::Spill>,
    app: &'a A,
    settings: &Settings,
    net: &mut N,
    spills: &mut P,
)
    requires by { EachIs (IsOpenedBy settings.now app.now) connections.old.seats.items }
    requires room { IsTrue N.tells → length connections.old.seats.items ≤ (N.state net.old).live }
    requires timely { IsTrue N.tells → EachIs (SeatIsTimely (eyes_of N.Link.Link)
        (N.state net.old)) connections.old.seats.items }
    requires counted { Counted settings.now.serve_limit connections.old.accepted
        connections.old.retired (length connections.old.seats.items) }
    requires shelf { length connections.old.fallen.items + length connections.old.seats.items ≤
        vec_capacity connections.old.fallen }
    ensures empty { connections.new.seats.items ≡ [] }
    ensures fallen { connections.new.fallen.items ≡ connections.old.fallen.items }
    ensures shuts { IsTrue N.tells → ShutsDown
        (holds_down N.Link.Link P.Spill.Spill A.App A.Run.AppRun settings.now app.now
        (N.state net.new)) N.Link.plan
        (seated (eyes_of N.Link.Link) connections.old.seats.items)
        (N.state net.old) (N.state net.new) }
    ensures counted { Counted settings.now.serve_limit connections.new.accepted
        connections.new.retired (length connections.new.seats.items) }
    ensures shelf { length connections.new.fallen.items + length connections.new.seats.items ≤
        vec_capacity connections.new.fallen }
    ensures accepted { connections.new.accepted ≡ connections.old.accepted }
    ensures bind { N.bind_faults net.new ≡ N.bind_faults net.old }
    ensures polls { N.poll_faults net.new ≡ N.poll_faults net.old }
    ensures plan { N.plan net.new ≡ N.plan net.old }
    ensures moment { N.moment net.new ≡ N.moment net.old }
    ensures spills { P.faults spills.new ≡ P.faults spills.old }
{
    while !connections.seats.is_empty() {
        let Seat { lane, .. } = connections.seats.remove(0);
        shut_lane(lane, app, settings, net);
        connections.retired = one_more(connections.retired, connections.accepted);
    }
}
