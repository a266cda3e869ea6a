//! One turn.
ghost use Rattle.std.specs.Prelude.{◌≡◌, ◌≤◌, ◌+◌, ◌⊎◌, false, IsTrue, OnOk, None, length, nat_le};
ghost use Rattle.std.specs.Prelude.{take};
ghost use Rattle.outside.specs.Causes.{raised};
ghost use Rattle.poll_loop.specs.Accounts.{LastKnows};
ghost use Rattle.poll_loop.specs.Connections.{Gathers, IsAsked, IsNow, OnlyRetires, SamePolls};
ghost use Rattle.poll_loop.specs.Connections.{works};
ghost use Rattle.poll_loop.specs.Lists.{Paired};
ghost use Rattle.poll_loop.specs.NoIdle.{Hosts, NoIdle, checked_by, is_accepting};
ghost use Rattle.poll_loop.specs.Seat.{SeatAsks, eyes_of};
ghost use Rattle.poll_loop.specs.Server.{Carries, IsSameServer, KeepsAccounts, LeavesRest, Stands};
ghost use Rattle.poll_loop.specs.Server.{StepAccounts, StepCause, WorksOff, answer_of, serving};

use crate::accepting::{Opening, accept_if, accepts, below};
use crate::attending::{Round, labour_all};
use crate::retiring::retire_over;
use crate::seat::{Mark, Seat};
use crate::server::Server;
use crate::settings::{Going, ServeFault};
use outside::{Link, Net, Spill, Spills, Turn, Want};
use std::alloc::AllocError;
use wsgi::App;

// It tells a poll that work is waiting which needs no bytes. It asks nothing of a link, so its key
// is nobody's.
const NUDGE: Want = Want {
    key: 0,
    read: false,
    write: false,
    may_read: false,
    may_write: false,
};

fn has_step(mark: Mark) -> bool
    ensures { result ≡ works mark }
{
    match mark {
        Mark::Works => true,
        Mark::Rests | Mark::Over(_) => false,
    }
}

// The wants of all, and one that asks nothing where one of them has a step to make.
fn gather<'a, L: Link, A: App<S>, S: Spill>(
    seats: &[Seat<'a, L, A, S>],
    wants: &mut Vec<Want>,
) -> Result<(), AllocError>
    ensures { OnOk result (Gathers seats.now wants.new.items) }
{
    wants.clear();
    let mut has_some = false;
    for seat in seats {
        wants.push(seat.want)?;
        has_some = has_some || has_step(seat.mark);
    }
    if has_some {
        wants.push(NUDGE)?;
    }
    Ok(())
}

// The moment from which the next idle check is counted.
fn counted_from(now: u64, checked: Option<u64>) -> u64
    ensures { result ≡ checked_by now checked }
{
    match checked {
        None => now,
        Some(moment) => moment,
    }
}

// Whether an idle check is due.
fn is_check_due(now: u64, from: u64, interval: u64) -> bool
    ensures { result ≡ nat_le (from + interval) now }
{
    match from.checked_add(interval) {
        Some(moment) => moment <= now,
        None => false,
    }
}

/// Why serving ends with a turn.
#[derive(Clone, Copy, Debug, PartialEq, Eq)]
pub(crate) enum Why {
    Stopped,
    LimitMet,
    Failed(ServeFault),
}

impl Why {
    pub(crate) fn answer(self) -> Result<Going, ServeFault>
        ensures { result ≡ answer_of self }
    {
        match self {
            Why::Stopped => Ok(Going::Stopped),
            Why::LimitMet => Ok(Going::LimitMet),
            Why::Failed(fault) => Err(fault),
        }
    }
}

impl<'a, N: Net, A: App<P::Spill>, P: Spills> Server<'a, N, A, P> {
    // Reads, makes steps, sends, makes the idle check where it is due, and retires what is over.
    // The poll was asked for the first so many connections.
    fn work(&mut self, asked: usize, now: u64, net: &mut N, spills: &mut P)
        requires stands { Stands (eyes_of N.Link.Link) A.Run.faults self.old }
        requires asks { Paired (SeatAsks (eyes_of N.Link.Link) self.old.settings.now.window)
            (take asked self.old.wants.items) self.old.connections.seats.items }
        requires all { asked ≤ length self.old.wants.items }
        requires hosts { IsTrue N.tells → Hosts (eyes_of N.Link.Link) (N.state net.old)
            (serving self.old).open' }
        requires now { IsTrue N.tells → IsNow (N.state net.old) now }
        ensures works_off { WorksOff (eyes_of N.Link.Link) now
            (take asked self.old.wants.items) self.old self.new }
        ensures accounts { IsTrue N.tells → KeepsAccounts
            N.Link.Link P.Spill.Spill A.App A.Run.AppRun (serving self.old) (serving self.new)
            (N.state net.old) (N.state net.new) (P.faults spills.old) (P.faults spills.new) }
        ensures net { IsTrue N.tells → OnlyRetires (N.state net.old) (N.state net.new) }
        ensures accepted { self.new.connections.accepted ≡ self.old.connections.accepted }
        ensures polls { N.poll_faults net.new ≡ N.poll_faults net.old }
        ensures nobody { N.nobody net.old → N.nobody net.new }
        ensures same { IsSameServer self.old self.new }
        ensures stands { Stands (eyes_of N.Link.Link) A.Run.faults self.new }
        ensures hosts { IsTrue N.tells → Hosts (eyes_of N.Link.Link) (N.state net.new)
            (serving self.new).open' }
        ensures rest { LeavesRest N.Net P.Spills net.old net.new spills.old spills.new }
    {
        let from = counted_from(now, self.checked);
        let due = is_check_due(now, from, self.settings.cleanup_interval);
        let round = Round {
            now,
            due,
            window: self.settings.window,
        };
        labour_all(
            &mut self.connections.seats,
            &self.wants.as_slice()[..asked],
            round,
            &mut self.rooms,
            spills,
        );
        self.checked = Some(if due { now } else { from });
        retire_over(
            &mut self.connections,
            self.app,
            self.settings,
            now,
            net,
            spills,
        );
    }

    // A turn behind its poll.
    fn carry(&mut self, asked: usize, turn: Turn, net: &mut N, spills: &mut P) -> Option<Why>
        requires stands { Stands (eyes_of N.Link.Link) A.Run.faults self.old }
        requires asks { IsAsked self.old.connections.seats.items asked self.old.wants.items }
        requires hosts { IsTrue N.tells → Hosts (eyes_of N.Link.Link) (N.state net.old)
            (serving self.old).open' }
        requires now { IsTrue N.tells → IsNow (N.state net.old) turn.now }
        requires unstopped { IsTrue N.tells → (N.state net.old).stopped ≡ false }
        requires knows { IsTrue N.tells → LastKnows (N.state net.old) }
        requires room { IsTrue turn.come → IsTrue (is_accepting (serving self.old)) }
        ensures carries { result ≡ None → IsTrue N.tells → IsTrue N.Link.tells →
            Carries (eyes_of N.Link.Link) (take asked self.old.wants.items) turn
            (serving self.old) (serving self.new) (N.nobody net.new) (N.state net.old)
            (N.state net.new) }
        ensures steps { IsTrue N.tells → StepAccounts result
            N.Link.Link P.Spill.Spill A.App A.Run.AppRun (serving self.old) (serving self.new)
            (N.state net.old) (N.state net.new) (P.faults spills.old) (P.faults spills.new) }
        ensures same_polls { IsTrue N.tells → SamePolls (N.state net.old) (N.state net.new) }
        ensures cause { StepCause result (N.poll_faults net.old) (N.poll_faults net.new) }
        ensures same { IsSameServer self.old self.new }
        ensures stands { Stands (eyes_of N.Link.Link) A.Run.faults self.new }
        ensures hosts { IsTrue N.tells → Hosts (eyes_of N.Link.Link) (N.state net.new)
            (serving self.new).open' }
        ensures rest { LeavesRest N.Net P.Spills net.old net.new spills.old spills.new }
    {
        let opening = Opening {
            alloc: self.alloc,
            app: self.app,
            settings: self.settings,
            moment: turn.now,
        };
        match accept_if(&mut self.connections, &opening, turn.come, net, spills) {
            Some(fault) => return Some(Why::Failed(fault)),
            None => {}
        }
        self.work(asked, turn.now, net, spills);
        if below(self.settings.serve_limit, self.connections.retired) {
            None
        } else {
            Some(Why::LimitMet)
        }
    }

    // A turn, but for what is shut down where serving ends with it.
    pub(crate) fn step(&mut self, net: &mut N, spills: &mut P) -> Option<Why>
        requires stands { Stands (eyes_of N.Link.Link) A.Run.faults self.old }
        requires hosts { IsTrue N.tells → Hosts (eyes_of N.Link.Link) (N.state net.old)
            (serving self.old).open' }
        ensures no_idle { result ≡ None → IsTrue N.tells → IsTrue N.Link.tells →
            NoIdle (eyes_of N.Link.Link) (serving self.old) (serving self.new) (N.nobody net.new)
            (N.state net.old) (N.state net.new) }
        ensures steps { IsTrue N.tells → StepAccounts result
            N.Link.Link P.Spill.Spill A.App A.Run.AppRun (serving self.old) (serving self.new)
            (N.state net.old) (N.state net.new) (P.faults spills.old) (P.faults spills.new) }
        ensures polls { IsTrue N.tells → ((N.state net.new).polls ≡ (N.state net.old).polls) ⊎
            ((N.state net.new).polls ≡ raised (N.state net.old).polls) }
        ensures cause { StepCause result (N.poll_faults net.old) (N.poll_faults net.new) }
        ensures same { IsSameServer self.old self.new }
        ensures stands { Stands (eyes_of N.Link.Link) A.Run.faults self.new }
        ensures hosts { IsTrue N.tells → Hosts (eyes_of N.Link.Link) (N.state net.new)
            (serving self.new).open' }
        ensures rest { LeavesRest N.Net P.Spills net.old net.new spills.old spills.new }
    {
        let asked = self.connections.seats.len();
        let accepting = accepts(self.settings, asked, self.connections.accepted);
        if gather(self.connections.seats.as_slice(), &mut self.wants).is_err() {
            return Some(Why::Failed(ServeFault::NoMemory));
        }
        match net.poll(&mut self.wants, accepting) {
            Ok(turn) => {
                if turn.stop {
                    return Some(Why::Stopped);
                }
                self.carry(asked, turn, net, spills)
            }
            Err(_) => Some(Why::Failed(ServeFault::Net)),
        }
    }
}
