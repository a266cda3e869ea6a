//! The calls of a net in memory.
ghost use Rattle.std.specs.Prelude.{◌≡◌, ◌<◌, ◌≤◌, ◌-◌, ◌++◌, ◌∷◌, [], ◌↔◌, ◌&&◌, true, is_some};
ghost use Rattle.std.specs.Prelude.{IsTrue, IsErr, IsErrOf, IfOk, OnOk, OnErr, IfSome, None, Some};
ghost use Rattle.std.specs.Prelude.{All, length, map};
ghost use Rattle.outside.specs.Causes.{HasCause, faults_after, raised};
ghost use Rattle.outside.specs.Link.{opened};
ghost use Rattle.outside.specs.Memory.{is_listed};
ghost use Rattle.outside.specs.MemNet.{TurnByPlan, AcceptsByPlan, IsReady, first_due, stops_at};
ghost use Rattle.outside.specs.MemNet.{found_after};
ghost use Rattle.outside.specs.Moments.{moment_at};
ghost use Rattle.outside.specs.Net.{Polls, Accepts, AcceptCause, TakesKey, asked_of, last_moment};

use super::MemNet;
use super::noted::{Addresses, FirstMoment, Latest, OneMore, Seen};
use crate::fails::next_fails;
use crate::{
    Answers, Comer, End, Failed, Items, Listen, MemLink, Net, NetFault, NetPlan, Peer, Retired,
    Turn, Want, answer_all, note,
};
use std::alloc::Global;
use std::collections::VecDeque;
use std::snapshot::Snapshot;

// Each want is ready for what it asks.
struct AllReady;

impl Answers for AllReady {
    ghost met = { IsReady };

    fn answer(&self, want: &mut Want) {
        want.answer(true, true);
    }
}

// The moment of a turn. The last one repeats.
#[tactic(auto, using(crate::proofs::Listed::moment_listed))]
fn moment_of(moments: &Items<u64>, turn: u64) -> u64
    requires { 0 < length moments.now }
    ensures value { result ≡ moment_at moments.now turn }
    ensures listed { IsTrue (is_listed moments.now result) }
{
    let moments = moments.as_slice();
    match usize::try_from(turn) {
        Ok(at) => match moments.get(at) {
            Some(moment) => *moment,
            None => moments[moments.len() - 1],
        },
        Err(_) => moments[moments.len() - 1],
    }
}

// The place of the first comer of the turns so far, where there were so many polls.
fn first_of(waiting: &VecDeque<Comer>, polls: u64) -> Option<usize>
    ensures { result ≡ first_due waiting.now.items polls }
{
    waiting.iter().position(|comer| comer.turn < polls)
}

// Whether a turn tells to stop.
fn stops(stop_at: Option<u64>, number: u64, live: u64, waiting: &VecDeque<Comer>) -> bool
    ensures { result ≡ stops_at stop_at number live waiting.now.items }
{
    match stop_at {
        None => live == 0 && waiting.is_empty(),
        Some(turn) => turn <= number,
    }
}

// Whether a turn tells that somebody has come, where there were so many polls.
fn comes(accepting: bool, waiting: &VecDeque<Comer>, polls: u64) -> bool
    ensures { result ≡ (accepting && is_some (first_due waiting.now.items polls)) }
{
    accepting && first_of(waiting, polls).is_some()
}

impl Net for MemNet {
    type Link = MemLink;

    type Plan = NetPlan;

    ghost tells = { true };

    ghost state = { λ n. n.state };

    ghost plan = { λ n. n.plan };

    ghost moment = { λ n. last_moment n.state.last };

    ghost taken = { λ n key. key < length n.state.given };

    ghost nobody = { λ n. first_due n.waiting n.state.polls ≡ None };

    ghost bind_faults = { λ n. n.bind_faults };

    ghost poll_faults = { λ n. n.poll_faults };

    fn bind(&mut self, listen: &[Listen]) -> Result<(), Failed>
        ensures cause { HasCause self.old.bind_faults self.new.bind_faults result }
        ensures plan { IsErr result ↔ IsTrue self.old.plan.bind_fails }
        ensures told { OnOk result (self.new ≡ record (self.old) {
          state = record (self.old.state) { bound = Some listen.now };
        }) }
        ensures unbound { OnErr result
            (self.new ≡ record (self.old) { bind_faults = raised self.old.bind_faults }) }
    {
        if self.bind_fails {
            self.bind_faults = self.bind_faults.saturating_add(1);
            return Err(Failed);
        }
        self.bound = note::<_, _, Addresses>(&listen);
        Ok(())
    }

    #[tactic(auto, using(crate::proofs::LastPolls::begun_by, crate::proofs::LastPolls::stops_on))]
    fn poll(&mut self, wants: &mut Vec<Want>, accepting: bool) -> Result<Turn, Failed>
        ensures cause { HasCause self.old.poll_faults self.new.poll_faults result }
        ensures wants { map asked_of wants.new.items ≡ map asked_of wants.old.items }
        ensures ready { All IsReady wants.new.items }
        ensures come { IfOk result (λ turn. IsTrue turn.come → IsTrue accepting) }
        ensures later { IfOk result (λ turn. last_moment self.old.state.last ≤ turn.now) }
        ensures told { Polls wants.new.items accepting result self.old.state self.new.state }
        ensures plan { IsErr result ↔
            IsTrue (is_listed self.old.plan.poll_fails self.old.state.polls) }
        ensures turn { IfOk result (λ turn.
            TurnByPlan self.old.plan
            (record { number = self.old.state.polls; waiting = self.old.waiting })
            self.old.state.live accepting turn) }
        ensures rest { self.new ≡ record (self.old) {
          state = self.new.state;
          found = found_after result self.old;
          poll_faults = faults_after result self.old.poll_faults;
        } }
    {
        answer_all(&AllReady, wants);
        let number = self.polls;
        if next_fails(&self.poll_fails, &mut self.polls) {
            self.poll_faults = self.poll_faults.saturating_add(1);
            return Err(Failed);
        }
        let turn = Turn {
            now: moment_of(&self.moments, number),
            stop: stops(self.stop_at, number, self.live, &self.waiting),
            come: comes(accepting, &self.waiting, self.polls),
        };
        self.stopped = turn.stop;
        self.first = note::<_, _, FirstMoment>(&(Snapshot::of(&self.first), turn.now));
        self.last = note::<_, _, Latest>(&Seen {
            wants: Snapshot::of(wants),
            accepting,
            turn,
            given: Snapshot::of(&self.given),
            live: self.live,
            number,
            waiting: Snapshot::of(&self.waiting),
        });
        Ok(turn)
    }

    fn accept(&mut self, alloc: Global, now: u64) -> Result<Option<(MemLink, Peer)>, NetFault>
        ensures cause { AcceptCause self.old.poll_faults self.new.poll_faults result }
        ensures told { Accepts (λ link. link.plan) result self.old.state self.new.state }
        ensures faultless { IfOk result (λ given. IfSome given (λ new. new.0.faults ≡ 0)) }
        ensures opened { IfOk result (λ given. IfSome given (λ new. new.0.state ≡ opened now)) }
        ensures new_key { TakesKey (λ link. link.key) result
            (λ key. key < length self.old.state.given) (λ key. key < length self.new.state.given) }
        ensures plan { IsErrOf result NetFault.Failed ↔
            IsTrue (is_listed self.old.plan.accept_fails self.old.state.asked) }
        ensures rest { AcceptsByPlan now result self.old self.new }
    {
        if next_fails(&self.accept_fails, &mut self.asked) {
            self.poll_faults = self.poll_faults.saturating_add(1);
            return Err(NetFault::Failed);
        }
        let Some(at) = first_of(&self.waiting, self.polls) else {
            self.put_off = self.put_off.saturating_add(1);
            self.cleared = Snapshot::of(&self.polls);
            return Ok(None);
        };
        let Ok(arrivals) = Vec::with_capacity(alloc, self.waiting[at].plan.input.len()) else {
            return Err(NetFault::NoMemory);
        };
        if self.closed.reserve(self.live as usize + 1).is_err() {
            return Err(NetFault::NoMemory);
        }
        let Some(comer) = self.waiting.remove(at) else {
            unreachable!()
        };
        let Comer {
            turn: _,
            peer,
            plan,
        } = comer;
        self.given = note::<_, _, OneMore>(&(Snapshot::of(&self.given), &peer, &plan));
        let link = MemLink::open(alloc, self.accepted, now, plan, arrivals);
        self.accepted += 1;
        self.live += 1;
        Ok(Some((link, peer)))
    }

    fn retire(&mut self, link: MemLink, peer: Peer, end: End)
        requires { 1 ≤ self.old.state.live }
        ensures { self.new ≡ record (self.old) {
          state = record (self.old.state) {
            closed = self.old.state.closed ++ record { peer = peer; link = link; end = end } ∷ [];
            live = self.old.state.live - 1;
          };
        } }
    {
        self.live -= 1;
        match self.closed.push(Retired { peer, link, end }) {
            Ok(()) => {}
            Err(_) => unreachable!(),
        }
    }
}
