//! A net in memory.
ghost use Rattle.std.specs.Prelude.{◌≡◌, ◌<◌, ◌^◌, IfOk, length};
ghost use Rattle.outside.specs.MemNet.{fresh, KeepsToNetPlan};
ghost use Rattle.outside.specs.Moments.{NeverFalls};

mod calls;
mod noted;

use crate::{Comer, Items, Listen, MemLink, NetPlan, NoMemory, Noted, Retired, note};
use noted::{Accepted, LastPoll, Nothing};
use std::alloc::Global;
use std::collections::{LinkedList, VecDeque};
use std::marker::Model;
use std::snapshot::Snapshot;

/// A net in memory. Its connections come, and its calls fail, by its plan. It takes at `accept` the
/// memory that the link's `recv` and `retire` need.
#[derive(Drop)]
pub struct MemNet {
    plan: Snapshot<NetPlan>,
    waiting: VecDeque<Comer>,
    moments: Items<u64>,
    stop_at: Option<u64>,
    bind_fails: bool,
    poll_fails: Items<u64>,
    accept_fails: Items<u64>,
    closed: Vec<Retired<MemLink>>,
    given: Noted<Accepted>,
    accepted: u32,
    live: u64,
    stopped: bool,
    bound: Noted<Option<LinkedList<Listen>>>,
    polls: u64,
    first: Noted<Option<u64>>,
    last: Noted<Option<LastPoll>>,
    asked: u64,
    put_off: u64,
    cleared: Snapshot<u64>,
    bind_faults: u64,
    poll_faults: u64,
}

impl Model for MemNet {
    ghost use Rattle.std.specs.Prelude.{◌≡◌, ◌≤◌, ◌<◌, ◌+◌, ◌^◌, length, vec_capacity, is_none};
    ghost use Rattle.std.specs.Prelude.{unwrap_or, IsTrue, All, Contains};
    ghost use Rattle.std.specs.Option.{ForSome, IsSomeAnd};
    ghost use Rattle.outside.specs.Memory.{is_listed};
    ghost use Rattle.outside.specs.MemNet.{MemNetState, AreComers, PolledByPlan};

    ghost Value = { MemNetState };

    ghost use Rattle.outside.specs.Net.{last_moment};
    ghost use Rattle.outside.specs.MemNetView.{last_of, found_of};
    ghost use Rattle.outside.specs.Moments.{NeverFalls, moment_at};

    ghost view = { λ n. record {
      plan = n.plan.value;
      state = record {
        closed = n.closed.items;
        live = n.live;
        stopped = n.stopped;
        quiet = is_none n.stop_at;
        bound = n.bound.value;
        given = n.given.value;
        polls = n.polls;
        first = n.first.value;
        last = last_of n.last.value;
        asked = n.asked;
        put_off = n.put_off;
      };
      waiting = n.waiting.items;
      cleared = n.cleared.value;
      found = found_of n.last.value;
      bind_faults = n.bind_faults;
      poll_faults = n.poll_faults;
    } };

    ghost invariant = { λ n. record {
      plan : record {
        moments : n.plan.value.moments ≡ n.moments;
        stop_at : n.plan.value.stop_at ≡ n.stop_at;
        bind_fails : n.plan.value.bind_fails ≡ n.bind_fails;
        poll_fails : n.plan.value.poll_fails ≡ n.poll_fails;
        accept_fails : n.plan.value.accept_fails ≡ n.accept_fails;
        some_moment : 0 < length n.moments;
        rising : NeverFalls n.moments;
      };
      few : n.accepted + length n.waiting.items < 2 ^ 32;
      accepted : length n.given.value ≡ n.accepted;
      open_ones : n.live ≤ n.accepted;
      room : length n.closed.items + n.live ≤ vec_capacity n.closed;
      over : IsTrue n.stopped → IsTrue (is_none n.stop_at) →
          (n.live ≡ 0) × (length n.waiting.items ≡ 0);
      past : last_moment (last_of n.last.value) ≤ moment_at n.moments n.polls;
      begun : unwrap_or n.first.value 0 ≤ moment_at n.moments n.polls;
      comers : AreComers n.plan.value n.given.value n.waiting.items;
      who : All (Contains n.plan.value.comers) n.waiting.items;
      cleared : All (λ comer. n.cleared.value ≤ comer.turn) n.waiting.items;
      first : ForSome n.first.value (λ moment.
          IsTrue (is_listed n.plan.value.moments moment));
      last : ForSome (last_of n.last.value) (λ poll.
          IsTrue (is_listed n.plan.value.moments poll.turn.now));
      polled : ForSome (last_of n.last.value) (λ poll.
          IsSomeAnd (found_of n.last.value) (λ found. PolledByPlan n.plan.value found poll));
      bind_caused : 0 < n.bind_faults → IsTrue n.plan.value.bind_fails;
      poll_caused : 0 < n.poll_faults →
          0 < length n.plan.value.poll_fails + length n.plan.value.accept_fails;
    } };
}

impl MemNet {
    /// A net that nothing was asked of yet.
    pub fn new(alloc: Global, plan: NetPlan) -> Result<MemNet, NoMemory>
        requires some_moment { 0 < length plan.moments }
        requires rising { NeverFalls plan.moments }
        requires few { length plan.comers < 2 ^ 32 }
        ensures { IfOk result (λ net. net ≡ fresh plan) }
    {
        let whole = Snapshot::of(&plan);
        let NetPlan {
            comers,
            moments,
            stop_at,
            bind_fails,
            poll_fails,
            accept_fails,
        } = plan;
        Ok(MemNet {
            plan: whole,
            waiting: VecDeque::from_vec(comers.into_vec()),
            moments,
            stop_at,
            bind_fails,
            poll_fails,
            accept_fails,
            closed: Vec::new(alloc),
            given: note::<_, _, Nothing>(&()),
            accepted: 0,
            live: 0,
            stopped: false,
            bound: note::<_, _, Nothing>(&()),
            polls: 0,
            first: note::<_, _, Nothing>(&()),
            last: note::<_, _, Nothing>(&()),
            asked: 0,
            put_off: 0,
            cleared: Snapshot::of(&0),
            bind_faults: 0,
            poll_faults: 0,
        })
    }

    // What the invariant says of its value.
    fn keeps_to_plan(&self)
        ensures { KeepsToNetPlan self.now }
    {
        let _ = &self.plan;
    }

    /// The links that were retired, in that order.
    pub fn closed(&self) -> &[Retired<MemLink>]
        ensures value { result.now ≡ self.now.state.closed }
        ensures kept { KeepsToNetPlan self.now }
    {
        self.keeps_to_plan();
        self.closed.as_slice()
    }

    /// How many links are open: accepted, and not retired.
    pub fn live(&self) -> u64
        ensures { result ≡ self.now.state.live }
    {
        self.live
    }

    /// Whether the last turn told to stop.
    pub fn stopped(&self) -> bool
        ensures { result ≡ self.now.state.stopped }
    {
        self.stopped
    }

    /// Whether it tells to stop only where nothing is open and nobody will come.
    pub fn quiet(&self) -> bool
        ensures { result ≡ self.now.state.quiet }
    {
        self.stop_at.is_none()
    }

    /// How many polls there were.
    pub fn polls(&self) -> u64
        ensures { result ≡ self.now.state.polls }
    {
        self.polls
    }

    /// How many calls of accept there were.
    pub fn asked(&self) -> u64
        ensures { result ≡ self.now.state.asked }
    {
        self.asked
    }

    /// How many calls of accept were answered by None.
    pub fn put_off(&self) -> u64
        ensures value { result ≡ self.now.state.put_off }
        ensures kept { KeepsToNetPlan self.now }
    {
        self.keeps_to_plan();
        self.put_off
    }

    /// How often bind has failed.
    pub fn bind_faults(&self) -> u64
        ensures value { result ≡ self.now.bind_faults }
        ensures kept { KeepsToNetPlan self.now }
    {
        self.keeps_to_plan();
        self.bind_faults
    }

    /// How often poll and accept have failed.
    pub fn poll_faults(&self) -> u64
        ensures value { result ≡ self.now.poll_faults }
        ensures kept { KeepsToNetPlan self.now }
    {
        self.keeps_to_plan();
        self.poll_faults
    }
}
