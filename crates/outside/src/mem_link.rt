//! A link in memory.
ghost use Rattle.std.specs.Prelude.{◌≡◌, ◌≤◌, [], length, vec_capacity};
ghost use Rattle.outside.specs.MemLink.{KeepsToPlan, new_link};

mod calls;

use crate::LinkPlan;
use std::alloc::Global;
use std::marker::Model;

/// A link in memory. It gives and takes by its plan, and has memory for all that it gives.
#[derive(Debug, Drop)]
pub struct MemLink {
    key: u32,
    plan: LinkPlan,
    arrivals: Vec<(u64, u8)>,
    sent: Vec<u8>,
    ended: bool,
    touched: u64,
    choked: bool,
    asked: u64,
    recv_put_off: u64,
    send_put_off: u64,
    faults: u64,
    starved: u64,
    recvs: u64,
    reads: u64,
    sends: u64,
}

impl Model for MemLink {
    ghost use Rattle.std.specs.Prelude.{◌≡◌, ◌≤◌, ◌<◌, ◌+◌, ◌-◌, length, map, take, IsTrue};
    ghost use Rattle.std.specs.Prelude.{vec_capacity};
    ghost use Rattle.outside.specs.Memory.{is_listed};
    ghost use Rattle.outside.specs.MemLink.{MemLinkState};

    ghost Value = { MemLinkState };

    ghost view = { λ l. record {
      key = l.key;
      plan = l.plan;
      state = record {
        arrivals = l.arrivals.items;
        sent = l.sent.items;
        ended = l.ended;
        touched = l.touched;
        choked = l.choked;
        asked = l.asked;
        recv_put_off = l.recv_put_off;
        send_put_off = l.send_put_off;
      };
      faults = l.faults;
      starved = l.starved;
      recvs = l.recvs;
      reads = l.reads;
      sends = l.sends;
    } };

    ghost invariant = { λ l. record {
      no_more : length l.arrivals.items ≤ length l.plan.input;
      room : length l.plan.input ≤ vec_capacity l.arrivals;
      came : map (λ a. a.1) l.arrivals.items ≡ take (length l.arrivals.items) l.plan.input;
      ended : IsTrue l.ended → IsTrue l.plan.ends;
      caused : 0 < l.faults →
          0 < length l.plan.recv_fails + length l.plan.send_fails + l.starved;
      recv_put_off : 0 < l.recv_put_off →
          0 < length l.plan.input - length l.arrivals.items → IsTrue (is_listed l.plan.gives 0);
      send_put_off : 0 < l.send_put_off → IsTrue (is_listed l.plan.takes 0);
    } };
}

impl MemLink {
    // A link with this number and plan, whose list has room for all that will arrive.
    pub(crate) fn open(
        alloc: Global,
        key: u32,
        now: u64,
        plan: LinkPlan,
        arrivals: Vec<(u64, u8)>,
    ) -> MemLink
        requires empty { arrivals.items ≡ [] }
        requires room { length plan.input ≤ vec_capacity arrivals }
        ensures { result ≡ new_link key now plan }
    {
        MemLink {
            key,
            plan,
            arrivals,
            sent: Vec::new(alloc),
            ended: false,
            touched: now,
            choked: false,
            asked: 0,
            recv_put_off: 0,
            send_put_off: 0,
            faults: 0,
            starved: 0,
            recvs: 0,
            reads: 0,
            sends: 0,
        }
    }

    /// The bytes that came, each with its moment in front.
    pub fn arrivals(&self) -> &[(u64, u8)]
        ensures value { result.now ≡ self.now.state.arrivals }
        ensures kept { KeepsToPlan self.now }
    {
        self.arrivals.as_slice()
    }

    /// The bytes that it took.
    pub fn sent(&self) -> &[u8]
        ensures { result.now ≡ self.now.state.sent }
    {
        self.sent.as_slice()
    }

    /// Whether it has told that nothing more will come.
    pub fn ended(&self) -> bool
        ensures value { result ≡ self.now.state.ended }
        ensures kept { KeepsToPlan self.now }
    {
        self.ended
    }

    /// The moment of its opening, or of the last bytes that came or were taken.
    pub fn touched(&self) -> u64
        ensures { result ≡ self.now.state.touched }
    {
        self.touched
    }

    /// Whether the last send took less than it was offered.
    pub fn choked(&self) -> bool
        ensures { result ≡ self.now.state.choked }
    {
        self.choked
    }

    /// How many calls of recv and send there were.
    pub fn asked(&self) -> u64
        ensures { result ≡ self.now.state.asked }
    {
        self.asked
    }

    /// How many calls of recv, and how many of send, were put off.
    pub fn put_off(&self) -> (u64, u64)
        ensures recvs { result.0 ≡ self.now.state.recv_put_off }
        ensures sends { result.1 ≡ self.now.state.send_put_off }
        ensures kept { KeepsToPlan self.now }
    {
        (self.recv_put_off, self.send_put_off)
    }

    /// How often it has failed.
    pub fn faults(&self) -> u64
        ensures value { result ≡ self.now.faults }
        ensures kept { KeepsToPlan self.now }
    {
        self.faults
    }

    /// How often it has failed because it was refused memory.
    pub fn starved(&self) -> u64
        ensures { result ≡ self.now.starved }
    {
        self.starved
    }
}
