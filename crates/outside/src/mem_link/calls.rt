//! The calls of a link in memory.
ghost use Rattle.std.specs.Prelude.{◌≡◌, ◌≤◌, ◌<◌, ◌+◌, ◌++◌, true, IsTrue, length, vec_len};
ghost use Rattle.std.specs.Prelude.{vec_capacity, slice_get};
ghost use Rattle.outside.specs.Causes.{raised};
ghost use Rattle.outside.specs.Link.{Receives, Sends, GotWithin, TookWithin, RecvCause, SendCause};
ghost use Rattle.outside.specs.Link.{stamped};
ghost use Rattle.outside.specs.MemLink.{within, recv_answer, reads_after, recv_faults, send_faults};
ghost use Rattle.outside.specs.MemLink.{SendsByPlan};
ghost use Rattle.outside.specs.Memory.{is_listed};

use super::MemLink;
use crate::fails::next_fails;
use crate::{Items, Link, LinkPlan, Recv, Sent};

// At most as many as the limit, where there is one.
#[tactic(auto, using(crate::proofs::Listed::zero_listed))]
fn limited(limits: &Items<u32>, number: u64, count: usize) -> usize
    ensures limit { result ≡ within (slice_get limits.now number) count }
    ensures none { 0 < count → result ≡ 0 → IsTrue (is_listed limits.now 0) }
{
    match usize::try_from(number) {
        Ok(at) => match limits.as_slice().get(at) {
            Some(limit) => count.min(*limit as usize),
            None => count,
        },
        Err(_) => count,
    }
}

// Adds bytes that came at one moment. There is room for them.
fn stamp(arrivals: &mut Vec<(u64, u8)>, now: u64, bytes: &[u8])
    requires { vec_len arrivals.old + length bytes.now ≤ vec_capacity arrivals.old }
    ensures items { arrivals.new.items ≡ arrivals.old.items ++ stamped now bytes.now }
    ensures room { vec_capacity arrivals.old ≤ vec_capacity arrivals.new }
{
    for byte in bytes {
        match arrivals.push((now, *byte)) {
            Ok(()) => {}
            Err(_) => unreachable!(),
        }
    }
}

impl Link for MemLink {
    type Plan = LinkPlan;

    ghost tells = { true };

    ghost state = { λ l. l.state };

    ghost plan = { λ l. l.plan };

    ghost key = { λ l. l.key };

    ghost faults = { λ l. l.faults };

    fn key(&self) -> u32 {
        self.key
    }

    fn recv(&mut self, now: u64, into: &mut [u8]) -> Recv
        requires { 0 < length into.old }
        ensures within { GotWithin result (length into.new) }
        ensures cause { RecvCause self.old.faults self.new.faults result }
        ensures told { Receives now into.new result self.old.state self.new.state }
        ensures exact { result ≡ recv_answer self.old (length into.old) }
        ensures counted { self.new ≡ record (self.old) {
          state = self.new.state;
          faults = recv_faults result self.old.faults;
          recvs = raised self.old.recvs;
          reads = reads_after result self.old.reads;
        } }
    {
        self.asked = self.asked.saturating_add(1);
        if next_fails(&self.plan.recv_fails, &mut self.recvs) {
            self.faults = self.faults.saturating_add(1);
            return Recv::Failed;
        }
        let read = self.reads;
        self.reads = read.saturating_add(1);
        let from = self.arrivals.len();
        let input = self.plan.input.as_slice();
        if from == input.len() {
            if self.plan.ends {
                self.ended = true;
                return Recv::End;
            }
            self.recv_put_off = self.recv_put_off.saturating_add(1);
            return Recv::NotYet;
        }
        let count = limited(&self.plan.gives, read, (input.len() - from).min(into.len()));
        if count == 0 {
            self.recv_put_off = self.recv_put_off.saturating_add(1);
            return Recv::NotYet;
        }
        let piece = &input[from..from + count];
        into[..count].copy_from_slice(piece);
        stamp(&mut self.arrivals, now, piece);
        self.touched = now;
        Recv::Got(count)
    }

    fn send(&mut self, now: u64, from: &[u8]) -> Sent
        requires { 0 < length from.now }
        ensures within { TookWithin result (length from.now) }
        ensures cause { SendCause self.old.faults self.new.faults result }
        ensures told { Sends now from.now result self.old.state self.new.state }
        ensures exact { SendsByPlan self.old self.new.starved (length from.now) result }
        ensures counted { self.new ≡ record (self.old) {
          state = self.new.state;
          faults = send_faults result self.old.faults;
          starved = self.new.starved;
          sends = raised self.old.sends;
        } }
    {
        self.asked = self.asked.saturating_add(1);
        self.choked = false;
        let number = self.sends;
        if next_fails(&self.plan.send_fails, &mut self.sends) {
            self.faults = self.faults.saturating_add(1);
            return Sent::Failed;
        }
        let count = limited(&self.plan.takes, number, from.len());
        if count == 0 {
            self.send_put_off = self.send_put_off.saturating_add(1);
            self.choked = true;
            return Sent::NotYet;
        }
        if self.sent.extend_from_slice(&from[..count]).is_err() {
            self.faults = self.faults.saturating_add(1);
            self.starved = self.starved.saturating_add(1);
            return Sent::Failed;
        }
        self.touched = now;
        self.choked = count < from.len();
        Sent::Took(count)
    }
}
