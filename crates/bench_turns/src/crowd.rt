//! A net of one busy connection among many idle ones.
ghost use Rattle.outside.specs.Net.{MayOnlyAsAsked};

use outside::{
    Answers, Bytes, End, Failed, Link, Listen, Net, NetFault, Peer, Recv, Sent, Turn, Want,
    answer_all,
};
use std::alloc::Global;

const NOW: u64 = 784_111_777;

const REQUEST: &[u8] = b"GET /a HTTP/1.1\r\nHost: a\r\n\r\n";

/// A connection that sends a request whenever it is asked, or one that never sends.
#[derive(Drop)]
pub(crate) struct CrowdLink {
    key: u32,
    is_busy: bool,
    sent: u64,
}

/// A net on which so many connections come, of which the first is busy.
#[derive(Drop)]
pub(crate) struct CrowdNet {
    comers: u32,
    given: u32,
    turns_left: u64,
    sent: u64,
}

impl CrowdNet {
    /// So many connections come, and so many turns behind the first a poll tells to stop.
    pub(crate) fn new(comers: u32, turns: u64) -> CrowdNet {
        CrowdNet {
            comers,
            given: 0,
            turns_left: turns,
            sent: 0,
        }
    }

    /// How many bytes were sent on the connections that were retired.
    pub(crate) fn sent(&self) -> u64 {
        self.sent
    }
}

// The busy connection is ready for what it asks, and no other.
struct OneBusy;

impl Answers for OneBusy {
    ghost met = { MayOnlyAsAsked };

    fn answer(&self, want: &mut Want) {
        let is_busy = want.key == 0;
        want.answer(is_busy, is_busy);
    }
}

impl Link for CrowdLink {
    ghost use Rattle.std.specs.Prelude.{false};
    ghost use Rattle.outside.specs.Link.{opened};

    type Plan = ();

    ghost tells = { false };

    ghost state = { λ _. opened 0 };

    ghost plan = { λ _. tt };

    ghost key = { λ l. l.key };

    ghost faults = { λ _. 0 };

    fn key(&self) -> u32 {
        self.key
    }

    fn recv(&mut self, _now: u64, into: &mut [u8]) -> Recv {
        if !self.is_busy {
            return Recv::NotYet;
        }
        let count = REQUEST.len().min(into.len());
        into[..count].copy_from_slice(&REQUEST[..count]);
        Recv::Got(count)
    }

    fn send(&mut self, _now: u64, from: &[u8]) -> Sent {
        self.sent = self.sent.saturating_add(from.len() as u64);
        Sent::Took(from.len())
    }
}

impl Net for CrowdNet {
    ghost use Rattle.std.specs.Prelude.{◌<◌, ◌≤◌, false};
    ghost use Rattle.outside.specs.Net.{unasked};

    type Link = CrowdLink;

    type Plan = ();

    ghost tells = { false };

    ghost state = { λ _. unasked false };

    ghost plan = { λ _. tt };

    ghost moment = { λ _. 784111777 };

    ghost taken = { λ n key. key < n.given };

    ghost nobody = { λ n. n.comers ≤ n.given };

    ghost bind_faults = { λ _. 0 };

    ghost poll_faults = { λ _. 0 };

    fn bind(&mut self, _listen: &[Listen]) -> Result<(), Failed> {
        Ok(())
    }

    fn poll(&mut self, wants: &mut Vec<Want>, accepting: bool) -> Result<Turn, Failed> {
        answer_all(&OneBusy, wants);
        let stop = self.turns_left == 0;
        self.turns_left = self.turns_left.saturating_sub(1);
        Ok(Turn {
            now: NOW,
            stop,
            come: accepting && self.given < self.comers,
        })
    }

    fn accept(&mut self, alloc: Global, _now: u64) -> Result<Option<(CrowdLink, Peer)>, NetFault> {
        if self.given >= self.comers {
            return Ok(None);
        }
        let Ok(addr) = Bytes::from_slice(alloc, b"10.0.0.9") else {
            return Err(NetFault::NoMemory);
        };
        let link = CrowdLink {
            key: self.given,
            is_busy: self.given == 0,
            sent: 0,
        };
        self.given += 1;
        Ok(Some((
            link,
            Peer {
                addr,
                port: 5000,
                local_port: 8080,
            },
        )))
    }

    fn retire(&mut self, link: CrowdLink, _peer: Peer, _end: End) {
        self.sent = self.sent.saturating_add(link.sent);
    }
}
