//! What the links and nets in memory are made from. Calls and turns are numbered from 0.
use crate::{Bytes, Items, Peer};

/// What a link in memory gives and takes.
#[derive(Debug, Drop)]
pub struct LinkPlan {
    /// All that the other end sends.
    pub input: Bytes,
    /// Whether the other end then closes, or stays silent.
    pub ends: bool,
    /// At most how many bytes each `recv` that doesn't fail gives. 0 puts the call off, and behind
    /// the list there is no limit.
    pub gives: Items<u32>,
    /// At most how many bytes each `send` takes, in the same way. Failing sends are counted too.
    pub takes: Items<u32>,
    /// The calls of `recv` that fail.
    pub recv_fails: Items<u64>,
    /// The calls of `send` that fail.
    pub send_fails: Items<u64>,
}

/// Who comes to a net in memory.
#[derive(Debug, Drop)]
pub struct Comer {
    /// The number of the poll from which on it is waiting.
    pub turn: u64,
    pub peer: Peer,
    /// What its link is made from.
    pub plan: LinkPlan,
}

/// What a net in memory does.
#[derive(Debug, Drop)]
pub struct NetPlan {
    /// Those who come. Of the ones that are waiting the first in this list is accepted first.
    pub comers: Items<Comer>,
    /// The moment of each turn. The last one repeats.
    pub moments: Items<u64>,
    /// The turn from which on it tells to stop. Without one it does so once nothing is open and
    /// nobody will come.
    pub stop_at: Option<u64>,
    /// Whether every `bind` fails.
    pub bind_fails: bool,
    /// The calls of `poll` that fail.
    pub poll_fails: Items<u64>,
    /// The calls of `accept` that fail.
    pub accept_fails: Items<u64>,
}
