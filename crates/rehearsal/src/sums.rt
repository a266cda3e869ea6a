//! What is counted of connections that were retired.
ghost use Rattle.std.specs.Prelude.{◌≡◌};
ghost use Rattle.std.specs.List.{sum};
ghost use Rattle.rehearsal.specs.Sums as spec;

use crate::requests::request_count;
use outside::{End, MemLink, Retired};

/// What is counted. A number stands still at the greatest of 64 bits.
#[derive(Clone, Copy, Debug, PartialEq, Eq)]
pub struct Sums {
    pub connections: u64,
    pub requests: u64,
    /// How many bytes arrived, and how many were sent.
    pub bytes_in: u64,
    pub bytes_out: u64,
    /// The sum of all bytes that were sent.
    pub sent_sum: u64,
    /// How many were sent all that they are owed.
    pub done: u64,
}

fn byte_sum(bytes: &[u8]) -> u64
    ensures { result ≡ spec.capped (sum bytes.now) }
{
    let mut total = 0u64;
    for byte in bytes {
        total = total.saturating_add(u64::from(*byte));
    }
    total
}

// How many requests the connection of an entry sends.
fn requests_of(entry: &Retired<MemLink>) -> u32
    ensures { result ≡ spec.requests_of entry.now }
{
    request_count(u32::from(entry.peer.port.saturating_sub(1024)))
}

fn is_done(end: End) -> bool
    ensures { result ≡ spec.is_done end }
{
    matches!(end, End::Done)
}

/// Counts the entries.
#[tactic(auto, unfolding(crate::specs::Sums::sums_of))]
pub fn sums_of(entries: &[Retired<MemLink>]) -> Sums
    ensures { result ≡ spec.sums_of entries.now }
{
    let mut sums = Sums {
        connections: entries.len() as u64,
        requests: 0,
        bytes_in: 0,
        bytes_out: 0,
        sent_sum: 0,
        done: 0,
    };
    for entry in entries {
        let link = &entry.link;
        sums.requests = sums.requests.saturating_add(u64::from(requests_of(entry)));
        sums.bytes_in = sums.bytes_in.saturating_add(link.arrivals().len() as u64);
        sums.bytes_out = sums.bytes_out.saturating_add(link.sent().len() as u64);
        sums.sent_sum = sums.sent_sum.saturating_add(byte_sum(link.sent()));
        sums.done = sums.done.saturating_add(u64::from(is_done(entry.end)));
    }
    sums
}
