//! One connection: bytes come in and go out, and neither call waits.
ghost use Rattle.std.specs.Prelude.{◌≡◌, ◌<◌, ℕ, Bool, IsTrue, length};
ghost use Rattle.outside.specs.Link.{LinkState, Receives, Sends, GotWithin, TookWithin, RecvCause};
ghost use Rattle.outside.specs.Link.{SendCause};

use crate::{Recv, Sent};

/// One connection.
pub trait Link {
    /// What a link is made from, for contracts alone.
    type Plan;

    /// Whether links of this kind tell what they hold.
    ghost tells: { Bool };

    /// What this link tells, where its kind tells.
    ghost state: { Self → LinkState };

    /// What this link was made from.
    ghost plan: { Self → Self.Plan };

    /// Its number, which no other open link of its net has.
    ghost key: { Self → ℕ };

    /// How often it has failed. It starts at 0, and may stand still at the greatest u64.
    ghost faults: { Self → ℕ };

    /// Its number among the open links.
    fn key(&self) -> u32
        ensures { result ≡ key self.now };

    /// Puts bytes that have come into the front of the buffer. The rest of the buffer, and all of
    /// it where nothing came, is left open.
    fn recv(&mut self, now: u64, into: &mut [u8]) -> Recv
        requires { 0 < length into.old }
        ensures within { GotWithin result (length into.new) }
        ensures cause { RecvCause (faults self.old) (faults self.new) result }
        ensures told { IsTrue tells →
            Receives now into.new result (state self.old) (state self.new) }
        ensures key { key self.new ≡ key self.old }
        ensures plan { plan self.new ≡ plan self.old };

    /// Takes bytes from the front of those offered. What it took is the link's to send, and need
    /// not have reached the other end.
    fn send(&mut self, now: u64, from: &[u8]) -> Sent
        requires { 0 < length from.now }
        ensures within { TookWithin result (length from.now) }
        ensures cause { SendCause (faults self.old) (faults self.new) result }
        ensures told { IsTrue tells → Sends now from.now result (state self.old) (state self.new) }
        ensures key { key self.new ≡ key self.old }
        ensures plan { plan self.new ≡ plan self.old };
}
