//! The net: where connections come from and go to.
ghost use Rattle.std.specs.Prelude.{◌≡◌, ◌≢◌, ◌≤◌, ℕ, ◌-◌, ◌++◌, ◌∷◌, [], Bool, IsTrue, All, map};
ghost use Rattle.std.specs.Prelude.{IfOk, OnErr, OnOk, IfSome, Some};
ghost use Rattle.outside.specs.Causes.{HasCause};
ghost use Rattle.outside.specs.Link.{opened};
ghost use Rattle.outside.specs.Net.{NetState, Polls, Accepts, AcceptCause, FindsNobody};
ghost use Rattle.outside.specs.Net.{MayOnlyAsAsked, TakesKey, asked_of, moment_after};

use crate::{End, Failed, Link, Listen, NetFault, Peer, Turn, Want};
use std::alloc::Global;

/// A net, on which connections come in.
pub trait Net {
    /// Its connections.
    type Link: Link + Drop;

    /// What a net is made from, for contracts alone.
    type Plan;

    /// Whether nets of this kind tell what they hold.
    ghost tells: { Bool };

    /// What this net tells, where its kind tells.
    ghost state: { Self → NetState Self.Link Self.Link.Plan };

    /// What this net was made from.
    ghost plan: { Self → Self.Plan };

    /// The moment of the last turn, told or not.
    ghost moment: { Self → ℕ };

    /// The numbers that no new link gets. Those of the open links are among them.
    ghost taken: { Self → ℕ → Type 0 };

    /// Whether nobody is waiting to be accepted, as the last accept found.
    ghost nobody: { Self → Type 0 };

    /// How often bind has failed. It starts at 0, and may stand still at the greatest u64.
    ghost bind_faults: { Self → ℕ };

    /// How often poll and accept have failed. It starts at 0, and may stand still at the greatest
    /// u64.
    ghost poll_faults: { Self → ℕ };

    /// Listens at these addresses.
    fn bind(&mut self, listen: &[Listen]) -> Result<(), Failed>
        ensures cause { HasCause (bind_faults self.old) (bind_faults self.new) result }
        ensures others { poll_faults self.new ≡ poll_faults self.old }
        ensures told { IsTrue tells → OnOk result
            (state self.new ≡ record (state self.old) { bound = Some listen.now }) }
        ensures unbound { IsTrue tells → OnErr result (state self.new ≡ state self.old) }
        ensures plan { plan self.new ≡ plan self.old }
        ensures moment { moment self.new ≡ moment self.old }
        ensures keys { (key : ℕ) → taken self.old key → taken self.new key };

    /// Waits, for at most a second, until one of the wants may be met or, where
    /// `accepting`, somebody comes. A want that asks for neither reading nor writing says
    /// that work is waiting which needs no bytes: a poll that is given one doesn't wait.
    /// The moment of a turn is in seconds since 1970.
    fn poll(&mut self, wants: &mut Vec<Want>, accepting: bool) -> Result<Turn, Failed>
        ensures cause { HasCause (poll_faults self.old) (poll_faults self.new) result }
        ensures others { bind_faults self.new ≡ bind_faults self.old }
        ensures wants { map asked_of wants.new.items ≡ map asked_of wants.old.items }
        ensures asked { IfOk result (λ _. All MayOnlyAsAsked wants.new.items) }
        ensures come { IfOk result (λ turn. IsTrue turn.come → IsTrue accepting) }
        ensures later { IfOk result (λ turn. moment self.old ≤ turn.now) }
        ensures moment { moment self.new ≡ moment_after result (moment self.old) }
        ensures told { IsTrue tells →
            Polls wants.new.items accepting result (state self.old) (state self.new) }
        ensures plan { plan self.new ≡ plan self.old }
        ensures keys { (key : ℕ) → taken self.old key → taken self.new key };

    /// Gives the next connection, where one has come.
    fn accept(&mut self, alloc: Global, now: u64) -> Result<Option<(Self::Link, Peer)>, NetFault>
        ensures cause { AcceptCause (poll_faults self.old) (poll_faults self.new) result }
        ensures others { bind_faults self.new ≡ bind_faults self.old }
        ensures told { IsTrue tells →
            Accepts Self.Link.plan result (state self.old) (state self.new) }
        ensures faultless { IfOk result (λ given.
            IfSome given (λ new. Self.Link.faults new.0 ≡ 0)) }
        ensures opened { IsTrue Self.Link.tells →
            IfOk result (λ given. IfSome given (λ new. Self.Link.state new.0 ≡ opened now)) }
        ensures plan { plan self.new ≡ plan self.old }
        ensures moment { moment self.new ≡ moment self.old }
        ensures nobody { FindsNobody result (nobody self.new) }
        ensures new_key { TakesKey Self.Link.key result (taken self.old) (taken self.new) }
        ensures keys { (key : ℕ) → taken self.old key → taken self.new key };

    /// Closes a connection. It takes no memory and can't fail.
    fn retire(&mut self, link: Self::Link, peer: Peer, end: End)
        requires { IsTrue tells → 1 ≤ (state self.old).live }
        ensures others { bind_faults self.new ≡ bind_faults self.old }
        ensures poll_others { poll_faults self.new ≡ poll_faults self.old }
        ensures told { IsTrue tells → state self.new ≡ record (state self.old) {
          closed = (state self.old).closed ++ record { peer = peer; link = link; end = end } ∷ [];
          live = (state self.old).live - 1;
        } }
        ensures nobody { nobody self.old → nobody self.new }
        ensures plan { plan self.new ≡ plan self.old }
        ensures moment { moment self.new ≡ moment self.old }
        ensures keys { (key : ℕ) → key ≢ Self.Link.key link →
            taken self.old key → taken self.new key };
}
