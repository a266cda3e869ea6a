//! Files by name.
ghost use Rattle.std.specs.Prelude.{◌≡◌, ◌≤◌, ◌+◌, ℕ, Bool, IsTrue, List, length, take, drop};
ghost use Rattle.std.specs.Prelude.{Option, None, OnOk, IfOk, IfSome, IsSomeAnd, MatchOption};
ghost use Rattle.outside.specs.Causes.{HasCause, added};
ghost use Rattle.outside.specs.Tree.{content_of, Sizes};

use crate::{Failed, NoMemory};
use std::alloc::Global;

/// A name in a tree, at which a file may stand.
pub trait TreeEntry {
    /// Whether entries of this kind tell what they hold.
    ghost tells: { Bool };

    /// The content of the file, or None where there is none. No call changes it.
    ghost file: { Self → Option (List ℕ) };

    /// The size that was found last, told or not.
    ghost sized: { Self → Option ℕ };

    /// How often it has failed. It starts at 0, and may stand still at the greatest u64.
    ghost faults: { Self → ℕ };

    /// Looks whether a regular file stands there, and how long it is.
    fn size(&mut self) -> Result<Option<u64>, Failed>
        ensures cause { HasCause (faults self.old) (faults self.new) result }
        ensures sized { sized self.new ≡ Sizes result (sized self.old) }
        ensures told { IsTrue tells → IfOk result (λ size.
            MatchOption size (file self.old ≡ None)
            (λ n. IsSomeAnd (file self.old) (λ bytes. n ≡ length bytes))) }
        ensures file { IsTrue tells → file self.new ≡ file self.old };

    /// Fills the buffer from a place on. A file that became shorter than it was found is a fault.
    fn read(&mut self, at: u64, into: &mut [u8]) -> Result<(), Failed>
        requires { IsSomeAnd (sized self.old) (λ n. at + length into.old ≤ n) }
        ensures cause { HasCause (faults self.old) (faults self.new) result }
        ensures bytes { IsTrue tells → OnOk result (IfSome (file self.old) (λ bytes.
            into.new ≡ take (length into.old) (drop at bytes))) }
        ensures sized { sized self.new ≡ sized self.old }
        ensures file { IsTrue tells → file self.new ≡ file self.old };
}

/// Files by name, which several threads may look up at once.
pub trait Tree: Sync {
    /// Its entries.
    type Entry: TreeEntry + Send + Drop;

    /// Whether trees of this kind tell what they hold.
    ghost tells: { Bool };

    /// Names with their content. The first place of a name counts. No call changes it.
    ghost files: { Self → List (List ℕ × List ℕ) };

    /// The faults of the entries that were settled. It starts at 0, and may stand still at the
    /// greatest u64.
    ghost faults: { Self → ℕ };

    /// The entry of this name, of which nothing is looked at yet.
    fn entry(&self, alloc: Global, path: &str) -> Result<Self::Entry, NoMemory>
        ensures faultless { IfOk result (λ entry. Self.Entry.faults entry ≡ 0) }
        ensures sizeless { IfOk result (λ entry. Self.Entry.sized entry ≡ None) }
        ensures told { IsTrue tells → IfOk result (λ entry.
            IsTrue Self.Entry.tells ×
            (Self.Entry.file entry ≡ content_of (files self.now) path.now)) };

    /// Takes an entry back, with its faults.
    fn settle(&mut self, entry: Self::Entry)
        ensures faults { faults self.new ≡ added (faults self.old) (Self.Entry.faults entry) }
        ensures told { IsTrue tells → files self.new ≡ files self.old };
}
