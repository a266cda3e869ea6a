//! Temporary stores of bytes, for what is not to be held in memory.
ghost use Rattle.std.specs.Prelude.{◌≡◌, ◌≤◌, ◌+◌, ◌-◌, ℕ, Bool, IsTrue, List, [], ◌++◌, length};
ghost use Rattle.std.specs.Prelude.{take, drop, min, OnOk, OnErr, IfOk};
ghost use Rattle.outside.specs.Causes.{HasCause, added};

use crate::Failed;

/// A temporary store of bytes.
pub trait Spill {
    /// Whether spills of this kind tell what they hold.
    ghost tells: { Bool };

    /// What it holds, where its kind tells.
    ghost content: { Self → List ℕ };

    /// How many bytes stand in it, told or not.
    ghost size: { Self → ℕ };

    /// How often it has failed. It starts at 0, and may stand still at the greatest u64.
    ghost faults: { Self → ℕ };

    /// Puts bytes at a place within the store, and cuts off what stood behind it. After a failure
    /// what stands behind that place is open.
    fn write(&mut self, at: u64, from: &[u8]) -> Result<(), Failed>
        requires { at ≤ size self.old }
        ensures cause { HasCause (faults self.old) (faults self.new) result }
        ensures size { OnOk result (size self.new ≡ at + length from.now) }
        ensures short { OnErr result (at ≤ size self.new) }
        ensures content { IsTrue tells → OnOk result
            (content self.new ≡ take at (content self.old) ++ from.now) }
        ensures front { IsTrue tells → OnErr result
            (take at (content self.new) ≡ take at (content self.old)) };

    /// Reads from a place on, as many bytes as there are and fit. The rest of the buffer, and all
    /// of it after a failure, is left open.
    fn read(&mut self, at: u64, into: &mut [u8]) -> Result<usize, Failed>
        requires { at ≤ size self.old }
        ensures cause { HasCause (faults self.old) (faults self.new) result }
        ensures count { IfOk result (λ n. n ≡ min (length into.old) (size self.old - at)) }
        ensures bytes { IsTrue tells → IfOk result (λ n.
            take n into.new ≡ take n (drop at (content self.old))) }
        ensures size { size self.new ≡ size self.old }
        ensures content { IsTrue tells → content self.new ≡ content self.old };

    /// How many bytes stand in it.
    fn len(&self) -> u64
        ensures { result ≡ size self.now };

    /// The content has the length that is told.
    ghost sized: { (spill : Self) → IsTrue tells → length (content spill) ≡ size spill };
}

/// Where temporary stores come from and go to.
pub trait Spills {
    /// Its stores.
    type Spill: Spill + Send + Drop;

    /// The faults of the spills that were settled. It starts at 0, and may stand still at the
    /// greatest u64.
    ghost faults: { Self → ℕ };

    /// An empty spill. It can't fail: what the spill needs is taken at the first write.
    fn make(&mut self) -> Self::Spill
        ensures empty { Self.Spill.size result ≡ 0 }
        ensures content { IsTrue Self.Spill.tells → Self.Spill.content result ≡ [] }
        ensures faultless { Self.Spill.faults result ≡ 0 }
        ensures faults { faults self.new ≡ faults self.old };

    /// Takes a spill back, with its faults.
    fn settle(&mut self, spill: Self::Spill)
        ensures { faults self.new ≡ added (faults self.old) (Self.Spill.faults spill) };
}
