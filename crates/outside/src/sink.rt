//! Where text goes.
ghost use Rattle.std.specs.Prelude.{◌≡◌, ℕ, Bool, IsTrue, List, ◌++◌, take, OnOk, OnErr};
ghost use Rattle.outside.specs.Causes.{HasCause};

use crate::Failed;

/// Where text goes, as a terminal or a file that is written from its end on.
pub trait Sink {
    /// Whether sinks of this kind tell what was written.
    ghost tells: { Bool };

    /// All that was written, where its kind tells.
    ghost written: { Self → List ℕ };

    /// How often it has failed. It starts at 0, and may stand still at the greatest u64.
    ghost faults: { Self → ℕ };

    /// Writes all of the text. After a failure a front of it may have been written.
    fn write(&mut self, from: &[u8]) -> Result<(), Failed>
        ensures cause { HasCause (faults self.old) (faults self.new) result }
        ensures written { IsTrue tells →
            OnOk result (written self.new ≡ written self.old ++ from.now) }
        ensures broken { IsTrue tells → OnErr result
            ((n : ℕ) × (written self.new ≡ written self.old ++ take n from.now)) };
}
