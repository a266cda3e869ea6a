//! The calls of one object in memory that its plan lets fail, named by number from 0.
ghost use Rattle.std.specs.Prelude.{◌≡◌, ◌<◌, ◌↔◌, IsErr, IsTrue, length};
ghost use Rattle.outside.specs.Causes.{faults_after, raised};
ghost use Rattle.outside.specs.Memory.{is_listed};

use crate::{Failed, Items};

// Counts a call, and answers whether it is one of those that fail.
#[tactic(auto, using(crate::proofs::Listed::some_listed))]
pub(crate) fn next_fails(fails: &Items<u64>, calls: &mut u64) -> bool
    ensures listed { result ≡ is_listed fails.now calls.old }
    ensures counted { calls.new ≡ raised calls.old }
    ensures some { IsTrue result → 0 < length fails.now }
{
    let call = *calls;
    *calls = call.saturating_add(1);
    fails.as_slice().contains(&call)
}

// Counts a call, and fails where it is one of those, which is counted too.
pub(crate) fn next_call(fails: &Items<u64>, calls: &mut u64, faults: &mut u64) -> Result<(), Failed>
    ensures plan { IsErr result ↔ IsTrue (is_listed fails.now calls.old) }
    ensures counted { calls.new ≡ raised calls.old }
    ensures faults { faults.new ≡ faults_after result faults.old }
{
    if next_fails(fails, calls) {
        *faults = faults.saturating_add(1);
        return Err(Failed);
    }
    Ok(())
}
