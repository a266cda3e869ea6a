//! What a buffer does with its memory and with its spill, each by itself.
ghost use Rattle.std.specs.Prelude.{◌≡◌, ◌≤◌, ◌+◌, ◌++◌, ◌-◌, IsTrue, [], length, drop, OnOk};
ghost use Rattle.std.specs.Vec.{vec_capacity};
ghost use Rattle.outside.specs.Causes.{HasCause};

use outside::{Failed, Spill};

// An empty buffer keeps at most so much room.
const KEPT_ROOM: usize = 65_536;

/// Makes room of what was skipped, where that is more than what is left. So of the bytes that were
/// skipped each stands for at most one that is moved.
pub(crate) fn close_up(memory: &mut Vec<u8>, skipped: &mut usize)
    requires { skipped.old ≤ length memory.old.items }
    ensures same { drop skipped.new memory.new.items ≡ drop skipped.old memory.old.items }
    ensures within { skipped.new ≤ length memory.new.items }
{
    let left = memory.len() - *skipped;
    if left < *skipped {
        memory.copy_within(*skipped.., 0);
        memory.truncate(left);
        *skipped = 0;
    }
}

/// Empties the memory, and gives its room back where that is large.
pub(crate) fn clear(memory: &mut Vec<u8>)
    ensures empty { memory.new.items ≡ [] }
    ensures room { vec_capacity memory.new ≤ KEPT_ROOM }
{
    memory.clear();
    if memory.capacity() > KEPT_ROOM {
        memory.shrink_to_fit();
    }
}

/// Makes two parts all that stands in a spill.
pub(crate) fn fill<S: Spill>(spill: &mut S, first: &[u8], second: &[u8]) -> Result<(), Failed>
    ensures cause { HasCause (S.faults spill.old) (S.faults spill.new) result }
    ensures size { OnOk result (S.size spill.new ≡ length first.now + length second.now) }
    ensures content { IsTrue S.tells → OnOk result
        (S.content spill.new ≡ first.now ++ second.now) }
{
    if !first.is_empty() {
        spill.write(0, first)?;
    }
    spill.write(first.len() as u64, second)
}
