//! What a stream gives.
ghost use Rattle.std.specs.Prelude.{◌≡◌, ◌≤◌, ◌<◌, ◌+◌, ◌++◌, ◌∷◌, [], false, length, map, IfOk};
ghost use Rattle.std.specs.Prelude.{OnOk};
ghost use Rattle.request_stream.specs.Asks.{asks, sizes, size_of};
ghost use Rattle.request_stream.specs.Reading.{Closes, GoesOn, IsSound};
ghost use Rattle.request_stream.specs.Room.{IsWithin, StaysWithin, held_of};
ghost use Rattle.request_stream.specs.Units.{welcome, refusing};
ghost use Rattle.request_stream.specs.declared.types.Limits.{Limits as SomeLimits};

use crate::state::State;
use crate::types::{Refused, Request, Unit};
use head_grammar::{Head, Refusal, Version, one_end};
use outside::Spill;
use spill_buffer::OverflowBuffer;
use std::alloc::{AllocError, Global};

// One unit more.
fn give<S: Spill + Drop>(unit: Unit<S>, given: &mut Vec<Unit<S>>) -> Result<(), AllocError>
    ensures given { OnOk result (map asks given.new.items ≡ map asks given.old.items ++ asks unit
        ∷ []) }
    ensures sizes { OnOk result (sizes given.new.items ≡ sizes given.old.items + size_of unit) }
    ensures within { (limits : SomeLimits) → IsWithin limits unit → OnOk result
        (StaysWithin limits given.old.items given.new.items) }
{
    given.push(unit)?;
    Ok(())
}

/// The head before a body, which the client may wait to send (RFC 9110, section 10.1.1).
pub(crate) fn greet<S: Spill + Drop>(
    head: &Head,
    given: &mut Vec<Unit<S>>,
) -> Result<(), AllocError>
    ensures given { OnOk result (map asks given.new.items
        ≡ map asks given.old.items ++ welcome head.now) }
    ensures sizes { OnOk result (sizes given.new.items ≡ sizes given.old.items) }
    ensures within { (limits : SomeLimits) → OnOk result
        (StaysWithin limits given.old.items given.new.items) }
{
    if head.expects() {
        give(Unit::Continue, given)?;
    }
    Ok(())
}

/// A request that is refused.
pub(crate) fn refuse<S: Spill + Drop>(
    refusal: Refusal,
    version: Version,
    bodyless: bool,
    moment: u64,
    given: &mut Vec<Unit<S>>,
) -> Result<State<S>, AllocError>
    ensures over { IfOk result (λ s. s ≡ State.Over) }
    ensures given { IfOk result (λ s. map asks given.new.items
        ≡ map asks given.old.items ++ refusing refusal version bodyless moment ∷ []) }
    ensures sizes { OnOk result (sizes given.new.items ≡ sizes given.old.items) }
    ensures within { (limits : SomeLimits) → OnOk result
        (StaysWithin limits given.old.items given.new.items) }
{
    let refused = Refused {
        refusal,
        version,
        bodyless,
        moment,
    };
    give(Unit::Refused(refused), given)?;
    Ok(State::Over)
}

/// Where a head begins.
pub(crate) fn start<S: Spill + Drop>(alloc: Global) -> State<S>
    ensures goes { GoesOn false result }
    ensures sound { (limits : SomeLimits) → 1 ≤ limits.max_head → IsSound limits result }
{
    one_end();
    State::Seeking(Vec::new(alloc))
}

/// A request that is all there.
pub(crate) fn finish<S: Spill + Drop>(
    alloc: Global,
    head: Head,
    body: OverflowBuffer<S>,
    moment: u64,
    given: &mut Vec<Unit<S>>,
) -> Result<State<S>, AllocError>
    ensures closes { IfOk result (λ s. Closes head body.bytes moment s (map asks given.old.items)
        (map asks given.new.items)) }
    ensures sound { IfOk result (λ s. (limits : SomeLimits) → 1 ≤ limits.max_head →
        IsSound limits s) }
    ensures holds { IfOk result (λ s. held_of s + sizes given.new.items
        ≡ sizes given.old.items + (head.size + body.in_memory)) }
    ensures within { (limits : SomeLimits) → head.size < limits.max_head →
        body.in_memory < limits.inbuf_overflow → OnOk result
        (StaysWithin limits given.old.items given.new.items) }
{
    let closes = head.closes();
    let length = body.len();
    let request = Request {
        head,
        length,
        body,
        moment,
    };
    give(Unit::Request(request), given)?;
    if closes {
        return Ok(State::Over);
    }
    Ok(start(alloc))
}
