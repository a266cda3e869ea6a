//! A piece goes on with a body.
ghost use Rattle.std.specs.Prelude.{◌≡◌, ◌≤◌, ◌<◌, ◌+◌, ◌++◌, ◌∷◌, [], length, take, map, IfOk};
ghost use Rattle.std.specs.Prelude.{IfErr, OnOk};
ghost use Rattle.request_stream.specs.Asks.{asks, sizes, IsCaused};
ghost use Rattle.request_stream.specs.Reading.{Reads, Shuts, IsSound, IsSoundFixed, IsSoundCoded};
ghost use Rattle.request_stream.specs.Reading.{ArePositive};
ghost use Rattle.request_stream.specs.Room.{Holds, StaysWithin};
ghost use Rattle.request_stream.specs.declared.types.Limits.{Limits as SomeLimits};
ghost use Rattle.request_stream.specs.Units.{stamped, refused_body};
ghost use Rattle.spill_buffer.specs.Buffer.{IsToldAs};

use crate::state::{CodedPart, FixedPart, State, Step};
use crate::types::{Limits, StreamFault, Unit};
use crate::whole::{finish, refuse};
use chunk_body::Fed;
use head_grammar::{Head, Refusal};
use outside::Spill;
use spill_buffer::{BufferFault, OverflowBuffer};
use std::alloc::{AllocError, Global};

// Bytes behind those of a body.
fn put<S: Spill + Drop>(
    mut body: OverflowBuffer<S>,
    from: &[u8],
) -> Result<OverflowBuffer<S>, StreamFault<S>>
    ensures appended { IfOk result (λ b. IsToldAs S.tells b.bytes (body.bytes ++ from.now)) }
    ensures memory { IfOk result (λ b. b.in_memory ≤ body.in_memory + length from.now) }
    ensures overflow { IfOk result (λ b. b.overflow ≡ body.overflow) }
    ensures below { IfOk result (λ b. b.in_memory < b.overflow) }
    ensures cause { IfErr result (λ f. IsCaused S.faults f) }
{
    match body.append(from) {
        Ok(()) => Ok(body),
        Err(BufferFault::Spill) => Err(StreamFault::Spill(body.into_spill())),
        Err(BufferFault::NoMemory) => Err(StreamFault::NoMemory),
    }
}

/// A body whose length is known (RFC 9112, section 6.2).
pub(crate) fn fill<S: Spill + Drop>(
    alloc: Global,
    limits: &Limits,
    part: FixedPart<S>,
    now: u64,
    piece: &[u8],
    given: &mut Vec<Unit<S>>,
) -> Result<Step<S>, StreamFault<S>>
    requires some { 0 < length piece.now }
    requires positive { ArePositive limits.now }
    requires sound { IsSoundFixed limits.now part }
    ensures taken { IfOk result (λ s. (0 < s.taken) × (s.taken ≤ length piece.now)) }
    ensures sound { IfOk result (λ s. IsSound limits.now s.state) }
    ensures holds { IfOk result (λ s. Holds (State.Filling part) s.state s.taken given.old.items
        given.new.items) }
    ensures within { OnOk result (StaysWithin limits.now given.old.items given.new.items) }
    ensures shuts { IfOk result (λ s. Shuts (State.Filling part) s.state (map asks given.old.items)
        (map asks given.new.items)) }
    ensures reads { IfOk result (λ s. Reads S.tells limits.now (State.Filling part) s.state
        (stamped now (take s.taken piece.now)) (map asks given.old.items)
        (map asks given.new.items)) }
    ensures cause { IfErr result (λ f. IsCaused S.faults f) }
{
    let _ = limits;
    let FixedPart { head, body, left } = part;
    let taken = (piece.len() as u64).min(left) as usize;
    let body = put(body, &piece[..taken])?;
    let left = left - taken as u64;
    if left == 0 {
        let state = finish(alloc, head, body, now, given)?;
        return Ok(Step { state, taken });
    }
    let state = State::Filling(FixedPart { head, body, left });
    Ok(Step { state, taken })
}

// A byte of the body is refused. A response to HEAD has no body (RFC 9110, section 9.3.2).
fn refuse_body<S: Spill + Drop>(
    head: &Head,
    refusal: Refusal,
    now: u64,
    given: &mut Vec<Unit<S>>,
) -> Result<State<S>, AllocError>
    ensures over { IfOk result (λ s. s ≡ State.Over) }
    ensures given { IfOk result (λ s. map asks given.new.items
        ≡ map asks given.old.items ++ refused_body head.now refusal now ∷ []) }
    ensures sizes { OnOk result (sizes given.new.items ≡ sizes given.old.items) }
    ensures within { (limits : SomeLimits) → OnOk result
        (StaysWithin limits given.old.items given.new.items) }
{
    let bodyless = head.method() == b"HEAD".as_slice();
    refuse(refusal, head.version(), bodyless, now, given)
}

/// A body in the chunked coding (RFC 9112, section 7.1).
pub(crate) fn decode<S: Spill + Drop>(
    alloc: Global,
    limits: &Limits,
    part: CodedPart<S>,
    now: u64,
    piece: &[u8],
    given: &mut Vec<Unit<S>>,
) -> Result<Step<S>, StreamFault<S>>
    requires some { 0 < length piece.now }
    requires positive { ArePositive limits.now }
    requires sound { IsSoundCoded limits.now part }
    ensures taken { IfOk result (λ s. (0 < s.taken) × (s.taken ≤ length piece.now)) }
    ensures sound { IfOk result (λ s. IsSound limits.now s.state) }
    ensures holds { IfOk result (λ s. Holds (State.Decoding part) s.state s.taken given.old.items
        given.new.items) }
    ensures within { OnOk result (StaysWithin limits.now given.old.items given.new.items) }
    ensures shuts { IfOk result (λ s. Shuts (State.Decoding part) s.state (map asks given.old.items)
        (map asks given.new.items)) }
    ensures reads { IfOk result (λ s. Reads S.tells limits.now (State.Decoding part) s.state
        (stamped now (take s.taken piece.now)) (map asks given.old.items)
        (map asks given.new.items)) }
    ensures cause { IfErr result (λ f. IsCaused S.faults f) }
{
    let _ = limits;
    let CodedPart {
        head,
        body,
        mut chunks,
        mut room,
    } = part;
    match chunks.feed(piece, &mut room) {
        Fed::More => {
            let body = put(body, room.as_slice())?;
            room.clear();
            let state = State::Decoding(CodedPart {
                head,
                body,
                chunks,
                room,
            });
            Ok(Step {
                state,
                taken: piece.len(),
            })
        }
        Fed::Done(taken) => {
            let body = put(body, room.as_slice())?;
            let state = finish(alloc, head, body, now, given)?;
            Ok(Step { state, taken })
        }
        Fed::Bad(refusal) => {
            let state = refuse_body(&head, refusal, now, given)?;
            Ok(Step {
                state,
                taken: piece.len(),
            })
        }
        Fed::NoMemory => Err(StreamFault::NoMemory),
    }
}
