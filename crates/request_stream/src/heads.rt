//! A piece goes on with a head.
ghost use Rattle.std.specs.Prelude.{◌≡◌, ◌≤◌, ◌<◌, ◌-◌, ◌+◌, ◌^◌, [], None, Some, length, take};
ghost use Rattle.std.specs.Prelude.{map, IfOk, IfErr, OnOk};
ghost use Rattle.head_grammar.specs.Ends.{head_end as end_of};
ghost use Rattle.request_stream.specs.Asks.{asks, sizes, IsCaused};
ghost use Rattle.request_stream.specs.Pieces.{IsFed};
ghost use Rattle.request_stream.specs.Reading.{IsSound, IsSoundHead, ArePositive, OpensBy, LeadsBy};
ghost use Rattle.request_stream.specs.Reading.{EndsBy, KeepsHead, SeeksOn};
ghost use Rattle.request_stream.specs.Room.{Holds, StaysWithin, held_of};
ghost use Rattle.request_stream.specs.Units.{verdict_by};

use crate::state::{CodedPart, FixedPart, State, Step};
use crate::types::{Limits, StreamFault, Unit};
use crate::whole::{finish, greet, refuse, start};
use chunk_body::Chunks;
use head_grammar::{Framing, Head, Parsed, Refusal, Version, head_end, read_head};
use outside::{Spill, Spills};
use spill_buffer::OverflowBuffer;
use std::alloc::Global;

// The head is good, and its body begins.
fn begin<S: Spill + Drop, P: Spills<Spill = S>>(
    alloc: Global,
    limits: &Limits,
    head: Head,
    now: u64,
    spills: &mut P,
    given: &mut Vec<Unit<S>>,
) -> Result<State<S>, StreamFault<S>>
    requires positive { ArePositive limits.now }
    requires fits { head.size < 2 ^ 63 }
    requires short { head.size < limits.now.max_head }
    ensures opens { IfOk result (λ s. OpensBy head.framing limits.now head now s
        (map asks given.old.items) (map asks given.new.items)) }
    ensures sound { IfOk result (λ s. IsSound limits.now s) }
    ensures holds { IfOk result (λ s. held_of s + sizes given.new.items
        ≡ sizes given.old.items + head.size) }
    ensures within { OnOk result (StaysWithin limits.now given.old.items given.new.items) }
    ensures cause { IfErr result (λ f. IsCaused S.faults f) }
    ensures spills { P.faults spills.new ≡ P.faults spills.old }
{
    greet(&head, given)?;
    let body = OverflowBuffer::new(alloc, spills.make(), limits.inbuf_overflow);
    match head.framing() {
        Framing::Empty => Ok(finish(alloc, head, body, now, given)?),
        Framing::Fixed(left) => {
            if left == 0 {
                return Ok(finish(alloc, head, body, now, given)?);
            }
            Ok(State::Filling(FixedPart { head, body, left }))
        }
        Framing::Chunked => Ok(State::Decoding(CodedPart {
            head,
            body,
            chunks: Chunks::new(limits.max_body, limits.max_head),
            room: Vec::new(alloc),
        })),
    }
}

// The head is all there.
fn lead<S: Spill + Drop, P: Spills<Spill = S>>(
    alloc: Global,
    limits: &Limits,
    bytes: &[u8],
    now: u64,
    spills: &mut P,
    given: &mut Vec<Unit<S>>,
) -> Result<State<S>, StreamFault<S>>
    requires positive { ArePositive limits.now }
    requires whole { end_of bytes.now ≡ Some (length bytes.now) }
    requires short { length bytes.now < limits.now.max_head }
    ensures leads { IfOk result (λ s. LeadsBy (verdict_by limits.now bytes.now) limits.now now s
        (map asks given.old.items) (map asks given.new.items)) }
    ensures sound { IfOk result (λ s. IsSound limits.now s) }
    ensures holds { IfOk result (λ s. held_of s + sizes given.new.items ≤ sizes given.old.items
        + length bytes.now) }
    ensures within { OnOk result (StaysWithin limits.now given.old.items given.new.items) }
    ensures cause { IfErr result (λ f. IsCaused S.faults f) }
    ensures spills { P.faults spills.new ≡ P.faults spills.old }
{
    match read_head(alloc, bytes, limits.max_body)? {
        Parsed::Blank => Ok(start(alloc)),
        Parsed::Bad {
            refusal,
            version,
            bodyless,
        } => Ok(refuse(refusal, version, bodyless, now, given)?),
        Parsed::Good(head) => begin(alloc, limits, head, now, spills, given),
    }
}

// Where a head ends among the bytes that it may have. None ends in those that stood there before.
fn end_within(bytes: &[u8], before: usize, max_head: u64) -> Option<usize>
    requires there { before ≤ length bytes.now }
    requires short { before < max_head }
    requires none { end_of (take before bytes.now) ≡ None }
    ensures { EndsBy result bytes.now before max_head }
{
    let window = (bytes.len() as u64).min(max_head - 1) as usize;
    head_end(&bytes[..window], before)
}

// No head ends in these bytes.
fn keep<S: Spill + Drop>(
    limits: &Limits,
    bytes: Vec<u8>,
    now: u64,
    given: &mut Vec<Unit<S>>,
) -> Result<State<S>, StreamFault<S>>
    requires positive { ArePositive limits.now }
    requires none { end_of (take (limits.now.max_head - 1) bytes.items) ≡ None }
    requires most { length bytes.items ≤ limits.now.max_head }
    ensures keeps { IfOk result (λ s. KeepsHead limits.now bytes.items now s
        (map asks given.old.items) (map asks given.new.items)) }
    ensures sound { IfOk result (λ s. IsSound limits.now s) }
    ensures holds { IfOk result (λ s. held_of s + sizes given.new.items ≤ sizes given.old.items
        + length bytes.items) }
    ensures within { OnOk result (StaysWithin limits.now given.old.items given.new.items) }
    ensures cause { IfErr result (λ f. IsCaused S.faults f) }
{
    if bytes.len() as u64 == limits.max_head {
        let refusal = Refusal::HeadTooLarge(limits.max_head);
        return Ok(refuse(refusal, Version::Old, false, now, given)?);
    }
    Ok(State::Seeking(bytes))
}

// Nothing is held, and the head is read where it stands.
fn seek_first<S: Spill + Drop, P: Spills<Spill = S>>(
    alloc: Global,
    limits: &Limits,
    now: u64,
    piece: &[u8],
    spills: &mut P,
    given: &mut Vec<Unit<S>>,
) -> Result<Step<S>, StreamFault<S>>
    requires fed { IsFed limits.now piece.now }
    requires none { end_of [] ≡ None }
    ensures taken { IfOk result (λ s. (0 < s.taken) × (s.taken ≤ length piece.now)) }
    ensures sound { IfOk result (λ s. IsSound limits.now s.state) }
    ensures holds { IfOk result (λ s. held_of s.state + sizes given.new.items
        ≤ sizes given.old.items + s.taken) }
    ensures within { OnOk result (StaysWithin limits.now given.old.items given.new.items) }
    ensures seeks { IfOk result (λ s. SeeksOn limits.now [] (take s.taken piece.now) now s.state
        (map asks given.old.items) (map asks given.new.items)) }
    ensures cause { IfErr result (λ f. IsCaused S.faults f) }
    ensures spills { P.faults spills.new ≡ P.faults spills.old }
{
    if let Some(end) = end_within(piece, 0, limits.max_head) {
        let state = lead(alloc, limits, &piece[..end], now, spills, given)?;
        return Ok(Step { state, taken: end });
    }
    let taken = (piece.len() as u64).min(limits.max_head) as usize;
    let bytes = Vec::from_slice(alloc, &piece[..taken])?;
    let state = keep(limits, bytes, now, given)?;
    Ok(Step { state, taken })
}

/// Bytes of a head are there, or none.
pub(crate) fn seek<S: Spill + Drop, P: Spills<Spill = S>>(
    alloc: Global,
    limits: &Limits,
    held: Vec<u8>,
    now: u64,
    piece: &[u8],
    spills: &mut P,
    given: &mut Vec<Unit<S>>,
) -> Result<Step<S>, StreamFault<S>>
    requires fed { IsFed limits.now piece.now }
    requires sound { IsSoundHead limits.now held.items }
    ensures taken { IfOk result (λ s. (0 < s.taken) × (s.taken ≤ length piece.now)) }
    ensures sound { IfOk result (λ s. IsSound limits.now s.state) }
    ensures holds { IfOk result (λ s. Holds (State.Seeking held) s.state s.taken given.old.items
        given.new.items) }
    ensures within { OnOk result (StaysWithin limits.now given.old.items given.new.items) }
    ensures seeks { IfOk result (λ s. SeeksOn limits.now held.items
        (take s.taken piece.now) now s.state (map asks given.old.items)
        (map asks given.new.items)) }
    ensures cause { IfErr result (λ f. IsCaused S.faults f) }
    ensures spills { P.faults spills.new ≡ P.faults spills.old }
{
    if held.is_empty() {
        return seek_first(alloc, limits, now, piece, spills, given);
    }
    let mut bytes = held;
    let before = bytes.len();
    let taken = (piece.len() as u64).min(limits.max_head - before as u64) as usize;
    bytes.extend_from_slice(&piece[..taken])?;
    if let Some(end) = end_within(bytes.as_slice(), before, limits.max_head) {
        let state = lead(alloc, limits, &bytes[..end], now, spills, given)?;
        return Ok(Step {
            state,
            taken: end - before,
        });
    }
    let state = keep(limits, bytes, now, given)?;
    Ok(Step { state, taken })
}
