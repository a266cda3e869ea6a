//! A piece from its first byte to its last.
ghost use Rattle.std.specs.Prelude.{◌≡◌, ◌≤◌, ◌<◌, ◌+◌, [], true, false, length, take, map, IfOk};
ghost use Rattle.std.specs.Prelude.{IfErr, OnOk, OnErr, All};
ghost use Rattle.request_stream.specs.Asks.{asks, sizes, IsCaused};
ghost use Rattle.request_stream.specs.Pieces.{IsFed};
ghost use Rattle.request_stream.specs.Reading.{Reads, Shuts, IsSound, ArePositive, is_failed};
ghost use Rattle.request_stream.specs.Room.{Holds, IsWithin, StaysWithin, held_of};
ghost use Rattle.request_stream.specs.Units.{stamped};

use crate::bodies::{decode, fill};
use crate::heads::seek;
use crate::state::{State, Step};
use crate::types::{Limits, StreamFault, Unit};
use outside::{Spill, Spills};
use std::alloc::Global;
use std::mem;

// The piece goes on with what the stream stands in.
fn advance<S: Spill + Drop, P: Spills<Spill = S>>(
    alloc: Global,
    limits: &Limits,
    state: State<S>,
    now: u64,
    piece: &[u8],
    spills: &mut P,
    given: &mut Vec<Unit<S>>,
) -> Result<Step<S>, StreamFault<S>>
    requires fed { IsFed limits.now piece.now }
    requires sound { IsSound limits.now state }
    ensures taken { IfOk result (λ s. (0 < s.taken) × (s.taken ≤ length piece.now)) }
    ensures sound { IfOk result (λ s. IsSound limits.now s.state) }
    ensures holds { IfOk result (λ s. Holds state s.state s.taken given.old.items given.new.items) }
    ensures within { OnOk result (StaysWithin limits.now given.old.items given.new.items) }
    ensures shuts { IfOk result (λ s. Shuts state s.state (map asks given.old.items)
        (map asks given.new.items)) }
    ensures reads { IfOk result (λ s. Reads S.tells limits.now state s.state
        (stamped now (take s.taken piece.now)) (map asks given.old.items)
        (map asks given.new.items)) }
    ensures cause { IfErr result (λ f. IsCaused S.faults f) }
    ensures spills { P.faults spills.new ≡ P.faults spills.old }
{
    match state {
        State::Seeking(held) => seek(alloc, limits, held, now, piece, spills, given),
        State::Filling(part) => fill(alloc, limits, part, now, piece, given),
        State::Decoding(part) => decode(alloc, limits, part, now, piece, given),
        State::Over => Ok(Step {
            state: State::Over,
            taken: piece.len(),
        }),
        State::Failed => unreachable!(),
    }
}

/// Reads the whole piece.
pub(crate) fn run<S: Spill + Drop, P: Spills<Spill = S>>(
    alloc: Global,
    limits: &Limits,
    mut state: State<S>,
    now: u64,
    piece: &[u8],
    spills: &mut P,
    given: &mut Vec<Unit<S>>,
) -> Result<State<S>, StreamFault<S>>
    requires positive { ArePositive limits.now }
    requires sound { IsSound limits.now state }
    ensures sound { IfOk result (λ s. IsSound limits.now s) }
    ensures holds { IfOk result (λ s. Holds state s
        (length piece.now) given.old.items given.new.items) }
    ensures within { OnOk result (StaysWithin limits.now given.old.items given.new.items) }
    ensures shuts { IfOk result (λ s. Shuts state s (map asks given.old.items)
        (map asks given.new.items)) }
    ensures reads { IfOk result (λ s. Reads S.tells limits.now state s (stamped now piece.now)
        (map asks given.old.items) (map asks given.new.items)) }
    ensures cause { IfErr result (λ f. IsCaused S.faults f) }
    ensures spills { P.faults spills.new ≡ P.faults spills.old }
{
    let mut at = 0;
    while at < piece.len() {
        let step = advance(alloc, limits, state, now, &piece[at..], spills, given)?;
        state = step.state;
        at += step.taken;
    }
    Ok(state)
}

/// The units of a piece, unless a fault was met before. The state is `Failed` where one is met.
pub(crate) fn read<S: Spill + Drop, P: Spills<Spill = S>>(
    alloc: Global,
    limits: &Limits,
    state: &mut State<S>,
    now: u64,
    piece: &[u8],
    spills: &mut P,
) -> Result<Vec<Unit<S>>, StreamFault<S>>
    requires positive { ArePositive limits.now }
    requires sound { is_failed state.old ≡ false → IsSound limits.now state.old }
    ensures sound { is_failed state.new ≡ false → IsSound limits.now state.new }
    ensures shuts { IfOk result (λ us. is_failed state.old ≡ false →
        Shuts state.old state.new [] (map asks us.items)) }
    ensures reads { IfOk result (λ us. is_failed state.old ≡ false →
        Reads S.tells limits.now state.old state.new (stamped now piece.now) []
        (map asks us.items)) }
    ensures none { IfOk result (λ us. is_failed state.old ≡ true → us.items ≡ []) }
    ensures holds { IfOk result (λ us. held_of state.new + sizes us.items ≤ held_of state.old
        + length piece.now) }
    ensures within { IfOk result (λ us. All (IsWithin limits.now) us.items) }
    ensures kept { OnOk result (is_failed state.new ≡ is_failed state.old) }
    ensures fault { OnErr result (is_failed state.new ≡ true) }
    ensures cause { IfErr result (λ f. IsCaused S.faults f) }
    ensures spills { P.faults spills.new ≡ P.faults spills.old }
{
    let mut given = Vec::new(alloc);
    if let State::Failed = state {
        return Ok(given);
    }
    let before = mem::replace(state, State::Failed);
    *state = run(alloc, limits, before, now, piece, spills, &mut given)?;
    Ok(given)
}
