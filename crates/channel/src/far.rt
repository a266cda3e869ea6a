//! The answering side: the answer to the current unit goes into the output, one text at a time.
ghost use Rattle.std.specs.Prelude.{◌≡◌, ◌≤◌, ◌<◌, IfErr, IfOk, IsTrue, None, Some, is_some, true};
ghost use Rattle.std.specs.Prelude.{false};
ghost use Rattle.proxy_trust.specs.Rules.{IsSound};
ghost use Rattle.channel.specs.Acting.{output_length};
ghost use Rattle.channel.specs.Agreement.{KeepsBroken, known_by};
ghost use Rattle.channel.specs.State.{state_of};
ghost use Rattle.channel.specs.Stepping.{AddsText, StepsTo};
ghost use Rattle.channel.specs.Stopping.{IsCaused, stop_cause};
ghost use Rattle.channel.specs.Turning.{BreaksAny, TurnsAny, TurnsRight, Writes, cause_by};
ghost use Rattle.channel.specs.Writing.{is_busy, is_settled, steps_left, without_text};
ghost use Rattle.channel.specs.declared.types.Progress.TheVariants as progress';
ghost use Rattle.channel.specs.declared.writing.Writing.TheVariants as writing';

use crate::answering::{Stop, begin, step};
use crate::noting::{Begins, Breaks, Looked, RightEntry, Then, Written};
use crate::shared::Shared;
use crate::types::{Cause, Progress};
use crate::writing::Writing;
use outside::{Peer, Spill, note};
use spill_buffer::BufferFault;
use std::alloc::Global;
use std::snapshot::Snapshot;
use wsgi::{App, Site};

fn cause_of(fault: BufferFault) -> Cause
    ensures { result ≡ cause_by fault }
{
    match fault {
        BufferFault::Spill => Cause::Spill,
        BufferFault::NoMemory => Cause::NoMemory,
    }
}

// What a turn of the answering side leaves.
#[derive(Drop)]
pub(crate) struct Turned<R, S: Spill> {
    pub(crate) progress: Progress,
    pub(crate) writing: Writing<R>,
    pub(crate) entry: RightEntry<S>,
}

/// Takes the next unit and begins its answer.
pub(crate) fn begin_next<A: App<S>, S: Spill + Send + Drop>(
    alloc: Global,
    app: &A,
    site: &Site,
    peer: &Peer,
    state: &mut Shared<A, A::Run, S>,
) -> Turned<A::Run, S>
    requires sound { IsSound site.now.rules }
    requires alive { state.old.dead ≡ None }
    requires idle { state.old.current ≡ false }
    ensures turns { TurnsRight (known_by S.tells A.tells A.script S.faults A.Run.faults
        A.Run.spill_faults) A.Run.rest
        site.now (A.script app.now) peer.now writing'.Idle result.writing (state_of state.old)
        (state_of state.new) result.entry }
    ensures steps { StepsTo (known_by S.tells A.tells A.script S.faults A.Run.faults
        A.Run.spill_faults)
        result.progress 0 (steps_left A.Run.left result.writing) (state_of state.old) (state_of
        state.new) result.entry }
    ensures settled { IsTrue (is_settled result.writing) }
{
    let Some(unit) = state.begin() else {
        return Turned {
            progress: Progress::Rest,
            writing: Writing::Idle,
            entry: note::<_, _, Looked>(&()),
        };
    };
    let began = note::<_, _, Begins>(&unit);
    match begin(alloc, app, site, peer, unit) {
        Ok(writing) => Turned {
            progress: Progress::More,
            writing,
            entry: began,
        },
        Err(_) => {
            let cause = Cause::NoMemory;
            state.break_off(cause, None);
            let broke = note::<_, _, Breaks>(&cause);
            let both = (Snapshot::of(&began), Snapshot::of(&broke));
            Turned {
                progress: Progress::Broke(cause),
                writing: Writing::Idle,
                entry: note::<_, _, Then>(&both),
            }
        }
    }
}

// The answer breaks off for this cause, with the run that broke.
fn break_off<A: App<S>, S: Spill + Send + Drop>(
    state: &mut Shared<A, A::Run, S>,
    cause: Cause,
    run: Option<A::Run>,
    writing: Writing<A::Run>,
) -> Turned<A::Run, S>
    requires alive { state.old.dead ≡ None }
    requires broken { KeepsBroken S.faults A.Run.faults A.Run.spill_faults (Some cause) run
        state.old.output }
    ensures breaks { BreaksAny (known_by S.tells A.tells A.script S.faults A.Run.faults
        A.Run.spill_faults) A.Run.rest
        cause (state_of state.old) (state_of state.new) result.entry }
    ensures answers { (result.progress ≡ progress'.Broke cause) × (result.writing ≡ writing) }
{
    state.break_off(cause, run);
    Turned {
        progress: Progress::Broke(cause),
        writing,
        entry: note::<_, _, Breaks>(&cause),
    }
}

fn stop_by<A: App<S>, S: Spill + Send + Drop>(
    state: &mut Shared<A, A::Run, S>,
    stop: Stop<A::Run>,
) -> Turned<A::Run, S>
    requires alive { state.old.dead ≡ None }
    requires there { IsTrue (is_some state.old.output) }
    requires caused { IsCaused A.Run.faults A.Run.spill_faults stop }
    ensures breaks { BreaksAny (known_by S.tells A.tells A.script S.faults A.Run.faults
        A.Run.spill_faults) A.Run.rest
        (stop_cause stop) (state_of state.old) (state_of state.new) result.entry }
    ensures answers { (result.progress ≡ progress'.Broke (stop_cause stop)) × (result.writing ≡
        writing'.Idle) }
{
    match stop {
        Stop::Spill(run) => break_off(state, Cause::Spill, Some(run), Writing::Idle),
        Stop::App(run) => break_off(state, Cause::App, Some(run), Writing::Idle),
        Stop::NoMemory => break_off(state, Cause::NoMemory, None, Writing::Idle),
    }
}

// The output takes a text, or the answer breaks off.
fn write<A: App<S>, S: Spill + Send + Drop>(
    text: &[u8],
    ended: Option<bool>,
    state: &mut Shared<A, A::Run, S>,
) -> Result<RightEntry<S>, (Cause, RightEntry<S>)>
    requires alive { state.old.dead ≡ None }
    requires there { IsTrue (is_some state.old.output) }
    ensures wrote { IfOk result (λ entry. Writes S.tells text.now ended (state_of state.old)
        (state_of state.new) entry) }
    ensures broke { IfErr result (λ e. BreaksAny (known_by S.tells A.tells A.script S.faults
        A.Run.faults A.Run.spill_faults) A.Run.rest
        e.0 (state_of state.old) (state_of state.new) e.1) }
{
    match state.add(text, ended) {
        Ok(()) => {
            let about = (text, ended);
            Ok(note::<_, _, Written>(&about))
        }
        Err(fault) => {
            let cause = cause_of(fault);
            state.break_off(cause, None);
            Err((cause, note::<_, _, Breaks>(&cause)))
        }
    }
}

/// Adds the text that waits, if one does. What is under way behind it stays, also where it breaks
/// off.
pub(crate) fn add_text<A: App<S>, S: Spill + Send + Drop>(
    writing: Writing<A::Run>,
    state: &mut Shared<A, A::Run, S>,
) -> Turned<A::Run, S>
    requires alive { state.old.dead ≡ None }
    requires busy { state.old.current ≡ true }
    requires there { IsTrue (is_some state.old.output) }
    requires below { output_length (state_of state.old) ≤
        state.old.fixed.value.window.high_watermark }
    ensures turns { TurnsAny (known_by S.tells A.tells A.script S.faults A.Run.faults
        A.Run.spill_faults) A.Run.rest
        writing result.writing (state_of state.old) (state_of state.new) result.entry }
    ensures adds { AddsText (known_by S.tells A.tells A.script S.faults A.Run.faults
        A.Run.spill_faults)
        result.progress writing (state_of state.old) (state_of state.new) result.entry }
    ensures writing { result.writing ≡ without_text writing }
{
    match writing {
        Writing::Waits(waiting) => match write(waiting.text.as_slice(), None, state) {
            Ok(entry) => Turned {
                progress: Progress::More,
                writing: Writing::Scripted(waiting.script),
                entry,
            },
            Err((cause, entry)) => Turned {
                progress: Progress::Broke(cause),
                writing: Writing::Scripted(waiting.script),
                entry,
            },
        },
        Writing::Last(text, closes) => match write(text.as_slice(), Some(closes), state) {
            Ok(entry) => Turned {
                progress: Progress::More,
                writing: Writing::Idle,
                entry,
            },
            Err((cause, entry)) => Turned {
                progress: Progress::Broke(cause),
                writing: Writing::Idle,
                entry,
            },
        },
        Writing::Scripted(script) => Turned {
            progress: Progress::More,
            writing: Writing::Scripted(script),
            entry: note::<_, _, Looked>(&()),
        },
        Writing::Idle => Turned {
            progress: Progress::More,
            writing: Writing::Idle,
            entry: note::<_, _, Looked>(&()),
        },
    }
}

/// Makes a step of the current answer, and adds what it wrote.
pub(crate) fn go_on<A: App<S>, S: Spill + Send + Drop>(
    alloc: Global,
    writing: Writing<A::Run>,
    state: &mut Shared<A, A::Run, S>,
) -> Turned<A::Run, S>
    requires alive { state.old.dead ≡ None }
    requires busy { state.old.current ≡ true }
    requires settled { IsTrue (is_settled writing) }
    requires under_way { IsTrue (is_busy writing) }
    requires there { IsTrue (is_some state.old.output) }
    requires below { output_length (state_of state.old) ≤
        state.old.fixed.value.window.high_watermark }
    ensures turns { TurnsAny (known_by S.tells A.tells A.script S.faults A.Run.faults
        A.Run.spill_faults) A.Run.rest
        writing result.writing (state_of state.old) (state_of state.new) result.entry }
    ensures steps { StepsTo (known_by S.tells A.tells A.script S.faults A.Run.faults
        A.Run.spill_faults)
        result.progress (steps_left A.Run.left writing) (steps_left A.Run.left result.writing)
        (state_of state.old) (state_of state.new) result.entry }
    ensures settled { IsTrue (is_settled result.writing) }
{
    match step(alloc, writing) {
        Ok(writing) => add_text(writing, state),
        Err(stop) => stop_by(state, stop),
    }
}

/// Begins the next unit, or makes a step of the current one.
pub(crate) fn advance<A: App<S>, S: Spill + Send + Drop>(
    alloc: Global,
    app: &A,
    site: &Site,
    peer: &Peer,
    writing: Writing<A::Run>,
    state: &mut Shared<A, A::Run, S>,
) -> Turned<A::Run, S>
    requires sound { IsSound site.now.rules }
    requires alive { state.old.dead ≡ None }
    requires busy { state.old.current ≡ is_busy writing }
    requires settled { IsTrue (is_settled writing) }
    requires there { IsTrue (is_some state.old.output) }
    requires below { output_length (state_of state.old) ≤
        state.old.fixed.value.window.high_watermark }
    ensures turns { TurnsRight (known_by S.tells A.tells A.script S.faults A.Run.faults
        A.Run.spill_faults) A.Run.rest
        site.now (A.script app.now) peer.now writing result.writing (state_of state.old) (state_of
        state.new) result.entry }
    ensures steps { StepsTo (known_by S.tells A.tells A.script S.faults A.Run.faults
        A.Run.spill_faults)
        result.progress (steps_left A.Run.left writing) (steps_left A.Run.left result.writing)
        (state_of state.old) (state_of state.new) result.entry }
    ensures settled { IsTrue (is_settled result.writing) }
{
    match writing {
        Writing::Idle => begin_next(alloc, app, site, peer, state),
        Writing::Scripted(script) => go_on(alloc, Writing::Scripted(script), state),
        // Here each text is added as soon as it is written.
        Writing::Waits(_) => unreachable!(),
        Writing::Last(text, closes) => go_on(alloc, Writing::Last(text, closes), state),
    }
}
