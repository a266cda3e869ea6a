//! The polling side: what it has for itself, and how a call of it concludes.
ghost use Rattle.std.specs.Prelude.{◌≡◌, is_some, ◌∷◌, [], ℕ, false, true, ◌<◌, ◌+◌, ◌&&◌, ◌||◌};
ghost use Rattle.std.specs.Prelude.{IsTrue, None, Some, if◌then◌else◌};
ghost use Rattle.channel.specs.Acting.{has_counted, over_of, spill_by, spill_counted};
ghost use Rattle.channel.specs.Agreement.{known_by};
ghost use Rattle.channel.specs.Happening.{Concludes, as_acted, over_or};
ghost use Rattle.request_stream.specs.Reading.{ArePositive};
ghost use Rattle.channel.specs.Histories.{LeftPast, RightPast, left_turn};
ghost use Rattle.channel.specs.Sides.{IsSameNear, Sees, Side, TurnsLeft, TurnsNear, is_breaking};
ghost use Rattle.channel.specs.Sides.{is_readable, linked, side_of, view_of};
ghost use Rattle.channel.specs.State.{State, state_of};
ghost use Rattle.channel.specs.declared.acts.LeftAct.TheVariants.{Buried as buried};
ghost use Rattle.channel.specs.declared.acts.LeftAct.TheVariants.{Killed as killed};
ghost use Rattle.outside.specs.declared.types.End.TheVariants as over;

use crate::functions::spill_of;
use crate::noting::{Breaks, Buried, Kills, LeftEntry, Then};
use crate::shared::Shared;
use crate::types::{Acted, Closed, Window};
use outside::{End, Link, Peer, Spill, note};
use request_stream::{Limits, Stream};
use std::alloc::Global;
use std::snapshot::Snapshot;
use wsgi::App;

/// What one recv or one send came to.
#[derive(Clone, Copy)]
pub(crate) enum Moved {
    /// The link was not asked.
    Idle,
    PutOff,
    /// Bytes came.
    Got,
    /// Nothing more will come.
    Ended,
    /// Bytes were taken.
    Took,
    /// The link failed.
    Failed,
    /// A spill failed.
    Broke,
    NoMemory,
}

impl Moved {
    fn as_acted(self) -> Acted
        ensures { result ≡ as_acted self }
    {
        match self {
            Moved::Idle | Moved::PutOff => Acted::Nothing,
            Moved::Got | Moved::Ended | Moved::Took => Acted::Did,
            Moved::Failed | Moved::Broke | Moved::NoMemory => Acted::Did,
        }
    }
}

/// What the polling side has for itself.
#[derive(Drop)]
pub(crate) struct Near<L, A: App<S>, S: Spill> {
    pub(crate) link: L,
    pub(crate) peer: Peer,
    pub(crate) stream: Stream<S>,
    pub(crate) window: Window,
    /// When bytes last came or were taken.
    pub(crate) touched: u64,
    /// Nothing more will come.
    pub(crate) ended: bool,
    /// What broke was taken out of the state.
    pub(crate) buried: bool,
    pub(crate) broken: Option<S>,
    pub(crate) fallen: Option<A::Run>,
}

impl<L: Link + Drop, A: App<S>, S: Spill + Send + Drop> Near<L, A, S> {
    pub(crate) fn new(
        alloc: Global,
        now: u64,
        link: L,
        peer: Peer,
        limits: Limits,
        window: Window,
    ) -> Near<L, A, S>
        requires positive { ArePositive limits }
        ensures link { result.link ≡ link }
        ensures peer { result.peer ≡ peer }
        ensures window { result.window ≡ window }
        ensures stream { result.stream ≡ record {
          limits = limits;
          fed = [];
          failed = false;
          over =
              false;
          held = 0;
        } }
        ensures touched { result.touched ≡ now }
        ensures ended { result.ended ≡ false }
        ensures buried { result.buried ≡ false }
        ensures broken { result.broken ≡ None }
        ensures fallen { result.fallen ≡ None }
    {
        Near {
            link,
            peer,
            stream: Stream::new(alloc, limits),
            window,
            touched: now,
            ended: false,
            buried: false,
            broken: None,
            fallen: None,
        }
    }

    pub(crate) fn is_readable(&self, state: &Shared<A, A::Run, S>) -> bool
        ensures { result ≡ is_readable self.now.window.lookahead (state_of state.now)
            self.now.stream self.now.ended }
    {
        !state.closing
            && !self.stream.finished()
            && !self.ended
            && state.unit_count() <= self.window.lookahead
            && state.output_len() == 0
    }

    // Takes out what broke: the run of the answer, or the output.
    fn bury(&mut self, state: &mut Shared<A, A::Run, S>, end: End) -> LeftEntry<S>
        requires dead { state.old.dead ≡ Some end }
        requires breaking { is_breaking end ≡ true }
        requires first { self.old.buried ≡ false }
        ensures dead { state.new.dead ≡ state.old.dead }
        ensures turns { TurnsNear (linked L.tells L.state L.faults L.key L.plan)
            (known_by S.tells A.tells A.script S.faults A.Run.faults A.Run.spill_faults)
            self.old self.new (state_of state.old) (state_of state.new) result }
        ensures concludes { Sees (linked L.tells L.state L.faults L.key L.plan) self.old self.new
            (state_of state.old) (state_of state.new) result
            (Concludes) }
    {
        let is_output = is_of_output(end, &state.fallen);
        let (run, output) = state.bury(is_output);
        self.buried = true;
        self.fallen = run;
        self.broken = spill_of(output, self.broken.take());
        note::<_, _, Buried>(&())
    }

    // Answers how the channel is over, or else what was done. The first to tell of what broke takes
    // it out.
    pub(crate) fn conclude(
        &mut self,
        state: &mut Shared<A, A::Run, S>,
        moved: Moved,
        entry: LeftEntry<S>,
    ) -> (Acted, LeftEntry<S>)
        ensures over { result.0 ≡ over_or (over_of (state_of state.new) self.new.ended) moved }
        ensures turns { (before : Side) → (was : State A A.Run S) →
            TurnsLeft (known_by S.tells A.tells A.script S.faults A.Run.faults A.Run.spill_faults)
            before
            (side_of (linked L.tells L.state L.faults L.key L.plan) (known_by S.tells A.tells
            A.script S.faults A.Run.faults A.Run.spill_faults) self.old)
            was (state_of state.old) entry →
            TurnsLeft (known_by S.tells A.tells A.script S.faults A.Run.faults A.Run.spill_faults)
            before
            (side_of (linked L.tells L.state L.faults L.key L.plan) (known_by S.tells A.tells
            A.script S.faults A.Run.faults A.Run.spill_faults) self.new)
            was (state_of state.new) result.1 }
        ensures same { IsSameNear (linked L.tells L.state L.faults L.key L.plan) self.old self.new }
        ensures concludes { (l : LeftPast S) → (r : RightPast S) → (left : ℕ) → Concludes
            (view_of (linked L.tells L.state L.faults L.key L.plan) self.old (state_of state.old)
            (left_turn l entry) r left)
            (view_of (linked L.tells L.state L.faults L.key L.plan) self.new (state_of state.new)
            (left_turn l result.1) r left) }
    {
        let Some(end) = state.end(self.ended) else {
            return (moved.as_acted(), entry);
        };
        if self.buried || !is_breaking(end) {
            return (Acted::Over(end), entry);
        }
        let buried = self.bury(state, end);
        let both = (Snapshot::of(&entry), Snapshot::of(&buried));
        (Acted::Over(end), note::<_, _, Then>(&both))
    }

    pub(crate) fn into_link(self) -> (L, Peer)
        ensures link { result.0 ≡ self.link }
        ensures peer { result.1 ≡ self.peer }
    {
        let Near {
            link,
            peer,
            stream: _,
            window: _,
            touched: _,
            ended: _,
            buried: _,
            broken: _,
            fallen: _,
        } = self;
        (link, peer)
    }

    /// What is left at the end: what broke was taken out, or stands in the state.
    pub(crate) fn into_closed(self, state: Shared<A, A::Run, S>) -> Closed<L, A::Run, S>
        ensures link { result.link ≡ self.link }
        ensures peer { result.peer ≡ self.peer }
        ensures buried { self.buried ≡ true → (result.broken ≡ self.broken) × (result.fallen ≡
            self.fallen) }
        ensures run { self.buried ≡ false → result.fallen ≡ state.fallen }
        ensures spill { self.buried ≡ false → state.fallen ≡ None → state.dead ≡ Some
            over.SpillFault → result.broken ≡ spill_by state.output None }
    {
        let Near {
            buried,
            broken,
            fallen,
            link,
            peer,
            stream: _,
            window: _,
            touched: _,
            ended: _,
        } = self;
        if buried {
            return Closed {
                link,
                peer,
                broken,
                fallen,
            };
        }
        let (broken, fallen) = state.into_broken();
        Closed {
            link,
            peer,
            broken,
            fallen,
        }
    }
}

// The channel ends in this turn.
pub(crate) fn kill<A, R: Drop, S: Spill + Drop>(
    state: &mut Shared<A, R, S>,
    end: End,
) -> LeftEntry<S>
    ensures now { state_of state.new ≡ record (state_of state.old) { dead = Some end } }
    ensures told { result.value ≡ killed end ∷ [] }
{
    state.kill(end);
    note::<_, _, Kills>(&end)
}

// A spill failed in this turn, and the channel ends: what broke is taken out at once. Where no
// spill is given it is that of the output.
pub(crate) fn end_broken<A, R: Drop, S: Spill + Drop>(
    state: &mut Shared<A, R, S>,
    broken: Option<S>,
) -> (Option<S>, Option<R>, LeftEntry<S>)
    requires counted { IsTrue (spill_counted S.faults broken state.old.output) }
    ensures counted { IsTrue (has_counted S.faults result.0) }
    ensures told { result.2.value ≡ killed over.SpillFault ∷ buried ∷ [] }
    ensures state { state_of state.new ≡ record (state_of state.old) {
      dead = Some over.SpillFault;
      fallen = None;
      output = (if is_some broken then state.old.output else None);
    } }
{
    state.kill(End::SpillFault);
    let is_output = broken.is_none();
    let (fallen, output) = state.bury(is_output);
    let entry = note::<_, _, Breaks>(&End::SpillFault);
    (spill_of(output, broken), fallen, entry)
}

// Whether it was the output that broke, where an answer broke off.
fn is_of_output<R>(end: End, fallen: &Option<R>) -> bool
    ensures { result ≡ false → end ≡ over.SpillFault → IsTrue (is_some fallen.now) }
{
    match end {
        End::SpillFault => fallen.is_none(),
        End::Done | End::LinkFault | End::AppFault => false,
        End::NoMemory | End::TimedOut { .. } | End::ShutDown => false,
    }
}

// Whether something that broke stands in the state.
fn is_breaking(end: End) -> bool
    ensures { result ≡ is_breaking end }
{
    match end {
        End::SpillFault | End::AppFault => true,
        End::Done | End::LinkFault | End::NoMemory | End::TimedOut { .. } | End::ShutDown => false,
    }
}
