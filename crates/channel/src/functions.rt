//! What a turn does to the state, one act at a time. Each end of a channel uses them, and so does a
//! channel of one owner.
ghost use Rattle.std.specs.Prelude.{◌≡◌, ◌≤◌, ◌<◌, ◌++◌, ◌&&◌, ◌||◌, ◌==◌, true, false};
ghost use Rattle.std.specs.Prelude.{if◌then◌else◌, Some, None, IsTrue, is_some, length, nat_lt};
ghost use Rattle.std.specs.Prelude.{take, min, IfOk, OnOk, OnErr};
ghost use Rattle.std.specs.Option.{ForSome};
ghost use Rattle.channel.specs.Acting.{Adds, Begins, CountsFault, Skips, Touches, closing_by};
ghost use Rattle.channel.specs.Acting.{goes_on, is_working, lent_of, over_of, output_length};
ghost use Rattle.channel.specs.Acting.{ready_by, spill_by, spill_counted, unit_count};
ghost use Rattle.channel.specs.Agreement.{end_by};
ghost use Rattle.outside.specs.declared.types.End.TheVariants as over;
ghost use Rattle.channel.specs.State.{opened_state, state_of};

use crate::shared::{Fixed, Shared};
use crate::types::Cause;
use outside::{End, Failed, NoMemory, Noted, Spill};
use request_stream::Unit;
use spill_buffer::{BufferFault, OverflowBuffer};
use std::alloc::Global;
use std::collections::VecDeque;

impl Cause {
    fn end(self) -> End
        ensures { result ≡ end_by self }
    {
        match self {
            Cause::Spill => End::SpillFault,
            Cause::App => End::AppFault,
            Cause::NoMemory => End::NoMemory,
        }
    }
}

impl<A, R: Drop, S: Spill + Drop> Shared<A, R, S> {
    pub(crate) fn new(
        alloc: Global,
        fixed: Noted<Fixed<A>>,
        output: OverflowBuffer<S>,
    ) -> Shared<A, R, S>
        ensures { state_of result ≡ opened_state fixed output }
    {
        Shared {
            fixed,
            ready: VecDeque::new(alloc),
            current: false,
            output: Some(output),
            closing: false,
            dead: None,
            longest: 0,
            fallen: None,
        }
    }

    /// How many bytes of the answers wait.
    pub(crate) fn output_len(&self) -> u64
        ensures { result ≡ output_length (state_of self.now) }
    {
        match &self.output {
            Some(output) => output.len(),
            None => 0,
        }
    }

    pub(crate) fn has_output(&self) -> bool
        ensures { result ≡ nat_lt 0 (output_length (state_of self.now)) }
    {
        0 < self.output_len()
    }

    /// How many units are ready or current.
    pub(crate) fn unit_count(&self) -> u64
        ensures { result ≡ unit_count (state_of self.now) }
    {
        self.ready.len() as u64 + self.current as u64
    }

    /// Whether a unit is ready or current.
    pub(crate) fn is_working(&self) -> bool
        ensures { result ≡ is_working (state_of self.now) }
    {
        0 < self.unit_count()
    }

    /// How the channel is over, if it is.
    pub(crate) fn end(&self, ended: bool) -> Option<End>
        ensures { result ≡ over_of (state_of self.now) ended }
    {
        if let Some(end) = self.dead {
            return Some(end);
        }
        if !self.is_working() && self.output_len() == 0 && (self.closing || ended) {
            return Some(End::Done);
        }
        None
    }

    /// Puts units behind the ready ones.
    pub(crate) fn put(&mut self, units: Vec<Unit<S>>) -> Result<(), NoMemory>
        ensures put { OnOk result (state_of self.new ≡ record (state_of self.old) {
          ready =
              self.old.ready.items ++ units.items;
        }) }
        ensures kept { OnErr result (state_of self.new ≡ state_of self.old) }
    {
        let mut units = VecDeque::from_vec(units);
        match self.ready.append(&mut units) {
            Ok(()) => Ok(()),
            Err(_) => Err(NoMemory),
        }
    }

    /// Takes the first ready unit, which becomes current.
    pub(crate) fn begin(&mut self) -> Option<Unit<S>>
        ensures { Begins result (state_of self.old) (state_of self.new) }
    {
        let unit = self.ready.pop_front()?;
        self.current = true;
        Some(unit)
    }

    /// Puts a text of the current unit behind the output. Where it is the last one of it: whether
    /// the connection closes.
    pub(crate) fn add(&mut self, text: &[u8], ended: Option<bool>) -> Result<(), BufferFault>
        requires { IsTrue (is_some self.old.output) }
        ensures added { OnOk result (Adds S.tells text.now ended (state_of self.old) (state_of
            self.new)) }
        ensures kept { OnErr result (Touches S.tells (state_of self.old) (state_of self.new)) }
        ensures cause { CountsFault S.faults result (state_of self.new) }
    {
        let Some(output) = &mut self.output else {
            unreachable!()
        };
        match output.append(text) {
            Ok(()) => {}
            Err(fault) => return Err(fault),
        }
        self.longest = self.longest.max(text.len() as u64);
        self.end_text(ended);
        Ok(())
    }

    // Behind a text: whether its unit goes on, and whether the connection closes.
    fn end_text(&mut self, ended: Option<bool>)
        ensures { state_of self.new ≡ record (state_of self.old) {
          ready = ready_by ended self.old.ready.items;
          current = goes_on ended;
          closing = closing_by ended self.old.closing;
        } }
    {
        match ended {
            None => self.current = true,
            Some(false) => {
                self.current = false;
                self.closing = false;
            }
            Some(true) => {
                self.current = false;
                self.closing = true;
                self.ready.clear();
            }
        }
    }

    /// The first bytes of the output, where they stand in memory.
    pub(crate) fn lent(&self) -> &[u8]
        ensures { result.now ≡ lent_of self.now.output }
    {
        match &self.output {
            Some(output) => output.lent(),
            None => &[],
        }
    }

    /// Gives the first bytes of the output, which leaves it. It fails where its spill did.
    pub(crate) fn offer(&mut self, into: &mut [u8]) -> Result<usize, Failed>
        requires { IsTrue (is_some self.old.output) }
        ensures count { IfOk result (λ n. n ≡ min (length into.old) (output_length (state_of
            self.old))) }
        ensures front { IsTrue S.tells → IfOk result (λ n. ForSome self.old.output (λ b. take n
            into.new ≡ take n b.bytes)) }
        ensures kept { Touches S.tells (state_of self.old) (state_of self.new) }
        ensures cause { OnErr result (IsTrue (spill_counted S.faults None self.new.output)) }
    {
        let Some(output) = &mut self.output else {
            unreachable!()
        };
        match output.front(into) {
            Ok(count) => Ok(count),
            Err(BufferFault::Spill) => Err(Failed),
            Err(BufferFault::NoMemory) => unreachable!(),
        }
    }

    /// The link took so many bytes of the output.
    pub(crate) fn skip(&mut self, count: u64)
        requires some { IsTrue (is_some self.old.output) }
        requires within { count ≤ output_length (state_of self.old) }
        ensures { Skips S.tells count (state_of self.old) (state_of self.new) }
    {
        let Some(output) = &mut self.output else {
            unreachable!()
        };
        output.skip(count);
    }

    pub(crate) fn kill(&mut self, end: End)
        ensures { state_of self.new ≡ record (state_of self.old) { dead = Some end } }
    {
        self.dead = Some(end);
    }

    /// The answer breaks off, with the run that broke.
    pub(crate) fn break_off(&mut self, cause: Cause, run: Option<R>)
        ensures { state_of self.new ≡ record (state_of self.old) {
          dead = Some (end_by cause);
          fallen = run;
        } }
    {
        self.dead = Some(cause.end());
        self.fallen = run;
    }

    /// Takes out the run that broke and, where it is asked for, the output.
    pub(crate) fn bury(&mut self, with_output: bool) -> (Option<R>, Option<OverflowBuffer<S>>)
        ensures run { result.0 ≡ self.old.fallen }
        ensures output { result.1 ≡ (if with_output then self.old.output else None) }
        ensures left { state_of self.new ≡ record (state_of self.old) {
          fallen = None;
          output = (if
              with_output then None else self.old.output);
        } }
    {
        let run = self.fallen.take();
        if with_output {
            return (run, self.output.take());
        }
        (run, None)
    }

    /// What broke and was not taken out yet: the run of the answer, or the spill of the output.
    pub(crate) fn into_broken(self) -> (Option<S>, Option<R>)
        ensures run { result.1 ≡ self.fallen }
        ensures spill { self.fallen ≡ None → self.dead ≡ Some over.SpillFault → result.0 ≡ spill_by
            self.output None }
    {
        let Shared {
            fixed: _,
            ready: _,
            current: _,
            output,
            closing: _,
            dead,
            longest: _,
            fallen,
        } = self;
        if fallen.is_none() && dead == Some(End::SpillFault) {
            return (spill_of(output, None), fallen);
        }
        (None, fallen)
    }
}

/// The spill of what was taken out, or the one that was there before.
pub(crate) fn spill_of<S: Spill + Drop>(
    output: Option<OverflowBuffer<S>>,
    before: Option<S>,
) -> Option<S>
    ensures { result ≡ spill_by output before }
{
    match output {
        Some(output) => Some(output.into_spill()),
        None => before,
    }
}
