//! A sink in memory.
ghost use Rattle.std.specs.Prelude.{◌≡◌, ℕ, ◌++◌, [], true, take, OnOk, OnErr};
ghost use Rattle.outside.specs.Causes.{HasCause};
ghost use Rattle.outside.specs.Memory.{FailsByPlan, sink_after};

use crate::fails::next_call;
use crate::{Failed, Items, Sink};
use std::alloc::Global;
use std::marker::Model;

/// A sink in memory. It fails in the calls that it was told, and where it is refused memory.
#[derive(Debug, Drop)]
pub struct MemSink {
    fails: Items<u64>,
    written: Vec<u8>,
    calls: u64,
    faults: u64,
    starved: u64,
}

impl Model for MemSink {
    ghost use Rattle.outside.specs.Memory.{MemSinkState};

    ghost Value = { MemSinkState };

    ghost view = { λ s. record {
      fails = s.fails;
      written = s.written.items;
      calls = s.calls;
      faults = s.faults;
      starved = s.starved;
    } };
}

impl MemSink {
    /// An empty sink. The calls of `write` with these numbers, counted from 0, fail.
    pub fn new(alloc: Global, fails: Vec<u64>) -> MemSink
        ensures { result ≡ record {
          fails = fails.items;
          written = [];
          calls = 0;
          faults = 0;
          starved = 0;
        } }
    {
        MemSink {
            fails: Items::from_vec(fails),
            written: Vec::new(alloc),
            calls: 0,
            faults: 0,
            starved: 0,
        }
    }

    /// All that was written.
    pub fn written(&self) -> &[u8]
        ensures { result.now ≡ self.now.written }
    {
        self.written.as_slice()
    }

    /// How often it has failed.
    pub fn faults(&self) -> u64
        ensures { result ≡ self.now.faults }
    {
        self.faults
    }

    /// How often it has failed because it was refused memory.
    pub fn starved(&self) -> u64
        ensures { result ≡ self.now.starved }
    {
        self.starved
    }
}

impl Sink for MemSink {
    ghost tells = { true };

    ghost written = { λ s. s.written };

    ghost faults = { λ s. s.faults };

    fn write(&mut self, from: &[u8]) -> Result<(), Failed>
        ensures cause { HasCause self.old.faults self.new.faults result }
        ensures written { OnOk result (self.new.written ≡ self.old.written ++ from.now) }
        ensures broken { OnErr result
            ((n : ℕ) × (self.new.written ≡ self.old.written ++ take n from.now)) }
        ensures counted { self.new ≡ record (sink_after result self.old) {
          written = self.new.written;
          starved = self.new.starved;
        } }
        ensures plan { FailsByPlan self.old.fails self.old.calls
            self.old.starved self.new.starved result }
    {
        next_call(&self.fails, &mut self.calls, &mut self.faults)?;
        if self.written.extend_from_slice(from).is_err() {
            self.faults = self.faults.saturating_add(1);
            self.starved = self.starved.saturating_add(1);
            return Err(Failed);
        }
        Ok(())
    }
}
