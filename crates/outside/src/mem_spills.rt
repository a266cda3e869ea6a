//! Spills in memory.
ghost use Rattle.std.specs.Prelude.{◌≡◌, ◌≤◌, ◌+◌, ◌-◌, ◌↔◌, ◌++◌, [], true, IsTrue, IsErr, IfOk};
ghost use Rattle.std.specs.Prelude.{OnOk, OnErr, length, map, take, drop, min};
ghost use Rattle.std.proofs.Common.{refl};
ghost use Rattle.outside.specs.Causes.{HasCause, added};
ghost use Rattle.outside.specs.Memory.{FailsByPlan, is_listed, first_list, spill_after};

use crate::fails::next_call;
use crate::{Failed, Items, Spill, Spills};
use std::alloc::Global;
use std::collections::VecDeque;
use std::marker::Model;

/// A spill in memory. It fails in the calls that it was told, and where it is refused memory.
#[derive(Debug, Drop)]
pub struct MemSpill {
    fails: Items<u64>,
    content: Vec<u8>,
    calls: u64,
    faults: u64,
    starved: u64,
}

impl Model for MemSpill {
    ghost use Rattle.outside.specs.Memory.{MemSpillState};

    ghost Value = { MemSpillState };

    ghost view = { λ s. record {
      fails = s.fails;
      content = s.content.items;
      calls = s.calls;
      faults = s.faults;
      starved = s.starved;
    } };
}

impl MemSpill {
    /// What it holds.
    pub fn content(&self) -> &[u8]
        ensures { result.now ≡ self.now.content }
    {
        self.content.as_slice()
    }

    /// How often it has failed.
    pub fn faults(&self) -> u64
        ensures { result ≡ self.now.faults }
    {
        self.faults
    }

    /// How often it has failed because it was refused memory.
    pub fn starved(&self) -> u64
        ensures { result ≡ self.now.starved }
    {
        self.starved
    }
}

impl Spill for MemSpill {
    ghost tells = { true };

    ghost content = { λ s. s.content };

    ghost size = { λ s. length s.content };

    ghost faults = { λ s. s.faults };

    ghost sized = { λ s told. refl };

    fn write(&mut self, at: u64, from: &[u8]) -> Result<(), Failed>
        requires { at ≤ length self.old.content }
        ensures cause { HasCause self.old.faults self.new.faults result }
        ensures size { OnOk result (length self.new.content ≡ at + length from.now) }
        ensures short { OnErr result (at ≤ length self.new.content) }
        ensures content { OnOk result (self.new.content ≡ take at self.old.content ++ from.now) }
        ensures front { OnErr result (take at self.new.content ≡ take at self.old.content) }
        ensures counted { self.new ≡ record (spill_after result self.old) {
          content = self.new.content;
          starved = self.new.starved;
        } }
        ensures plan { FailsByPlan self.old.fails self.old.calls
            self.old.starved self.new.starved result }
    {
        next_call(&self.fails, &mut self.calls, &mut self.faults)?;
        self.content.truncate(at as usize);
        if self.content.extend_from_slice(from).is_err() {
            self.faults = self.faults.saturating_add(1);
            self.starved = self.starved.saturating_add(1);
            return Err(Failed);
        }
        Ok(())
    }

    fn read(&mut self, at: u64, into: &mut [u8]) -> Result<usize, Failed>
        requires { at ≤ length self.old.content }
        ensures cause { HasCause self.old.faults self.new.faults result }
        ensures count { IfOk result (λ n.
            n ≡ min (length into.old) (length self.old.content - at)) }
        ensures bytes { IfOk result (λ n. take n into.new ≡ take n (drop at self.old.content)) }
        ensures counted { self.new ≡ spill_after result self.old }
        ensures plan { IsErr result ↔ IsTrue (is_listed self.old.fails self.old.calls) }
    {
        next_call(&self.fails, &mut self.calls, &mut self.faults)?;
        let at = at as usize;
        let count = into.len().min(self.content.len() - at);
        into[..count].copy_from_slice(&self.content[at..at + count]);
        Ok(count)
    }

    fn len(&self) -> u64 {
        self.content.len() as u64
    }
}

/// Where spills in memory come from, and where their faults are counted.
#[derive(Drop)]
pub struct MemSpills {
    alloc: Global,
    fails: VecDeque<Vec<u64>>,
    faults: u64,
}

impl Model for MemSpills {
    ghost use Rattle.std.specs.Prelude.{map};
    ghost use Rattle.outside.specs.Memory.{MemSpillsState};

    ghost Value = { MemSpillsState };

    ghost view = { λ s. record { fails = map (λ v. v.items) s.fails.items; faults = s.faults } };
}

impl MemSpills {
    /// Spills of which each fails in the calls of its list. The lists go to the spills in the order
    /// in which they are made, and those behind the last list don't fail by plan.
    pub fn new(alloc: Global, fails: Vec<Vec<u64>>) -> MemSpills
        ensures { result ≡ record { fails = map (λ v. v.items) fails.items; faults = 0 } }
    {
        MemSpills {
            alloc,
            fails: VecDeque::from_vec(fails),
            faults: 0,
        }
    }

    /// The faults of the spills that were settled.
    pub fn faults(&self) -> u64
        ensures { result ≡ self.now.faults }
    {
        self.faults
    }
}

impl Spills for MemSpills {
    type Spill = MemSpill;

    ghost faults = { λ s. s.faults };

    fn make(&mut self) -> MemSpill
        ensures made { result ≡ record {
          fails = first_list self.old.fails;
          content = [];
          calls = 0;
          faults = 0;
          starved = 0;
        } }
        ensures rest { self.new ≡ record (self.old) { fails = drop 1 self.old.fails } }
    {
        let fails = self.fails.pop_front();
        MemSpill {
            fails: Items::from_vec(fails.unwrap_or(Vec::new(self.alloc))),
            content: Vec::new(self.alloc),
            calls: 0,
            faults: 0,
            starved: 0,
        }
    }

    fn settle(&mut self, spill: MemSpill)
        ensures { self.new ≡ record (self.old) { faults = added self.old.faults spill.faults } }
    {
        self.faults = self.faults.saturating_add(spill.faults);
    }
}
