//! An entry of a tree in memory.
ghost use Rattle.std.specs.Prelude.{◌≡◌, ◌≤◌, ◌+◌, ◌↔◌, true, IsTrue, IsErr, IfOk, OnOk, IfSome};
ghost use Rattle.std.specs.Prelude.{IsSomeAnd, MatchOption, None, length, take, drop};
ghost use Rattle.std.specs.Option.{option_copied};
ghost use Rattle.outside.specs.Causes.{HasCause};
ghost use Rattle.outside.specs.Memory.{is_listed};
ghost use Rattle.outside.specs.Tree.{Sizes, entry_after};

use crate::fails::next_call;
use crate::{Bytes, Failed, Items, TreeEntry};
use std::marker::Model;

/// An entry of a tree in memory. It has a copy of the file, and fails in the calls that the tree
/// was told for its name.
#[derive(Debug, Drop)]
pub struct MemEntry {
    file: Option<Bytes>,
    sized: Option<u64>,
    fails: Items<u64>,
    calls: u64,
    faults: u64,
}

impl Model for MemEntry {
    ghost use Rattle.std.specs.Prelude.{◌≡◌, IfSome, IsSomeAnd, length};
    ghost use Rattle.outside.specs.Tree.{MemEntryState};

    ghost Value = { MemEntryState };

    ghost view = { λ e. record {
      file = e.file;
      sized = e.sized;
      fails = e.fails;
      calls = e.calls;
      faults = e.faults;
    } };

    ghost invariant = { λ e. IfSome e.sized (λ n. IsSomeAnd e.file (λ bytes. n ≡ length bytes)) };
}

impl MemEntry {
    // An entry of this file, of which no call was made yet.
    pub(crate) fn new(file: Option<Bytes>, fails: Items<u64>) -> MemEntry
        ensures { result ≡ record {
          file = file;
          sized = None;
          fails = fails;
          calls = 0;
          faults = 0;
        } }
    {
        MemEntry {
            file,
            sized: None,
            fails,
            calls: 0,
            faults: 0,
        }
    }

    /// The content of the file, or None where there is none.
    pub fn file(&self) -> Option<&Bytes>
        ensures { option_copied result ≡ self.now.file }
    {
        self.file.as_ref()
    }

    /// The size that was found last.
    pub fn sized(&self) -> Option<u64>
        ensures { result ≡ self.now.sized }
    {
        self.sized
    }

    /// How often it has failed.
    pub fn faults(&self) -> u64
        ensures { result ≡ self.now.faults }
    {
        self.faults
    }
}

impl TreeEntry for MemEntry {
    ghost tells = { true };

    ghost file = { λ e. e.file };

    ghost sized = { λ e. e.sized };

    ghost faults = { λ e. e.faults };

    fn size(&mut self) -> Result<Option<u64>, Failed>
        ensures cause { HasCause self.old.faults self.new.faults result }
        ensures sized { self.new.sized ≡ Sizes result self.old.sized }
        ensures told { IfOk result (λ size.
            MatchOption size (self.old.file ≡ None)
            (λ n. IsSomeAnd self.old.file (λ bytes. n ≡ length bytes))) }
        ensures counted { self.new ≡ record (entry_after result self.old) {
          sized = self.new.sized;
        } }
        ensures plan { IsErr result ↔ IsTrue (is_listed self.old.fails self.old.calls) }
    {
        next_call(&self.fails, &mut self.calls, &mut self.faults)?;
        match &self.file {
            Some(bytes) => {
                let size = bytes.len() as u64;
                self.sized = Some(size);
                Ok(Some(size))
            }
            None => Ok(None),
        }
    }

    fn read(&mut self, at: u64, into: &mut [u8]) -> Result<(), Failed>
        requires { IsSomeAnd self.old.sized (λ n. at + length into.old ≤ n) }
        ensures cause { HasCause self.old.faults self.new.faults result }
        ensures bytes { OnOk result (IfSome self.old.file (λ bytes.
            into.new ≡ take (length into.old) (drop at bytes))) }
        ensures counted { self.new ≡ entry_after result self.old }
        ensures plan { IsErr result ↔ IsTrue (is_listed self.old.fails self.old.calls) }
    {
        next_call(&self.fails, &mut self.calls, &mut self.faults)?;
        match &self.file {
            Some(bytes) => {
                let at = at as usize;
                let end = at + into.len();
                into.copy_from_slice(&bytes.as_slice()[at..end]);
                Ok(())
            }
            None => unreachable!(),
        }
    }
}
