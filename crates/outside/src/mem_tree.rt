//! A tree in memory.
ghost use Rattle.std.specs.Prelude.{◌≡◌, true, None, IfOk};
ghost use Rattle.std.specs.Option.{option_copied};
ghost use Rattle.outside.specs.Causes.{added};
ghost use Rattle.outside.specs.Tree.{content_of, numbers_of};

use crate::mem_entry::MemEntry;
use crate::{Bytes, Items, NoMemory, Tree};
use std::alloc::{AllocError, Global};
use std::marker::Model;

/// A tree in memory. Its entries fail in the calls that it was told.
#[derive(Debug, Drop)]
pub struct MemTree {
    files: Items<(Bytes, Bytes)>,
    fails: Items<(Bytes, u64)>,
    faults: u64,
}

impl Model for MemTree {
    ghost use Rattle.outside.specs.Tree.{MemTreeState};

    ghost Value = { MemTreeState };

    ghost view = { λ t. record { files = t.files; fails = t.fails; faults = t.faults } };
}

// The content of the first file of this name.
fn content<'a>(files: &'a [(Bytes, Bytes)], name: &[u8]) -> Option<&'a Bytes>
    ensures { option_copied result ≡ content_of files.now name.now }
{
    for file in files {
        if file.0.as_slice() == name {
            return Some(&file.1);
        }
    }
    None
}

// The numbers of the failing calls on entries of this name.
fn fails_of(alloc: Global, fails: &[(Bytes, u64)], name: &[u8]) -> Result<Vec<u64>, AllocError>
    ensures { IfOk result (λ numbers. numbers.items ≡ numbers_of fails.now name.now) }
{
    fails
        .iter()
        .filter(|fail| fail.0.as_slice() == name)
        .map(|fail| fail.1)
        .collect(alloc)
}

impl MemTree {
    /// A tree of these names with their contents. A pair of a name and a number lets the call of
    /// that number, counted from 0, fail on each entry of the name.
    pub fn new(alloc: Global, files: Vec<(Bytes, Bytes)>, fails: Vec<(Bytes, u64)>) -> MemTree
        ensures { result ≡ record { files = files.items; fails = fails.items; faults = 0 } }
    {
        let _ = alloc;
        MemTree {
            files: Items::from_vec(files),
            fails: Items::from_vec(fails),
            faults: 0,
        }
    }

    /// The names and contents that it was made from.
    pub fn files(&self) -> &[(Bytes, Bytes)]
        ensures { result.now ≡ self.now.files }
    {
        self.files.as_slice()
    }

    /// The faults of the entries that were settled.
    pub fn faults(&self) -> u64
        ensures { result ≡ self.now.faults }
    {
        self.faults
    }
}

impl Tree for MemTree {
    type Entry = MemEntry;

    ghost tells = { true };

    ghost files = { λ t. t.files };

    ghost faults = { λ t. t.faults };

    fn entry(&self, alloc: Global, path: &str) -> Result<MemEntry, NoMemory>
        ensures { IfOk result (λ entry. entry ≡ record {
          file = content_of self.now.files path.now;
          sized = None;
          fails = numbers_of self.now.fails path.now;
          calls = 0;
          faults = 0;
        }) }
    {
        let name = path.as_bytes();
        let Ok(fails) = fails_of(alloc, self.fails.as_slice(), name) else {
            return Err(NoMemory);
        };
        let file = match content(self.files.as_slice(), name) {
            Some(bytes) => match Bytes::from_slice(alloc, bytes.as_slice()) {
                Ok(copy) => Some(copy),
                Err(_) => return Err(NoMemory),
            },
            None => None,
        };
        Ok(MemEntry::new(file, Items::from_vec(fails)))
    }

    fn settle(&mut self, entry: MemEntry)
        ensures { self.new ≡ record (self.old) { faults = added self.old.faults entry.faults } }
    {
        self.faults = self.faults.saturating_add(entry.faults());
    }
}
