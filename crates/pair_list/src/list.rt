//! Pairs in one text.
ghost use Rattle.std.specs.Prelude.{◌≡◌, ◌∷◌, [], ◌++◌, map, IfOk, OnOk};

use crate::text::{put, put_as};
use crate::{Letters, Pairs};
use std::alloc::{AllocError, Global};
use std::marker::Model;

/// Names and values in order. They take two allocations, however many they are.
#[derive(Debug, Drop)]
pub struct PairList {
    // each name, and its value behind it
    text: Vec<u8>,
    // how long the name and the value of each pair are
    sizes: Vec<(usize, usize)>,
}

impl Model for PairList {
    ghost use Rattle.std.specs.Prelude.{◌≡◌, List, ℕ, length};
    ghost use Rattle.pair_list.specs.Cuts.{cut, total};

    ghost Value = { List (List ℕ × List ℕ) };

    ghost view = { λ list. cut list.text.items list.sizes.items };

    ghost invariant = { λ list. total list.sizes.items ≡ length list.text.items };
}

impl PairList {
    /// No pairs, with room for so many, whose names and values together are so long.
    pub fn with_room(alloc: Global, pairs: usize, size: usize) -> Result<PairList, AllocError>
        ensures { IfOk result (λ list. list ≡ []) }
    {
        Ok(PairList {
            text: Vec::with_capacity(alloc, size)?,
            sizes: Vec::with_capacity(alloc, pairs)?,
        })
    }

    /// Adds a pair.
    pub fn add(&mut self, name: &[u8], value: &[u8]) -> Result<(), AllocError>
        ensures { OnOk result (self.new ≡ self.old ++ (name.now, value.now) ∷ []) }
    {
        self.sizes.reserve(1)?;
        self.text.reserve(name.len() + value.len())?;
        put(&mut self.text, name);
        put(&mut self.text, value);
        self.sizes.push_reserved((name.len(), value.len()));
        Ok(())
    }

    /// Adds a pair whose name has a prefix, and its own bytes behind it in these letters.
    pub fn add_as<L: Letters>(
        &mut self,
        prefix: &[u8],
        name: &[u8],
        value: &[u8],
    ) -> Result<(), AllocError>
        ensures { OnOk result (self.new
            ≡ self.old ++ (prefix.now ++ map L.form name.now, value.now) ∷ []) }
    {
        let size = prefix.len() + name.len();
        self.sizes.reserve(1)?;
        self.text.reserve(size.saturating_add(value.len()))?;
        put(&mut self.text, prefix);
        put_as::<L>(&mut self.text, name);
        put(&mut self.text, value);
        self.sizes.push_reserved((size, value.len()));
        Ok(())
    }

    /// Lends the pairs, to walk them.
    pub fn iter(&self) -> Pairs<'_>
        ensures { result ≡ self.now }
    {
        Pairs::new(self.text.as_slice(), self.sizes.as_slice())
    }
}
