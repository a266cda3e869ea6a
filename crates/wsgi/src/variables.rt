//! The environ of a request (PEP 3333, 'environ Variables').
ghost use Rattle.std.specs.Prelude.{◌≡◌, ◌++◌, ◌∷◌, [], codes, map, IfOk, OnOk, option_copied};
ghost use Rattle.wsgi.specs.Environ.{first_value, optional, variable_byte};

use outside::Bytes;
use pair_list::{Letters, PairList, Pairs};
use std::alloc::{AllocError, Global};
use std::marker::Model;

const PREFIX: &[u8] = b"HTTP_";

/// Names as those of variables.
struct Variable;

impl Letters for Variable {
    ghost form = { variable_byte };

    fn of(byte: u8) -> u8 {
        if byte == b'-' {
            b'_'
        } else {
            byte.to_ascii_uppercase()
        }
    }
}

/// Names and values. Where a name stands twice, its first value counts.
#[derive(Debug, Drop)]
pub struct Environ {
    pairs: PairList,
}

impl Model for Environ {
    ghost use Rattle.std.specs.Prelude.{List, ℕ};

    ghost Value = { List (List ℕ × List ℕ) };

    ghost view = { λ environ. environ.pairs };
}

impl Environ {
    /// The environ of these pairs of a name and a value. A name may stand twice.
    pub fn of(alloc: Global, pairs: &[(Bytes, Bytes)]) -> Result<Environ, AllocError>
        ensures { IfOk result (λ environ. environ ≡ pairs.now) }
    {
        let mut size: usize = 0;
        for (name, value) in pairs {
            size = size.saturating_add(name.len()).saturating_add(value.len());
        }
        let mut environ = Environ::with_room(alloc, pairs.len(), size)?;
        for (name, value) in pairs {
            environ.add(name.as_slice(), value.as_slice())?;
        }
        Ok(environ)
    }

    /// An environ without pairs that has room for so many, whose texts together are so long.
    pub(crate) fn with_room(alloc: Global, pairs: usize, size: usize) -> Result<Environ, AllocError>
        ensures { IfOk result (λ environ. environ ≡ []) }
    {
        Ok(Environ {
            pairs: PairList::with_room(alloc, pairs, size)?,
        })
    }

    /// Adds a variable.
    pub(crate) fn add(&mut self, name: &[u8], value: &[u8]) -> Result<(), AllocError>
        ensures { OnOk result (self.new ≡ self.old ++ (name.now, value.now) ∷ []) }
    {
        self.pairs.add(name, value)
    }

    /// Adds a variable where there is a value.
    pub(crate) fn add_optional(
        &mut self,
        name: &[u8],
        value: Option<&[u8]>,
    ) -> Result<(), AllocError>
        ensures { OnOk result (self.new
            ≡ self.old ++ optional name.now (option_copied value.entry)) }
    {
        match value {
            Some(value) => self.add(name, value),
            None => Ok(()),
        }
    }

    /// Adds the variable of a field.
    pub(crate) fn add_field(&mut self, name: &[u8], value: &[u8]) -> Result<(), AllocError>
        ensures { OnOk result (self.new
            ≡ self.old ++ (codes "HTTP_" ++ map variable_byte name.now, value.now) ∷ []) }
    {
        self.pairs.add_as::<Variable>(PREFIX, name, value)
    }

    /// The names and values in order.
    pub fn iter(&self) -> Pairs<'_>
        ensures { result ≡ self.now }
    {
        self.pairs.iter()
    }

    /// The first value under this name.
    pub fn get(&self, name: &[u8]) -> Option<&[u8]>
        ensures { option_copied result ≡ first_value name.now self.now }
    {
        self.iter().first(name)
    }
}
