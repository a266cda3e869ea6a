//! Fields in one text.
ghost use Rattle.std.specs.Prelude.{◌≡◌, ◌∷◌, [], ◌++◌, IfOk, OnOk};

use crate::Field;
use crate::field_lines::SentField;
use crate::fields::Fields;
use pair_list::{Letters, PairList};
use std::alloc::{AllocError, Global};
use std::marker::Model;

/// Names are kept in lower case.
struct LowerCase;

impl Letters for LowerCase {
    ghost use Rattle.std.specs.Char.{to_ascii_lowercase};

    ghost form = { to_ascii_lowercase };

    fn of(byte: u8) -> u8 {
        byte.to_ascii_lowercase()
    }
}

/// Fields in order. They take two allocations, however many they are.
#[derive(Debug, Drop)]
pub struct FieldList {
    pairs: PairList,
}

impl Model for FieldList {
    ghost use Rattle.std.specs.Prelude.{List};
    ghost use Rattle.head_grammar.specs.Pairs.{fields_of};
    ghost use Rattle.head_grammar.specs.declared.types.Field.{Field};

    ghost Value = { List Field };

    ghost view = { λ fields. fields_of fields.pairs };
}

impl FieldList {
    /// These fields. A name may stand twice.
    pub fn of(alloc: Global, fields: &[Field]) -> Result<FieldList, AllocError>
        ensures { IfOk result (λ list. list ≡ fields.now) }
    {
        let mut list = FieldList::with_room(alloc, fields.len(), 0)?;
        for field in fields {
            list.add(field.name.as_slice(), field.value.as_slice())?;
        }
        Ok(list)
    }

    /// No fields, with room for so many, whose names and values together are so long.
    pub(crate) fn with_room(
        alloc: Global,
        count: usize,
        size: usize,
    ) -> Result<FieldList, AllocError>
        ensures { IfOk result (λ list. list ≡ []) }
    {
        Ok(FieldList {
            pairs: PairList::with_room(alloc, count, size)?,
        })
    }

    fn add(&mut self, name: &[u8], value: &[u8]) -> Result<(), AllocError>
        ensures { OnOk result (self.new
            ≡ self.old ++ record { name = name.now; value = value.now } ∷ []) }
    {
        self.pairs.add(name, value)
    }

    /// Adds a field that was sent.
    pub(crate) fn add_sent(&mut self, field: &SentField<'_>) -> Result<(), AllocError>
        ensures { OnOk result (self.new ≡ self.old ++ field.now ∷ []) }
    {
        self.pairs.add_as::<LowerCase>(b"", field.name, field.value)
    }

    /// Lends the fields.
    pub fn fields(&self) -> Fields<'_>
        ensures { result ≡ self.now }
    {
        Fields::new(self.pairs.iter())
    }
}
