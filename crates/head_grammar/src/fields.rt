//! The fields that a text is cut into.
ghost use Rattle.std.specs.Prelude.{◌≡◌, ◌==◌, length, option_copied};
ghost use Rattle.std.specs.List.{list_any};
ghost use Rattle.std.specs.Iterator.{YieldsFirstBy, item_count};
ghost use Rattle.head_grammar.specs.FieldLines.{field_value, has_name};
ghost use Rattle.head_grammar.specs.Pairs.{field_of, fields_of};

use pair_list::Pairs;
use std::marker::Model;

/// Fields that are lent, in order. As an iterator it gives the name and the value of each that is
/// left.
#[derive(Debug, Drop)]
pub struct Fields<'a> {
    pairs: Pairs<'a>,
}

impl<'a> Model for Fields<'a> {
    ghost use Rattle.std.specs.Prelude.{List};
    ghost use Rattle.head_grammar.specs.Pairs.{fields_of};
    ghost use Rattle.head_grammar.specs.declared.types.Field.{Field};

    ghost Value = { List Field };

    ghost view = { λ fields. fields_of fields.pairs };
}

impl<'a> Fields<'a> {
    pub(crate) fn new(pairs: Pairs<'a>) -> Fields<'a>
        ensures { result ≡ fields_of pairs.entry }
    {
        Fields { pairs }
    }

    /// The same fields, to walk them.
    pub fn iter(&self) -> Fields<'a>
        ensures { result ≡ self.now }
    {
        Fields {
            pairs: self.pairs.iter(),
        }
    }

    /// How many fields there are.
    pub fn len(&self) -> usize
        ensures { result ≡ length self.now }
    {
        self.pairs.len()
    }

    /// Whether there is none.
    pub fn is_empty(&self) -> bool
        ensures { result ≡ (length self.now == 0) }
    {
        self.pairs.is_empty()
    }

    /// Whether a field has this name, which is in lower case.
    pub fn has(&self, name: &[u8]) -> bool
        ensures { result ≡ list_any (has_name name.now) self.now }
    {
        self.pairs.first(name).is_some()
    }

    /// The value of the field with this name, which is in lower case.
    pub fn value_of(&self, name: &[u8]) -> Option<&'a [u8]>
        ensures { option_copied result ≡ field_value name.now self.now }
    {
        self.pairs.first(name)
    }
}

impl<'a> Iterator for Fields<'a> {
    type Item = (&'a [u8], &'a [u8]);

    ghost next_gives = { YieldsFirstBy (λ pair. field_of pair.0.now pair.1.now)
        (λ fields. fields) };

    ghost remaining = { item_count (λ fields. fields) };

    fn next(&mut self) -> Option<(&'a [u8], &'a [u8])> {
        self.pairs.next()
    }
}
