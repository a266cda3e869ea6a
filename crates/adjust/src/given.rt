//! What the words give, by the names of options and operands.
ghost use Rattle.std.specs.Prelude.{◌≡◌, find, option_map, position};
ghost use Rattle.clap.specs.Words.{first_of, found_of, rows_of};
ghost use Rattle.adjust.specs.Command as spec;
ghost use Rattle.adjust.specs.Options.{row_of};

use crate::options::{OptionRow, rows};
use crate::values::read_number;
use clap::ArgMatches;
use std::marker::Model;

/// What the words give.
#[derive(Drop)]
pub(crate) struct Given<'a> {
    pub(crate) matches: ArgMatches<'a>,
}

impl<'a> Model for Given<'a> {
    ghost use Rattle.std.specs.Prelude.{List};
    ghost use Rattle.clap.specs.Words.{Row, found_of, rows_of};

    ghost Value = { List Row };

    ghost view = { λ g. rows_of (found_of g.matches) };
}

fn row_named(rows: &'static [OptionRow], name: &str) -> Option<&'static OptionRow>
    ensures { option_map (λ row. row.now) result ≡ find (λ row. spec.has_name name.now (row_of row))
        rows.entry.now }
{
    rows.iter().find(|row| row.name == name)
}

fn place_among(rows: &[OptionRow], name: &str) -> Option<usize>
    ensures { result ≡ position (λ row. spec.has_name name.now (row_of row)) rows.now }
{
    rows.iter().position(|row| row.name == name)
}

/// The place of an option in the table, from 0.
pub(crate) fn place_of(name: &str) -> usize
    ensures { result ≡ spec.place_of name.now }
{
    place_among(rows(), name).unwrap_or(0)
}

fn default_of(name: &str) -> &'static [u8]
    ensures { result.now ≡ spec.default_of name.now }
{
    match row_named(rows(), name) {
        Some(row) => row.default.as_bytes(),
        None => b"",
    }
}

fn text_in<'a>(matches: &ArgMatches<'a>, name: &str) -> Option<&'a str>
    ensures { option_map (λ text. text.now) result ≡ first_of name.now
        (rows_of (found_of matches.now)) }
{
    matches.get_str(name)
}

impl<'a> Given<'a> {
    /// A value, as it is written.
    pub(crate) fn value(&self, name: &str) -> Option<&'a [u8]>
        ensures { option_map (λ text. text.now) result ≡ spec.value self.now name.now }
    {
        match text_in(&self.matches, name) {
            Some(text) => Some(text.as_bytes()),
            None => None,
        }
    }

    /// A value that is text, as the words are.
    pub(crate) fn operand(&self, name: &str) -> Option<&'a str>
        ensures { option_map (λ text. text.now) result ≡ spec.value self.now name.now }
    {
        text_in(&self.matches, name)
    }

    pub(crate) fn is_given(&self, name: &str) -> bool
        ensures { result ≡ spec.is_given self.now name.now }
    {
        self.value(name).is_some()
    }

    /// Whether a flag is given.
    pub(crate) fn is_on(&self, name: &str) -> bool
        ensures { result ≡ spec.is_on self.now name.now }
    {
        match self.value(name) {
            Some(text) => text == b"true".as_slice(),
            None => false,
        }
    }

    /// The value, or the default where none is given.
    pub(crate) fn text(&self, name: &str) -> &'a [u8]
        ensures { result.now ≡ spec.text self.now name.now }
    {
        match self.value(name) {
            Some(text) => text,
            None => default_of(name),
        }
    }

    /// The number that the value or the default writes.
    pub(crate) fn number(&self, name: &str) -> u64
        ensures { result ≡ spec.number_at self.now name.now }
    {
        read_number(self.text(name)).unwrap_or(0)
    }
}
