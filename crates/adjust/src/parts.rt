//! The parts of a value that is a list.
ghost use Rattle.std.specs.Prelude.{◌≡◌, ◌∷◌, ◌<◌, [], false, true, length, position, IfSome};
ghost use Rattle.std.specs.Prelude.{IfNone};
ghost use Rattle.std.specs.Iterator.{YieldsFirstRef, item_count};
ghost use Rattle.adjust.specs.Lists as spec;

use std::marker::Model;

/// The parts between separators, without the empty ones.
#[derive(Drop)]
pub(crate) struct Parts<'a> {
    // Whether commas separate too, and not spaces alone.
    commas: bool,
    rest: &'a [u8],
}

impl<'a> Model for Parts<'a> {
    ghost use Rattle.std.specs.Prelude.{List, ℕ};
    ghost use Rattle.adjust.specs.Lists.{parts};

    ghost Value = { List (List ℕ) };

    ghost view = { λ s. parts s.commas s.rest.now };
}

fn separator_place(commas: bool, text: &[u8]) -> Option<usize>
    ensures place { result ≡ position (spec.is_separator commas) text.now }
    ensures within { IfSome result (λ at. at < length text.now) }
{
    text.iter()
        .position(|byte| *byte == b' ' || commas && *byte == b',')
}

// The bytes up to the first separator, and those behind it.
fn cut_part(commas: bool, text: &[u8]) -> (&[u8], &[u8])
    ensures parts { spec.parts commas text.now ≡ spec.onto_parts result.0.now
        (spec.parts commas result.1.now) }
    ensures shorter { 0 < length text.now → length result.1.now < length text.now }
{
    match separator_place(commas, text) {
        Some(at) => (&text[..at], &text[at + 1..]),
        None => (text, &[]),
    }
}

// The first part, and what stands behind it.
#[tactic(auto, using(crate::proofs::Cuts::parts_none))]
fn first_part(commas: bool, text: &[u8]) -> Option<(&[u8], &[u8])>
    ensures some { IfSome result (λ cut. spec.parts commas text.now ≡ cut.0.now ∷ spec.parts commas
        cut.1.now) }
    ensures none { IfNone result (spec.parts commas text.now ≡ []) }
{
    let mut rest = text;
    while !rest.is_empty() {
        let (part, behind) = cut_part(commas, rest);
        if !part.is_empty() {
            return Some((part, behind));
        }
        rest = behind;
    }
    None
}

impl<'a> Parts<'a> {
    /// The parts between spaces.
    pub(crate) fn by_spaces(text: &'a [u8]) -> Parts<'a>
        ensures { result ≡ spec.parts false text.now }
    {
        Parts {
            commas: false,
            rest: text,
        }
    }

    /// The parts between spaces and commas.
    pub(crate) fn by_commas(text: &'a [u8]) -> Parts<'a>
        ensures { result ≡ spec.parts true text.now }
    {
        Parts {
            commas: true,
            rest: text,
        }
    }
}

impl<'a> Iterator for Parts<'a> {
    type Item = &'a [u8];

    ghost next_gives = { YieldsFirstRef (λ s. s) };

    ghost remaining = { item_count (λ s. s) };

    fn next(&mut self) -> Option<&'a [u8]> {
        let (part, rest) = first_part(self.commas, self.rest)?;
        self.rest = rest;
        Some(part)
    }
}
