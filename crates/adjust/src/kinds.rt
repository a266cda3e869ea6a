//! Kinds of proxy headers.
ghost use Rattle.std.specs.Prelude.{◌≡◌, ◌<◌, length, map, nat_lt, true, IfOk};
ghost use Rattle.std.specs.List.{list_all, list_any};
ghost use Rattle.adjust.specs.Lists as spec;

use crate::parts::Parts;
use outside::{Items, Kind};
use std::alloc::{AllocError, Global};

static KINDS: [(&str, Kind); 5] = [
    ("x-forwarded-for", Kind::For),
    ("x-forwarded-host", Kind::Host),
    ("x-forwarded-proto", Kind::Proto),
    ("x-forwarded-port", Kind::Port),
    ("x-forwarded-by", Kind::By),
];

/// The names of the kinds, in their order.
#[tactic(auto, unfolding(crate::specs::Lists::kind_rows))]
pub(crate) fn kind_rows() -> &'static [(&'static str, Kind)]
    ensures { map spec.kind_row result.now ≡ spec.kind_rows }
{
    &KINDS
}

fn is_named(part: &[u8], name: &str) -> bool
    ensures { result ≡ spec.is_name part.now name.now }
{
    name.as_bytes().eq_ignore_ascii_case(part)
}

fn names_any(rows: &[(&str, Kind)], part: &[u8]) -> bool
    ensures { result ≡ list_any (λ row. spec.is_name part.now (spec.kind_row row).0) rows.now }
{
    rows.iter().any(|row| is_named(part, row.0))
}

fn is_kind(part: &[u8]) -> bool
    ensures { result ≡ spec.is_kind part.now }
{
    names_any(kind_rows(), part)
}

fn has_parts(text: &[u8]) -> bool
    ensures { result ≡ nat_lt 0 (length (spec.parts true text.now)) }
{
    Parts::by_commas(text).next().is_some()
}

fn all_are_kinds(text: &[u8]) -> bool
    ensures { result ≡ list_all spec.is_kind (spec.parts true text.now) }
{
    for part in Parts::by_commas(text) {
        if !is_kind(part) {
            return false;
        }
    }
    true
}

/// Whether the text is one or more names of kinds.
#[tactic(auto, unfolding(crate::specs::Lists::are_kinds))]
pub(crate) fn are_kinds(text: &[u8]) -> bool
    ensures { result ≡ spec.are_kinds text.now }
{
    has_parts(text) && all_are_kinds(text)
}

fn is_among(text: &[u8], name: &str) -> bool
    ensures { result ≡ spec.is_among (spec.parts true text.now) name.now }
{
    for part in Parts::by_commas(text) {
        if is_named(part, name) {
            return true;
        }
    }
    false
}

/// The kinds that the text names, in their order.
#[tactic(auto, unfolding(crate::specs::Lists::kinds))]
pub(crate) fn read_kinds(alloc: Global, text: &[u8]) -> Result<Items<Kind>, AllocError>
    ensures { IfOk result (λ kinds. kinds ≡ spec.kinds text.now) }
{
    let mut kinds = Vec::new(alloc);
    for row in kind_rows() {
        if is_among(text, row.0) {
            kinds.push(row.1)?;
        }
    }
    Ok(Items::from_vec(kinds))
}
