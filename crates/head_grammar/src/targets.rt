//! What a request's target names: a path and a query.
ghost use Rattle.std.specs.Prelude.{◌≡◌, ◌++◌, OnOk};
ghost use Rattle.std.specs.List.{list_all};
ghost use Rattle.percent_encoding.specs.Iter.{decoded_bytes};
ghost use Rattle.percent_encoding.specs.Percent as percent;
ghost use Rattle.head_grammar.specs.Targets as spec;

use crate::splits::{cut_at, place_or_end};
use percent_encoding::{PercentDecode, percent_decode};
use std::alloc::AllocError;

fn are_scheme_bytes(bytes: &[u8]) -> bool
    ensures { result ≡ list_all spec.is_scheme_byte bytes.now }
{
    bytes.iter().all(|byte| byte.is_ascii_alphanumeric() || matches!(*byte, b'+' | b'-' | b'.'))
}

fn is_scheme(bytes: &[u8]) -> bool
    ensures { result ≡ spec.is_scheme bytes.now }
{
    match bytes.split_first() {
        Some((first, rest)) => first.is_ascii_alphabetic() && are_scheme_bytes(rest),
        None => false,
    }
}

fn without_authority(bytes: &[u8]) -> &[u8]
    ensures { result.now ≡ spec.without_authority bytes.now }
{
    let (scheme, rest) = bytes.split_at(place_or_end(bytes, b':'));
    if !is_scheme(scheme) {
        return bytes;
    }
    match rest.strip_prefix(b"://") {
        Some(behind) => &behind[place_or_end(behind, b'/')..],
        None => bytes,
    }
}

fn without_slashes(decoded: PercentDecode<'_>) -> PercentDecode<'_>
    ensures { decoded_bytes result ≡ spec.without_slashes (decoded_bytes decoded.entry) }
{
    let mut rest = decoded;
    let mut ahead = decoded;
    while let Some(b'/') = ahead.next() {
        rest = ahead;
    }
    rest
}

/// Adds the path of a target, of which this was sent. The escapes are read in the one copy.
pub(crate) fn push_path(text: &mut Vec<u8>, raw: &[u8]) -> Result<(), AllocError>
    ensures { OnOk result (text.new.items
        ≡ text.old.items ++ spec.rooted (percent.percent_decode raw.now)) }
{
    text.push(b'/')?;
    without_slashes(percent_decode(raw)).append_to(text)
}

/// The path of a target as it was sent, and the query (RFC 9112, section 3.2).
#[tactic(auto, unfolding(crate::specs::Targets::query_of))]
pub(crate) fn cut_target(target: &[u8]) -> (&[u8], &[u8])
    ensures path { result.0.now ≡ spec.raw_path target.now }
    ensures query { result.1.now ≡ spec.query_of target.now }
{
    let (named, _) = cut_at(target, b'#');
    let (path, query) = cut_at(named, b'?');
    (without_authority(path), query)
}
