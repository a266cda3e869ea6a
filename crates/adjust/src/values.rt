//! What single values are read as.
ghost use Rattle.std.specs.Prelude.{◌≡◌, ◌==◌, ◌≤◌, length, option_map, not, position, IfOk};
ghost use Rattle.std.specs.List.{prefix_len};
ghost use Rattle.adjust.specs.Values as spec;

use crate::classes::{ends_with_bracket, is_host_text, is_literal_text};
use byte_tables::{is_number, number_of};
use outside::Bytes;
use std::alloc::{AllocError, Global};

/// The number that digits write.
#[tactic(auto, unfolding(crate::specs::Values::number))]
pub(crate) fn read_number(text: &[u8]) -> Option<u64>
    ensures { result ≡ spec.number text.now }
{
    if is_number(text) {
        number_of(text)
    } else {
        None
    }
}

// What stands before a bracket at the end, if it is an address of version 6.
fn before_bracket(text: &[u8]) -> Option<&[u8]>
    ensures { option_map (λ inside. inside.now) result ≡ spec.literal_before_bracket text.now }
{
    if !ends_with_bracket(text) {
        return None;
    }
    let inside = &text[..text.len() - 1];
    if is_literal_text(inside) {
        Some(inside)
    } else {
        None
    }
}

// An address of version 6, out of its brackets.
fn read_literal(text: &[u8]) -> Option<&[u8]>
    ensures { option_map (λ inside. inside.now) result ≡ spec.literal text.now }
{
    match text.split_first() {
        Some((b'[', behind)) => before_bracket(behind),
        _ => None,
    }
}

/// A host, without brackets.
#[tactic(auto, unfolding(crate::specs::Values::host))]
pub(crate) fn read_host(text: &[u8]) -> Option<&[u8]>
    ensures { option_map (λ host. host.now) result ≡ spec.host text.now }
{
    if text == b"*".as_slice() {
        Some(b"0.0.0.0")
    } else if is_host_text(text) {
        Some(text)
    } else {
        read_literal(text)
    }
}

fn other_than_slash(text: &[u8]) -> Option<usize>
    ensures place { result ≡ position (λ b. not (b == 47)) text.now }
{
    text.iter().position(|byte| *byte != b'/')
}

fn slashes_in_front(text: &[u8]) -> usize
    ensures count { result ≡ prefix_len spec.is_slash text.now }
    ensures within { result ≤ length text.now }
{
    other_than_slash(text).unwrap_or(text.len())
}

fn without_slashes_behind(text: &[u8]) -> &[u8]
    ensures { result.now ≡ spec.without_slashes_behind text.now }
{
    let mut end = text.len();
    while end > 0 && text[end - 1] == b'/' {
        end -= 1;
    }
    &text[..end]
}

fn without_slashes(text: &[u8]) -> &[u8]
    ensures { result.now ≡ spec.without_slashes text.now }
{
    without_slashes_behind(&text[slashes_in_front(text)..])
}

fn with_slash(alloc: Global, parts: &[u8]) -> Result<Bytes, AllocError>
    ensures { IfOk result (λ path. path ≡ spec.in_front parts.now) }
{
    if parts.is_empty() {
        return Ok(Bytes::from_vec(Vec::new(alloc)));
    }
    let mut path = Vec::from_slice(alloc, b"/")?;
    path.extend_from_slice(parts)?;
    Ok(Bytes::from_vec(path))
}

/// A path with one slash in front and none behind.
#[tactic(auto, unfolding(crate::specs::Values::path))]
pub(crate) fn read_path(alloc: Global, text: &[u8]) -> Result<Bytes, AllocError>
    ensures { IfOk result (λ path. path ≡ spec.path text.now) }
{
    with_slash(alloc, without_slashes(text))
}
