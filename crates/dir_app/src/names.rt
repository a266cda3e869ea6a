//! The files that paths name.
ghost use Rattle.std.specs.Prelude.{◌≡◌, ◌==◌, ◌<◌, ◌++◌, ◌∷◌, [], None, Some, length};
ghost use Rattle.std.specs.Prelude.{option_copied, position, string_bytes, IfNone, IfOk, IfSome};
ghost use Rattle.std.specs.Prelude.{if◌then◌else◌};
ghost use Rattle.std.specs.List.{after_last, list_any, slice_split};
ghost use Rattle.std.specs.Str.{is_utf8};
ghost use Rattle.dir_app.specs.Names as spec;

use std::alloc::{AllocError, Global};

/// The page of a folder.
const PAGE: &str = "index.html";

/// The path, or that of the root where there is none.
pub(crate) fn rooted(path: &[u8]) -> &[u8]
    ensures { result.now ≡ spec.rooted path.now }
{
    if path.is_empty() { b"/" } else { path }
}

/// The path as a text, where it names a file below the root.
pub(crate) fn below_root(path: &[u8]) -> Option<&str>
    ensures { option_copied result ≡ (if spec.stays_below path.now then Some path.now else None) }
{
    let text = as_text(path)?;
    match path.split_first() {
        Some((b'/', parts)) if are_names(parts) => Some(text),
        _ => None,
    }
}

#[tactic(auto, using(crate::proofs::NameLemmas::is_text, crate::proofs::NameLemmas::is_no_text))]
fn as_text(path: &[u8]) -> Option<&str>
    ensures { option_copied result ≡ (if is_utf8 path.now then Some path.now else None) }
{
    match std::str::from_utf8(path) {
        Ok(text) => Some(text),
        Err(_) => None,
    }
}

// Whether each part between the slashes is a name.
fn are_names(parts: &[u8]) -> bool
    ensures { result ≡ spec.are_names (slice_split spec.is_slash parts.now) }
{
    let mut rest = parts;
    while let Some((part, behind)) = cut(rest) {
        if part.is_empty() {
            return false;
        }
        if !is_name(part) {
            return false;
        }
        rest = behind;
    }
    is_name(rest)
}

// What stands in front of the first slash, and behind it.
fn cut(text: &[u8]) -> Option<(&[u8], &[u8])>
    ensures parts { IfSome result (λ parts. slice_split spec.is_slash text.now ≡ parts.0.now ∷
        slice_split spec.is_slash parts.1.now) }
    ensures shorter { IfSome result (λ parts. length parts.1.now < length text.now) }
    ensures whole { IfNone result (slice_split spec.is_slash text.now ≡ text.now ∷ []) }
{
    match slash_place(text) {
        Some(at) => Some((&text[..at], &text[at + 1..])),
        None => None,
    }
}

fn slash_place(text: &[u8]) -> Option<usize>
    ensures place { result ≡ position spec.is_slash text.now }
    ensures within { IfSome result (λ at. at < length text.now) }
{
    text.iter().position(|byte| *byte == b'/')
}

fn is_name(part: &[u8]) -> bool
    ensures { result ≡ spec.is_name part.now }
{
    part != b".".as_slice() && part != b"..".as_slice() && !has_forbidden(part)
}

fn has_forbidden(part: &[u8]) -> bool
    ensures { result ≡ list_any spec.is_forbidden part.now }
{
    part.iter().any(|byte| *byte == 0 || *byte == b'\\')
}

/// What stands behind the last byte that is this one, or all where none is.
pub(crate) fn behind_last(text: &[u8], byte: u8) -> &[u8]
    ensures { result.now ≡ after_last (λ b. b == byte) text.now }
{
    let mut at = text.len();
    while at > 0 && text[at - 1] != byte {
        at -= 1;
    }
    &text[at..]
}

/// The name of the file at a path, in its folder.
pub(crate) fn last_part(path: &[u8]) -> &[u8]
    ensures { result.now ≡ spec.last_part path.now }
{
    let last = behind_last(path, b'/');
    if last.is_empty() {
        PAGE.as_bytes()
    } else {
        last
    }
}

/// The name of the file at a path below a root.
pub(crate) fn file_name(alloc: Global, root: &str, path: &str) -> Result<String, AllocError>
    ensures { IfOk result (λ name. string_bytes name ≡ root.now ++ spec.path_of path.now) }
{
    let mut name = String::from_str(alloc, root)?;
    name.push_str(path)?;
    name.push_str(page(path.as_bytes()))?;
    Ok(name)
}

fn page(path: &[u8]) -> &'static str
    ensures { result.now ≡ spec.page (after_last spec.is_slash path.now) }
{
    if behind_last(path, b'/').is_empty() {
        PAGE
    } else {
        ""
    }
}
