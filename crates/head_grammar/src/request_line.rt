//! What a request line says.
ghost use Rattle.std.specs.Prelude.{◌≡◌, ◌≢◌, ◌∷◌, [], length, IfOk, IfSome, IfNone};
ghost use Rattle.head_grammar.specs.RequestLines as spec;
ghost use Rattle.head_grammar.specs.Targets.{path_of, query_of};

use crate::splits::place_of;
use crate::targets::{cut_target, push_path};
use crate::{Refusal, Version};
use byte_tables::{is_digit, is_target, is_token};
use std::alloc::{AllocError, Global};
use std::marker::Model;

/// A request line (RFC 9112, section 3).
#[derive(Debug, Drop)]
pub(crate) struct RequestLine {
    // the method, the target, the path and the query, one behind the other
    text: Vec<u8>,
    method_end: usize,
    target_end: usize,
    path_end: usize,
    version: Version,
}

impl Model for RequestLine {
    ghost use Rattle.std.specs.Prelude.{◌≤◌, ◌-◌, length, take, drop};
    ghost use Rattle.head_grammar.specs.Heads.{RequestLine};

    ghost Value = { RequestLine };

    ghost view = { λ line. record {
      method = take line.method_end line.text.items;
      target = take (line.target_end - line.method_end) (drop line.method_end line.text.items);
      path = take (line.path_end - line.target_end) (drop line.target_end line.text.items);
      query = drop line.path_end line.text.items;
      version = line.version;
    } };

    ghost invariant = { λ line. (line.method_end ≤ line.target_end)
        × (line.target_end ≤ line.path_end) × (line.path_end ≤ length line.text.items) };
}

impl RequestLine {
    pub(crate) fn method(&self) -> &[u8]
        ensures { result.now ≡ self.now.method }
    {
        &self.text[..self.method_end]
    }

    pub(crate) fn target(&self) -> &[u8]
        ensures { result.now ≡ self.now.target }
    {
        &self.text[self.method_end..self.target_end]
    }

    pub(crate) fn path(&self) -> &[u8]
        ensures { result.now ≡ self.now.path }
    {
        &self.text[self.target_end..self.path_end]
    }

    pub(crate) fn query(&self) -> &[u8]
        ensures { result.now ≡ self.now.query }
    {
        &self.text[self.path_end..]
    }

    pub(crate) fn version(&self) -> Version
        ensures { result ≡ self.now.version }
    {
        self.version
    }
}

// The first part, and what stands behind the SP that ends it.
fn cut_part(line: &[u8]) -> Option<(&[u8], &[u8])>
    ensures cut { IfSome result (λ cut. spec.parts line.now ≡ cut.0.now ∷ spec.parts cut.1.now) }
    ensures whole { IfNone result (spec.parts line.now ≡ line.now ∷ []) }
{
    let at = place_of(line, b' ')?;
    Some((&line[..at], &line[at + 1..]))
}

fn three_parts(line: &[u8]) -> Option<(&[u8], &[u8], &[u8])>
    ensures three { IfSome result (λ p. spec.parts line.now ≡ p.0.now ∷ p.1.now ∷ p.2.now ∷ []) }
    ensures others { IfNone result (length (spec.parts line.now) ≢ 3) }
{
    let (method, rest) = cut_part(line)?;
    let (target, version) = cut_part(rest)?;
    match cut_part(version) {
        Some(_) => None,
        None => Some((method, target, version)),
    }
}

fn is_method(part: &[u8]) -> bool
    ensures { result ≡ spec.is_method part.now }
{
    part.iter()
        .all(|byte| is_token(*byte) && !byte.is_ascii_lowercase())
}

fn is_version(part: &[u8]) -> bool
    ensures { result ≡ spec.is_version part.now }
{
    part.len() == 8
        && part.starts_with(b"HTTP/")
        && is_digit(part[5])
        && part[6] == b'.'
        && is_digit(part[7])
}

fn version_of(part: &[u8]) -> Version
    ensures { result ≡ spec.version_of part.now }
{
    if part == b"HTTP/1.1".as_slice() {
        Version::New
    } else {
        Version::Old
    }
}

fn is_request_target(part: &[u8]) -> bool
    ensures { result ≡ spec.is_request_target part.now }
{
    part.iter().all(|byte| is_target(*byte))
}

// The line of these parts, in one text.
#[tactic(auto, unfolding(crate::specs::Targets::path_of))]
fn line_of(
    alloc: Global,
    method: &[u8],
    target: &[u8],
    version: Version,
) -> Result<RequestLine, AllocError>
    ensures { IfOk result (λ line. line ≡ record {
      method = method.now;
      target = target.now;
      path = path_of target.now;
      query = query_of target.now;
      version = version;
    }) }
{
    let (path, query) = cut_target(target);
    let room = method.len().saturating_add(target.len());
    let mut text = Vec::with_capacity(alloc, room.saturating_add(target.len()))?;
    text.extend_from_slice(method)?;
    let method_end = text.len();
    text.extend_from_slice(target)?;
    let target_end = text.len();
    push_path(&mut text, path)?;
    let path_end = text.len();
    text.extend_from_slice(query)?;
    Ok(RequestLine {
        text,
        method_end,
        target_end,
        path_end,
        version,
    })
}

/// What a request line says, or its refusal.
#[tactic(auto, unfolding(crate::specs::RequestLines::request_line))]
pub(crate) fn read_request_line(
    alloc: Global,
    line: &[u8],
) -> Result<Result<RequestLine, Refusal>, AllocError>
    ensures { IfOk result (λ read. read ≡ spec.request_line line.now) }
{
    let Some((method, target, version)) = three_parts(line) else {
        return Ok(Err(Refusal::RequestLine));
    };
    if method.is_empty() || target.is_empty() || version.is_empty() {
        return Ok(Err(Refusal::RequestLine));
    }
    if !is_method(method) {
        return Ok(Err(Refusal::Method));
    }
    if !is_version(version) {
        return Ok(Err(Refusal::Version));
    }
    if !is_request_target(target) {
        return Ok(Err(Refusal::Target));
    }
    Ok(Ok(line_of(alloc, method, target, version_of(version))?))
}
