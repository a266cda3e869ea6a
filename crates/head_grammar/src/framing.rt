//! How long a body is, and what a head says of the connection.
ghost use Rattle.std.specs.Prelude.{◌≡◌, codes};
ghost use Rattle.std.specs.Str.{str_eq_ignore_ascii_case};
ghost use Rattle.head_grammar.specs.FieldLines.{field_value};
ghost use Rattle.head_grammar.specs.Framings as spec;

use crate::classes::trim;
use crate::{Fields, Framing, Refusal, Version};
use byte_tables::{is_number, number_of};

// ASCII letters are compared without case.
fn is_text(value: &[u8], text: &[u8]) -> bool
    ensures { result ≡ str_eq_ignore_ascii_case value.now text.now }
{
    value.eq_ignore_ascii_case(text)
}

fn by_length(value: &[u8], max_body: u64) -> Result<Framing, Refusal>
    ensures { result ≡ spec.by_length max_body value.now }
{
    if !is_number(value) {
        return Err(Refusal::Length);
    }
    match number_of(value) {
        Some(0) if max_body > 0 => Ok(Framing::Empty),
        Some(size) if size < max_body => Ok(Framing::Fixed(size)),
        _ => Err(Refusal::BodyTooLarge(max_body)),
    }
}

fn by_coding(version: Version, coding: &[u8]) -> Result<Framing, Refusal>
    ensures { result ≡ spec.by_coding version coding.now }
{
    match version {
        Version::Old => Err(Refusal::CodingOnOld),
        Version::New if is_text(coding, b"chunked") => Ok(Framing::Chunked),
        Version::New => Err(Refusal::CodingUnknown),
    }
}

/// How the length of a body is known (RFC 9112, section 6.3). A body has fewer than `max_body`
/// bytes.
#[tactic(auto, unfolding(crate::specs::Framings::framing_of))]
pub(crate) fn framing(
    version: Version,
    fields: &Fields<'_>,
    max_body: u64,
) -> Result<Framing, Refusal>
    ensures { result ≡ spec.framing_of version fields.now max_body }
{
    if let Some(coding) = fields.value_of(b"transfer-encoding") {
        return by_coding(version, coding);
    }
    match fields.value_of(b"content-length") {
        Some(value) => by_length(value, max_body),
        None => Ok(Framing::Empty),
    }
}

/// Whether the client waits for `100 Continue` (RFC 9110, section 10.1.1).
pub(crate) fn expects(version: Version, fields: &Fields<'_>, framing: Framing) -> bool
    ensures { result ≡ spec.expects_of version fields.now framing }
{
    if version == Version::Old || framing == Framing::Empty {
        return false;
    }
    match fields.value_of(b"expect") {
        Some(value) => is_text(value, b"100-continue"),
        None => false,
    }
}

fn is_option(option: &[u8], name: &[u8]) -> bool
    ensures { result ≡ spec.is_option name.now option.now }
{
    is_text(trim(option), name)
}

fn lists_option(options: &[u8], name: &[u8]) -> bool
    ensures { result ≡ spec.lists_option name.now options.now }
{
    options
        .split(|byte| *byte == b',')
        .any(|option| is_option(option, name))
}

fn has_option(fields: &Fields<'_>, name: &[u8]) -> bool
    ensures { result ≡ spec.has_option name.now (field_value (codes "connection") fields.now) }
{
    match fields.value_of(b"connection") {
        Some(options) => lists_option(options, name),
        None => false,
    }
}

// Whether the options of the connection close it (RFC 9112, section 9.3).
fn is_asked_to_close(version: Version, fields: &Fields<'_>) -> bool
    ensures { result ≡ spec.closes_by version (field_value (codes "connection") fields.now) }
{
    match version {
        Version::New => has_option(fields, b"close"),
        Version::Old => has_option(fields, b"close") || !has_option(fields, b"keep-alive"),
    }
}

fn has_field(fields: &Fields<'_>, name: &[u8]) -> bool
    ensures { result ≡ spec.has_field name.now fields.now }
{
    fields.value_of(name).is_some()
}

fn has_both(fields: &Fields<'_>) -> bool
    ensures { result ≡ spec.has_both fields.now }
{
    has_field(fields, b"transfer-encoding") && has_field(fields, b"content-length")
}

/// Whether the connection closes behind the response (RFC 9112, sections 6.1 and 9.3).
#[tactic(auto, unfolding(crate::specs::Framings::closes_of))]
pub(crate) fn closes(version: Version, fields: &Fields<'_>) -> bool
    ensures { result ≡ spec.closes_of version fields.now }
{
    is_asked_to_close(version, fields) || has_both(fields)
}
