//! Answers of the server itself, each as one text.
ghost use Rattle.std.specs.Prelude.{◌≡◌, ◌++◌, ◌∷◌, [], IfOk, OnOk, codes, decimal, if◌then◌else◌};
ghost use Rattle.std.specs.List.{flat_map};
ghost use Rattle.std.specs.Option.{option_to_list};
ghost use Rattle.byte_tables.specs.Refusals as refusals;
ghost use Rattle.task_core.specs.Errors as spec;
ghost use Rattle.task_core.specs.ResponseHead as head;

use crate::lines::{push_field, push_length, version_text};
use head_grammar::{Head, Refusal, Version};
use imf_fixdate::date_text;
use itoa::Buffer;
use outside::{Bytes, Kind, NoMemory};
use request_stream::Refused;
use std::alloc::{AllocError, Global};

/// Room for a head and a body beside the server's own name.
const ERROR_SIZE: usize = 512;

/// Room for the body alone.
const BODY_SIZE: usize = 192;

/// Why the server answers itself.
#[derive(Clone, Copy, Debug)]
pub(crate) enum Cause {
    Refused(Refusal),
    /// A field of this kind, from a trusted proxy, is malformed.
    Proxy(Kind),
    /// The application failed before its head.
    Application,
}

/// An answer of the server itself, but for its own name.
#[derive(Clone, Copy, Debug)]
pub(crate) struct ErrorAnswer {
    pub(crate) cause: Cause,
    pub(crate) version: Version,
    pub(crate) bodyless: bool,
    pub(crate) moment: u64,
}

/// Whether a method is HEAD, whose responses have no body (RFC 9110, section 9.3.2).
pub(crate) fn is_head(method: &[u8]) -> bool
    ensures { result ≡ spec.is_head method.now }
{
    method == b"HEAD".as_slice()
}

impl Cause {
    fn code(self) -> u16
        ensures { result ≡ spec.cause_code self }
    {
        match self {
            Cause::Refused(refusal) => refusal.code(),
            Cause::Proxy(_) => 400,
            Cause::Application => 500,
        }
    }
}

fn reason_of(code: u16) -> &'static str
    ensures { result.now ≡ spec.reason_of code }
{
    match code {
        400 => "Bad Request",
        413 => "Request Entity Too Large",
        431 => "Request Header Fields Too Large",
        501 => "Not Implemented",
        _ => "Internal Server Error",
    }
}

fn kind_name(kind: Kind) -> &'static str
    ensures { result.now ≡ spec.kind_name kind }
{
    match kind {
        Kind::Forwarded => "Forwarded",
        Kind::For => "X-Forwarded-For",
        Kind::Host => "X-Forwarded-Host",
        Kind::Proto => "X-Forwarded-Proto",
        Kind::Port => "X-Forwarded-Port",
        Kind::By => "X-Forwarded-By",
    }
}

// The words of a refusal, and the number behind them.
#[tactic(auto, unfolding(byte_tables::specs::Refusals::text_of))]
fn words_of(refusal: Refusal) -> (&'static str, Option<u64>)
    ensures { refusals.text_of refusal ≡ result.0.now ++ flat_map decimal
        (option_to_list result.1) }
{
    match refusal {
        Refusal::RequestLine => ("Malformed request line", None),
        Refusal::Method => ("Malformed HTTP method", None),
        Refusal::Version => ("Malformed HTTP version", None),
        Refusal::Target => ("Bad URI", None),
        Refusal::FieldLine => ("Malformed header line", None),
        Refusal::FieldValue => ("Malformed header value", None),
        Refusal::CodingOnOld => ("Transfer-Encoding in an HTTP/1.0 request", None),
        Refusal::CodingUnknown => ("Transfer-Encoding requested is not supported.", None),
        Refusal::Length => ("Content-Length is invalid", None),
        Refusal::BodyTooLarge(limit) => ("exceeds max_body of ", Some(limit)),
        Refusal::HeadTooLarge(limit) => ("exceeds max_header of ", Some(limit)),
        Refusal::ChunkSize => ("Invalid chunk size", None),
        Refusal::ChunkExtension => ("Invalid chunk extension", None),
        Refusal::ChunkLineEnd => ("Invalid chunk line end", None),
        Refusal::ChunkLineLong => ("Chunk line too long", None),
        Refusal::ChunkEnd => ("Chunk not properly terminated", None),
        Refusal::TrailerTooLarge(limit) => ("exceeds max_header of ", Some(limit)),
    }
}

fn push_number(text: &mut Vec<u8>, number: Option<u64>) -> Result<(), AllocError>
    ensures { OnOk result (text.new.items ≡ text.old.items ++ flat_map decimal
        (option_to_list number)) }
{
    match number {
        Some(number) => text.extend_from_slice(Buffer::new().format(number).as_bytes()),
        None => Ok(()),
    }
}

fn push_refusal(text: &mut Vec<u8>, refusal: Refusal) -> Result<(), AllocError>
    ensures { OnOk result (text.new.items ≡ text.old.items ++ refusals.text_of refusal) }
{
    let (words, number) = words_of(refusal);
    text.extend_from_slice(words.as_bytes())?;
    push_number(text, number)
}

#[tactic(auto, unfolding(crate::specs::Errors::cause_text))]
fn push_cause(text: &mut Vec<u8>, cause: Cause) -> Result<(), AllocError>
    ensures { OnOk result (text.new.items ≡ text.old.items ++ spec.cause_text cause) }
{
    match cause {
        Cause::Refused(refusal) => push_refusal(text, refusal),
        Cause::Proxy(kind) => {
            text.extend_from_slice(b"Header \"")?;
            text.extend_from_slice(kind_name(kind).as_bytes())?;
            text.extend_from_slice(b"\" malformed.")
        }
        Cause::Application => text.extend_from_slice(
            b"The server encountered an unexpected internal server error",
        ),
    }
}

fn body_of(alloc: Global, reason: &str, cause: Cause, ident: &[u8]) -> Result<Vec<u8>, AllocError>
    ensures { IfOk result (λ body. body.items
        ≡ spec.error_body ident.now reason.now (spec.cause_text cause)) }
{
    let mut body = Vec::with_capacity(alloc, BODY_SIZE)?;
    body.extend_from_slice(reason.as_bytes())?;
    body.extend_from_slice(b"\r\n\r\n")?;
    push_cause(&mut body, cause)?;
    body.extend_from_slice(b"\r\n\r\n(generated by ")?;
    body.extend_from_slice(ident)?;
    body.extend_from_slice(b")")?;
    Ok(body)
}

fn push_status(
    text: &mut Vec<u8>,
    version: Version,
    code: u16,
    reason: &str,
) -> Result<(), AllocError>
    ensures { OnOk result (text.new.items ≡ text.old.items
        ++ head.status_line version (decimal code ++ codes " " ++ reason.now)) }
{
    text.extend_from_slice(version_text(version))?;
    text.extend_from_slice(b" ")?;
    text.extend_from_slice(Buffer::new().format(code).as_bytes())?;
    text.extend_from_slice(b" ")?;
    text.extend_from_slice(reason.as_bytes())?;
    text.extend_from_slice(b"\r\n")
}

// A moment from the year 10000 on has no date.
fn push_date(text: &mut Vec<u8>, moment: u64) -> Result<(), AllocError>
    ensures { OnOk result (text.new.items ≡ text.old.items
        ++ flat_map head.field_line (spec.date_fields moment)) }
{
    match date_text(moment) {
        Some(date) => push_field(text, b"Date", &date),
        None => Ok(()),
    }
}

// When and by whom an answer was made.
#[tactic(auto, using(crate::proofs::Appending::lines))]
fn push_origin(text: &mut Vec<u8>, moment: u64, ident: &[u8]) -> Result<(), AllocError>
    ensures { OnOk result (text.new.items ≡ text.old.items
        ++ flat_map head.field_line (spec.date_fields moment ++ spec.server_field ident.now ∷ [])) }
{
    push_date(text, moment)?;
    push_field(text, b"Server", ident)
}

// The fields stand in the order of their names.
fn push_fields(text: &mut Vec<u8>, size: usize, moment: u64, ident: &[u8]) -> Result<(), AllocError>
    ensures { OnOk result (text.new.items ≡ text.old.items
        ++ (flat_map head.field_line (spec.error_fields ident.now size moment) ++ head.crlf)) }
{
    push_field(text, b"Connection", b"close")?;
    push_length(text, size)?;
    push_field(text, b"Content-Type", b"text/plain; charset=utf-8")?;
    push_origin(text, moment, ident)?;
    text.extend_from_slice(b"\r\n")
}

// What an answer has of its body.
fn content(bodyless: bool, body: &[u8]) -> &[u8]
    ensures { result.now ≡ (if bodyless then [] else body.now) }
{
    if bodyless { &[] } else { body }
}

/// The whole text of an answer.
pub(crate) fn error_text(
    alloc: Global,
    answer: &ErrorAnswer,
    ident: &[u8],
) -> Result<Vec<u8>, AllocError>
    ensures { IfOk result (λ text. text.items ≡ spec.error_text answer.now.cause answer.now.version
        answer.now.bodyless ident.now answer.now.moment) }
{
    let code = answer.cause.code();
    let reason = reason_of(code);
    let body = body_of(alloc, reason, answer.cause, ident)?;
    let mut text = Vec::with_capacity(alloc, ERROR_SIZE)?;
    push_status(&mut text, answer.version, code, reason)?;
    push_fields(&mut text, body.len(), answer.moment, ident)?;
    text.extend_from_slice(content(answer.bodyless, body.as_slice()))?;
    Ok(text)
}

fn whole(alloc: Global, answer: &ErrorAnswer, ident: &Bytes) -> Result<Bytes, NoMemory>
    ensures { IfOk result (λ text. text ≡ spec.error_text answer.now.cause answer.now.version
        answer.now.bodyless ident.now answer.now.moment) }
{
    match error_text(alloc, answer, ident.as_slice()) {
        Ok(text) => Ok(Bytes::from_vec(text)),
        Err(_) => Err(NoMemory),
    }
}

/// The answer to a request that is refused.
pub fn error_answer(alloc: Global, refused: &Refused, ident: &Bytes) -> Result<Bytes, NoMemory>
    ensures { IfOk result (λ text. text ≡ spec.error_answer ident.now refused.now) }
{
    let answer = ErrorAnswer {
        cause: Cause::Refused(refused.refusal),
        version: refused.version,
        bodyless: refused.bodyless,
        moment: refused.moment,
    };
    whole(alloc, &answer, ident)
}

/// The answer to a request with this head whose field of this kind, from a trusted proxy, is
/// malformed. Its last byte came at the moment.
pub fn proxy_answer(
    alloc: Global,
    kind: Kind,
    head: &Head,
    moment: u64,
    ident: &Bytes,
) -> Result<Bytes, NoMemory>
    ensures { IfOk result (λ text. text ≡ spec.proxy_answer ident.now kind head.now moment) }
{
    let answer = ErrorAnswer {
        cause: Cause::Proxy(kind),
        version: head.version(),
        bodyless: is_head(head.method()),
        moment,
    };
    whole(alloc, &answer, ident)
}
