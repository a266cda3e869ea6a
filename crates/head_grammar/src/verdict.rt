//! What a whole head says, or why it is refused.
ghost use Rattle.std.specs.Prelude.{◌≡◌, Some, length, IfOk};
ghost use Rattle.head_grammar.specs.FieldLines.{fields_of};
ghost use Rattle.head_grammar.specs.Ends.{head_end};
ghost use Rattle.head_grammar.specs.Lines.{skip_empty};
ghost use Rattle.head_grammar.specs.Verdict as spec;

use crate::field_lines::read_fields;
use crate::framing::framing;
use crate::lines::Lines;
use crate::request_line::{RequestLine, read_request_line};
use crate::{FieldList, Framing, Head, Parsed, Refusal, Version};
use outside::NoMemory;
use std::alloc::{AllocError, Global};

fn is_head(method: &[u8]) -> bool
    ensures { result ≡ spec.is_head method.now }
{
    method == b"HEAD".as_slice()
}

// A refusal of what stands behind the request line.
fn bad(line: &RequestLine, refusal: Refusal) -> Parsed
    ensures { result ≡ spec.bad line.now refusal }
{
    Parsed::Bad {
        refusal,
        version: line.version(),
        bodyless: is_head(line.method()),
    }
}

fn good(line: RequestLine, fields: FieldList, framing: Framing, size: usize) -> Parsed
    ensures { result ≡ spec.good line fields framing size }
{
    Parsed::Good(Head::new(line, fields, framing, size as u64))
}

fn judge_fields(
    alloc: Global,
    line: RequestLine,
    lines: Lines<'_>,
    size: usize,
    max_body: u64,
) -> Result<Parsed, AllocError>
    ensures { IfOk result (λ parsed. parsed ≡ spec.by_fields max_body line size
        (fields_of lines.entry)) }
{
    let fields = match read_fields(alloc, lines)? {
        Ok(fields) => fields,
        Err(refusal) => return Ok(bad(&line, refusal)),
    };
    Ok(match framing(line.version(), &fields.fields(), max_body) {
        Ok(framing) => good(line, fields, framing, size),
        Err(refusal) => bad(&line, refusal),
    })
}

fn judge(
    alloc: Global,
    mut lines: Lines<'_>,
    size: usize,
    max_body: u64,
) -> Result<Parsed, AllocError>
    ensures { IfOk result (λ parsed. parsed ≡ spec.verdict_of max_body
        (skip_empty lines.entry) size) }
{
    let Some(first) = lines.skip_empty() else {
        return Ok(Parsed::Blank);
    };
    match read_request_line(alloc, first)? {
        Ok(line) => judge_fields(alloc, line, lines, size, max_body),
        Err(refusal) => Ok(Parsed::Bad {
            refusal,
            version: Version::Old,
            bodyless: false,
        }),
    }
}

/// What the whole head `bytes` says (RFC 9112). A body has fewer than `max_body` bytes.
pub fn read_head(alloc: Global, bytes: &[u8], max_body: u64) -> Result<Parsed, NoMemory>
    requires { head_end bytes.now ≡ Some (length bytes.now) }
    ensures verdict { IfOk result (λ parsed. parsed ≡ spec.verdict max_body bytes.now) }
    ensures size { IfOk result (spec.HasSize (length bytes.now)) }
{
    let lines = Lines::new(&bytes[..bytes.len() - 2]);
    judge(alloc, lines, bytes.len(), max_body).map_err(|_| NoMemory)
}
