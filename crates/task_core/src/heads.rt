//! The head of a response of an application.
ghost use Rattle.std.specs.Prelude.{◌≡◌, ◌++◌, IfOk, OnOk, codes, filter, map, not};
ghost use Rattle.std.specs.List.{flat_map};
ghost use Rattle.std.specs.Option.{option_to_list};
ghost use Rattle.task_core.specs.Answer as spec;
ghost use Rattle.task_core.specs.Fields.{field_of, fields_of};
ghost use Rattle.task_core.specs.ResponseHead as head;
ghost use Rattle.task_core.specs.Starts.{is_named};

use crate::layout::Layout;
use crate::lines::{push_field, push_status_line, recase};
use crate::starts::{Given, is_named};
use crate::task::Request;
use head_grammar::{Field, Version, trim};
use imf_fixdate::date_text;
use itoa::Buffer;
use outside::{Bytes, Items};
use std::alloc::{AllocError, Global};

/// How many fields the server adds at most.
const OWN_FIELDS: usize = 4;

/// The bytes of a head beside its status and its field lines: the version, SP and two line ends.
const FRAME: usize = 13;

/// A field line.
#[derive(Clone, Copy, Debug)]
pub(crate) struct Line<'a> {
    pub(crate) name: &'a [u8],
    pub(crate) value: &'a [u8],
}

// What an application declares as the length: the server's own field stands for it.
fn is_length(field: &Field) -> bool
    ensures { result ≡ is_named (codes "content-length") field.now }
{
    is_named(field, b"content-length")
}

fn has_named(fields: &[Field], name: &[u8]) -> bool
    ensures { result ≡ spec.has_named name.now fields.now }
{
    fields.iter().any(|field| is_named(field, name))
}

fn recased(field: Field) -> Field
    ensures { result ≡ head.recased_field field }
{
    let Field { name, value } = field;
    let mut name = name.into_vec();
    recase(name.as_mut_slice());
    Field {
        name: Bytes::from_vec(name),
        value,
    }
}

fn kept(alloc: Global, fields: Items<Field>) -> Result<Vec<Field>, AllocError>
    ensures { IfOk result (λ kept. kept.items
        ≡ map head.recased_field (filter (λ field. not (is_named (codes "content-length") field))
        fields)) }
{
    fields
        .into_vec()
        .into_iter()
        .filter(|field| !is_length(field))
        .map(recased)
        .collect(alloc)
}

fn line_of(field: &Field) -> Line<'_>
    ensures { field_of result ≡ head.trimmed_field field.now }
{
    Line {
        name: field.name.as_slice(),
        value: trim(field.value.as_slice()),
    }
}

fn push_given<'a>(lines: &mut Vec<Line<'a>>, fields: &'a [Field]) -> Result<(), AllocError>
    ensures { OnOk result (fields_of lines.new.items
        ≡ fields_of lines.old.items ++ map head.trimmed_field fields.now) }
{
    for field in fields {
        lines.push(line_of(field))?;
    }
    Ok(())
}

fn length_line(length: Option<u64>, digits: &mut Buffer) -> Option<Line<'_>>
    ensures { fields_of (option_to_list result) ≡ spec.length_fields length }
{
    match length {
        Some(length) => Some(Line {
            name: b"Content-Length",
            value: digits.format(length).as_bytes(),
        }),
        None => None,
    }
}

fn framing_line(layout: Layout, digits: &mut Buffer) -> Option<Line<'_>>
    ensures { fields_of (option_to_list result) ≡ spec.framing_fields layout }
{
    match layout {
        Layout::NoContent => None,
        Layout::NotModified(declared) => length_line(declared, digits),
        Layout::HeadOnly(known) => length_line(known, digits),
        Layout::Known(size) => length_line(Some(size), digits),
        Layout::Chunked => Some(Line {
            name: b"Transfer-Encoding",
            value: b"chunked",
        }),
        Layout::UntilClose => None,
    }
}

fn connection_line(request: &Request, layout: Layout) -> Option<Line<'static>>
    ensures { fields_of (option_to_list result) ≡ spec.connection_fields request.now layout }
{
    if request.closes || layout.is_unknown() {
        return Some(Line {
            name: b"Connection",
            value: b"close",
        });
    }
    match request.version {
        Version::Old => Some(Line {
            name: b"Connection",
            value: b"Keep-Alive",
        }),
        Version::New => None,
    }
}

// An application that names itself stands before this server.
fn origin_line<'a>(fields: &[Field], ident: &'a [u8]) -> Line<'a>
    ensures { field_of result ≡ spec.origin_field ident.now fields.now }
{
    if has_named(fields, b"server") {
        Line {
            name: b"Via",
            value: ident,
        }
    } else {
        Line {
            name: b"Server",
            value: ident,
        }
    }
}

fn own_date(fields: &[Field], moment: u64) -> Option<[u8; 29]>
    ensures { map (λ date. record { name = codes "Date"; value = date }) (option_to_list result)
        ≡ spec.own_date_fields moment fields.now }
{
    if has_named(fields, b"date") {
        return None;
    }
    date_text(moment)
}

fn date_line(date: &Option<[u8; 29]>) -> Option<Line<'_>>
    ensures { fields_of (option_to_list result)
        ≡ map (λ date. record { name = codes "Date"; value = date }) (option_to_list date.now) }
{
    match date {
        Some(date) => Some(Line {
            name: b"Date",
            value: date,
        }),
        None => None,
    }
}

fn push_line<'a>(lines: &mut Vec<Line<'a>>, line: Option<Line<'a>>) -> Result<(), AllocError>
    ensures { OnOk result (fields_of lines.new.items
        ≡ fields_of lines.old.items ++ fields_of (option_to_list line.entry)) }
{
    if let Some(line) = line {
        lines.push(line)?;
    }
    Ok(())
}

fn sort(lines: &mut Vec<Line<'_>>) -> Result<(), AllocError>
    ensures { OnOk result (fields_of lines.new.items ≡ head.sorted_by_name
        (fields_of lines.old.items)) }
{
    lines.sort_by(|a, b| a.name.cmp(b.name))?;
    Ok(())
}

fn size_of(lines: &[Line<'_>]) -> usize {
    let mut size = 0usize;
    for line in lines {
        size = size
            .saturating_add(line.name.len())
            .saturating_add(line.value.len())
            .saturating_add(4);
    }
    size
}

fn push_lines(text: &mut Vec<u8>, lines: &[Line<'_>]) -> Result<(), AllocError>
    ensures { OnOk result (text.new.items ≡ text.old.items
        ++ flat_map head.field_line (fields_of lines.now)) }
{
    for line in lines {
        push_field(text, line.name, line.value)?;
    }
    Ok(())
}

fn head_text(
    alloc: Global,
    version: Version,
    status: &[u8],
    lines: &[Line<'_>],
) -> Result<Vec<u8>, AllocError>
    ensures { IfOk result (λ text. text.items ≡ head.head_text version status.now
        (fields_of lines.now)) }
{
    let size = size_of(lines)
        .saturating_add(status.len())
        .saturating_add(FRAME);
    let mut text = Vec::with_capacity(alloc, size)?;
    push_status_line(&mut text, version, status)?;
    push_lines(&mut text, lines)?;
    text.extend_from_slice(b"\r\n")?;
    Ok(text)
}

/// The head of a response to a Start.
pub(crate) fn response_head(
    alloc: Global,
    request: &Request,
    given: Given,
    layout: Layout,
) -> Result<Vec<u8>, AllocError>
    ensures { IfOk result (λ text. text.items
        ≡ spec.response_head request.now (given.status, given.fields) layout) }
{
    let origin = origin_line(given.fields.as_slice(), request.ident.as_slice());
    let date = own_date(given.fields.as_slice(), request.moment);
    let Given {
        status,
        fields,
        declared: _,
    } = given;
    let fields = kept(alloc, fields)?;
    let mut digits = Buffer::new();
    let mut lines = Vec::with_capacity(alloc, fields.len() + OWN_FIELDS)?;
    push_given(&mut lines, fields.as_slice())?;
    push_line(&mut lines, framing_line(layout, &mut digits))?;
    push_line(&mut lines, connection_line(request, layout))?;
    push_line(&mut lines, Some(origin))?;
    push_line(&mut lines, date_line(&date))?;
    sort(&mut lines)?;
    let text = head_text(alloc, request.version, status.as_slice(), lines.as_slice())?;
    Ok(text)
}
