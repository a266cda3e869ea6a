//! Values that are lists.
ghost use Rattle.std.specs.Prelude.{◌≡◌, ◌==◌, ◌-◌, drop, length, map, option_map, IfOk};
ghost use Rattle.std.specs.List.{list_any};
ghost use Rattle.proxy_trust.specs.Lists as spec;

use head_grammar::trim;
use outside::Bytes;
use std::alloc::{AllocError, Global};

fn read_parts<'a>(alloc: Global, value: &'a [u8]) -> Result<Vec<&'a [u8]>, AllocError>
    ensures { IfOk result (λ parts. map (λ part. part.now) parts.items ≡ spec.parts value.now) }
{
    let mut parts = Vec::new(alloc);
    for part in value.split(|byte| *byte == b',') {
        parts.push(trim(part))?;
    }
    Ok(parts)
}

fn have_empty(parts: &[&[u8]]) -> bool
    ensures { result ≡ list_any (λ part. spec.is_empty part.now) parts.now }
{
    parts.iter().any(|part| part.is_empty())
}

fn join(alloc: Global, parts: &[&[u8]]) -> Result<Bytes, AllocError>
    ensures { IfOk result (λ list. list ≡ spec.joined (map (λ part. part.now) parts.now)) }
{
    let mut text = Vec::new(alloc);
    let Some((first, rest)) = parts.split_first() else {
        return Ok(Bytes::from_vec(text));
    };
    text.extend_from_slice(first)?;
    for part in rest {
        text.extend_from_slice(b", ")?;
        text.extend_from_slice(part)?;
    }
    Ok(Bytes::from_vec(text))
}

/// A list as it is kept, and its first part.
#[derive(Drop)]
pub(crate) struct LastParts<'a> {
    pub(crate) kept: Bytes,
    pub(crate) chosen: &'a [u8],
}

fn last_of<'p, 'a>(parts: &'p [&'a [u8]], count: u32) -> &'p [&'a [u8]]
    ensures { result.now ≡ drop (length parts.now - count) parts.now }
{
    &parts[parts.len().saturating_sub(count as usize)..]
}

fn read_last<'a>(alloc: Global, parts: &[&'a [u8]]) -> Result<Option<LastParts<'a>>, AllocError>
    ensures { IfOk result (λ last. option_map spec.seen last
        ≡ spec.listed_of (map (λ part. part.now) parts.now)) }
{
    let Some(chosen) = parts.first() else {
        return Ok(None);
    };
    Ok(Some(LastParts {
        kept: join(alloc, parts)?,
        chosen,
    }))
}

/// The last `count` parts of a list, or all where there are fewer; None where a part is empty.
pub(crate) fn read_list<'a>(
    alloc: Global,
    value: &'a [u8],
    count: u32,
) -> Result<Option<LastParts<'a>>, AllocError>
    ensures { IfOk result (λ read. option_map spec.seen read ≡ spec.listed count value.now) }
{
    let parts = read_parts(alloc, value)?;
    if have_empty(&parts) {
        return Ok(None);
    }
    read_last(alloc, last_of(&parts, count))
}
