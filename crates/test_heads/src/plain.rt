//! The verdict once more, as text, written plainly from the rules: it shares no code with the
//! parser, and takes memory and time as it likes.
use crate::plain_fields::fields_of;
use crate::plain_path::path_of;
use crate::plain_text::{behind, cut, is_tchar, without_blanks};
use crate::shown::{Front, show_field, show_front, shown};
use head_grammar::{Field, Framing, Parsed, Refusal, Version};
use std::alloc::{AllocError, Global};

fn value_of<'a>(fields: &'a [Field], name: &[u8]) -> Option<&'a [u8]> {
    for field in fields {
        if field.name.as_slice() == name {
            return Some(field.value.as_slice());
        }
    }
    None
}

fn framing_of(is_new: bool, fields: &[Field], max_body: u64) -> Result<Framing, Refusal> {
    match value_of(fields, b"transfer-encoding") {
        Some(_) if !is_new => return Err(Refusal::CodingOnOld),
        Some(value) if value.eq_ignore_ascii_case(b"chunked") => return Ok(Framing::Chunked),
        Some(_) => return Err(Refusal::CodingUnknown),
        None => {}
    }
    let Some(value) = value_of(fields, b"content-length") else {
        return Ok(Framing::Empty);
    };
    if value.is_empty() || !value.iter().all(|byte| byte.is_ascii_digit()) {
        return Err(Refusal::Length);
    }
    let mut length = 0u64;
    for digit in value {
        length = length
            .saturating_mul(10)
            .saturating_add(u64::from(*digit).saturating_sub(48));
    }
    match length {
        _ if length >= max_body => Err(Refusal::BodyTooLarge(max_body)),
        0 => Ok(Framing::Empty),
        _ => Ok(Framing::Fixed(length)),
    }
}

fn has_option(alloc: Global, fields: &[Field], name: &[u8]) -> Result<bool, AllocError> {
    if let Some(options) = value_of(fields, b"connection") {
        for option in &cut(alloc, options, b",")? {
            if without_blanks(alloc, option)?
                .as_slice()
                .eq_ignore_ascii_case(name)
            {
                return Ok(true);
            }
        }
    }
    Ok(false)
}

fn version_of(version: &[u8]) -> Option<Version> {
    let [major, b'.', minor] = version.strip_prefix(b"HTTP/")? else {
        return None;
    };
    match (*major, *minor) {
        (b'1', b'1') => Some(Version::New),
        (b'0'..=b'9', b'0'..=b'9') => Some(Version::Old),
        _ => None,
    }
}

fn refused(refusal: Refusal) -> Parsed {
    Parsed::Bad {
        refusal,
        version: Version::Old,
        bodyless: false,
    }
}

fn good(
    alloc: Global,
    parts: (&[u8], &[u8], Version),
    fields: &[Field],
    framing: Framing,
) -> Result<Vec<u8>, AllocError> {
    let (method, target, version) = parts;
    let is_new = version == Version::New;
    let named = target
        .iter()
        .take_while(|byte| **byte != b'#')
        .copied()
        .collect::<Vec<u8>>(alloc)?;
    let raw = named
        .iter()
        .take_while(|byte| **byte != b'?')
        .copied()
        .collect::<Vec<u8>>(alloc)?;
    let query = behind(&named, &raw, b"?").unwrap_or(&[]);
    let has_both = value_of(fields, b"content-length").is_some() && framing == Framing::Chunked;
    let closes = has_option(alloc, fields, b"close")?;
    let stays = is_new || has_option(alloc, fields, b"keep-alive")?;
    let waits = match value_of(fields, b"expect") {
        Some(value) => value.eq_ignore_ascii_case(b"100-continue"),
        None => false,
    };
    let path = path_of(alloc, &raw)?;
    let front = Front {
        method,
        target,
        path: &path,
        query,
        version,
        framing,
        expects: waits && is_new && framing != Framing::Empty,
        closes: closes || !stays || has_both,
    };
    let mut text = Vec::new(alloc);
    show_front(alloc, &mut text, &front)?;
    for field in fields {
        show_field(&mut text, field.name.as_slice(), field.value.as_slice())?;
    }
    Ok(text)
}

// The text of a good head, or the verdict on another.
fn judged(
    alloc: Global,
    parts: &[Vec<u8>],
    lines: &[Vec<u8>],
    max_body: u64,
) -> Result<Result<Vec<u8>, Parsed>, AllocError> {
    let [method, target, version] = parts else {
        return Ok(Err(refused(Refusal::RequestLine)));
    };
    if method.is_empty() || target.is_empty() || version.is_empty() {
        return Ok(Err(refused(Refusal::RequestLine)));
    }
    if !method
        .iter()
        .all(|byte| is_tchar(*byte) && !(b'a'..=b'z').contains(byte))
    {
        return Ok(Err(refused(Refusal::Method)));
    }
    let Some(version) = version_of(version) else {
        return Ok(Err(refused(Refusal::Version)));
    };
    if target.iter().any(|byte| *byte <= b' ' || *byte >= 0x7F) {
        return Ok(Err(refused(Refusal::Target)));
    }
    let bodyless = method.as_slice() == b"HEAD".as_slice();
    let is_new = version == Version::New;
    let fields = match fields_of(alloc, lines)? {
        Ok(fields) => fields,
        Err(refusal) => return Ok(Err(Parsed::Bad {
            refusal,
            version,
            bodyless,
        })),
    };
    let framing = match framing_of(is_new, &fields, max_body) {
        Ok(framing) => framing,
        Err(refusal) => return Ok(Err(Parsed::Bad {
            refusal,
            version,
            bodyless,
        })),
    };
    Ok(Ok(good(alloc, (method, target, version), &fields, framing)?))
}

// Only in front and at its end has a whole head empty lines.
pub fn verdict(alloc: Global, head: &[u8], max_body: u64) -> Result<Vec<u8>, AllocError> {
    let mut lines = Vec::new(alloc);
    for line in &cut(alloc, head, b"\r\n")? {
        if !line.is_empty() {
            lines.push(Vec::from_slice(alloc, line)?)?;
        }
    }
    let Some((line, rest)) = lines.as_slice().split_first() else {
        return shown(alloc, &Parsed::Blank);
    };
    match judged(alloc, &cut(alloc, line, b" ")?, rest, max_body)? {
        Ok(text) => Ok(text),
        Err(parsed) => shown(alloc, &parsed),
    }
}
