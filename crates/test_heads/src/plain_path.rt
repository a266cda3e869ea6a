//! The path of a target, by the plain rules.
ghost use Rattle.std.specs.Prelude.{◌<◌, IfSome};

use crate::plain_text::{behind, cut};
use std::alloc::{AllocError, Global};

fn hex(byte: u8) -> Option<u8>
    ensures { IfSome result (λ n. n < 16) }
{
    match byte {
        b'0'..=b'9' => Some(byte - b'0'),
        b'a'..=b'f' => Some(byte - b'a' + 10),
        b'A'..=b'F' => Some(byte - b'A' + 10),
        _ => None,
    }
}

// What a part that followed a percent sign stands for.
fn push_escaped(text: &mut Vec<u8>, part: &[u8]) -> Result<(), AllocError> {
    if let [high, low, rest @ ..] = part {
        if let (Some(high), Some(low)) = (hex(*high), hex(*low)) {
            text.push(high * 16 + low)?;
            return text.extend_from_slice(rest);
        }
    }
    text.push(b'%')?;
    text.extend_from_slice(part)
}

fn without_authority(alloc: Global, path: &[u8]) -> Result<Vec<u8>, AllocError> {
    let parts = cut(alloc, path, b"://")?;
    let mut kept = Vec::from_slice(alloc, path)?;
    if let Some(scheme) = parts.first() {
        let starts = scheme
            .first()
            .is_some_and(|byte| byte.is_ascii_alphabetic());
        let goes_on = scheme.iter().all(|byte| byte.is_ascii_alphanumeric()
            || b"+-.".contains(byte));
        if let Some(rest) = behind(path, scheme, b"://") {
            if starts && goes_on {
                kept.clear();
                for byte in rest {
                    if !kept.is_empty() || *byte == b'/' {
                        kept.push(*byte)?;
                    }
                }
            }
        }
    }
    Ok(kept)
}

pub fn path_of(alloc: Global, path: &[u8]) -> Result<Vec<u8>, AllocError> {
    let raw = without_authority(alloc, path)?;
    let mut decoded = Vec::new(alloc);
    let mut is_first = true;
    for part in &cut(alloc, &raw, b"%")? {
        if is_first {
            decoded.extend_from_slice(part)?;
        } else {
            push_escaped(&mut decoded, part)?;
        }
        is_first = false;
    }
    let mut path = Vec::from_slice(alloc, b"/")?;
    for byte in &decoded {
        if path.len() > 1 || *byte != b'/' {
            path.push(*byte)?;
        }
    }
    Ok(path)
}
