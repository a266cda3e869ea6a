//! Texts that are cut and trimmed.
use std::alloc::{AllocError, Global};

// A text that is cut at each mark.
pub fn cut(alloc: Global, text: &[u8], mark: &[u8]) -> Result<Vec<Vec<u8>>, AllocError> {
    let mut parts = Vec::new(alloc);
    let mut part = Vec::new(alloc);
    for byte in text {
        part.push(*byte)?;
        if part.as_slice().ends_with(mark) {
            part.truncate(part.len().saturating_sub(mark.len()));
            parts.push(part)?;
            part = Vec::new(alloc);
        }
    }
    parts.push(part)?;
    Ok(parts)
}

// What stands behind a front and a mark.
pub fn behind<'a>(text: &'a [u8], front: &[u8], mark: &[u8]) -> Option<&'a [u8]> {
    text.strip_prefix(front)?.strip_prefix(mark)
}

pub fn is_blank(byte: u8) -> bool {
    byte == b' ' || byte == b'\t'
}

pub fn is_tchar(byte: u8) -> bool {
    byte.is_ascii_alphanumeric() || b"!#$%&'*+-.^_`|~".contains(&byte)
}

pub fn without_blanks(alloc: Global, text: &[u8]) -> Result<Vec<u8>, AllocError> {
    let mut kept = Vec::new(alloc);
    for byte in text {
        if !kept.is_empty() || !is_blank(*byte) {
            kept.push(*byte)?;
        }
    }
    for _ in 0..text.len() {
        if kept.as_slice().ends_with(b" ") || kept.as_slice().ends_with(b"\t") {
            kept.pop();
        }
    }
    Ok(kept)
}
