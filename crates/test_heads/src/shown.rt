//! Verdicts as text.
use crate::plain;
use head_grammar::{Framing, Head, Parsed, Version, head_end, read_head};
use std::alloc::{AllocError, Global};
use std::process::Abort;

const MAX_BODY: u64 = 1000;

fn shown_version(version: Version) -> &'static [u8] {
    match version {
        Version::Old => b"1.0",
        Version::New => b"1.1",
    }
}

/// What is shown of a head before its fields.
#[derive(Drop)]
pub struct Front<'a> {
    pub method: &'a [u8],
    pub target: &'a [u8],
    pub path: &'a [u8],
    pub query: &'a [u8],
    pub version: Version,
    pub framing: Framing,
    pub expects: bool,
    pub closes: bool,
}

pub fn show_front(alloc: Global, text: &mut Vec<u8>, front: &Front<'_>) -> Result<(), AllocError> {
    let framing = format!(in alloc; "{:?}", front.framing)?;
    text.extend_from_slice(shown_version(front.version))?;
    text.push(b' ')?;
    text.extend_from_slice(framing.as_bytes())?;
    if front.expects {
        text.extend_from_slice(b" expects")?;
    }
    if front.closes {
        text.extend_from_slice(b" closes")?;
    }
    for part in [
        b" ",
        front.method,
        b" ",
        front.target,
        b" to ",
        front.path,
        b"?",
        front.query,
    ] {
        text.extend_from_slice(part)?;
    }
    Ok(())
}

pub fn show_field(text: &mut Vec<u8>, name: &[u8], value: &[u8]) -> Result<(), AllocError> {
    text.push(b'|')?;
    text.extend_from_slice(name)?;
    text.push(b'=')?;
    text.extend_from_slice(value)
}

fn show_good(alloc: Global, text: &mut Vec<u8>, head: &Head) -> Result<(), AllocError> {
    let front = Front {
        method: head.method(),
        target: head.target(),
        path: head.path(),
        query: head.query(),
        version: head.version(),
        framing: head.framing(),
        expects: head.expects(),
        closes: head.closes(),
    };
    show_front(alloc, text, &front)?;
    for (name, value) in head.fields() {
        show_field(text, name, value)?;
    }
    Ok(())
}

/// What the verdict says.
pub fn shown(alloc: Global, parsed: &Parsed) -> Result<Vec<u8>, AllocError> {
    let mut text = Vec::new(alloc);
    match parsed {
        Parsed::Blank => text.extend_from_slice(b"blank")?,
        Parsed::Good(head) => show_good(alloc, &mut text, head)?,
        Parsed::Bad {
            refusal,
            version,
            bodyless,
        } => {
            let refusal = format!(in alloc; "{refusal:?} ")?;
            text.extend_from_slice(refusal.as_bytes())?;
            text.extend_from_slice(shown_version(*version))?;
            if *bodyless {
                text.extend_from_slice(b" bodyless")?;
            }
        }
    }
    Ok(text)
}

// The text of the verdict on a head, and of the plain one.
#[tactic(auto, unfolding(head_grammar::specs::Ends::head_end))]
pub fn verdicts(alloc: Global, texts: &[&str]) -> Result<(Vec<u8>, Vec<u8>), AllocError> {
    let mut bytes = Vec::new(alloc);
    for text in texts {
        bytes.extend_from_slice(text.as_bytes())?;
    }
    bytes.extend_from_slice(b"\r\n\r\n")?;
    let end = head_end(&bytes, 0).ok_or(AllocError)?;
    let head = &bytes[..end];
    let parsed = read_head(alloc, head, MAX_BODY).map_err(|_| AllocError)?;
    let plain = plain::verdict(alloc, head, MAX_BODY)?;
    Ok((shown(alloc, &parsed)?, plain))
}

// Each row is what stands between the front and the end of a head, and its verdict.
pub fn check(rt: &impl Abort, alloc: Global, front: &str, rows: &[(&str, &str)]) {
    for (middle, want) in rows {
        let texts = verdicts(alloc, &[front, middle]);
        assert!(rt; texts.is_ok(), "{middle}");
        if let Ok((text, plain)) = texts {
            assert_eq!(rt; text.as_slice(), want.as_bytes(), "{middle}");
            assert_eq!(rt; plain.as_slice(), want.as_bytes(), "{middle}");
        }
    }
}
