//! Inputs in two pieces that are cut at each place, and in pieces of each size.
use crate::{Limits, Refused, Stream, Unit};
use head_grammar::{Refusal, Version};
use outside::{MemSpill, MemSpills};
use std::alloc::{AllocError, Global};
use std::rt::HostRuntime;

fn name_of(refusal: Refusal) -> &'static [u8] {
    match refusal {
        Refusal::RequestLine => b"RequestLine",
        Refusal::Length => b"Length",
        Refusal::BodyTooLarge(100) => b"BodyTooLarge100",
        Refusal::HeadTooLarge(64) => b"HeadTooLarge64",
        Refusal::ChunkSize => b"ChunkSize",
        _ => b"other",
    }
}

fn show_refused(text: &mut Vec<u8>, refused: Refused) -> Result<(), AllocError> {
    text.extend_from_slice(name_of(refused.refusal))?;
    match refused.version {
        Version::Old => text.extend_from_slice(b" 1.0")?,
        Version::New => text.extend_from_slice(b" 1.1")?,
    }
    if refused.bodyless {
        text.extend_from_slice(b" bodyless")?;
    }
    Ok(())
}

// A unit in words: a request by its method, path and body.
fn show(text: &mut Vec<u8>, unit: Unit<MemSpill>) -> Option<()> {
    match unit {
        Unit::Continue => text.extend_from_slice(b"continue").ok()?,
        Unit::Refused(refused) => show_refused(text, refused).ok()?,
        Unit::Request(mut request) => {
            let mut room = [0; 64];
            let count = request.body.front(&mut room).ok()?;
            text.extend_from_slice(request.head.method()).ok()?;
            text.extend_from_slice(request.head.path()).ok()?;
            text.push(b' ').ok()?;
            text.extend_from_slice(room.get(..count)?).ok()?;
        }
    }
    text.push(b',').ok()
}

// Without clauses, so that what is said of `Stream::feed` ends here.
fn fed(
    alloc: Global,
    stream: &mut Stream<MemSpill>,
    spills: &mut MemSpills,
    piece: &[u8],
) -> Option<Vec<Unit<MemSpill>>> {
    stream.feed(alloc, 7, piece, spills).ok()
}

// Feeds a piece, and shows what is asked for.
fn feed(
    alloc: Global,
    stream: &mut Stream<MemSpill>,
    spills: &mut MemSpills,
    piece: &[u8],
    text: &mut Vec<u8>,
) -> Option<()> {
    for unit in fed(alloc, stream, spills, piece)? {
        show(text, unit)?;
    }
    Some(())
}

// What is asked for where the input comes in two parts, the second in pieces of this size.
fn asked(
    alloc: Global,
    limits: Limits,
    first: &[u8],
    second: &[u8],
    size: usize,
) -> Option<Vec<u8>> {
    let mut spills = MemSpills::new(alloc, Vec::new(alloc));
    let mut text = Vec::new(alloc);
    let mut stream = Stream::new(
        alloc,
        Limits {
            max_head: limits.max_head.max(1),
            max_body: limits.max_body.max(1),
            inbuf_overflow: limits.inbuf_overflow.max(1),
        },
    );
    feed(alloc, &mut stream, &mut spills, first, &mut text)?;
    for piece in second.chunks(size.max(1)) {
        feed(alloc, &mut stream, &mut spills, piece, &mut text)?;
    }
    if stream.finished() {
        text.push(b'.').ok()?;
    }
    Some(text)
}

fn is_asked(alloc: Global, limits: Limits, parts: (&[u8], &[u8], usize), expected: &[u8]) -> bool {
    match asked(alloc, limits, parts.0, parts.1, parts.2) {
        Some(text) => text.as_slice() == expected,
        None => false,
    }
}

// Whether all cuts give this text.
fn gives(alloc: Global, limits: Limits, input: &[u8], expected: &[u8]) -> bool {
    for cut in 0..=input.len() {
        let (first, second) = input.split_at(cut);
        if !is_asked(alloc, limits, (first, second, input.len()), expected) {
            return false;
        }
        if !is_asked(alloc, limits, (&[], input, cut), expected) {
            return false;
        }
    }
    true
}

#[test]
fn cuts_change_nothing(rt: HostRuntime) {
    for (max_head, max_body, input, expected) in [
        // A head has fewer bytes than its limit.
        (
            64,
            1000,
            &b"GET / HTTP/1.0\r\nX: aaaaaaaaaaaaaaaaaaaaaaaaaaaaaaaaaaaaaaaa\r\n\r\n"[..],
            &b"GET/ ,."[..],
        ),
        (
            64,
            1000,
            &b"GET / HTTP/1.0\r\nX: aaaaaaaaaaaaaaaaaaaaaaaaaaaaaaaaaaaaaaaaa\r\n\r\n"[..],
            &b"HeadTooLarge64 1.0,."[..],
        ),
        // A chunk's size has at most 16 digits, and a coded body fewer bytes than its limit.
        (
            1000,
            1000,
            &b"POST / HTTP/1.1\r\nTransfer-Encoding: chunked\r\n\r\nFFFFFFFFFFFFFFFFF"[..],
            &b"ChunkSize 1.1,."[..],
        ),
        (
            1000,
            1000,
            &b"POST / HTTP/1.1\r\nTransfer-Encoding: chunked\r\n\r\nFFFFFFFFFFFFFFFF\r\n\
            aaaaaaaaaaaaaaaaaaaaaaaaaaaaaaaaaaaaaaaaaaaaaaaaaaaaaaaaaaaaaaaaaaaaaaaaaaaaaaaaaa"[..],
            &b""[..],
        ),
        (
            1000,
            100,
            &b"POST / HTTP/1.1\r\nTransfer-Encoding: chunked\r\n\r\nFFFFFFFFFFFFFFFF\r\n\
            aaaaaaaaaaaaaaaaaaaaaaaaaaaaaaaaaaaaaaaaaaaaaaaaaaaaaaaaaaaaaaaaaaaaaaaaaaaaaaaaa"[..],
            &b""[..],
        ),
        (
            1000,
            100,
            &b"POST / HTTP/1.1\r\nTransfer-Encoding: chunked\r\n\r\nFFFFFFFFFFFFFFFF\r\n\
            aaaaaaaaaaaaaaaaaaaaaaaaaaaaaaaaaaaaaaaaaaaaaaaaaaaaaaaaaaaaaaaaaaaaaaaaaaaaaaaaaa"[..],
            &b"BodyTooLarge100 1.1,."[..],
        ),
        (
            1000,
            1000,
            &b"HEAD / HTTP/1.1\r\nTransfer-Encoding: chunked\r\n\r\n1\r\na\r\n0\r\n:\r\n\r\n"[..],
            &b"HEAD/ a,"[..],
        ),
        (
            1000,
            1000,
            &b"HEAD / HTTP/1.1\r\nTransfer-Encoding: chunked\r\n\r\ng"[..],
            &b"ChunkSize 1.1 bodyless,."[..],
        ),
        // Empty lines, a body that is asked for, no body, a coded one, and nothing behind a
        // refusal.
        (
            1000,
            1000,
            &b"\r\n\r\nPOST /f HTTP/1.1\r\nExpect: 100-continue\r\nContent-Length: 003\r\n\r\n\
              abcGET /n HTTP/1.1\r\n\r\n\r\nPUT /c HTTP/1.1\r\n\
              Transfer-Encoding: chunked\r\n\r\n2\r\nxy\r\n1\r\nz\r\n0\r\n\r\nbad\r\n\r\n\
              GET / HTTP/1.1\r\n\r\n"[..],
            &b"continue,POST/f abc,GET/n ,PUT/c xyz,RequestLine 1.0,."[..],
        ),
        // Both fields: the connection closes behind the request. A length that is none.
        (
            1000,
            1000,
            &b"POST / HTTP/1.1\r\nContent-Length: 3\r\nTransfer-Encoding: chunked\r\n\r\n5\r\n\
              hello\r\n0\r\n\r\nGET / HTTP/1.1\r\n\r\n"[..],
            &b"POST/ hello,."[..],
        ),
        (
            1000,
            1000,
            &b"POST / HTTP/1.1\r\nContent-Length: 5, 5\r\n\r\nhelloGET / HTTP/1.1\r\n\r\n"[..],
            &b"Length 1.1,."[..],
        ),
        // A part of a body, and lines that no CR ends.
        (
            1000,
            1000,
            &b"POST / HTTP/1.1\r\nExpect: 100-continue\r\nContent-Length: 5\r\n\r\nhell"[..],
            &b"continue,"[..],
        ),
        (1000, 1000, &b"GET / HTTP/1.1\nHost: a\n\n"[..], &b""[..]),
    ] {
        let limits = Limits {
            max_head,
            max_body,
            inbuf_overflow: 1000,
        };
        assert!(rt; gives(rt.alloc(), limits, input, expected));
    }
}
