//! The shapes of requests that are measured.
use itoa::Buffer;
use std::alloc::{AllocError, Global};

/// What one request looks like.
#[derive(Clone, Copy, Debug)]
pub enum Shape {
    /// A GET of 56 bytes.
    Small,
    /// A GET with a head of twelve fields.
    Twelve,
    /// A GET with a head of so many fields.
    Fields(u32),
    /// A body of so many bytes, by its length.
    Fixed(usize),
    /// About a million bytes in so many chunks of a size, which is written in hexadecimal digits.
    Chunked {
        chunks: u32,
        size: usize,
        digits: &'static str,
    },
}

/// Each shape with the word that names it.
pub(crate) const SHAPES: [(&str, Shape); 10] = [
    ("small", Shape::Small),
    ("twelve", Shape::Twelve),
    ("browser", Shape::Fields(40)),
    ("fields-100", Shape::Fields(100)),
    ("fields-400", Shape::Fields(400)),
    ("fixed-64k", Shape::Fixed(65_536)),
    ("fixed", Shape::Fixed(1_000_000)),
    (
        "chunks-1",
        Shape::Chunked {
            chunks: 1_000_000,
            size: 1,
            digits: "1",
        },
    ),
    (
        "chunks-100",
        Shape::Chunked {
            chunks: 10_000,
            size: 100,
            digits: "64",
        },
    ),
    (
        "chunks-8192",
        Shape::Chunked {
            chunks: 122,
            size: 8192,
            digits: "2000",
        },
    ),
];

const SMALL: &[u8] = b"GET /ab HTTP/1.1\r\nHost: www.example.org\r\nAccept: */*\r\n\r\n";

const TWELVE: [&str; 12] = [
    "Host: localhost:8080",
    "User-Agent: Mozilla/5.0",
    "Accept: text/html",
    "Accept-Language: en",
    "Accept-Encoding: gzip, deflate, br",
    "Connection: keep-alive",
    "Cookie: a=1; b=2",
    "Cache-Control: max-age=0",
    "Upgrade-Insecure-Requests: 1",
    "Sec-Fetch-Mode: navigate",
    "X_Trace: 7",
    "DNT: 1",
];

const FIXED: &[u8] = b"POST / HTTP/1.1\r\nHost: a\r\nContent-Length: ";

const CHUNKED: &[u8] = b"POST / HTTP/1.1\r\nHost: a\r\nTransfer-Encoding: chunked\r\n\r\n";

fn fields(alloc: Global, count: u32) -> Result<Vec<u8>, AllocError> {
    let mut text = Vec::from_slice(
        alloc,
        b"GET /index.html?a=1&b=2 HTTP/1.1\r\nHost: www.example.org\r\n",
    )?;
    for number in 1..count {
        text.extend_from_slice(b"X-Field-")?;
        text.extend_from_slice(Buffer::new().format(number).as_bytes())?;
        text.extend_from_slice(b": text/html,application/xml;q=0.9\r\n")?;
    }
    text.extend_from_slice(b"\r\n")?;
    Ok(text)
}

fn twelve(alloc: Global) -> Result<Vec<u8>, AllocError> {
    let mut text = Vec::from_slice(alloc, b"GET / HTTP/1.1\r\n")?;
    for line in TWELVE {
        text.extend_from_slice(line.as_bytes())?;
        text.extend_from_slice(b"\r\n")?;
    }
    text.extend_from_slice(b"\r\n")?;
    Ok(text)
}

fn fixed(alloc: Global, size: usize) -> Result<Vec<u8>, AllocError> {
    let mut text = Vec::from_slice(alloc, FIXED)?;
    text.extend_from_slice(Buffer::new().format(size).as_bytes())?;
    text.extend_from_slice(b"\r\n\r\n")?;
    text.extend_from_slice(&vec![in alloc; b'a'; size]?)?;
    Ok(text)
}

fn chunked(alloc: Global, chunks: u32, size: usize, digits: &str) -> Result<Vec<u8>, AllocError> {
    let data = vec![in alloc; b'a'; size]?;
    let mut text = Vec::from_slice(alloc, CHUNKED)?;
    for _ in 0..chunks {
        text.extend_from_slice(digits.as_bytes())?;
        text.extend_from_slice(b"\r\n")?;
        text.extend_from_slice(&data)?;
        text.extend_from_slice(b"\r\n")?;
    }
    text.extend_from_slice(b"0\r\n\r\n")?;
    Ok(text)
}

impl Shape {
    /// One request of this shape, which keeps the connection open.
    pub fn request(self, alloc: Global) -> Result<Vec<u8>, AllocError> {
        match self {
            Shape::Small => Vec::from_slice(alloc, SMALL),
            Shape::Twelve => twelve(alloc),
            Shape::Fields(count) => fields(alloc, count),
            Shape::Fixed(size) => fixed(alloc, size),
            Shape::Chunked {
                chunks,
                size,
                digits,
            } => chunked(alloc, chunks, size, digits),
        }
    }
}
