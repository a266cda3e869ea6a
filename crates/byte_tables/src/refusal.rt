//! Why a request is refused, and with which status code.
ghost use Rattle.std.specs.Prelude.{◌≡◌};

/// Why a request is refused. A `u64` is the limit that was passed, in bytes.
#[derive(Clone, Copy, Debug, PartialEq, Eq)]
pub enum Refusal {
    RequestLine,
    Method,
    Version,
    Target,
    FieldLine,
    FieldValue,
    /// A Transfer-Encoding field in a request of version 1.0 (RFC 9112, section 6.1).
    CodingOnOld,
    /// A transfer coding other than chunked (RFC 9112, section 6.1).
    CodingUnknown,
    /// The Content-Length field (RFC 9110, section 8.6).
    Length,
    BodyTooLarge(u64),
    HeadTooLarge(u64),
    ChunkSize,
    ChunkExtension,
    ChunkLineEnd,
    ChunkLineLong,
    /// What stands behind a chunk's data is not CR LF (RFC 9112, section 7.1).
    ChunkEnd,
    TrailerTooLarge(u64),
}

impl Refusal {
    ghost use Rattle.byte_tables.specs.Refusals.{code_of};

    /// The status code of its response (RFC 9110, section 15).
    pub fn code(&self) -> u16
        ensures { result ≡ code_of self.now }
    {
        match self {
            Refusal::BodyTooLarge(_) => 413,
            Refusal::HeadTooLarge(_) | Refusal::TrailerTooLarge(_) => 431,
            Refusal::CodingUnknown => 501,
            _ => 400,
        }
    }
}
