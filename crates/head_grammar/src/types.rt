//! What a request head is made of, and the verdict on one.
use crate::Head;
use byte_tables::Refusal;
use outside::Bytes;

/// The version by which a request is served: `New` is 1.1, and `Old` is every other.
#[derive(Clone, Copy, Debug, PartialEq, Eq)]
pub enum Version {
    Old,
    New,
}

/// A field line.
#[derive(Debug, Drop)]
pub struct Field {
    pub name: Bytes,
    pub value: Bytes,
}

/// How the length of a body is known (RFC 9112, section 6.3).
#[derive(Clone, Copy, Debug, PartialEq, Eq)]
pub enum Framing {
    Empty,
    Fixed(u64),
    Chunked,
}

/// The verdict on a whole head.
#[derive(Debug, Drop)]
pub enum Parsed {
    /// Nothing but empty lines.
    Blank,
    Good(Head),
    /// The response has the version, and no body where it is bodyless.
    Bad {
        refusal: Refusal,
        version: Version,
        bodyless: bool,
    },
}
