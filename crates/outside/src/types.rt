//! What the traits of the outside take and give.
use crate::Bytes;

/// Memory was refused.
#[derive(Clone, Copy, Debug, PartialEq, Eq)]
pub struct NoMemory;

/// The outside failed, and the object that was called has counted it.
#[derive(Clone, Copy, Debug, PartialEq, Eq)]
pub struct Failed;

/// What a `recv` gave.
#[derive(Clone, Copy, Debug, PartialEq, Eq)]
pub enum Recv {
    /// So many bytes stand at the front of the buffer.
    Got(usize),
    /// Nothing has come yet.
    NotYet,
    /// Nothing more will come.
    End,
    Failed,
}

/// What a `send` took.
#[derive(Clone, Copy, Debug, PartialEq, Eq)]
pub enum Sent {
    /// So many bytes from the front of what was offered.
    Took(usize),
    /// Nothing can be taken yet.
    NotYet,
    Failed,
}

/// An address to listen at.
#[derive(Debug, Drop)]
pub struct Listen {
    /// A name or a number, as it is written.
    pub host: Bytes,
    pub port: u16,
}

/// The other end of a link.
#[derive(Debug, Drop)]
pub struct Peer {
    /// Its address, as it is written.
    pub addr: Bytes,
    pub port: u16,
    /// The port of this end, at which it came in.
    pub local_port: u16,
}

/// What a poll is asked about a link, and what it answers.
#[derive(Clone, Copy, Debug, PartialEq, Eq)]
pub struct Want {
    /// The number of the link.
    pub key: u32,
    /// Asked: whether it is to be read, and written.
    pub read: bool,
    pub write: bool,
    /// Answered: whether it may be read, and written. A link may put off the call all the same.
    pub may_read: bool,
    pub may_write: bool,
}

/// What a poll found.
#[derive(Clone, Copy, Debug, PartialEq, Eq)]
pub struct Turn {
    /// The moment, in seconds since 1970.
    pub now: u64,
    /// Serving is to end.
    pub stop: bool,
    /// Somebody may be waiting to be accepted.
    pub come: bool,
}

/// Why `accept` gives no answer.
#[derive(Clone, Copy, Debug, PartialEq, Eq)]
pub enum NetFault {
    Failed,
    NoMemory,
}

/// Why a link was retired.
#[derive(Clone, Copy, Debug, PartialEq, Eq)]
pub enum End {
    /// All that is owed was sent.
    Done,
    /// The link failed.
    LinkFault,
    /// A temporary store of this connection failed.
    SpillFault,
    /// The application failed.
    AppFault,
    NoMemory,
    /// Nothing came or was taken between these two moments.
    TimedOut { touched: u64, now: u64 },
    /// Serving ended while it was open.
    ShutDown,
}

/// The kinds of proxy headers: `Forwarded` (RFC 7239), and those of the `X-Forwarded-` family.
#[derive(Clone, Copy, Debug, PartialEq, Eq)]
pub enum Kind {
    Forwarded,
    For,
    Host,
    Proto,
    Port,
    By,
}
