//! What a command line asks for, and what is wrong with it.
use outside::{Bytes, Items, Kind, Listen};
use thiserror::Error;

/// How the server is adjusted: what the options say, or their defaults.
#[derive(Debug, Drop)]
pub struct Adjustments {
    /// Where to listen, with `port`, unless `listen` has entries. An address of version 6 stands
    /// here without its brackets, and so in `listen`.
    pub host: Bytes,
    pub port: u64,
    pub listen: Items<Listen>,
    /// How many threads run the application, or 0 for the one that polls.
    pub threads: u64,
    /// The address of the proxy whose headers are trusted, or `*` for any.
    pub trusted_proxy: Option<Bytes>,
    /// How many proxies add to the headers.
    pub trusted_proxy_count: u64,
    /// The kinds of headers that are trusted, in the order of `Kind`, each once.
    pub trusted_proxy_headers: Items<Kind>,
    pub clear_untrusted_proxy_headers: bool,
    pub url_scheme: Bytes,
    /// Empty, or a slash and a path that does not end with one.
    pub url_prefix: Bytes,
    pub server_name: Bytes,
    pub ident: Bytes,
    pub backlog: u64,
    /// In bytes, as the four behind it.
    pub recv_bytes: u64,
    pub inbuf_overflow: u64,
    pub outbuf_overflow: u64,
    pub outbuf_high_watermark: u64,
    pub connection_limit: u64,
    /// In seconds, as the one behind it.
    pub cleanup_interval: u64,
    pub channel_timeout: u64,
    /// In bytes, as the one behind it.
    pub max_request_header_size: u64,
    pub max_request_body_size: u64,
    pub channel_request_lookahead: u64,
    /// After how many connections serving ends.
    pub serve_limit: Option<u64>,
}

/// An application, by its name on the command line.
#[derive(Debug, Drop)]
pub enum AppName {
    Echo,
    /// The file of a table.
    Table(Bytes),
    /// The root of a directory.
    Dir(Bytes),
}

/// What a command line asks for.
#[derive(Debug, Drop)]
pub enum Command {
    Serve(Adjustments, AppName),
    /// To print the options.
    Check(Adjustments),
    /// To serve so many connections in memory.
    Rehearse(u32),
    Help,
}

/// What is wrong with a command line. An option stands as the place of its row, from 0.
#[derive(Debug, Drop, Error)]
pub enum UsageFault {
    #[error("the words could not be read")]
    Words,
    #[error("option {0} has a bad value")]
    BadValue(usize),
    #[error("option {0} needs a whole number")]
    BadNumber(usize),
    #[error("option {0} is out of its range")]
    OutOfRange(usize),
    /// The number of an entry, from 1.
    #[error("entry {0} is not host:port")]
    BadListen(usize),
    #[error("option {0} is given both ways")]
    BothWays(usize),
    #[error("option {0} needs a trusted proxy")]
    ProxyAlone(usize),
    #[error("no application is named")]
    NoApplication,
    #[error("unknown application")]
    BadApplication,
    #[error("wrong number of operands")]
    Operands,
    #[error("out of memory")]
    NoMemory,
}
