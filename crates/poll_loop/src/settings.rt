//! What a server goes by, and how serving ends.
use channel::Window;
use request_stream::Limits;
use wsgi::Site;

/// What a server goes by.
#[derive(Debug, Drop)]
pub struct Settings {
    pub limits: Limits,
    pub window: Window,
    pub site: Site,
    /// So many connections may be open at once.
    pub connection_limit: u64,
    /// In seconds, how long it is from one idle check to the next.
    pub cleanup_interval: u64,
    /// So many connections are served at all.
    pub serve_limit: Option<u64>,
}

/// How a turn ended.
#[derive(Clone, Copy, Debug, PartialEq, Eq)]
pub enum Going {
    /// Serving goes on.
    On,
    /// A poll told to stop.
    Stopped,
    /// So many connections were accepted and retired as are to be served.
    LimitMet,
}

/// Why serving can't go on.
#[derive(Clone, Copy, Debug, PartialEq, Eq)]
pub enum ServeFault {
    /// A poll or an accept failed.
    Net,
    NoMemory,
}
