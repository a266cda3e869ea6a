//! What is left of a link once it is closed.
use crate::{End, Peer};

/// A link that was retired, whose it was and why it ended.
#[derive(Debug, Drop)]
pub struct Retired<L> {
    pub peer: Peer,
    pub link: L,
    pub end: End,
}
