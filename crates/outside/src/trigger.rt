//! What ends the waiting of a poll.

/// Wakes a poll, from any thread.
pub trait Trigger: Sync {
    /// Makes a poll that waits answer soon. One that got lost costs that poll a second at most.
    fn pull(&self);
}
