//! A trigger in memory.
use crate::Trigger;

/// A trigger that wakes nobody: the polls of a net in memory never wait.
#[derive(Clone, Copy, Debug)]
pub struct MemTrigger;

impl MemTrigger {
    /// A trigger.
    pub fn new() -> MemTrigger {
        MemTrigger
    }
}

impl Trigger for MemTrigger {
    fn pull(&self) {}
}
