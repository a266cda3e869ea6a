//! A buffer of bytes that keeps fewer than so many in memory, and more in a spill.
#![tactic(auto)]

mod buffer;
mod fault;
mod room;
#[cfg(test)]
mod tests;

pub use buffer::OverflowBuffer;
pub use fault::BufferFault;
