//! A rehearsal: connections in memory that all come at once, and what is told of them once they
//! were served.
#![tactic(auto)]

mod plan;
mod requests;
mod sums;
#[cfg(test)]
mod tests;
mod text;

pub use plan::rehearsal;
pub use sums::{Sums, sums_of};
pub use text::summary;
