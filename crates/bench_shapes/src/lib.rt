//! The shapes of requests that are measured, and what a measuring program is asked for and prints.
#![tactic(auto)]

mod jobs;
mod report;
mod shapes;

pub use jobs::{Job, asked};
pub use report::{print, put};
pub use shapes::Shape;
