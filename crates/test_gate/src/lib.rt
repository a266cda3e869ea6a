//! Two gates for tests: over a list of numbers, which the left end adds and the right end takes,
//! and over a record of which ends have had a turn.
#![tactic(auto)]

mod pact;
#[cfg(test)]
mod tests;
mod threads;
mod turns;
mod visits;

pub use pact::{Added, Numbers, Row, Taken};
pub use threads::{across, add_all, take_often};
pub use turns::{add, take_all};
pub use visits::{Visited, Visits, visit_left, visit_meanwhile, visit_right};
