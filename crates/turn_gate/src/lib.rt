//! A state behind a gate of two ends, of which one at a time has the turn.
#![tactic(auto)]

mod board;
mod law;
mod left_end;
mod opening;
mod pact;
mod plays;
mod right_end;
mod turn;

pub use law::keeps_rule;
pub use left_end::Left;
pub use opening::open;
pub use pact::Pact;
pub use right_end::Right;
pub use turn::Turn;
