//! Serves a rehearsal, and prints what came of it.
#![tactic(auto)]

mod laws;
mod looking;
mod printing;
mod serving;

pub use laws::{
    inputs_close, numbers_fall, numbers_within, plans_are_even, turns_fall, turns_flow,
};
pub use serving::rehearse;
