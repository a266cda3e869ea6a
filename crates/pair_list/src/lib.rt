//! Pairs of a name and a value in one text.
#![tactic(auto)]

mod letters;
mod list;
mod pairs;
mod text;

pub use letters::Letters;
pub use list::PairList;
pub use pairs::Pairs;
