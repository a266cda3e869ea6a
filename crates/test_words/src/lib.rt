//! Words of command lines and the answers to them: rows that were worked out by hand.
#![tactic(auto)]

#[cfg(test)]
mod rows;
