//! Tables of bytes and of names: the classes of bytes that messages are made of, rows that are
//! found by name, and the refusals with their status codes. No call takes memory.
#![tactic(auto)]

mod cases;
mod classes;
mod numbers;
mod refusal;
mod rows;
#[cfg(test)]
mod tests;

pub use cases::Case;
pub use classes::{
    DIGIT, FIELD, HEX, TARGET, TOKEN, class_of, is_digit, is_field, is_hex, is_target, is_token,
    is_white_space,
};
pub use numbers::{is_number, number_of};
pub use refusal::Refusal;
pub use rows::{find, find_folded, has};
