//! The decoder of bodies in the chunked transfer coding (RFC 9112, section 7.1), which come in any
//! pieces.
//!
//! A coded body is any number of chunks, each with its size in hex in front of its data; then the
//! line of a chunk of size 0; then a trailer section, which ends with an empty line. The reader is
//! a machine whose one place says where the next byte stands:
//!
//! 1. In the line of a chunk: `LineStart`, `Digits` (of the size, at most 16), `Blanks` (white
//!    space in front of `;`), `Extension` (section 7.1.1, dropped), `LineCr`. An LF alone ends no
//!    line.
//! 2. `Data`: so many bytes of data are missing. These alone are given.
//! 3. `DataEnd` and `DataCr`: the CR LF behind the data.
//! 4. `Trailer` (section 7.1.2, dropped): how much of CR LF CR LF stands in front. The line of
//!    size 0 is the first CR LF, so that a trailer section may be empty.
//! 5. `Over`: the body is whole. `Refused`: a byte is no part of one. Both last.
//!
//! Each byte may reach a limit: that of the body goes before all else, that of the trailer section
//! before a wrong byte, and a wrong byte before that of a line (1,024 bytes).
//!
//! What stands at the front of some bytes is said twice: by the grammar alone (specs/Coded and
//! Verdicts), and as the machine finds it (specs/Reading and Bodies). `one_front` says that both
//! are the same. Of its proofs, Arriving, Complete and Reached lead from the grammar to places,
//! Standing and Forward from places to the grammar.
#![tactic(auto)]

mod bytes;
mod chunks;
mod laws;
mod place;
mod steps;
#[cfg(test)]
mod tests;

pub use chunks::{Chunks, Fed};
pub use laws::{one_answer, one_body, one_front, two_cases};
