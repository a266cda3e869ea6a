//! What a connection asks for, from its bytes in any pieces (RFC 9112, sections 2, 6.3 and 9.3).
//!
//! The bytes of a connection are requests, one behind the other. At the front of them stands a
//! head, or a part of one; behind a head stands its body; behind the body the next head begins. So
//! `front` says what stands at the front of any bytes, and `units` is the front's units and then
//! those of the bytes behind it. A stream holds no more than the unit under way: it is in one of
//! these states, and the bytes since the last whole unit are an input of their own.
//!
//! 1. `Seeking`: a part of a head, without its end, shorter than the limit. No byte of it is
//!    searched twice.
//! 2. `Filling`: a head, and a part of a body of known length.
//! 3. `Decoding`: a head, and a part of a body in the chunked coding.
//! 4. `Over`: behind a refusal or a request that closes. Nothing more is read (section 9.3).
//! 5. `Failed`: behind a fault of this machine. What was asked for can't be known any more.
//!
//! How long a body is (section 6.3), rule by rule:
//!
//! | rule | what it says | where it stands |
//! |---|---|---|
//! | 1, 2 | of responses alone | |
//! | 3 | a transfer coding goes before a length; such a request closes | `framing`, `closes` |
//! | 4 | chunked is read to its last chunk; another coding is refused | `decode`; `framing` |
//! | 5 | a length that is no number is refused | `framing` |
//! | 6 | a length counts the body's bytes | `fill` |
//! | 7 | with neither, there is no body | `begin` |
//! | 8 | of responses alone | |
//!
//! `framing` and `closes` are head_grammar's; `fill`, `decode` and `begin` are of this crate. A
//! body that its sender breaks off is in no unit: it stays a part (section 8).
//!
//! In the proofs two inputs *go on alike* where any further bytes ask for the same behind both. A
//! state stands for the shortest input that goes on as all bytes so far: the bytes since the last
//! whole unit. A step shows that what it gave is what its bytes add there, and so behind them all.
#![tactic(auto)]

mod bodies;
mod heads;
mod laws;
mod runs;
mod state;
mod stream;
#[cfg(test)]
mod tests;
mod types;
mod whole;

pub use laws::{units_follow, units_grow};
pub use stream::Stream;
pub use types::{Limits, Refused, Request, StreamFault, Unit};
