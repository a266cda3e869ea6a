//! Writes the response to a request from the steps of its application (PEP 3333), and the answers
//! of the server itself.
//!
//! `answer` says what is sent in answer to a whole script. A task is given the script step by step,
//! and writes what is settled so far; what it still has, whatever steps follow, is `remaining`. It
//! is in one of these states:
//!
//! 1. `Opening(None)`: nothing is written, and there was no Start.
//! 2. `Opening(Some(given))`: nothing is written, and this Start is in force. What it gives is
//!    valid.
//! 3. `Sending(layout)`: the head is written, and so is the body so far. The layout says how the
//!    body's end is told, and how much of a known length is left.
//! 4. `Ended`: no step is taken any more.
//!
//! The head is written with the first byte of the body, or at the script's end. What an application
//! may do in which state (PEP 3333):
//!
//! | what is done | 1 | 2 | 3 | where it stands |
//! |---|---|---|---|---|
//! | `start_response` | 2 | fails | fails | `start`, `send` |
//! | the same with `exc_info` | 2 | 2 | fails | `is_second`, `send` |
//! | a byte string without bytes | 1 | 2 | 3 | `fill`, `pass_chunk` |
//! | a byte string with bytes | fails | 3 | 3 | `fill`, `begin`, `Layout::pass` |
//! | an exception | fails | fails | fails | `open`, `send` |
//! | the end of the iterable | fails | 4 | 4 | `close`, `finish`, `end` |
//!
//! A `start_response` that isn't valid (`Given::new`) fails too. A failure leads to 4, and the
//! connection closes: before the head the server answers with 500 (`fail`), and behind it the text
//! is cut where it stands (`cut`).
//!
//! How the end of the body is told (RFC 9112, section 6.3), rule by rule:
//!
//! | rule | what it says | where it stands |
//! |---|---|---|
//! | 1 | HEAD, 204 and 304 have no body; of 1xx there is no Start | `Layout::new`; `is_status` |
//! | 2 | CONNECT makes a tunnel: none here, it is answered as any other | |
//! | 3, 4 | a coding is the server's own: chunked, and no length | `is_allowed`; `framing_line` |
//! | 5 | a Start with a length that is no number isn't valid | `declared` |
//! | 6 | a length counts the body's bytes; a shorter one closes | `pass_known`; `is_unfinished` |
//! | 7 | of requests alone | |
//! | 8 | with neither, the connection's end tells: for version 1.0 | `Layout::new` |
//!
//! A length that isn't declared is told where it is known: that of the only byte string
//! (`length_told`), or 0 (`length_at_end`).
#![tactic(auto)]

#[cfg(test)]
mod error_tests;
mod errors;
mod heads;
mod laws;
mod layout;
mod lines;
mod opening;
#[cfg(test)]
mod script_tests;
mod sending;
mod starts;
mod task;

pub use errors::{error_answer, proxy_answer};
pub use laws::{continue_has_no_fields, scripts_are_answered};
pub use task::{Task, Wrote};

/// The answer to a request that expects one before it sends its body (RFC 9110, section 15.2.1).
pub const CONTINUE: [u8; 25] = *b"HTTP/1.1 100 Continue\r\n\r\n";
