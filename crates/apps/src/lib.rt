//! The applications that need nothing of the outside: the echo of a request's body, and a table of
//! responses that a file declares in TOML.
#![tactic(auto)]

mod answers;
mod document;
mod echo;
mod fault;
mod reading;
mod row;
mod row_table;
mod shared_row;
mod table;
mod values;

pub use answers::{PIECE_SIZE, field, length_field, not_found_step, text_step, variable};
pub use echo::{Echo, EchoRun};
pub use fault::TableFault;
pub use table::{TableApp, TableRun};
