//! The options of the server, and what the words of a command line ask for.
#![tactic(auto)]

mod addresses;
mod classes;
mod command;
mod definition;
mod faults;
mod given;
mod kinds;
mod laws;
mod options;
mod parts;
mod shown;
mod texts;
mod types;
mod values;

pub use command::read;
pub use laws::ranges_are_kept;
pub use shown::{check_text, push_listen};
pub use texts::{fault_text, help_text};
pub use types::{Adjustments, AppName, Command, UsageFault};
