//! Many connections on one thread.
#![tactic(auto)]

mod accepting;
mod attending;
mod connections;
mod retiring;
mod seat;
mod server;
mod serving;
mod settings;
mod turning;

pub use server::Server;
pub use settings::{Going, ServeFault, Settings};
