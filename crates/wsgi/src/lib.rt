//! What a WSGI application is given, and what it gives (PEP 3333).
#![tactic(auto)]

mod app;
mod of_fields;
mod of_request;
#[cfg(test)]
mod shown;
mod site;
mod step;
#[cfg(test)]
mod tests;
mod variables;

pub use app::{App, AppRun};
pub use of_request::environ;
pub use pair_list::Pairs;
pub use site::Site;
pub use step::{RunFault, Step};
pub use variables::Environ;
