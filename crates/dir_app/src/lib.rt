//! The application that answers with the files below a folder.
#![tactic(auto)]

mod directory;
mod file_steps;
mod laws;
mod media;
mod names;
mod request;
mod run;
mod text_steps;

pub use directory::DirApp;
pub use laws::names_lead_down;
pub use run::DirRun;
