//! A WSGI server over whatever outside it is given.
#![tactic(auto)]

mod conclusion;
mod laws;
mod made;
mod printing;
mod service;
mod serving;
mod settling;
mod starting;
mod texts;
mod top;

pub use laws::output_grows;
pub use made::Unmade;
pub use printing::check;
pub use top::run;
