//! One connection: what it asks for, and the answers that wait to be sent.
#![tactic(auto)]

mod acts;
mod answering;
mod draining;
mod far;
mod functions;
mod lane;
mod laws;
mod near;
mod noting;
mod pact;
mod reading;
mod shared;
mod sides;
mod types;
mod writing;

pub use acts::{LeftAct, RightAct};
pub use lane::{Lane, ROOM, open_lane};
pub use laws::responses_grow;
pub use noting::{LeftEntry, RightEntry};
pub use pact::ChannelPact;
pub use shared::{Fixed, Shared};
pub use sides::Acts;
pub use types::{Acted, Cause, Closed, Progress, Window};
