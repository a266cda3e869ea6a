//! The outside of the server: links, nets, spills, trees, sinks and triggers as traits, and a kind
//! of each in memory.
//!
//! The kinds in memory do what their plans say, and tell all that they hold. They serve tests and
//! rehearsals.
#![tactic(auto)]

mod answers;
mod bytes;
mod fails;
mod items;
mod kinds;
mod laws;
mod link;
mod mem_entry;
mod mem_link;
mod mem_net;
mod mem_sink;
mod mem_spills;
mod mem_tree;
mod mem_trigger;
mod net;
mod noted;
mod plans;
mod retired;
mod sink;
mod spill;
mod tree;
mod trigger;
mod types;

pub use answers::{Answers, answer_all};
pub use bytes::Bytes;
pub use items::Items;
pub use laws::{mem_link_tells, mem_net_tells, mem_sink_tells, mem_spill_tells, mem_tree_tells};
pub use link::Link;
pub use mem_entry::MemEntry;
pub use mem_link::MemLink;
pub use mem_net::MemNet;
pub use mem_sink::MemSink;
pub use mem_spills::{MemSpill, MemSpills};
pub use mem_tree::MemTree;
pub use mem_trigger::MemTrigger;
pub use net::Net;
pub use noted::{Noted, Notes, note};
pub use plans::{Comer, LinkPlan, NetPlan};
pub use retired::Retired;
pub use sink::Sink;
pub use spill::{Spill, Spills};
pub use tree::{Tree, TreeEntry};
pub use trigger::Trigger;
pub use types::{End, Failed, Kind, Listen, NetFault, NoMemory, Peer, Recv, Sent, Turn, Want};
