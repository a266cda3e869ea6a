//! Where a request head ends, and what it says (RFC 9112, sections 2.2, 3, 5, 6 and 9.3).
#![tactic(auto)]

mod classes;
mod ends;
mod field_lines;
mod field_list;
mod fields;
mod framing;
mod head;
mod laws;
mod lines;
mod request_line;
mod splits;
mod targets;
mod types;
mod verdict;
mod whole_line;

pub use byte_tables::Refusal;
pub use classes::{are_field_bytes, trim};
pub use ends::head_end;
pub use field_lines::is_name;
pub use field_list::FieldList;
pub use fields::Fields;
pub use head::Head;
pub use laws::one_end;
pub use types::{Field, Framing, Parsed, Version};
pub use verdict::read_head;
