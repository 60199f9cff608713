//! Reports: the text of what running a batch returned. They have a line for each step that was
//! taken, under the path of its place, and a line for each object.
#![tactic(auto)]

mod answer;
mod calls;
mod cuts;
mod lines;
mod names;
mod parts;
mod paths;
mod values;

pub use answer::{render, render_audit, render_check, render_plain};
pub use batch::{Batch, Outcome, Plain};
pub use calls::{write_call, write_reply};
pub use names::{item_name, object_name, reason_name};
pub use parts::{render_audit_parts, render_parts, render_plain_parts};
pub use paths::{branch_path, handler_place, part_path, reason_of};
pub use serial::NoMemory;
