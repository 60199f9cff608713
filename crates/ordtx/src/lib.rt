//! Running documents from a source to a sink: the document is read, and its report is written.
#![tactic(auto)]

mod carrying;
mod io;
pub mod laws;
mod location;
mod streams;
mod texts;

pub use carrying::Uncarried;
pub use command_line::{Command, Line, Refused, line};
pub use devices::{Failed, Marked, Sink, Source};
pub use faults::{Code, Fault, Wrong};
pub use location::Located;
pub use plan::Plan;
pub use speculate::{Gate, NoGate, Progress, Run};
pub use streams::{
    audit_stream, carry_into_stream, carry_stream, check_at_once_stream, check_stream,
    explain_audit_stream, explain_stream, locate_stream, run_stream, serial_at_once_stream,
    serial_stream,
};
