//! The text of a trace, both ways.
//!
//! A trace says how one run of a procedure goes: its input, and the choices that it makes. Its text
//! has three lines.
#![tactic(auto)]

mod from_text;
pub mod laws;
mod stage;
mod to_text;
mod trace;

pub use from_text::{TraceTextFault, read_trace};
pub use to_text::{TraceWriteFault, write_trace};
pub use trace::Trace;
