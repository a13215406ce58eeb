//! Replay of a run of a procedure from a trace, which tells its input and its choices.
//!
//! `specs/Replay` says what a turn does, `specs/Ends` how a replay ends.
#![tactic(auto)]

mod evaluate;
pub mod laws;
mod run;
mod walk;

pub use dc_tracetext::{Trace, TraceTextFault, TraceWriteFault, read_trace, write_trace};
pub use run::{TraceFault, replay};
