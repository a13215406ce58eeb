//! What the program answers: which output words and texts have, or which refusal with its line, and
//! what an output means.
//!
//! The crate has no function that computes: it is the type of refusals, definitions and laws.
//!
//! - `Statuses`, `Lines`: the status of each end, and the line of each refusal;
//! - `Sources`: what the texts of two versions and of a condition say, or what is wrong with them
//!   first;
//! - `Ends`: the one answer of words and texts;
//! - `Outside`: what a call sees of its store and its sinks;
//! - `Headline`: what an output means for the runs of both versions;
//! - `Promise`: what a call of the program is promised to do, in reading order;
//! - `Laws`: that there is one answer, and that an output means what the headline says, each the
//!   contract of a function of [`laws`].
#![tactic(auto)]

pub mod laws;
mod refusal;

pub use refusal::{Refusal, Text, Wrong};
