//! What an analysis is: the problems that it asks, in order, its first refusal, and the certificate
//! that the outcomes give.
//!
//! The crate has no function that computes: it is definitions, laws over them, and the type of
//! refusals.
//!
//! - `Session`: everything that the definitions determine of an analysis, and its problems as one
//!   list of sites and problems;
//! - `Refusals`: the counts, and which step is refused first;
//! - `Made`: the certificate as a function of the outcomes;
//! - `Answers`: what an analysis answers;
//! - `Laws`: that each of these is there and is one, each law the contract of a function of [`laws`].
#![tactic(auto)]

mod fault;
pub mod laws;

pub use fault::{AnalyseFault, PastAt};
