//! What an analysis makes, the checker accepts, but for sums that don't fit 128 bits.
//!
//! The crate has no function that computes: it is laws over the definitions of an analysis and of
//! the checker. Each law of `specs/Laws` is the contract of a function of [`laws`].
#![tactic(auto)]

pub mod laws;
