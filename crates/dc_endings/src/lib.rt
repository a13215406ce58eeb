//! Each analysis ends: what it makes is there, so it answers with a certificate or with its first
//! refusal.
//!
//! The crate has no function that computes: it is laws over the definitions of an analysis and of
//! the checker. Each law of `specs/Laws` is the contract of a function of [`laws`].
#![tactic(auto)]

pub mod laws;
