//! Folding a location loses nothing: what is certified before is certified after.
//!
//! The crate has no function that computes: it is laws over the definitions of families and of
//! certificates, and nothing else reads it.
//!
//! - `Folds`: a system, a family and a pair with one location folded, and pairs folded whole;
//! - `Laws`: what is kept, each the contract of a function of [`laws`].
#![tactic(auto)]

pub mod laws;
