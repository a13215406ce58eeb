//! Words and texts have an answer, and a generated pair is never wrong.
//!
//! The crate has no function that computes: it is laws over the definitions of the answers. With
//! the laws that words name one list of files at most, and words and texts have one answer at most,
//! there is exactly one of each. Each law of `specs/Laws` is the contract of a function of
//! [`laws`].
#![tactic(auto)]

pub mod laws;
