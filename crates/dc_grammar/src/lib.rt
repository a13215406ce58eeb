//! Grammars as data, the grammar of the language, and readers that look one token ahead.
//!
//! The functions of [`laws`] have no code: their contracts are the laws of the definitions in `specs/`.
#![tactic(auto)]

mod depth;
pub mod laws;

pub use depth::first_deep;
