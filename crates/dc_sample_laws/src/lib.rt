//! What generated sources and their condition say: laws of the pairs of `dc_sample`, by the
//! parser's definitions.
#![tactic(auto)]

pub mod laws;
