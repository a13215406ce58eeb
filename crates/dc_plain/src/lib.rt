//! Two plain programs cost a fixed difference apart, and it is what a certificate of them claims.
//!
//! The crate has no function that computes: it is laws over the definitions of plain programs, of
//! systems, of certificates and of the checker. Each law of `specs/Laws` is the contract of a function
//! of [`laws`].
#![tactic(auto)]

pub mod laws;
