//! What potentials of two programs certify, and the linear problem that decides it.
//!
//! The crate has no function that computes: it is definitions and laws.
//!
//! - `Duties`: what potentials owe, and under which atoms;
//! - `Claims`: what certifies a threshold, the least one, none, and every one;
//! - `Parts` and `Problems`: the main problem, by columns and equations;
//! - `Runs`: the runs of a system;
//! - `Laws`: the ties between these, each the contract of a function of [`laws`].
#![tactic(auto)]

mod duty;
pub mod laws;

pub use duty::{Duty, Unknown};
