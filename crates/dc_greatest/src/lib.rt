//! The greatest inductive family of a program's candidate atoms.
#![tactic(auto)]

mod atoms;
mod bounds;
mod family;
pub mod laws;
mod lent;
mod lists;
mod pass;
mod search;

pub use family::{Family, InvFault, LocFamily};
pub use search::greatest;
