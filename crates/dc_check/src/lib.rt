//! The checker of certificates. It stands on no solver.
#![tactic(auto)]

mod checking;
mod fault;
pub mod laws;
mod lent;

pub use checking::check;
pub use fault::CheckFault;
