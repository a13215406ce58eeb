//! The clauses of a certificate as numbered tests, and code for each of them. It stands on no solver.
#![tactic(auto)]

mod cases;
mod edges;
mod families;
mod hyps;
mod keeps;
pub mod laws;
mod lines;
mod shape;
mod step;

pub use families::family_failure;
pub use lines::number_at;
pub use step::{Step, failure, passes};
