//! The main problem of two programs: the linear problem whose solutions are the certificates.
#![tactic(auto)]

mod counts;
mod fault;
mod problem;

pub use dc_duties::SidePlan;
pub use fault::MatchFault;
pub use problem::problem_of;
