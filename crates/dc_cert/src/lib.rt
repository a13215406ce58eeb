//! Certificates: what a reviewer keeps of an analysis, and sparse vectors of fractions.
#![tactic(auto)]

mod certificate;
pub mod laws;
mod sparse;

pub use certificate::{Body, Certificate, Claim, EdgeCert, Liveness, Settings, SideCert};
pub use sparse::{Item, Sparse, dense_of, sparse_of};
