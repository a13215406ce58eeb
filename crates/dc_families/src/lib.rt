//! Families of candidate atoms: rounds, inductive families, the greatest one, and its printed atoms.
#![tactic(auto)]

pub mod laws;
