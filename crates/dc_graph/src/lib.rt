//! The labelled graph of a list of statements, whose walks are the runs. The definitions are in specs/.
#![tactic(auto)]

pub mod laws;
