//! What a printed procedure is, by the grammar of the language: laws of the text of `dc_syntax`.
#![tactic(auto)]

pub mod laws;
