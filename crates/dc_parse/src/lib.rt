//! From a text to the program or the condition that it says, or to the first byte that is wrong.
#![tactic(auto)]

mod fault;
mod forms;
pub mod laws;
mod parse;

pub use fault::Kind;
pub use parse::{ParseFault, parse_proc, parse_when};
