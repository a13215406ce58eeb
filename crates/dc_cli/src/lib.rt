//! The commands of the program: from the words of the command line to a status.
//!
//! [`top`] is the whole program but for its `main`. It decides the answer, writes the output, and
//! reports a refusal by one line on the error sink and a status. What the answer of words and texts
//! is stands in `dc_answers`.
#![tactic(auto)]

mod analyse;
mod answer;
mod check;
mod claims;
mod command;
mod fetch;
mod lines;
mod output;
mod report;
mod sample;
mod sources;
mod words;

pub use command::top;
