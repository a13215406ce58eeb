//! Tests of traces: their texts both ways, and the replay of runs. The crate has no function of its
//! own.
//!
//! Each text, cost and turn was found by hand: from the grammar of a trace's text, and from what
//! the language says of each statement, where a statement, an `if`, and each round and the end of a
//! loop take one turn.
#![tactic(auto)]

#[cfg(test)]
mod replays;
#[cfg(test)]
mod texts;
