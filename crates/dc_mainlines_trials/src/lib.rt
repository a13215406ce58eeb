//! Tests of the main problem's clauses. The crate has no function of its own; problems, vectors and
//! answers were worked out by hand.
#![tactic(auto)]

#[cfg(test)]
mod clauses;
