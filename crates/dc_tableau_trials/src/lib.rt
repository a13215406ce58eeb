//! Tests of the sparse tableau beside the dense one. The crate has no function of its own; expected
//! values were worked out by hand or, for the longer runs, by a table of fractions kept apart from
//! this program.
#![tactic(auto)]

#[cfg(test)]
mod ended;
#[cfg(test)]
mod growth;
#[cfg(test)]
mod nodes;
#[cfg(test)]
mod refusals;
#[cfg(test)]
mod runs;
#[cfg(test)]
mod steps;
#[cfg(test)]
mod tables;
