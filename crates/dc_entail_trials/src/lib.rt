//! Tests of what lists of atoms say. The crate has no function of its own; expected values were
//! worked out by hand or, for the longer runs, by a table of fractions kept apart from this
//! program.
#![tactic(auto)]

#[cfg(test)]
mod bounds;
#[cfg(test)]
mod emptiness;
#[cfg(test)]
mod problems;
#[cfg(test)]
mod sites;
#[cfg(test)]
mod tables;
