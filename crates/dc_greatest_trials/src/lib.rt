//! Tests of the greatest families of sources, their printed atoms and what shows these. The crate
//! has no function of its own; expected values were worked out by hand or, for the longer lists, by
//! a table of fractions kept apart from this program.
#![tactic(auto)]

#[cfg(test)]
mod counting;
#[cfg(test)]
mod families;
#[cfg(test)]
mod refusals;
#[cfg(test)]
mod subjects;
