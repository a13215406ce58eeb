//! Tests of the exact numbers, the problems and the solver. The crate has no function of its own;
//! expected values were worked out by hand, and those of the solver's longer runs by a table of
//! fractions kept apart from this program.
#![tactic(auto)]

#[cfg(test)]
mod ended;
#[cfg(test)]
mod fractions;
#[cfg(test)]
mod problems;
#[cfg(test)]
mod products;
#[cfg(test)]
mod solver;
#[cfg(test)]
mod tables;
#[cfg(test)]
mod templates;
