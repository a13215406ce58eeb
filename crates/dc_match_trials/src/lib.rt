//! Tests of the main problem: small pairs of systems that are written out here.
//!
//! The crate has no function of its own. Each expected number was worked out by hand from the table
//! of obligations.
#![tactic(auto)]

#[cfg(test)]
mod cases;
#[cfg(test)]
mod idle;
#[cfg(test)]
mod shown;
#[cfg(test)]
mod steps;
