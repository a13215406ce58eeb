//! Tests of the candidates of sources, whose values were worked out by hand. The crate has no
//! function of its own.
#![tactic(auto)]

#[cfg(test)]
mod asked;
#[cfg(test)]
mod limits;
#[cfg(test)]
mod lists;
