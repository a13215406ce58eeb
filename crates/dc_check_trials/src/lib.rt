//! Tests of the checker, over texts of certificates. The crate has no function of its own; each
//! certificate was worked out by hand from the equations of its main problem, and from the pages
//! under `docs/`.
#![tactic(auto)]

#[cfg(test)]
mod answers;
#[cfg(test)]
mod texts;
