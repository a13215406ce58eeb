//! Tests of certificates: their texts both ways, and sparse vectors. The crate has no function of
//! its own; each text was written by hand from `docs/certificate.md`.
#![tactic(auto)]

#[cfg(test)]
mod certificates;
#[cfg(test)]
mod vectors;
