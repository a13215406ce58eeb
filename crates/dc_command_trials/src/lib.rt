//! Tests of the command: its words, and the whole of it over sources and sinks in memory. The crate
//! has no function of its own; each expected value was written by hand from `docs/command_line.md`,
//! `docs/certificate.md` and the README.
#![tactic(auto)]

#[cfg(test)]
mod commands;
#[cfg(test)]
mod real;
#[cfg(test)]
mod runs;
#[cfg(test)]
mod words;
