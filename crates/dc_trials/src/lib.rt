//! Tests of the language: tokens, sources, trees and their printed texts, conditions, systems, folded
//! systems, two edges as one, and linear forms after an update.
//!
//! The crate has no function of its own. Each expected value was written by hand from
//! `docs/language.md` and from the table of what each statement adds to a system.
#![tactic(auto)]

#[cfg(test)]
mod after;
#[cfg(test)]
mod compositions;
#[cfg(test)]
mod conditions;
#[cfg(test)]
mod printing;
#[cfg(test)]
mod sources;
#[cfg(test)]
mod systems;
#[cfg(test)]
mod text;
#[cfg(test)]
mod tokens;
#[cfg(test)]
mod trees;
