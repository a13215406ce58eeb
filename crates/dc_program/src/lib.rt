//! What the parser's programs and conditions meet.
//!
//! Definitions alone: `specs/Programs` says what later calls require of a program and of a
//! condition, whoever made them.
#![tactic(auto)]
