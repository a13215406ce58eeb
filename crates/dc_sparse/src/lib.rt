//! A sparse tableau: its nonzero entries are nodes of an arena, linked in rows and in columns.
#![tactic(auto)]

mod combine;
mod cross;
mod fill;
pub mod laws;
mod memory;
mod pivot;
mod ratio;
mod rows;
mod scaled;
mod web;
mod whole;
mod writes;

pub use crate::cross::Cross;
