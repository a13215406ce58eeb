//! The lists of atoms and the forms that the problems of a family are asked over.
#![tactic(auto)]

pub mod laws;
mod lists;

pub use lists::{copy_atoms, edge_places, first_numbers, row_atom, with_guard};
