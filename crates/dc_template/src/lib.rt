//! Templates: the monomials that an unknown potential has, and each of them at an updated state.
#![tactic(auto)]

mod column;
pub mod laws;
mod listing;

pub use column::template_column;
pub use listing::{monomials, unknowns};
