//! Coefficients side by side: the monomials of several polynomials, and the entries of a column of
//! coefficients.
#![tactic(auto)]

mod block;
mod entries;
pub mod laws;
mod monos;

pub use block::Block;
pub use entries::push_entries;
pub use monos::monos_of;
