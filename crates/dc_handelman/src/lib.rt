//! Products of affine atoms: the facts with which an unknown potential may be shown to be nonnegative.
#![tactic(auto)]

mod choices;
mod forms;
pub mod laws;

pub use choices::{product_count, products};
