//! Transition systems: a procedure as numbered locations with edges between them, whose paths are
//! the runs.
#![tactic(auto)]

mod atoms;
mod composition;
mod count;
mod edges;
mod folding;
mod forms;
mod guards;
pub mod laws;
mod laying;
mod literals;
mod procedure;
mod rows;

pub use composition::compose;
pub use edges::{Edge, System, SystemFault};
pub use folding::fold;
pub use procedure::build;
pub use rows::{RowAfter, row_after};
