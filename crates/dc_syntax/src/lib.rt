//! The language that is analysed: its trees, and what they mean.
//!
//! A program is one procedure ([`Proc`]) over unbounded whole numbers. `specs/` gives each tree its
//! meaning, which every contract above this crate cites:
//!
//! - `Value`: the value of an expression and the truth of a condition in a state;
//! - `Run`: the finished runs of a statement and of a list of statements, with their costs;
//! - `Costs`: what a procedure can cost on an input, and which inputs are allowed;
//! - `Plain`: the programs of `skip` and ticks of numbers alone, and their cost;
//! - `Text`: the text of a procedure, with the fewest brackets.
//!
//! The functions of [`laws`] have no code: their contracts are the laws of these definitions.
#![tactic(auto)]

pub mod laws;
mod layer;
mod names;
mod params;
mod print;
mod tree;

pub use layer::Layer;
pub use names::{Name, Names, ascii_text};
pub use params::same_params;
pub use print::print_proc;
pub use tree::{Cond, Count, Expr, Proc, Rel, Side, Stmt};
