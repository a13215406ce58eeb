//! From the tokens of a text to its tree, whose names are places.
#![tactic(auto)]

mod conditions;
mod cursor;
mod expressions;
mod fault;
mod names;
mod parts;
mod scope;
mod sources;
mod statements;
mod whole;

pub use fault::{Fault, Kind};
pub use names::first_unknown;
pub use scope::{Scope, spelling};
pub use sources::{Body, Source};
pub use whole::{read_condition, read_source};
