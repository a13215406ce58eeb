//! The main problem while it is built: its equations duty by duty, and its columns.
#![tactic(auto)]

mod table;

pub use table::Table;
