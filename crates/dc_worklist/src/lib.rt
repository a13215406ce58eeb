//! A rising list of edges that are to be looked at again, doubly linked by number.
#![tactic(auto)]

pub mod laws;
mod work_list;

pub use work_list::WorkList;
