//! The text of a certificate, both ways.
#![tactic(auto)]

mod behind;
mod from_text;
mod items;
pub mod laws;
mod put;
mod read;
mod stage;
mod step;
mod write;

pub use from_text::{ReadFault, read_cert};
pub use items::{read_items, write_items};
pub use write::{WriteFault, write_cert, write_claim, write_claim_line, write_fraction};
