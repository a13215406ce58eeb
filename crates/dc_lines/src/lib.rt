//! Texts line by line: numbers, fields, lines, and the line that is told of bytes that are no text.
#![tactic(auto)]

mod lists;
mod number;
mod pieces;
mod put;

pub use lists::{put_fields, read_fields};
pub use number::{natural, next_field, whole};
pub use pieces::{cut, first_line, is_same, strip};
pub use put::{put_field, put_number, put_whole};
