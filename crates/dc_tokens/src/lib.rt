//! The tokens of a source text, or the first byte that stands in no token.
#![tactic(auto)]

mod lex;
mod lines;
mod scan;
mod token;

pub use lex::{one_reading, tokens};
pub use lines::line_col;
pub use token::{LexFault, Token, TokenKind};
