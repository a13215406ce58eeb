ghost use Rattle.std.specs.Prelude.{◌≡◌};

use std::alloc::AllocError;
use thiserror::Error;

/// What a token is: each keyword and each sign is a kind of its own.
#[derive(Clone, Copy, Debug, PartialEq)]
pub enum TokenKind {
    Name,
    Number,
    Proc,
    Var,
    Skip,
    Tick,
    Any,
    Assume,
    If,
    Else,
    While,
    True,
    False,
    LParen,
    RParen,
    LBrace,
    RBrace,
    LBracket,
    RBracket,
    Comma,
    Semi,
    Assign,
    Eq,
    Ne,
    Lt,
    Le,
    Gt,
    Ge,
    Plus,
    Minus,
    Star,
    Bang,
    And,
    Or,
}

/// A token: its kind, the byte at which it begins, the byte after it, and a number's value (0 for
/// the others).
#[derive(Clone, Copy, Debug)]
pub struct Token {
    pub kind: TokenKind,
    pub at: usize,
    pub end: usize,
    pub value: u32,
}

/// Why a text has no tokens, by the offset of a byte.
#[derive(Debug, Drop, Error)]
pub enum LexFault {
    /// This byte is 128 or more.
    #[error("a byte that is not ASCII")]
    NotAscii(usize),
    /// This byte is no separator, and begins no comment and no token.
    #[error("a character that begins no token")]
    BadCharacter(usize),
    /// The number that begins here is above 2147483647.
    #[error("a number that is too wide")]
    LiteralTooWide(usize),
    #[error("out of memory")]
    NoMemory,
}

impl From<AllocError> for LexFault {
    ghost use Rattle.dc_tokens.specs.declared.token.LexFault.TheVariants.{NoMemory};

    ghost from_gives = { λ _ e. e ≡ NoMemory };

    fn from(_error: AllocError) -> LexFault {
        LexFault::NoMemory
    }
}
