//! The tokens of a whole text.
ghost use Rattle.std.specs.Prelude.{◌≡◌, ◌+◌, ◌≤◌, ◌<◌, ◌^◌, ◌∷◌, ◌++◌, [], length, drop, IfOk, OnOk, IsAscii, MatchResult};
ghost use Rattle.dc_tokens.specs.Texts.{Tokens, IsCause, IsRising, HasOneReading, with_token};

use crate::scan::front_piece;
use crate::token::{LexFault, Token};
use std::alloc::{AllocError, Global};

/// What follows the first n bytes.
fn after(bytes: &[u8], n: usize) -> &[u8]
    requires { n ≤ length bytes.now }
    ensures { result.now ≡ drop n bytes.now }
{
    &bytes[n..]
}

fn keep(found: &mut Vec<Token>, token: Option<Token>) -> Result<(), AllocError>
    ensures { OnOk result (found.new.items ≡ found.old.items ++ with_token token []) }
{
    if let Some(token) = token {
        found.push(token)?;
    }
    Ok(())
}

/// The tokens of a text in order, or the first byte that is wrong: one of 128 or more anywhere,
/// outside comments one that is no separator and begins no token, or the first digit of a number
/// above 2147483647. The longest token is taken each time.
pub fn tokens(alloc: Global, bytes: &[u8]) -> Result<Vec<Token>, LexFault>
    ensures cases { MatchResult result (λ v. Tokens 0 bytes.now v.items) (IsCause bytes.now) }
    ensures ascii { OnOk result (IsAscii bytes.now) }
    ensures rising { IfOk result (λ v. IsRising 0 (length bytes.now) v.items) }
{
    let mut found = Vec::new(alloc);
    let mut rest = bytes;
    let mut at = 0;
    'bytes: while rest.len() > 0 {
        let piece = front_piece(at, rest)?;
        keep(&mut found, piece.token)?;
        rest = after(rest, piece.len);
        at += piece.len;
    }
    Ok(found)
}

/// A text has its tokens or one thing that is wrong first, and never both.
pub fn one_reading(bytes: &[u8])
    ensures { HasOneReading bytes.now }
{
    let _ = bytes;
}
