//! What stands at the front of a text.
ghost use Rattle.std.specs.Prelude.{◌≡◌, ℕ, ◌+◌, ◌<◌, ◌≤◌, ◌^◌, length, take, drop, slice_index, MatchOption, MatchResult, true, false, Some, None};
ghost use Rattle.dc_tokens.specs.Spelling as spelling;
ghost use Rattle.dc_tokens.specs.Pieces as pieces;

use crate::token::{LexFault, Token, TokenKind};

fn is_letter(b: u8) -> bool
    ensures { result ≡ spelling.is_letter b }
{
    b.is_ascii_alphabetic() || b == b'_'
}

fn is_digit(b: u8) -> bool
    ensures { result ≡ spelling.is_digit b }
{
    b.is_ascii_digit()
}

fn is_separator(b: u8) -> bool
    ensures { result ≡ pieces.is_separator b }
{
    b == b' ' || b == b'\t' || b == b'\r' || b == b'\n'
}

/// The length of the run of letters, digits and `_` at the front.
fn word_len(bytes: &[u8]) -> usize
    ensures within { result ≤ length bytes.now }
    ensures each { (i : ℕ) → i < result → spelling.is_word_byte (slice_index bytes.now i) ≡ true }
    ensures stops { result < length bytes.now
        → spelling.is_word_byte (slice_index bytes.now result) ≡ false }
{
    let mut n = 0;
    while n < bytes.len() && (is_letter(bytes[n]) || is_digit(bytes[n])) {
        n += 1;
    }
    n
}

/// The length of the run of digits at the front.
fn digits_len(bytes: &[u8]) -> usize
    ensures within { result ≤ length bytes.now }
    ensures each { (i : ℕ) → i < result → spelling.is_digit (slice_index bytes.now i) ≡ true }
    ensures stops { result < length bytes.now
        → spelling.is_digit (slice_index bytes.now result) ≡ false }
{
    let mut n = 0;
    while n < bytes.len() && is_digit(bytes[n]) {
        n += 1;
    }
    n
}

#[tactic(auto, unfolding(crate::specs::Spelling::word_kind))]
fn word_kind(word: &[u8]) -> TokenKind
    ensures { result ≡ spelling.word_kind word.now }
{
    if word == b"proc".as_slice() {
        TokenKind::Proc
    } else if word == b"var".as_slice() {
        TokenKind::Var
    } else if word == b"skip".as_slice() {
        TokenKind::Skip
    } else if word == b"tick".as_slice() {
        TokenKind::Tick
    } else if word == b"any".as_slice() {
        TokenKind::Any
    } else if word == b"assume".as_slice() {
        TokenKind::Assume
    } else if word == b"if".as_slice() {
        TokenKind::If
    } else if word == b"else".as_slice() {
        TokenKind::Else
    } else if word == b"while".as_slice() {
        TokenKind::While
    } else if word == b"true".as_slice() {
        TokenKind::True
    } else if word == b"false".as_slice() {
        TokenKind::False
    } else {
        TokenKind::Name
    }
}

#[tactic(auto, unfolding(crate::specs::Spelling::short_sign))]
fn short_sign(b: u8) -> Option<TokenKind>
    ensures { result ≡ spelling.short_sign b }
{
    match b {
        b'(' => Some(TokenKind::LParen),
        b')' => Some(TokenKind::RParen),
        b'{' => Some(TokenKind::LBrace),
        b'}' => Some(TokenKind::RBrace),
        b'[' => Some(TokenKind::LBracket),
        b']' => Some(TokenKind::RBracket),
        b',' => Some(TokenKind::Comma),
        b';' => Some(TokenKind::Semi),
        b'=' => Some(TokenKind::Assign),
        b'<' => Some(TokenKind::Lt),
        b'>' => Some(TokenKind::Gt),
        b'+' => Some(TokenKind::Plus),
        b'-' => Some(TokenKind::Minus),
        b'*' => Some(TokenKind::Star),
        b'!' => Some(TokenKind::Bang),
        _ => None,
    }
}

#[tactic(auto, unfolding(crate::specs::Spelling::long_sign))]
fn long_sign(a: u8, b: u8) -> Option<TokenKind>
    ensures { result ≡ spelling.long_sign a b }
{
    match (a, b) {
        (b'=', b'=') => Some(TokenKind::Eq),
        (b'!', b'=') => Some(TokenKind::Ne),
        (b'<', b'=') => Some(TokenKind::Le),
        (b'>', b'=') => Some(TokenKind::Ge),
        (b'&', b'&') => Some(TokenKind::And),
        (b'|', b'|') => Some(TokenKind::Or),
        _ => None,
    }
}

/// The sign of two bytes at the front.
fn long_sign_at(bytes: &[u8]) -> Option<TokenKind>
    ensures { MatchOption result
        (1 < length bytes.now
        → spelling.long_sign (slice_index bytes.now 0) (slice_index bytes.now 1) ≡ None)
        (λ kind. (1 < length bytes.now)
        × (spelling.long_sign (slice_index bytes.now 0) (slice_index bytes.now 1) ≡ Some kind)) }
{
    if bytes.len() > 1 {
        long_sign(bytes[0], bytes[1])
    } else {
        None
    }
}

/// A token's kind and its length.
#[derive(Drop)]
struct Cut {
    kind: TokenKind,
    len: usize,
}

/// The longest token at the front of a text that isn't empty.
fn longest(bytes: &[u8]) -> Option<Cut>
    requires { 0 < length bytes.now }
    ensures { MatchOption result (pieces.NoToken bytes.now)
        (λ c. pieces.Longest bytes.now c.len c.kind) }
{
    let first = bytes[0];
    if is_letter(first) {
        let len = word_len(bytes);
        let kind = word_kind(&bytes[..len]);
        return Some(Cut { kind, len });
    }
    if is_digit(first) {
        let len = digits_len(bytes);
        return Some(Cut {
            kind: TokenKind::Number,
            len,
        });
    }
    if let Some(kind) = long_sign_at(bytes) {
        return Some(Cut { kind, len: 2 });
    }
    match short_sign(first) {
        Some(kind) => Some(Cut { kind, len: 1 }),
        None => None,
    }
}

/// The greatest number that a text may have.
const LARGEST: u64 = 2147483647;

/// The number that digits write, where it is at most 2147483647.
fn number_value(digits: &[u8]) -> Option<u32>
    ensures { MatchOption result
        (2147483647 < spelling.number_value digits.now)
        (λ v. (v ≡ spelling.number_value digits.now) × (v ≤ 2147483647)) }
{
    let mut value: u64 = 0;
    for digit in digits {
        value = value * 10 + digit.saturating_sub(b'0') as u64;
        if value > LARGEST {
            return None;
        }
    }
    Some(value as u32)
}

/// The length of the comment at the front, which is ASCII up to there.
fn comment_front(bytes: &[u8]) -> Option<usize>
    ensures { MatchOption result
        (pieces.BeginsComment bytes.now → ⊥)
        (λ n. pieces.IsCommentFront bytes.now n
        × (n < length bytes.now → pieces.is_comment_byte (slice_index bytes.now n) ≡ false)) }
{
    if bytes.len() > 1 && bytes[0] == b'/' && bytes[1] == b'/' {
        let mut n = 2;
        while n < bytes.len() && bytes[n] < 128 && bytes[n] != b'\n' {
            n += 1;
        }
        Some(n)
    } else {
        None
    }
}

/// A piece of a text: the token that it is, if it is one, and its length.
#[derive(Drop)]
pub struct Piece {
    pub token: Option<Token>,
    pub len: usize,
}

/// The comment at the front, whose first `len` bytes are ASCII and stand in its line.
fn comment_piece(at: usize, bytes: &[u8], len: usize) -> Result<Piece, LexFault>
    requires fits { at + length bytes.now < 2 ^ 64 }
    requires front { pieces.IsCommentFront bytes.now len }
    requires ends { len < length bytes.now
        → pieces.is_comment_byte (slice_index bytes.now len) ≡ false }
    ensures { MatchResult result (λ p. pieces.Piece at bytes.now p.token p.len)
        (pieces.Wrong at bytes.now) }
{
    if len < bytes.len() && bytes[len] != b'\n' {
        Err(LexFault::NotAscii(at + len))
    } else {
        Ok(Piece { token: None, len })
    }
}

/// The value of a token that is spelled so, where no number is too wide.
fn value_of(kind: TokenKind, word: &[u8]) -> Option<u32>
    ensures { MatchOption result
        ((kind ≡ TokenKind.Number) × (2147483647 < spelling.number_value word.now))
        (λ v. (v ≡ spelling.value_of kind word.now) × (v ≤ 2147483647)) }
{
    match kind {
        TokenKind::Number => number_value(word),
        _ => Some(0),
    }
}

/// The token at the front.
fn token_piece(at: usize, bytes: &[u8], cut: Cut) -> Result<Piece, LexFault>
    requires fits { at + length bytes.now < 2 ^ 64 }
    requires longest { pieces.Longest bytes.now cut.len cut.kind }
    ensures { MatchResult result (λ p. pieces.Piece at bytes.now p.token p.len)
        (pieces.Wrong at bytes.now) }
{
    let kind = cut.kind;
    let len = cut.len;
    let end = at + len;
    match value_of(kind, &bytes[..len]) {
        Some(value) => Ok(Piece {
            token: Some(Token {
                kind,
                at,
                end,
                value,
            }),
            len,
        }),
        None => Err(LexFault::LiteralTooWide(at)),
    }
}

/// The piece at the front of a text, or what is wrong there.
pub fn front_piece(at: usize, bytes: &[u8]) -> Result<Piece, LexFault>
    requires some { 0 < length bytes.now }
    requires fits { at + length bytes.now < 2 ^ 64 }
    ensures { MatchResult result (λ p. pieces.Piece at bytes.now p.token p.len)
        (pieces.Wrong at bytes.now) }
{
    let first = bytes[0];
    if first >= 128 {
        return Err(LexFault::NotAscii(at));
    }
    if is_separator(first) {
        return Ok(Piece {
            token: None,
            len: 1,
        });
    }
    if let Some(len) = comment_front(bytes) {
        return comment_piece(at, bytes, len);
    }
    match longest(bytes) {
        Some(cut) => token_piece(at, bytes, cut),
        None => Err(LexFault::BadCharacter(at)),
    }
}
