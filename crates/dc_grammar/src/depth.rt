//! How deep the tokens of a text nest.
ghost use Rattle.dc_grammar.specs.Depth as spec;
ghost use Rattle.dc_grammar.specs.Depth.{IsDeep};
ghost use Rattle.dc_grammar.specs.Grammar.{has};
ghost use Rattle.dc_grammar.specs.Kinds.{is};
ghost use Rattle.dc_grammar.specs.Verdicts.{Shallow, IsFirstDeep};
ghost use Rattle.std.specs.Prelude.{◌≡◌, ◌≤◌, MatchOption, length};

use dc_tokens::{Token, TokenKind};

/// The most brackets that may be open at once, and the most operators of one expression or condition.
const MOST: usize = 64;

fn opens(kind: TokenKind) -> bool
    ensures { result ≡ has is spec.opening kind }
{
    matches!(
        kind,
        TokenKind::LParen | TokenKind::LBracket | TokenKind::LBrace
    )
}

fn closes(kind: TokenKind) -> bool
    ensures { result ≡ has is spec.closing kind }
{
    matches!(
        kind,
        TokenKind::RParen | TokenKind::RBracket | TokenKind::RBrace
    )
}

fn operates(kind: TokenKind) -> bool
    ensures { result ≡ has is spec.operators kind }
{
    matches!(
        kind,
        TokenKind::Plus
            | TokenKind::Minus
            | TokenKind::Star
            | TokenKind::Bang
            | TokenKind::And
            | TokenKind::Or
    )
}

/// Whether the token stands in expressions or conditions and is no operator.
fn is_operand(kind: TokenKind) -> bool
    ensures { result ≡ has is spec.operands kind }
{
    matches!(
        kind,
        TokenKind::Number
            | TokenKind::Name
            | TokenKind::True
            | TokenKind::False
            | TokenKind::LParen
            | TokenKind::RParen
            | TokenKind::LBracket
            | TokenKind::RBracket
            | TokenKind::Eq
            | TokenKind::Ne
            | TokenKind::Lt
            | TokenKind::Le
            | TokenKind::Gt
            | TokenKind::Ge
    )
}

fn brackets_with(brackets: usize, token: Token) -> usize
    requires { brackets ≤ 64 }
    ensures { result ≡ spec.brackets_with brackets token }
{
    if opens(token.kind) {
        brackets + 1
    } else if closes(token.kind) {
        brackets.saturating_sub(1)
    } else {
        brackets
    }
}

fn operators_with(count: usize, token: Token) -> usize
    requires { count ≤ 64 }
    ensures { result ≡ spec.operators_with count token }
{
    if operates(token.kind) {
        count + 1
    } else if is_operand(token.kind) {
        count
    } else {
        0
    }
}

/// The number of the first token, from 0, with which more than 64 brackets are open or more than 64
/// operators stand in one expression or condition.
pub fn first_deep(tokens: &[Token]) -> Option<usize>
    ensures { MatchOption result
        (Shallow IsDeep tokens.now (length tokens.now))
        (IsFirstDeep IsDeep tokens.now) }
{
    let mut brackets = 0;
    let mut operators = 0;
    for (index, token) in tokens.iter().enumerate() {
        brackets = brackets_with(brackets, *token);
        operators = operators_with(operators, *token);
        if brackets > MOST || operators > MOST {
            return Some(index);
        }
    }
    None
}
