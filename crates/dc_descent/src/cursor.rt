//! A cursor over the tokens of a text.
ghost use Rattle.std.specs.Prelude.{◌≡◌, ◌<◌, [], ◌∷◌, length};
ghost use Rattle.dc_grammar.specs.Kinds.{is};
ghost use Rattle.dc_grammar.specs.Grammar.{tok, one, ref};
ghost use Rattle.dc_grammar.specs.Language.{Name};
ghost use Rattle.dc_grammar.specs.Reading.{begins};
ghost use Rattle.dc_grammar.specs.Readers.{language_reader};
ghost use Rattle.dc_descent.specs.Reads.{Takes};
ghost use Rattle.dc_descent.specs.Statements.{head_at};

use dc_tokens::{Token, TokenKind};
use std::alloc::AllocError;

/// Why a part of the parser stops.
#[derive(Debug, Drop)]
pub enum Stop {
    /// No text of the grammar goes on with the next token, or the tokens end too soon.
    Syntax,
    NoMemory,
}

impl From<AllocError> for Stop {
    ghost use Rattle.dc_descent.specs.declared.cursor.Stop.TheVariants.{NoMemory};

    ghost from_gives = { λ _ e. e ≡ NoMemory };

    fn from(_error: AllocError) -> Stop {
        Stop::NoMemory
    }
}

/// The tokens that are left.
#[derive(Drop)]
pub struct Cursor<'a> {
    pub rest: &'a [Token],
}

pub fn is_same_kind(a: TokenKind, b: TokenKind) -> bool
    ensures { result ≡ is a b }
{
    a == b
}

impl<'a> Cursor<'a> {
    /// Whether the next token is of this kind.
    pub fn sees(&self, kind: TokenKind) -> bool
        ensures { result ≡ begins language_reader (tok kind) self.now.rest.now }
    {
        match self.rest.first() {
            Some(first) => is_same_kind(kind, first.kind),
            None => false,
        }
    }

    /// Whether the next token is a plus or a minus.
    pub fn sees_sign(&self) -> bool
        ensures { result ≡ begins language_reader
            (one TokenKind.Plus (TokenKind.Minus ∷ [])) self.now.rest.now }
    {
        match self.rest.first() {
            Some(first) => matches!(first.kind, TokenKind::Plus | TokenKind::Minus),
            None => false,
        }
    }

    /// Whether the next token compares.
    pub fn sees_rel(&self) -> bool
        ensures { result ≡ begins language_reader
            (one TokenKind.Lt (TokenKind.Le ∷ TokenKind.Gt ∷ TokenKind.Ge ∷ TokenKind.Eq
            ∷ TokenKind.Ne ∷ [])) self.now.rest.now }
    {
        match self.rest.first() {
            Some(first) => matches!(
                first.kind,
                TokenKind::Lt
                    | TokenKind::Le
                    | TokenKind::Gt
                    | TokenKind::Ge
                    | TokenKind::Eq
                    | TokenKind::Ne
            ),
            None => false,
        }
    }

    /// Whether an expression begins with the next token.
    pub fn sees_expr(&self) -> bool
        ensures { result ≡ begins language_reader (ref Name.expr) self.now.rest.now }
    {
        match self.rest.first() {
            Some(first) => matches!(
                first.kind,
                TokenKind::Minus | TokenKind::Number | TokenKind::Name | TokenKind::LParen
            ),
            None => false,
        }
    }

    /// Whether a statement begins with the next token.
    pub fn sees_stmt(&self) -> bool
        ensures { result ≡ begins language_reader (ref Name.stmt) self.now.rest.now }
    {
        match self.rest.first() {
            Some(first) => matches!(
                first.kind,
                TokenKind::Skip
                    | TokenKind::Tick
                    | TokenKind::Assume
                    | TokenKind::Name
                    | TokenKind::If
                    | TokenKind::While
            ),
            None => false,
        }
    }

    /// The byte at which the next token begins; 0 where there is none.
    pub fn offset(&self) -> usize
        ensures { result ≡ head_at self.now.rest.now }
    {
        match self.rest.first() {
            Some(first) => first.at,
            None => 0,
        }
    }

    fn take(&mut self) -> Token
        requires { 0 < length self.old.rest.now }
        ensures { self.old.rest.now ≡ result ∷ self.new.rest.now }
    {
        let first = self.rest[0];
        self.rest = &self.rest[1..];
        first
    }

    /// Takes the next token, which is to be of this kind.
    pub fn expect(&mut self, kind: TokenKind) -> Result<Token, Stop>
        ensures { Takes (tok kind) self.old.rest.now result self.new.rest.now }
    {
        if self.sees(kind) {
            Ok(self.take())
        } else {
            Err(Stop::Syntax)
        }
    }

    /// Takes a plus or a minus.
    pub fn sign(&mut self) -> Result<Token, Stop>
        ensures { Takes (one TokenKind.Plus
            (TokenKind.Minus ∷ [])) self.old.rest.now result self.new.rest.now }
    {
        if self.sees_sign() {
            Ok(self.take())
        } else {
            Err(Stop::Syntax)
        }
    }

    /// Takes a sign that compares.
    pub fn rel(&mut self) -> Result<Token, Stop>
        ensures { Takes (one TokenKind.Lt
            (TokenKind.Le ∷ TokenKind.Gt ∷ TokenKind.Ge ∷ TokenKind.Eq ∷ TokenKind.Ne
            ∷ [])) self.old.rest.now result self.new.rest.now }
    {
        if self.sees_rel() {
            Ok(self.take())
        } else {
            Err(Stop::Syntax)
        }
    }
}
