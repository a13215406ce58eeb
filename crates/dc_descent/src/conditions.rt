//! Conditions.
ghost use Rattle.std.specs.Prelude.{◌≡◌, IfOk};
ghost use Rattle.dc_grammar.specs.Grammar.{ref};
ghost use Rattle.dc_grammar.specs.Language.{Name};
ghost use Rattle.dc_descent.specs.Reads.{Reads};
ghost use Rattle.dc_descent.specs.Scopes.{places};
ghost use Rattle.dc_descent.specs.Trees.{IsCond, IsConj, IsFact};
ghost use Rattle.dc_descent.specs.Trees.{rel_of as rel};

use crate::cursor::{Cursor, Stop};
use crate::expressions::expr;
use crate::scope::Scope;
use dc_syntax::{Cond, Rel};
use dc_tokens::TokenKind;
use sqlite_items::Boxed;
use std::alloc::{AllocError, Global};

fn opposite(alloc: Global, a: Cond) -> Result<Cond, AllocError>
    ensures { IfOk result (λ c. c ≡ Cond.Not a) }
{
    Ok(Cond::Not(Boxed::new(alloc, a)?))
}

fn both(alloc: Global, a: Cond, b: Cond) -> Result<Cond, AllocError>
    ensures { IfOk result (λ c. c ≡ Cond.And a b) }
{
    Ok(Cond::And(Boxed::new(alloc, a)?, Boxed::new(alloc, b)?))
}

fn either(alloc: Global, a: Cond, b: Cond) -> Result<Cond, AllocError>
    ensures { IfOk result (λ c. c ≡ Cond.Or a b) }
{
    Ok(Cond::Or(Boxed::new(alloc, a)?, Boxed::new(alloc, b)?))
}

/// What a sign compares by.
fn rel_of(sign: TokenKind) -> Rel
    ensures { result ≡ rel sign }
{
    match sign {
        TokenKind::Lt => Rel::Lt,
        TokenKind::Le => Rel::Le,
        TokenKind::Gt => Rel::Gt,
        TokenKind::Ge => Rel::Ge,
        TokenKind::Eq => Rel::Eq,
        _ => Rel::Ne,
    }
}

#[cycle(cond)]
fn fact(alloc: Global, scope: &Scope<'_>, cursor: &mut Cursor<'_>) -> Result<Cond, Stop>
    ensures { Reads (ref Name.fact)
        (IsFact (places scope.now)) cursor.old.rest.now result cursor.new.rest.now }
{
    if cursor.sees(TokenKind::Bang) {
        cursor.expect(TokenKind::Bang)?;
        let inner = fact(alloc, scope, cursor)?;
        Ok(opposite(alloc, inner)?)
    } else if cursor.sees(TokenKind::True) {
        cursor.expect(TokenKind::True)?;
        Ok(Cond::True)
    } else if cursor.sees(TokenKind::False) {
        cursor.expect(TokenKind::False)?;
        Ok(Cond::False)
    } else if cursor.sees(TokenKind::LBracket) {
        cursor.expect(TokenKind::LBracket)?;
        let whole = cond(alloc, scope, cursor)?;
        cursor.expect(TokenKind::RBracket)?;
        Ok(whole)
    } else {
        let left = expr(alloc, scope, cursor)?;
        let sign = cursor.rel()?;
        let right = expr(alloc, scope, cursor)?;
        Ok(Cond::Cmp(left, rel_of(sign.kind), right))
    }
}

#[cycle(cond)]
fn conj(alloc: Global, scope: &Scope<'_>, cursor: &mut Cursor<'_>) -> Result<Cond, Stop>
    ensures { Reads (ref Name.conj)
        (IsConj (places scope.now)) cursor.old.rest.now result cursor.new.rest.now }
{
    let mut whole = fact(alloc, scope, cursor)?;
    'ands: while cursor.sees(TokenKind::And) {
        cursor.expect(TokenKind::And)?;
        let part = fact(alloc, scope, cursor)?;
        whole = both(alloc, whole, part)?;
    }
    Ok(whole)
}

/// A condition.
#[cycle(cond)]
pub fn cond(alloc: Global, scope: &Scope<'_>, cursor: &mut Cursor<'_>) -> Result<Cond, Stop>
    ensures { Reads (ref Name.cond)
        (IsCond (places scope.now)) cursor.old.rest.now result cursor.new.rest.now }
{
    let mut whole = conj(alloc, scope, cursor)?;
    'ors: while cursor.sees(TokenKind::Or) {
        cursor.expect(TokenKind::Or)?;
        let part = conj(alloc, scope, cursor)?;
        whole = either(alloc, whole, part)?;
    }
    Ok(whole)
}
