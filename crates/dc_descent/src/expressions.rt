//! Expressions.
ghost use Rattle.std.specs.Prelude.{◌≡◌, IfOk};
ghost use Rattle.dc_grammar.specs.Grammar.{ref};
ghost use Rattle.dc_grammar.specs.Language.{Name};
ghost use Rattle.dc_descent.specs.Reads.{Reads};
ghost use Rattle.dc_descent.specs.Scopes.{places};
ghost use Rattle.dc_descent.specs.Trees.{IsExpr, IsTerm, IsUnary, sum_by};

use crate::cursor::{Cursor, Stop, is_same_kind};
use crate::scope::Scope;
use dc_syntax::Expr;
use dc_tokens::TokenKind;
use sqlite_items::Boxed;
use std::alloc::{AllocError, Global};

fn negation(alloc: Global, a: Expr) -> Result<Expr, AllocError>
    ensures { IfOk result (λ e. e ≡ Expr.Neg a) }
{
    Ok(Expr::Neg(Boxed::new(alloc, a)?))
}

fn product(alloc: Global, a: Expr, b: Expr) -> Result<Expr, AllocError>
    ensures { IfOk result (λ e. e ≡ Expr.Mul a b) }
{
    Ok(Expr::Mul(Boxed::new(alloc, a)?, Boxed::new(alloc, b)?))
}

/// A sum or a difference, by its sign.
fn sum(alloc: Global, sign: TokenKind, a: Expr, b: Expr) -> Result<Expr, AllocError>
    ensures { IfOk result (λ e. e ≡ sum_by sign a b) }
{
    if is_same_kind(TokenKind::Plus, sign) {
        Ok(Expr::Add(Boxed::new(alloc, a)?, Boxed::new(alloc, b)?))
    } else {
        Ok(Expr::Sub(Boxed::new(alloc, a)?, Boxed::new(alloc, b)?))
    }
}

#[cycle(expr)]
fn unary(alloc: Global, scope: &Scope<'_>, cursor: &mut Cursor<'_>) -> Result<Expr, Stop>
    ensures { Reads (ref Name.unary)
        (IsUnary (places scope.now)) cursor.old.rest.now result cursor.new.rest.now }
{
    if cursor.sees(TokenKind::Minus) {
        cursor.expect(TokenKind::Minus)?;
        let inner = unary(alloc, scope, cursor)?;
        Ok(negation(alloc, inner)?)
    } else if cursor.sees(TokenKind::Number) {
        let number = cursor.expect(TokenKind::Number)?;
        Ok(Expr::Num(number.value))
    } else if cursor.sees(TokenKind::Name) {
        let name = cursor.expect(TokenKind::Name)?;
        Ok(Expr::Var(scope.place(name)))
    } else {
        cursor.expect(TokenKind::LParen)?;
        let whole = expr(alloc, scope, cursor)?;
        cursor.expect(TokenKind::RParen)?;
        Ok(whole)
    }
}

#[cycle(expr)]
fn term(alloc: Global, scope: &Scope<'_>, cursor: &mut Cursor<'_>) -> Result<Expr, Stop>
    ensures { Reads (ref Name.term)
        (IsTerm (places scope.now)) cursor.old.rest.now result cursor.new.rest.now }
{
    let mut whole = unary(alloc, scope, cursor)?;
    'stars: while cursor.sees(TokenKind::Star) {
        cursor.expect(TokenKind::Star)?;
        let factor = unary(alloc, scope, cursor)?;
        whole = product(alloc, whole, factor)?;
    }
    Ok(whole)
}

/// An expression.
#[cycle(expr)]
pub fn expr(alloc: Global, scope: &Scope<'_>, cursor: &mut Cursor<'_>) -> Result<Expr, Stop>
    ensures { Reads (ref Name.expr)
        (IsExpr (places scope.now)) cursor.old.rest.now result cursor.new.rest.now }
{
    let mut whole = term(alloc, scope, cursor)?;
    'signs: while cursor.sees_sign() {
        let sign = cursor.sign()?;
        let part = term(alloc, scope, cursor)?;
        whole = sum(alloc, sign.kind, whole, part)?;
    }
    Ok(whole)
}
