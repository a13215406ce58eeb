//! The parts of statements that hold no statements.
ghost use Rattle.std.specs.Prelude.{◌≡◌};
ghost use Rattle.dc_tokens.specs.declared.token.TokenKind.TheVariants as k;
ghost use Rattle.dc_grammar.specs.Grammar.{ref, tok, opt, ◌▸◌};
ghost use Rattle.dc_grammar.specs.Language.{Name};
ghost use Rattle.dc_descent.specs.Reads.{Reads};
ghost use Rattle.dc_descent.specs.Scopes.{places};
ghost use Rattle.dc_descent.specs.Statements.{IsRange, IsAssigned, IsChoice, any_by};

use crate::conditions::cond;
use crate::cursor::{Cursor, Stop};
use crate::expressions::expr;
use crate::scope::Scope;
use dc_syntax::{Cond, Expr, Stmt};
use dc_tokens::TokenKind;
use std::alloc::Global;

/// The bounds of a range.
#[derive(Debug, Drop)]
pub struct Range {
    pub low: Expr,
    pub high: Expr,
}

/// The range of `any`, which may be missing.
fn bounds(alloc: Global, scope: &Scope<'_>, cursor: &mut Cursor<'_>) -> Result<Option<Range>, Stop>
    ensures { Reads (opt
        (tok k.LParen ▸ ref Name.expr ▸ tok k.Comma ▸ ref Name.expr ▸ tok k.RParen))
        (IsRange (places scope.now)) cursor.old.rest.now result cursor.new.rest.now }
{
    if cursor.sees(TokenKind::LParen) {
        cursor.expect(TokenKind::LParen)?;
        let low = expr(alloc, scope, cursor)?;
        cursor.expect(TokenKind::Comma)?;
        let high = expr(alloc, scope, cursor)?;
        cursor.expect(TokenKind::RParen)?;
        Ok(Some(Range { low, high }))
    } else {
        Ok(None)
    }
}

fn any_of(place: usize, range: Option<Range>) -> Stmt
    ensures { result ≡ any_by place range }
{
    match range {
        Some(range) => Stmt::Between(place, range.low, range.high),
        None => Stmt::AnyOf(place),
    }
}

/// What is assigned to a place.
pub fn assigned_value(
    alloc: Global,
    scope: &Scope<'_>,
    cursor: &mut Cursor<'_>,
    place: usize,
) -> Result<Stmt, Stop>
    ensures { Reads (ref Name.assigned)
        (IsAssigned (places scope.now) place) cursor.old.rest.now result cursor.new.rest.now }
{
    if cursor.sees_expr() {
        let value = expr(alloc, scope, cursor)?;
        Ok(Stmt::Assign(place, value))
    } else {
        cursor.expect(TokenKind::Any)?;
        let range = bounds(alloc, scope, cursor)?;
        Ok(any_of(place, range))
    }
}

/// The condition of a branch or loop, or none where it chooses freely.
pub fn choice(
    alloc: Global,
    scope: &Scope<'_>,
    cursor: &mut Cursor<'_>,
) -> Result<Option<Cond>, Stop>
    ensures { Reads (ref Name.choice)
        (IsChoice (places scope.now)) cursor.old.rest.now result cursor.new.rest.now }
{
    if cursor.sees(TokenKind::Star) {
        cursor.expect(TokenKind::Star)?;
        Ok(None)
    } else {
        let condition = cond(alloc, scope, cursor)?;
        Ok(Some(condition))
    }
}
