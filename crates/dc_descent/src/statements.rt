//! Statements.
ghost use Rattle.std.specs.Prelude.{◌≡◌, [], ◌∷◌, ◌++◌, OnOk};
ghost use Rattle.dc_tokens.specs.declared.token.TokenKind.TheVariants as k;
ghost use Rattle.dc_grammar.specs.Grammar.{ref, tok, opt, many, ◌▸◌, left, right};
ghost use Rattle.dc_grammar.specs.Language.{Name};
ghost use Rattle.dc_descent.specs.Reads.{Reads};
ghost use Rattle.dc_descent.specs.Scopes.{places};
ghost use Rattle.dc_descent.specs.Statements.{IsWith, branch_by, loop_by, stmt_of, stmts_of, block_of, else_of, stmt_starts, inner_starts, starts_of, block_starts, else_starts};
ghost use Rattle.dc_descent.specs.Alternatives.{IsSkip, IsTick, IsAssume, IsAssign, branch_of, loop_of, branch_starts, loop_starts};

use crate::conditions::cond;
use crate::cursor::{Cursor, Stop};
use crate::expressions::expr;
use crate::parts::{assigned_value, choice};
use crate::scope::Scope;
use dc_syntax::{Cond, Stmt};
use dc_tokens::TokenKind;
use sqlite_items::Items;
use std::alloc::{AllocError, Global};

fn skip(cursor: &mut Cursor<'_>) -> Result<Stmt, Stop>
    ensures { Reads (tok k.Skip ▸ tok k.Semi) IsSkip
        cursor.old.rest.now result cursor.new.rest.now }
{
    cursor.expect(TokenKind::Skip)?;
    cursor.expect(TokenKind::Semi)?;
    Ok(Stmt::Skip)
}

fn tick(alloc: Global, scope: &Scope<'_>, cursor: &mut Cursor<'_>) -> Result<Stmt, Stop>
    ensures { Reads (tok k.Tick ▸ ref Name.expr ▸ tok k.Semi)
        (IsTick (places scope.now)) cursor.old.rest.now result cursor.new.rest.now }
{
    cursor.expect(TokenKind::Tick)?;
    let cost = expr(alloc, scope, cursor)?;
    cursor.expect(TokenKind::Semi)?;
    Ok(Stmt::Tick(cost))
}

fn assume(alloc: Global, scope: &Scope<'_>, cursor: &mut Cursor<'_>) -> Result<Stmt, Stop>
    ensures { Reads (tok k.Assume ▸ tok k.LParen ▸ ref Name.cond ▸ tok k.RParen ▸ tok k.Semi)
        (IsAssume (places scope.now)) cursor.old.rest.now result cursor.new.rest.now }
{
    cursor.expect(TokenKind::Assume)?;
    cursor.expect(TokenKind::LParen)?;
    let condition = cond(alloc, scope, cursor)?;
    cursor.expect(TokenKind::RParen)?;
    cursor.expect(TokenKind::Semi)?;
    Ok(Stmt::Assume(condition))
}

fn assign(alloc: Global, scope: &Scope<'_>, cursor: &mut Cursor<'_>) -> Result<Stmt, Stop>
    ensures { Reads (tok k.Name ▸ tok k.Assign ▸ ref Name.assigned ▸ tok k.Semi)
        (IsAssign (places scope.now)) cursor.old.rest.now result cursor.new.rest.now }
{
    let name = cursor.expect(TokenKind::Name)?;
    cursor.expect(TokenKind::Assign)?;
    let statement = assigned_value(alloc, scope, cursor, scope.place(name))?;
    cursor.expect(TokenKind::Semi)?;
    Ok(statement)
}

/// Keeps the offset at which a statement begins.
fn begin(starts: &mut Vec<usize>, offset: usize) -> Result<(), AllocError>
    ensures { OnOk result (starts.new.items ≡ starts.old.items ++ offset ∷ []) }
{
    starts.push(offset)?;
    Ok(())
}

fn branch_stmt(condition: Option<Cond>, yes: Items<Stmt>, no: Items<Stmt>) -> Stmt
    ensures { result ≡ branch_by condition yes no }
{
    match condition {
        Some(condition) => Stmt::If(condition, yes, no),
        None => Stmt::IfAny(yes, no),
    }
}

fn loop_stmt(condition: Option<Cond>, body: Items<Stmt>) -> Stmt
    ensures { result ≡ loop_by condition body }
{
    match condition {
        Some(condition) => Stmt::While(condition, body),
        None => Stmt::WhileAny(body),
    }
}

#[cycle(statements)]
fn branch(
    alloc: Global,
    scope: &Scope<'_>,
    cursor: &mut Cursor<'_>,
    starts: &mut Vec<usize>,
) -> Result<Stmt, Stop>
    ensures { Reads
        (tok k.If ▸ tok k.LParen ▸ ref Name.choice ▸ tok k.RParen ▸ ref Name.block
        ▸ opt (tok k.Else ▸ ref Name.block))
        (IsWith (branch_of (places scope.now)) branch_starts starts.old.items starts.new.items)
        cursor.old.rest.now result cursor.new.rest.now }
{
    cursor.expect(TokenKind::If)?;
    cursor.expect(TokenKind::LParen)?;
    let condition = choice(alloc, scope, cursor)?;
    cursor.expect(TokenKind::RParen)?;
    let yes = block(alloc, scope, cursor, starts)?;
    let no = otherwise(alloc, scope, cursor, starts)?;
    Ok(branch_stmt(condition, yes, no))
}

#[cycle(statements)]
fn otherwise(
    alloc: Global,
    scope: &Scope<'_>,
    cursor: &mut Cursor<'_>,
    starts: &mut Vec<usize>,
) -> Result<Items<Stmt>, Stop>
    ensures { Reads (opt (tok k.Else ▸ ref Name.block))
        (IsWith (else_of (places scope.now)) else_starts starts.old.items starts.new.items)
        cursor.old.rest.now result cursor.new.rest.now }
{
    if cursor.sees(TokenKind::Else) {
        cursor.expect(TokenKind::Else)?;
        let body = block(alloc, scope, cursor, starts)?;
        Ok(body)
    } else {
        Ok(Items::new(alloc))
    }
}

#[cycle(statements)]
fn repeat(
    alloc: Global,
    scope: &Scope<'_>,
    cursor: &mut Cursor<'_>,
    starts: &mut Vec<usize>,
) -> Result<Stmt, Stop>
    ensures { Reads (tok k.While ▸ tok k.LParen ▸ ref Name.choice ▸ tok k.RParen ▸ ref Name.block)
        (IsWith (loop_of (places scope.now)) loop_starts starts.old.items starts.new.items)
        cursor.old.rest.now result cursor.new.rest.now }
{
    cursor.expect(TokenKind::While)?;
    cursor.expect(TokenKind::LParen)?;
    let condition = choice(alloc, scope, cursor)?;
    cursor.expect(TokenKind::RParen)?;
    let body = block(alloc, scope, cursor, starts)?;
    Ok(loop_stmt(condition, body))
}

#[cycle(statements)]
fn block(
    alloc: Global,
    scope: &Scope<'_>,
    cursor: &mut Cursor<'_>,
    starts: &mut Vec<usize>,
) -> Result<Items<Stmt>, Stop>
    ensures { Reads (ref Name.block)
        (IsWith (block_of (places scope.now)) block_starts starts.old.items starts.new.items)
        cursor.old.rest.now result cursor.new.rest.now }
{
    cursor.expect(TokenKind::LBrace)?;
    let body = stmts(alloc, scope, cursor, starts)?;
    cursor.expect(TokenKind::RBrace)?;
    Ok(body)
}

#[cycle(statements)]
fn stmt(
    alloc: Global,
    scope: &Scope<'_>,
    cursor: &mut Cursor<'_>,
    starts: &mut Vec<usize>,
) -> Result<Stmt, Stop>
    ensures { Reads (ref Name.stmt)
        (IsWith (stmt_of (places scope.now)) stmt_starts starts.old.items starts.new.items)
        cursor.old.rest.now result cursor.new.rest.now }
{
    begin(starts, cursor.offset())?;
    if cursor.sees(TokenKind::Skip) {
        skip(cursor)
    } else if cursor.sees(TokenKind::Tick) {
        tick(alloc, scope, cursor)
    } else if cursor.sees(TokenKind::Assume) {
        assume(alloc, scope, cursor)
    } else if cursor.sees(TokenKind::Name) {
        assign(alloc, scope, cursor)
    } else if cursor.sees(TokenKind::If) {
        branch(alloc, scope, cursor, starts)
    } else {
        repeat(alloc, scope, cursor, starts)
    }
}

/// Statements, as many as there are, with the offsets at which they and those inside them begin.
#[cycle(statements)]
pub fn stmts(
    alloc: Global,
    scope: &Scope<'_>,
    cursor: &mut Cursor<'_>,
    starts: &mut Vec<usize>,
) -> Result<Items<Stmt>, Stop>
    ensures { Reads (many (ref Name.stmt))
        (IsWith (stmts_of (places scope.now)) starts_of starts.old.items starts.new.items)
        cursor.old.rest.now result cursor.new.rest.now }
{
    let mut found = Items::new(alloc);
    'stmts: while cursor.sees_stmt() {
        let one = stmt(alloc, scope, cursor, starts)?;
        found.push(one)?;
    }
    Ok(found)
}
