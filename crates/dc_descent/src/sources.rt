//! Sources.
ghost use Rattle.std.specs.Prelude.{◌≡◌, ◌≤◌, ◌++◌, List, length, IsAscii};
ghost use Rattle.dc_tokens.specs.declared.token.Token.{Token as AnyToken};
ghost use Rattle.dc_grammar.specs.Grammar.{ref, many};
ghost use Rattle.dc_grammar.specs.Language.{Name};
ghost use Rattle.dc_descent.specs.Reads.{Reads};
ghost use Rattle.dc_descent.specs.Sources.{IsBody, IsSource};

use crate::cursor::{Cursor, Stop};
use crate::fault::Fault;
use crate::names::{declare, first_unknown, locals, params};
use crate::scope::Scope;
use crate::statements::stmts;
use dc_syntax::{Names, Stmt};
use dc_tokens::{Token, TokenKind};
use sqlite_items::Items;
use std::alloc::Global;

/// The statements of a source with its names, the first fault of these, and the offsets at which the
/// statements begin, in preorder. Where the names have a fault, the statements say nothing.
#[derive(Drop)]
pub struct Body {
    pub names: Names,
    pub fault: Option<Fault>,
    pub stmts: Items<Stmt>,
    pub starts: Vec<usize>,
}

/// The token of a source's name, the number of its parameters, and its statements.
#[derive(Drop)]
pub struct Source {
    pub name: Token,
    pub params: usize,
    pub body: Body,
}

/// The tokens that were read between what was left before and what is left after.
fn between<'a>(before: &'a [Token], after: &[Token]) -> &'a [Token]
    requires { length after.now ≤ length before.now }
    ensures { (used : List AnyToken) → before.now ≡ used ++ after.now → result.now ≡ used }
{
    &before[..before.len() - after.len()]
}

/// The statements of a source in which these tokens declare the names.
fn inside(
    alloc: Global,
    text: &[u8],
    tokens: &[Token],
    cursor: &mut Cursor<'_>,
) -> Result<Body, Stop>
    requires { IsAscii text.now }
    ensures { Reads (many (ref Name.stmt))
        (IsBody text.now tokens.now) cursor.old.rest.now result cursor.new.rest.now }
{
    let declared = declare(alloc, text, tokens)?;
    let scope = Scope {
        text,
        names: declared.names.as_slice(),
    };
    let mut starts = Vec::new(alloc);
    let before = cursor.rest;
    let stmts = stmts(alloc, &scope, cursor, &mut starts)?;
    let fault = match declared.fault {
        Some(fault) => Some(fault),
        None => first_unknown(&scope, between(before, cursor.rest)),
    };
    Ok(Body {
        names: declared.names,
        fault,
        stmts,
        starts,
    })
}

/// A source.
pub fn procedure(alloc: Global, text: &[u8], cursor: &mut Cursor<'_>) -> Result<Source, Stop>
    requires { IsAscii text.now }
    ensures { Reads (ref Name.source)
        (IsSource text.now) cursor.old.rest.now result cursor.new.rest.now }
{
    let mut found = Vec::new(alloc);
    cursor.expect(TokenKind::Proc)?;
    let name = cursor.expect(TokenKind::Name)?;
    cursor.expect(TokenKind::LParen)?;
    params(cursor, &mut found)?;
    let count = found.len();
    cursor.expect(TokenKind::RParen)?;
    cursor.expect(TokenKind::LBrace)?;
    locals(cursor, &mut found)?;
    let inside = inside(alloc, text, found.as_slice(), cursor)?;
    cursor.expect(TokenKind::RBrace)?;
    Ok(Source {
        name,
        params: count,
        body: inside,
    })
}
