//! The names that a text declares and uses.
ghost use Rattle.std.specs.Prelude.{◌≡◌, [], ◌∷◌, ◌++◌, length, map, IfOk, OnOk, None, IsAscii};
ghost use Rattle.std.specs.String.{string_bytes};
ghost use Rattle.dc_tokens.specs.declared.token.TokenKind.TheVariants as k;
ghost use Rattle.dc_grammar.specs.Grammar.{ref, tok, opt, ◌▸◌};
ghost use Rattle.dc_grammar.specs.Language.{Name};
ghost use Rattle.dc_descent.specs.Faults.{declared_fault, used_fault, missing, unknown};
ghost use Rattle.dc_descent.specs.Reads.{Reads};
ghost use Rattle.dc_descent.specs.Scopes.{spelled};
ghost use Rattle.dc_descent.specs.Sources.{AddsNames, names_in, params_in, locals_in};

use crate::cursor::{Cursor, Stop, is_same_kind};
use crate::fault::{Fault, Kind};
use crate::scope::{Scope, place_of, spelling};
use dc_syntax::{Names, ascii_text};
use dc_tokens::{Token, TokenKind};
use std::alloc::{AllocError, Global};

/// The most names that a text may declare.
const MOST: usize = 10;

fn keep(found: &mut Vec<Token>, token: Token) -> Result<(), AllocError>
    ensures { OnOk result (found.new.items ≡ found.old.items ++ token ∷ []) }
{
    found.push(token)?;
    Ok(())
}

/// Names with commas between them.
fn names(cursor: &mut Cursor<'_>, found: &mut Vec<Token>) -> Result<(), Stop>
    ensures { Reads (ref Name.names) (AddsNames names_in found.old.items found.new.items)
        cursor.old.rest.now result cursor.new.rest.now }
{
    let first = cursor.expect(TokenKind::Name)?;
    keep(found, first)?;
    'commas: while cursor.sees(TokenKind::Comma) {
        cursor.expect(TokenKind::Comma)?;
        let next = cursor.expect(TokenKind::Name)?;
        keep(found, next)?;
    }
    Ok(())
}

/// The parameters.
pub fn params(cursor: &mut Cursor<'_>, found: &mut Vec<Token>) -> Result<(), Stop>
    ensures { Reads (opt (ref Name.names)) (AddsNames params_in found.old.items found.new.items)
        cursor.old.rest.now result cursor.new.rest.now }
{
    if cursor.sees(TokenKind::Name) {
        names(cursor, found)?;
        Ok(())
    } else {
        Ok(())
    }
}

/// The locals.
pub fn locals(cursor: &mut Cursor<'_>, found: &mut Vec<Token>) -> Result<(), Stop>
    ensures { Reads (opt (tok k.Var ▸ ref Name.names ▸ tok k.Semi))
        (AddsNames locals_in found.old.items found.new.items)
        cursor.old.rest.now result cursor.new.rest.now }
{
    if cursor.sees(TokenKind::Var) {
        cursor.expect(TokenKind::Var)?;
        names(cursor, found)?;
        cursor.expect(TokenKind::Semi)?;
        Ok(())
    } else {
        Ok(())
    }
}

/// The names that tokens declare, up to the first that is wrong.
#[derive(Drop)]
pub struct Declared {
    pub names: Names,
    pub fault: Option<Fault>,
}

/// The names that tokens declare: at most ten, and different.
pub fn declare(alloc: Global, text: &[u8], tokens: &[Token]) -> Result<Declared, AllocError>
    requires { IsAscii text.now }
    ensures fault { IfOk result (λ d. d.fault ≡ declared_fault text.now [] tokens.now) }
    ensures names { IfOk result
        (λ d. d.fault ≡ None → d.names ≡ map (spelled text.now) tokens.now) }
{
    let mut names = Names::new(alloc);
    for token in tokens {
        if names.len() >= MOST {
            let fault = Some(Fault {
                kind: Kind::TooManyNames,
                at: token.at,
            });
            return Ok(Declared { names, fault });
        }
        let name = ascii_text(alloc, spelling(text, *token))?;
        if !names.insert(name)? {
            let fault = Some(Fault {
                kind: Kind::NameTwice,
                at: token.at,
            });
            return Ok(Declared { names, fault });
        }
    }
    Ok(Declared { names, fault: None })
}

fn missing(place: Option<usize>, at: usize) -> Option<Fault>
    ensures { result ≡ missing place at }
{
    match place {
        Some(_) => None,
        None => Some(Fault {
            kind: Kind::UnknownName,
            at,
        }),
    }
}

/// The fault of a token that is a name which the text may not use.
fn unknown(scope: &Scope<'_>, token: Token) -> Option<Fault>
    ensures { result ≡ unknown scope.now.text.now (map string_bytes scope.now.names.now) token }
{
    if is_same_kind(TokenKind::Name, token.kind) {
        missing(place_of(scope.names, spelling(scope.text, token)), token.at)
    } else {
        None
    }
}

/// The first name among tokens that the text may not use.
pub fn first_unknown(scope: &Scope<'_>, tokens: &[Token]) -> Option<Fault>
    ensures { result
        ≡ used_fault scope.now.text.now (map string_bytes scope.now.names.now) tokens.now }
{
    for token in tokens {
        if let Some(fault) = unknown(scope, *token) {
            return Some(fault);
        }
    }
    None
}
