//! The tokens of a whole text.
ghost use Rattle.std.specs.Prelude.{◌≡◌, ◌≤◌, length, IsAscii};
ghost use Rattle.dc_tokens.specs.declared.token.Token.{Token as AnyToken};
ghost use Rattle.dc_grammar.specs.Grammar.{ref};
ghost use Rattle.dc_grammar.specs.Language.{Name};
ghost use Rattle.dc_grammar.specs.Reading.{Out, Parses, rest};
ghost use Rattle.dc_grammar.specs.Readers.{language_reader};
ghost use Rattle.dc_descent.specs.Reading.{IsCut, IsRead, Tells};
ghost use Rattle.dc_descent.specs.Scopes.{places};
ghost use Rattle.dc_descent.specs.Sources.{IsSource};
ghost use Rattle.dc_descent.specs.Trees.{IsCond};

use crate::conditions::cond;
use crate::cursor::{Cursor, Stop};
use crate::fault::{Fault, Kind};
use crate::scope::Scope;
use crate::sources::{Source, procedure};
use dc_grammar::first_deep;
use dc_syntax::Cond;
use dc_tokens::Token;
use std::alloc::Global;

/// The tokens up to the first that is too deep, and its number.
fn shallow_front(tokens: &[Token]) -> (Option<usize>, &[Token])
    ensures { IsCut tokens.now result.0 result.1.now }
{
    let deep = first_deep(tokens);
    match deep {
        Some(index) => (deep, &tokens[..index + 1]),
        None => (deep, tokens),
    }
}

/// The fault at a token, where a reader of the tokens up to the first that is too deep left so many
/// of them.
fn fault_at(tokens: &[Token], deep: Option<usize>, part: &[Token], left: usize) -> Option<Fault>
    requires cut { IsCut tokens.now deep part.now }
    requires few { left ≤ length part.now }
    ensures { (x : Name) (o : Out AnyToken) → Parses language_reader (ref x) part.now o
        → length (rest o) ≡ left → Tells x tokens.now o result }
{
    if left > 0 {
        return Some(Fault {
            kind: Kind::Unexpected,
            at: tokens[part.len() - left].at,
        });
    }
    match deep {
        Some(index) => Some(Fault {
            kind: Kind::TooDeep,
            at: tokens[index].at,
        }),
        None => None,
    }
}

/// The source that the tokens of a text are.
pub fn read_source(alloc: Global, text: &[u8], tokens: &[Token]) -> Result<Source, Fault>
    requires { IsAscii text.now }
    ensures { IsRead Name.source (IsSource text.now) tokens.now (length text.now) result }
{
    let (deep, part) = shallow_front(tokens);
    let mut cursor = Cursor { rest: part };
    match procedure(alloc, text, &mut cursor) {
        Ok(found) => match fault_at(tokens, deep, part, cursor.rest.len()) {
            Some(fault) => Err(fault),
            None => Ok(found),
        },
        Err(Stop::Syntax) => match fault_at(tokens, deep, part, cursor.rest.len()) {
            Some(fault) => Err(fault),
            None => Err(Fault {
                kind: Kind::Unclosed,
                at: text.len(),
            }),
        },
        Err(Stop::NoMemory) => Err(Fault::want()),
    }
}

/// The condition that the tokens of a text are, over the names of the scope.
pub fn read_condition(alloc: Global, scope: &Scope<'_>, tokens: &[Token]) -> Result<Cond, Fault>
    ensures { IsRead Name.cond (IsCond (places scope.now)) tokens.now
        (length scope.now.text.now) result }
{
    let (deep, part) = shallow_front(tokens);
    let mut cursor = Cursor { rest: part };
    match cond(alloc, scope, &mut cursor) {
        Ok(found) => match fault_at(tokens, deep, part, cursor.rest.len()) {
            Some(fault) => Err(fault),
            None => Ok(found),
        },
        Err(Stop::Syntax) => match fault_at(tokens, deep, part, cursor.rest.len()) {
            Some(fault) => Err(fault),
            None => Err(Fault {
                kind: Kind::Unclosed,
                at: scope.text.len(),
            }),
        },
        Err(Stop::NoMemory) => Err(Fault::want()),
    }
}
