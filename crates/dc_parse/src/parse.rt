//! From a text to a procedure, and to the cases of a condition.
ghost use Rattle.std.specs.Prelude.{◌≡◌, ◌≤◌, ◌⊎◌, length, map, take, IfOk, IfErr, OnOk, IsAscii};
ghost use Rattle.std.specs.String.{string_bytes};
ghost use Rattle.dc_tokens.specs.declared.token.LexFault.{LexFault as AnyLexFault};
ghost use Rattle.dc_tokens.specs.Lines.{line_at, column_at};
ghost use Rattle.dc_tokens.specs.Texts.{Tokens, Fails};
ghost use Rattle.dc_syntax.specs.Params.{params_of};
ghost use Rattle.dc_affine.specs.Atoms.{cases_of};
ghost use Rattle.dc_grammar.specs.Language.{source, cond};
ghost use Rattle.dc_descent.specs.Scopes.{places};
ghost use Rattle.dc_descent.specs.Sources.{IsSource};
ghost use Rattle.dc_descent.specs.Statements.{head_at};
ghost use Rattle.dc_descent.specs.Trees.{IsCond};
ghost use Rattle.dc_program.specs.Programs.{IsProgram, IsCondition};
ghost use Rattle.dc_parse.specs.Outcomes.{says, refuses};
ghost use Rattle.dc_parse.specs.Outcomes.{lexed as fault_of};
ghost use Rattle.dc_parse.specs.Steps.{IsFound};
ghost use Rattle.dc_parse.specs.Answers.{SourceOutcome, ConditionOutcome, IsRefusal};

use crate::fault::{Fault, Kind, raise};
use crate::forms::{Starts, form_kind, judge_all};
use dc_affine::{Atom, dnf};
use dc_descent::{Scope, Source, first_unknown, read_condition, read_source, spelling};
use dc_syntax::{Cond, Name, Proc, ascii_text};
use dc_tokens::{LexFault, Token, line_col, tokens};
use sqlite_items::Items;
use std::alloc::{AllocError, Global};
use thiserror::Error;

/// Why a text is refused, and where: lines and columns count from 1, and want of memory stands at 0:0.
#[derive(Debug, Drop, Error)]
#[error("the text is refused")]
pub struct ParseFault {
    pub line: u32,
    pub col: u32,
    pub kind: Kind,
}

/// The most bytes that a text may have.
const LONGEST: usize = 65536;

fn lex_fault(fault: LexFault) -> Fault
    ensures { result ≡ fault_of fault }
{
    match fault {
        LexFault::NotAscii(at) => Fault {
            kind: Kind::NotAscii,
            at,
        },
        LexFault::BadCharacter(at) => Fault {
            kind: Kind::BadCharacter,
            at,
        },
        LexFault::LiteralTooWide(at) => Fault {
            kind: Kind::LiteralTooWide,
            at,
        },
        LexFault::NoMemory => Fault::want(),
    }
}

/// The tokens of a text.
fn lex(alloc: Global, text: &[u8]) -> Result<Vec<Token>, Fault>
    ensures tokens { IfOk result (λ v. Tokens 0 text.now v.items) }
    ensures ascii { OnOk result (IsAscii text.now) }
    ensures fault { IfErr result
        (λ f. (f.kind ≡ Kind.NoMemory)
        ⊎ ((e : AnyLexFault) × Fails 0 text.now e × (f ≡ fault_of e))) }
{
    match tokens(alloc, text) {
        Ok(found) => Ok(found),
        Err(fault) => Err(lex_fault(fault)),
    }
}

/// The source that the tokens of a text are.
fn source_of(alloc: Global, text: &[u8], tokens: &[Token]) -> Result<Source, Fault>
    requires { IsAscii text.now }
    ensures { IsFound source (IsSource text.now) tokens.now (length text.now) result }
{
    match read_source(alloc, text, tokens) {
        Ok(found) => Ok(found),
        Err(fault) => Err(raise(fault)),
    }
}

/// The condition that the tokens of a text are, over the names of the scope.
fn condition_of(alloc: Global, scope: &Scope<'_>, tokens: &[Token]) -> Result<Cond, Fault>
    ensures { IsFound cond (IsCond (places scope.now)) tokens.now (length scope.now.text.now) result }
{
    match read_condition(alloc, scope, tokens) {
        Ok(found) => Ok(found),
        Err(fault) => Err(raise(fault)),
    }
}

/// The offset of the first token; 0 where there is none.
fn first_offset(tokens: &[Token]) -> usize
    ensures { result ≡ head_at tokens.now }
{
    match tokens.first() {
        Some(first) => first.at,
        None => 0,
    }
}

/// The procedure of a text that is not too long, or what is wrong first.
fn read_proc(alloc: Global, text: &[u8]) -> Result<Proc, Fault>
    requires short { length text.now ≤ 65536 }
    ensures says { IfOk result (λ p. SourceOutcome text.now (says p)) }
    ensures program { IfOk result (λ p. IsProgram p) }
    ensures fault { IfErr result (λ f. (f.kind ≡ Kind.NoMemory) ⊎ SourceOutcome text.now (refuses f)) }
{
    let tokens = lex(alloc, text)?;
    let source = source_of(alloc, text, tokens.as_slice())?;
    let body = source.body;
    if let Some(fault) = body.fault {
        return Err(raise(fault));
    }
    let mut starts = Starts {
        rest: body.starts.as_slice(),
    };
    judge_all(alloc, body.stmts.as_slice(), body.names.len(), &mut starts)?;
    let name = ascii_text(alloc, spelling(text, source.name))?;
    Ok(Proc {
        name: Name::new(name),
        names: body.names,
        params: source.params,
        body: body.stmts,
    })
}

/// The names of a procedure's parameters.
fn params(p: &Proc) -> &[String]
    requires { p.now.params ≤ length p.now.names }
    ensures { map string_bytes result.now ≡ params_of p.now }
{
    let names = p.names.as_slice();
    &names[..p.params]
}

/// The cases of a condition in a text that is not too long, or what is wrong first.
fn read_when(alloc: Global, text: &[u8], p: &Proc) -> Result<Vec<Vec<Atom>>, Fault>
    requires short { length text.now ≤ 65536 }
    requires program { IsProgram p.now }
    ensures says { IfOk result
        (λ v. ConditionOutcome (params_of p.now) text.now (says (cases_of v.items))) }
    ensures condition { IfOk result (λ v. IsCondition p.now.params (cases_of v.items)) }
    ensures fault { IfErr result
        (λ f. (f.kind ≡ Kind.NoMemory) ⊎ ConditionOutcome (params_of p.now) text.now (refuses f)) }
{
    let tokens = lex(alloc, text)?;
    let scope = Scope {
        text,
        names: params(p),
    };
    let condition = condition_of(alloc, &scope, tokens.as_slice())?;
    if let Some(fault) = first_unknown(&scope, tokens.as_slice()) {
        return Err(raise(fault));
    }
    match dnf(alloc, &condition, false, p.params) {
        Ok(cases) => Ok(cases),
        Err(fault) => Err(Fault {
            kind: form_kind(fault),
            at: first_offset(tokens.as_slice()),
        }),
    }
}

fn too_long() -> ParseFault
    ensures { (result.line ≡ 1) × (result.col ≡ 1) × (result.kind ≡ Kind.TooLong) }
{
    ParseFault {
        line: 1,
        col: 1,
        kind: Kind::TooLong,
    }
}

/// A fault with the line and the column of its byte.
fn locate(text: &[u8], fault: Fault) -> ParseFault
    requires { length text.now ≤ 65536 }
    ensures kind { result.kind ≡ fault.kind }
    ensures want { fault.kind ≡ Kind.NoMemory → (result.line ≡ 0) × (result.col ≡ 0) }
    ensures offset { (fault.kind ≡ Kind.NoMemory → ⊥) → (result.line ≡ line_at text.now fault.at)
        × (result.col ≡ column_at text.now fault.at) }
{
    if matches!(fault.kind, Kind::NoMemory) {
        return ParseFault {
            line: 0,
            col: 0,
            kind: fault.kind,
        };
    }
    let (line, col) = line_col(text, fault.at.min(text.len()));
    ParseFault {
        line,
        col,
        kind: fault.kind,
    }
}

/// The procedure that a text says, or the first thing that is wrong with the text.
///
/// What is wrong is judged in this order: `TooLong`; a byte of 128 or more, a byte that begins no
/// token, or a number that is too wide, the first by offset; a token with which no text goes on, an
/// end that comes too soon, or a token that nests too deep, the first by offset; the 11th declared
/// name, a name that is declared twice, or the use of a name that isn't declared, the first by
/// offset; and in the first statement in preorder with such a fault, at the statement's first token,
/// the first fault of its forms and conditions.
pub fn parse_proc(alloc: Global, text: &[u8]) -> Result<Proc, ParseFault>
    ensures says { IfOk result (λ p. SourceOutcome text.now (says p)) }
    ensures program { IfOk result (λ p. IsProgram p) }
    ensures fault { IfErr result
        (λ f. IsRefusal (SourceOutcome text.now) text.now f.line f.col f.kind) }
{
    if text.len() > LONGEST {
        return Err(too_long());
    }
    match read_proc(alloc, text) {
        Ok(found) => Ok(found),
        Err(fault) => Err(locate(text, fault)),
    }
}

/// Vectors of atoms as plain lists.
fn lists(alloc: Global, cases: Vec<Vec<Atom>>) -> Result<Items<Items<Atom>>, AllocError>
    ensures { IfOk result (λ v. v ≡ cases_of cases.items) }
{
    let mut all = Items::new(alloc);
    for case in cases {
        all.push(Items::from_vec(case))?;
    }
    Ok(all)
}

/// The cases of the condition that a text says over the parameters of a procedure: 1 to 64
/// conjunctions of affine atoms, of which one holds exactly where the condition is true.
///
/// What is wrong is judged as for [`parse_proc`]; the declared names are the parameters, and a
/// fault of the condition stands at the first token.
pub fn parse_when(alloc: Global, text: &[u8], p: &Proc) -> Result<Items<Items<Atom>>, ParseFault>
    requires { IsProgram p.now }
    ensures says { IfOk result (λ v. ConditionOutcome (params_of p.now) text.now (says v)) }
    ensures condition { IfOk result (λ v. IsCondition p.now.params v) }
    ensures fault { IfErr result
        (λ f. IsRefusal (ConditionOutcome
        (params_of p.now) text.now) text.now f.line f.col f.kind) }
{
    if text.len() > LONGEST {
        return Err(too_long());
    }
    let cases = match read_when(alloc, text, p) {
        Ok(found) => found,
        Err(fault) => return Err(locate(text, fault)),
    };
    match lists(alloc, cases) {
        Ok(found) => Ok(found),
        Err(_) => Err(locate(text, Fault::want())),
    }
}
