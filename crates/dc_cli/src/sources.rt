//! What the texts of two versions and of a condition say.
ghost use Rattle.std.specs.Prelude.{◌≡◌, [], ◌∷◌, IfOk, IfErr, option_map};
ghost use Rattle.dc_program.specs.Programs.{IsProgram, IsCondition};
ghost use Rattle.dc_parse.specs.Answers.{SourceOutcome};
ghost use Rattle.dc_answers.specs.Sources.{SaysProgram, SaysCases, IsFaultIn, Say};
ghost use Rattle.dc_cli.specs.Texts.{AreRead, IsRefusalOf, IsFaultOf, IsCasesFault, IsMisread};

use dc_affine::Atom;
use dc_answers::{Refusal, Text, Wrong};
use dc_parse::{Kind, ParseFault, parse_proc, parse_when};
use dc_syntax::{Proc, same_params};
use sqlite_items::Items;
use std::alloc::{AllocError, Global};

/// Two programs with the same parameters, and the cases of a condition over these.
#[derive(Debug, Drop)]
pub struct Versions {
    pub new: Proc,
    pub old: Proc,
    pub cases: Items<Items<Atom>>,
}

/// What texts say. What is wrong is judged in this order: the new version's text, the old one's,
/// the parameters, the condition.
pub fn read_sources(
    alloc: Global,
    new: &[u8],
    old: &[u8],
    when: Option<&str>,
) -> Result<Versions, Refusal>
    ensures said { IfOk result (λ v. Say new.now old.now (option_map (λ z. z.now) when.entry) v.new
        v.old v.cases) }
    ensures read { IfOk result (λ v. AreRead v.new v.old v.cases) }
    ensures refused { IfErr result (IsMisread new.now old.now (option_map (λ z. z.now) when.entry)) }
{
    let new = program_in(alloc, Text::New, new)?;
    let old = program_in(alloc, Text::Old, old)?;
    if !same_params(&new, &old) {
        return Err(Refusal::Source(Text::Old, Wrong::ParametersDiffer));
    }
    let cases = cases_in(alloc, when, &new)?;
    Ok(Versions { new, old, cases })
}

/// The program that a source says.
fn program_in(alloc: Global, at: Text, text: &[u8]) -> Result<Proc, Refusal>
    ensures says { IfOk result (SaysProgram text.now) }
    ensures program { IfOk result IsProgram }
    ensures refused { IfErr result (IsFaultOf at (IsFaultIn (SourceOutcome text.now) text.now)) }
{
    match parse_proc(alloc, text) {
        Ok(tree) => Ok(tree),
        Err(fault) => Err(refusal_of(at, fault)),
    }
}

/// The cases of a condition over a program's parameters; without a condition, the one case without
/// atoms.
fn cases_in(alloc: Global, when: Option<&str>, p: &Proc) -> Result<Items<Items<Atom>>, Refusal>
    requires { IsProgram p.now }
    ensures says { IfOk result (SaysCases (option_map (λ z. z.now) when.entry) p.now) }
    ensures condition { IfOk result (IsCondition p.now.params) }
    ensures refused { IfErr result (IsCasesFault (option_map (λ z. z.now) when.entry) p.now) }
{
    let Some(text) = when else {
        return match no_condition(alloc) {
            Ok(cases) => Ok(cases),
            Err(AllocError) => Err(Refusal::NoMemory),
        };
    };
    match parse_when(alloc, text.as_bytes(), p) {
        Ok(cases) => Ok(cases),
        Err(fault) => Err(refusal_of(Text::When, fault)),
    }
}

/// The one case without atoms.
fn no_condition(alloc: Global) -> Result<Items<Items<Atom>>, AllocError>
    ensures { IfOk result (λ cases. cases ≡ [] ∷ []) }
{
    let mut cases = Items::new(alloc);
    cases.push(Items::new(alloc))?;
    Ok(cases)
}

/// The fault of a text as a refusal.
fn refusal_of(at: Text, fault: ParseFault) -> Refusal
    ensures { IsRefusalOf at fault result }
{
    match fault.kind {
        Kind::NoMemory => Refusal::NoMemory,
        _ => Refusal::Source(at, Wrong::Parse(fault)),
    }
}
