//! Both versions: systems and candidates, within their limits.
ghost use Rattle.std.specs.Prelude.{◌≡◌, ◌++◌, IfOk, IfErr, OnOk, None, flat_map};
ghost use Rattle.std.specs.List.{AllByRecursion};
ghost use Rattle.dc_affine.specs.Atoms.{IsAtom};
ghost use Rattle.dc_program.specs.Programs.{IsProgram};
ghost use Rattle.dc_rows.specs.Candidate.{AreCandidates, candidates_of};
ghost use Rattle.dc_system.specs.Folded.{IsFolded};
ghost use Rattle.dc_system.specs.Shapes.{IsWellFormed};
ghost use Rattle.dc_system.specs.Systems.{system_of};
ghost use Rattle.dc_session.specs.Answers.{IsInput};
ghost use Rattle.dc_session.specs.Refusals.{early_excess, rows_excess, system_excess};
ghost use Rattle.dc_engine.specs.Faults.{IsExcess};
ghost use Rattle.dc_engine.specs.Parts.{ArePlain, AreVersions, input_of};

use crate::fault::{of_rows, of_system};
use crate::lent::{Lent, Version, Versions};
use dc_affine::Atom;
use dc_rows::{Candidates, candidates};
use dc_session::AnalyseFault;
use dc_syntax::{Proc, Side};
use dc_system::{System, build, fold};
use sqlite_items::Items;
use std::alloc::{AllocError, Global};

/// The systems of both programs before folding.
#[derive(Drop)]
pub(crate) struct Plain {
    pub new: System,
    pub old: System,
}

/// The system of a side before folding.
fn build_system(alloc: Global, side: Side, p: &Proc) -> Result<System, AnalyseFault>
    requires program { IsProgram p.now }
    ensures system { IfOk result (λ s. s ≡ system_of p.now) }
    ensures well_formed { IfOk result (λ s. IsWellFormed s) }
    ensures within { IfOk result (λ s. system_excess side p.now ≡ None) }
    ensures fault { IfErr result (IsExcess (system_excess side p.now)) }
{
    match build(alloc, p) {
        Ok(system) => Ok(system),
        Err(fault) => Err(of_system(side, fault)),
    }
}

/// The candidates of a side.
fn list_candidates(
    alloc: Global,
    side: Side,
    s: &System,
    atoms: &[Atom],
    pairs: bool,
) -> Result<Candidates, AnalyseFault>
    requires system { IsWellFormed s.now }
    requires atoms { AllByRecursion (IsAtom s.now.params) atoms.now }
    ensures list { IfOk result (λ c. c ≡ candidates_of s.now atoms.now pairs) }
    ensures kind { IfOk result (λ c. AreCandidates s.now.vars c) }
    ensures within { IfOk result
        (λ c. rows_excess side (candidates_of s.now atoms.now pairs) ≡ None) }
    ensures fault { IfErr result
        (IsExcess (rows_excess side (candidates_of s.now atoms.now pairs))) }
{
    match candidates(alloc, s, atoms, pairs) {
        Ok(list) => Ok(list),
        Err(fault) => Err(of_rows(side, fault)),
    }
}

/// Adds the atoms of a case.
fn add(alloc: Global, list: &mut Vec<Atom>, case: &[Atom]) -> Result<(), AllocError>
    ensures { OnOk result (list.new.items ≡ list.old.items ++ case.now) }
{
    for atom in case {
        list.push(atom.copy(alloc)?)?;
    }
    Ok(())
}

/// The atoms of all cases, in order.
fn flat(alloc: Global, cases: &[Items<Atom>]) -> Result<Vec<Atom>, AllocError>
    ensures { IfOk result (λ v. v.items ≡ flat_map (λ case. case) cases.now) }
{
    let mut atoms = Vec::new(alloc);
    for case in cases {
        add(alloc, &mut atoms, case.as_slice())?;
    }
    Ok(atoms)
}

/// The systems of both programs, new before old.
fn plain_systems(alloc: Global, t: &Lent) -> Result<Plain, AnalyseFault>
    requires input { IsInput (input_of t.now) }
    ensures systems { IfOk result (ArePlain (input_of t.now)) }
    ensures fault { IfErr result (IsExcess (early_excess (input_of t.now))) }
{
    let new = match build_system(alloc, Side::New, t.new) {
        Ok(system) => system,
        Err(fault) => return Err(fault),
    };
    let old = match build_system(alloc, Side::Old, t.old) {
        Ok(system) => system,
        Err(fault) => return Err(fault),
    };
    Ok(Plain { new, old })
}

/// A version, with its system folded.
fn fold_version(
    alloc: Global,
    system: &System,
    candidates: Candidates,
) -> Result<Version, AllocError>
    requires system { IsWellFormed system.now }
    ensures folded { IfOk result (λ v. IsFolded system.now v.system) }
    ensures well_formed { IfOk result (λ v. IsWellFormed v.system) }
    ensures candidates { IfOk result (λ v. v.candidates ≡ candidates) }
{
    let system = fold(alloc, system)?;
    Ok(Version { system, candidates })
}

/// Both versions: the systems, new before old, and then the candidates, new before old.
pub(crate) fn both_versions(alloc: Global, t: &Lent) -> Result<Versions, AnalyseFault>
    requires input { IsInput (input_of t.now) }
    ensures versions { IfOk result (AreVersions (input_of t.now)) }
    ensures counts { IfOk result (λ v. early_excess (input_of t.now) ≡ None) }
    ensures fault { IfErr result (IsExcess (early_excess (input_of t.now))) }
{
    let plain = match plain_systems(alloc, t) {
        Ok(plain) => plain,
        Err(fault) => return Err(fault),
    };
    let Ok(atoms) = flat(alloc, t.cases) else {
        return Err(AnalyseFault::NoMemory);
    };
    let new = match list_candidates(alloc, Side::New, &plain.new, &atoms, t.settings.pairs) {
        Ok(list) => list,
        Err(fault) => return Err(fault),
    };
    let old = match list_candidates(alloc, Side::Old, &plain.old, &atoms, t.settings.pairs) {
        Ok(list) => list,
        Err(fault) => return Err(fault),
    };
    let Ok(new) = fold_version(alloc, &plain.new, new) else {
        return Err(AnalyseFault::NoMemory);
    };
    let Ok(old) = fold_version(alloc, &plain.old, old) else {
        return Err(AnalyseFault::NoMemory);
    };
    Ok(Versions { new, old })
}
