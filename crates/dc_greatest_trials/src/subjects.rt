//! From a source and a condition to the printed atoms and what shows them.
ghost use Rattle.std.specs.Prelude.{◌≡◌, ◌++◌, IfOk, OnOk};
ghost use Rattle.std.specs.List.{AllByRecursion};
ghost use Rattle.dc_affine.specs.Atoms.{AllCases, IsAtom, IsFullAtom};
ghost use Rattle.dc_syntax.specs.declared.tree.Side.TheVariants.{New};
ghost use Rattle.dc_points.specs.Flags.{IsFlag, AreFlags};
ghost use Rattle.dc_greatest.specs.Answers.{TellsGreatest};
ghost use Rattle.dc_greatest_trials.specs.Subjects.{AreLent, CanBeShown};

use dc_affine::Atom;
use dc_cert::SideCert;
use dc_entail::{Emptiness, empty};
use dc_invariant::{Family, InvFault, greatest, keep_proofs, prune};
use dc_lp::Tableau;
use dc_parse::{parse_proc, parse_when};
use dc_rows::{Candidates, candidates};
use dc_simplex::{Dense, SolveFault};
use dc_syntax::Side;
use dc_system::{System, build};
use sqlite_items::Items;
use std::alloc::{AllocError, Global};
use std::test::Fail;

/// What the calls on families are lent.
#[derive(Drop)]
pub(crate) struct Subject {
    pub system: System,
    pub cases: Items<Items<Atom>>,
    pub live: Vec<bool>,
    pub candidates: Candidates,
}

/// Many pivots.
pub(crate) const ENOUGH: u64 = 100000;

// The atoms of a case at the end of a list.
fn put_atoms(alloc: Global, all: &mut Vec<Atom>, case: &[Atom]) -> Result<(), AllocError>
    ensures { OnOk result (all.new.items ≡ all.old.items ++ case.now) }
{
    for atom in case {
        all.push(atom.copy(alloc)?)?;
    }
    Ok(())
}

// The atoms of all cases.
fn all_atoms(alloc: Global, cases: &[Items<Atom>], places: usize) -> Result<Vec<Atom>, AllocError>
    requires { AllCases (IsFullAtom places) cases.now }
    ensures { IfOk result (λ v. AllByRecursion (IsAtom places) v.items) }
{
    let mut all = Vec::new(alloc);
    for case in cases {
        put_atoms(alloc, &mut all, case.as_slice())?;
    }
    Ok(all)
}

// Whether a case is live.
fn is_live(alloc: Global, case: &[Atom], places: usize) -> Result<bool, SolveFault>
    requires { AllByRecursion (IsFullAtom places) case.now }
    ensures { IfOk result (λ b. IsFlag b case.now) }
{
    match empty(alloc, case, places, &mut Dense::new(alloc), ENOUGH)? {
        Emptiness::Dead { .. } => Ok(false),
        Emptiness::Live { .. } => Ok(true),
    }
}

// The flags of cases.
fn live_flags(alloc: Global, cases: &[Items<Atom>], places: usize) -> Result<Vec<bool>, Fail>
    requires { AllCases (IsFullAtom places) cases.now }
    ensures { IfOk result (λ v. AreFlags v.items cases.now) }
{
    let mut flags = Vec::new(alloc);
    for case in cases {
        flags.push(is_live(alloc, case.as_slice(), places)?)?;
    }
    Ok(flags)
}

/// The system of a source, the cases of a condition with their flags, and the candidates.
pub(crate) fn read_subject(
    alloc: Global,
    source: &str,
    when: &str,
    pairs: bool,
) -> Result<Subject, Fail>
    ensures { IfOk result (λ s. AreLent s.system s.cases s.live.items s.candidates) }
{
    let p = parse_proc(alloc, source.as_bytes())?;
    let system = build(alloc, &p)?;
    let cases = parse_when(alloc, when.as_bytes(), &p)?;
    let live = live_flags(alloc, cases.as_slice(), system.params)?;
    let atoms = all_atoms(alloc, cases.as_slice(), system.params)?;
    let candidates = candidates(alloc, &system, atoms.as_slice(), pairs)?;
    Ok(Subject {
        system,
        cases,
        live,
        candidates,
    })
}

/// The greatest family.
pub(crate) fn family<T: Tableau>(
    alloc: Global,
    s: &Subject,
    tableau: &mut T,
    budget: u64,
) -> Result<Family, InvFault>
    requires { AreLent s.now.system s.now.cases s.now.live.items s.now.candidates }
    ensures { IfOk result (λ f. TellsGreatest New s.now.system s.now.cases s.now.live.items s.now.candidates budget f.at) }
{
    greatest(
        alloc,
        Side::New,
        &s.system,
        s.cases.as_slice(),
        s.live.as_slice(),
        &s.candidates,
        tableau,
        budget,
    )
}

/// The printed atoms of the greatest family.
pub(crate) fn printed_atoms<T: Tableau>(
    alloc: Global,
    s: &Subject,
    tableau: &mut T,
    budget: u64,
) -> Result<Items<Items<Atom>>, InvFault>
    requires { AreLent s.now.system s.now.cases s.now.live.items s.now.candidates }
    ensures { IfOk result (CanBeShown s.now.system s.now.cases) }
{
    let f = match family(alloc, s, tableau, budget) {
        Ok(f) => f,
        Err(fault) => return Err(fault),
    };
    prune(
        alloc,
        Side::New,
        &s.system,
        &s.candidates,
        &f,
        tableau,
        budget,
    )
}

/// What shows printed atoms.
pub(crate) fn evidence<T: Tableau>(
    alloc: Global,
    s: &Subject,
    printed: Items<Items<Atom>>,
    tableau: &mut T,
    budget: u64,
) -> Result<SideCert, InvFault>
    requires subject { AreLent s.now.system s.now.cases s.now.live.items s.now.candidates }
    requires printed { CanBeShown s.now.system s.now.cases printed }
{
    keep_proofs(
        alloc,
        Side::New,
        &s.system,
        s.cases.as_slice(),
        s.live.as_slice(),
        printed,
        tableau,
        budget,
    )
}
