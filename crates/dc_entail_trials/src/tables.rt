//! Lists of atoms, questions on the dense tableau, and answers by their numbers.
ghost use Rattle.std.specs.Prelude.{◌≤◌, ◌<◌, ◌^◌, [], length, sum_by, unsigned_abs, IfOk};
ghost use Rattle.std.specs.List.{AllByRecursion};
ghost use Rattle.dc_affine.specs.Atoms.{AllFit, IsAtom};
ghost use Rattle.dc_points.specs.Points.{MeetsAt, MeetsAll, whole_point};
ghost use Rattle.dc_entail.specs.Answers.{TellsEmptiness};

use dc_affine::Atom;
use dc_entail::{Emptiness, Sup, empty, sup};
use dc_frac::Frac;
use dc_simplex::{Dense, SolveFault};
use sqlite_items::Items;
use std::alloc::{AllocError, Global};
use std::process::Abort;

/// "The constant and the sum of the coefficients times the places is at least 0."
pub(crate) fn atom(
    alloc: Global,
    c0: &i64,
    coefs: &[i64],
    places: usize,
) -> Result<Atom, AllocError>
    requires few { length coefs.now ≤ places }
    requires coefs { AllFit coefs.now }
    requires constant { unsigned_abs c0.now ≤ 2147483648 }
    ensures { IfOk result (λ a. IsAtom places a) }
{
    let list = Vec::from_slice(alloc, coefs)?;
    Ok(Atom {
        c0: *c0,
        coefs: Items::from_vec(list),
    })
}

/// An atom without constant, which holds where each place is 0.
pub(crate) fn atom_at_zero(alloc: Global, coefs: &[i64], places: usize) -> Result<Atom, AllocError>
    requires few { length coefs.now ≤ places }
    requires coefs { AllFit coefs.now }
    ensures atom { IfOk result (λ a. IsAtom places a) }
    ensures zero { IfOk result (λ a. MeetsAt (whole_point []) a) }
{
    let list = Vec::from_slice(alloc, coefs)?;
    Ok(Atom {
        c0: 0,
        coefs: Items::from_vec(list),
    })
}

/// Whether the atoms are dead, on a dense tableau.
pub(crate) fn ask_empty(
    alloc: Global,
    hyps: &[Atom],
    places: usize,
    budget: u64,
) -> Result<Emptiness, SolveFault>
    requires atoms { AllByRecursion (IsAtom places) hyps.now }
    ensures { IfOk result (TellsEmptiness hyps.now places budget) }
{
    empty(alloc, hyps, places, &mut Dense::new(alloc), budget)
}

/// From which number on the form is entailed by atoms that are found live first, on a dense tableau.
pub(crate) fn ask_sup(
    rt: &impl Abort,
    alloc: Global,
    hyps: &[Atom],
    form: &[i128],
    budget: u64,
) -> Result<Sup, SolveFault>
    requires atoms { AllByRecursion (IsAtom (length form.now)) hyps.now }
    requires light { sum_by unsigned_abs form.now < 2 ^ 70 }
{
    match ask_empty(alloc, hyps, form.len(), 1000) {
        Ok(Emptiness::Live { .. }) => sup(alloc, hyps, form, &mut Dense::new(alloc), budget),
        Ok(Emptiness::Dead { .. }) => panic!(rt; "a dead list"),
        Err(fault) => Err(fault),
    }
}

/// The same for atoms that hold where each place is 0.
pub(crate) fn ask_sup_at_zero(
    alloc: Global,
    hyps: &[Atom],
    form: &[i128],
    budget: u64,
) -> Result<Sup, SolveFault>
    requires atoms { AllByRecursion (IsAtom (length form.now)) hyps.now }
    requires zero { MeetsAll (whole_point []) hyps.now }
    requires light { sum_by unsigned_abs form.now < 2 ^ 70 }
{
    sup(alloc, hyps, form, &mut Dense::new(alloc), budget)
}

pub(crate) fn is_dead(found: &Result<Emptiness, SolveFault>, mult: &[Frac]) -> bool {
    match found {
        Ok(Emptiness::Dead { mult: m }) => m.as_slice() == mult,
        _ => false,
    }
}

pub(crate) fn is_live(found: &Result<Emptiness, SolveFault>, y: &[Frac]) -> bool {
    match found {
        Ok(Emptiness::Live { y: x }) => x.as_slice() == y,
        _ => false,
    }
}

pub(crate) fn is_at(found: &Result<Sup, SolveFault>, value: Frac, mult: &[Frac]) -> bool {
    match found {
        Ok(Sup::At { value: v, mult: m }) => *v == value && m.as_slice() == mult,
        _ => false,
    }
}

pub(crate) fn has_no_bound(found: &Result<Sup, SolveFault>, y: &[Frac]) -> bool {
    match found {
        Ok(Sup::NoBound { y: x }) => x.as_slice() == y,
        _ => false,
    }
}
