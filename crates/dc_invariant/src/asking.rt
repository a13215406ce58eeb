//! One problem of an analysis at its site.
ghost use Rattle.std.specs.Prelude.{◌≡◌, ◌↔◌, ◌≤◌, ◌<◌, ◌^◌, ◌∷◌, [], IsTrue, IfOk, IfErr, length, sum_by, unsigned_abs};
ghost use Rattle.std.specs.List.{AllByRecursion};
ghost use Rattle.dc_math.specs.Rational.{of_ℤ, ◌≤ℚ◌};
ghost use Rattle.dc_frac.specs.Value.{value as value_of};
ghost use Rattle.dc_affine.specs.Atoms.{IsAtom, IsFullAtom};
ghost use Rattle.dc_cert.specs.Ranges.{is_live};
ghost use Rattle.dc_points.specs.Points.{IsDead};
ghost use Rattle.dc_points.specs.Stated.{empty_problem, sup_problem};
ghost use Rattle.dc_points.specs.Shown.{IsFlag};
ghost use Rattle.dc_entail.specs.Asked.{ask};
ghost use Rattle.dc_greatest.specs.Answers.{IsFault};
ghost use Rattle.dc_invariant.specs.Shown.{IsLine};
ghost use Rattle.dc_invariant.specs.Lent.{Only, TellsEntailed, IsLeastKeep, HasBound};

use dc_affine::Atom;
use dc_cert::{Liveness, Sparse, sparse_of};
use dc_entail::{Emptiness, Site, Sup, empty, sup};
use dc_frac::Frac;
use dc_greatest::InvFault;
use dc_lp::Tableau;
use dc_moves::first_numbers;
use std::alloc::Global;
use std::cmp::Ordering;

/// A bound as a fraction.
fn whole(bound: &i64) -> Frac
    ensures { value_of result ≡ of_ℤ bound.now }
{
    Frac::whole(*bound as i128)
}

/// Whether a number is at most a bound.
fn is_at_most(value: &Frac, bound: &i64) -> bool
    ensures { IsTrue result ↔ (value_of value.now ≤ℚ of_ℤ bound.now) }
{
    let bound = whole(bound);
    match value.cmp(&bound) {
        Ordering::Less => true,
        Ordering::Equal => true,
        Ordering::Greater => false,
    }
}

/// Whether atoms that some point meets entail an atom, by the least number from which its form is
/// entailed.
pub(crate) fn entails<T: Tableau>(
    alloc: Global,
    site: Site,
    hyps: &[Atom],
    atom: &Atom,
    vars: usize,
    tableau: &mut T,
    budget: u64,
) -> Result<bool, InvFault>
    requires few { vars ≤ 10 }
    requires atoms { AllByRecursion (IsFullAtom vars) hyps.now }
    requires atom { IsFullAtom vars atom.now }
    requires live { ¬ IsDead hyps.now }
    ensures answer { IfOk result (TellsEntailed site hyps.now atom.now budget) }
    ensures fault { IfErr result
        (IsFault budget (Only (ask site (sup_problem hyps.now atom.now.coefs) ∷ []))) }
{
    let form = first_numbers(alloc, atom.coefs.as_slice(), vars)?;
    match sup(alloc, hyps, &form, tableau, budget) {
        Ok(Sup::At { value, .. }) => Ok(is_at_most(&value, &atom.c0)),
        Ok(Sup::NoBound { .. }) => Ok(false),
        Err(fault) => Err(InvFault::at(site, fault)),
    }
}

/// The multipliers of a form and of the least number from which it is entailed, where there is one.
pub(crate) fn keep<T: Tableau>(
    alloc: Global,
    site: Site,
    hyps: &[Atom],
    form: &[i128],
    tableau: &mut T,
    budget: u64,
) -> Result<Sparse, InvFault>
    requires atoms { AllByRecursion (IsAtom (length form.now)) hyps.now }
    requires live { ¬ IsDead hyps.now }
    requires light { sum_by unsigned_abs form.now < 2 ^ 70 }
    requires bounded { HasBound hyps.now form.now }
    ensures answer { IfOk result (IsLeastKeep hyps.now form.now budget) }
    ensures fault { IfErr result
        (IsFault budget (Only (ask site (sup_problem hyps.now form.now) ∷ []))) }
{
    match sup(alloc, hyps, form, tableau, budget) {
        Ok(Sup::At { mult, .. }) => Ok(sparse_of(alloc, &mult)?),
        Ok(Sup::NoBound { .. }) => unreachable!(),
        Err(fault) => Err(InvFault::at(site, fault)),
    }
}

/// The line that says whether a list is dead, and shows it.
pub(crate) fn line<T: Tableau>(
    alloc: Global,
    site: Site,
    hyps: &[Atom],
    places: usize,
    tableau: &mut T,
    budget: u64,
) -> Result<Liveness, InvFault>
    requires atoms { AllByRecursion (IsAtom places) hyps.now }
    ensures answer { IfOk result (IsLine hyps.now places budget) }
    ensures flag { IfOk result (λ l. IsFlag (is_live l) hyps.now) }
    ensures fault { IfErr result
        (IsFault budget (Only (ask site (empty_problem hyps.now places) ∷ []))) }
{
    match empty(alloc, hyps, places, tableau, budget) {
        Ok(Emptiness::Dead { mult }) => Ok(Liveness::Dead(sparse_of(alloc, &mult)?)),
        Ok(Emptiness::Live { y }) => Ok(Liveness::Live(sparse_of(alloc, &y)?)),
        Err(fault) => Err(InvFault::at(site, fault)),
    }
}
