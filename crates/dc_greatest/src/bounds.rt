//! The least bound of a row.
ghost use Rattle.std.specs.Prelude.{ℕ, ◌≡◌, ◌↔◌, ◌<◌, ◌≤◌, ◌^◌, ◌+ℤ◌, IsTrue, IfOk, IfErr, length, sum_by, unsigned_abs};
ghost use Rattle.std.specs.List.{AllByRecursion};
ghost use Rattle.dc_math.specs.Rational.{of_ℤ, ◌≤ℚ◌};
ghost use Rattle.dc_frac.specs.Value.{value};
ghost use Rattle.dc_affine.specs.Atoms.{IsAtom};
ghost use Rattle.dc_points.specs.Points.{IsDead, EntailsFrom};
ghost use Rattle.dc_points.specs.Stated.{rational, sup_problem};
ghost use Rattle.dc_entail.specs.Answers.{IsSolveFault};
ghost use Rattle.dc_rows.specs.Candidate.{bound_at};
ghost use Rattle.dc_greatest.specs.Bounds.{AreRising, IsEnough, IsLeast, HasEnd, later as later_of, lowered};

use crate::family::LocFamily;
use dc_affine::Atom;
use dc_entail::{Sup, sup};
use dc_frac::Frac;
use dc_lp::Tableau;
use dc_rows::Candidates;
use dc_simplex::SolveFault;
use std::alloc::Global;
use std::cmp::Ordering;

/// The later of two bounds, where `None` is after all.
fn later(a: Option<usize>, b: Option<usize>) -> Option<usize>
    ensures { result ≡ later_of a b }
{
    match (a, b) {
        (Some(i), Some(k)) => Some(if i < k { k } else { i }),
        _ => None,
    }
}

/// Keeps a row from a bound on.
pub(crate) fn lower(target: &mut LocFamily, row: usize, least: Option<usize>)
    requires { row < length target.old.least }
    ensures { target.new ≡ lowered row least target.old }
{
    let old = target.least.as_slice()[row];
    target.least.set(row, later(old, least));
}

/// A bound with a constant added.
fn sum(bound: &i64, constant: &i128) -> Frac
    requires { unsigned_abs constant.now < 2 ^ 100 }
    ensures { value result ≡ of_ℤ (bound.now +ℤ constant.now) }
{
    Frac::whole(*bound as i128 + *constant)
}

/// Whether a bound with a constant added is at least a value.
fn is_enough(least: &Frac, constant: &i128, bound: &i64) -> bool
    requires { unsigned_abs constant.now < 2 ^ 100 }
    ensures { IsTrue result ↔ (value least.now ≤ℚ of_ℤ (bound.now +ℤ constant.now)) }
{
    let reached = sum(bound, constant);
    match least.cmp(&reached) {
        Ordering::Less => true,
        Ordering::Equal => true,
        Ordering::Greater => false,
    }
}

/// The first bound that with a constant added is at least a value.
fn first_bound(least: &Frac, constant: &i128, c: &Candidates) -> Option<usize>
    requires constant { unsigned_abs constant.now < 2 ^ 100 }
    requires rising { AreRising c.now }
    ensures { IsLeast c.now (IsEnough c.now (value least.now) constant.now) result }
{
    let bounds = c.bounds.as_slice();
    for k in 0..bounds.len() {
        if is_enough(least, constant, &bounds[k]) {
            return Some(k);
        }
    }
    None
}

/// The first bound with which, and a constant, a form is entailed by atoms that some point meets.
pub(crate) fn least_bound<T: Tableau>(
    alloc: Global,
    hyps: &[Atom],
    form: &[i128],
    constant: &i128,
    c: &Candidates,
    tableau: &mut T,
    budget: u64,
) -> Result<Option<usize>, SolveFault>
    requires atoms { AllByRecursion (IsAtom (length form.now)) hyps.now }
    requires live { ¬ IsDead hyps.now }
    requires light { sum_by unsigned_abs form.now < 2 ^ 70 }
    requires constant { unsigned_abs constant.now < 2 ^ 100 }
    requires rising { AreRising c.now }
    ensures least { IfOk result
        (IsLeast c.now (λ m. EntailsFrom hyps.now form.now
        (of_ℤ (bound_at c.now m +ℤ constant.now)))) }
    ensures done { IfOk result (λ o. HasEnd budget (sup_problem hyps.now form.now)) }
    ensures fault { IfErr result (IsSolveFault (rational (sup_problem hyps.now form.now)) budget) }
{
    match sup(alloc, hyps, form, tableau, budget) {
        Ok(Sup::At { value, .. }) => Ok(first_bound(&value, constant, c)),
        Ok(Sup::NoBound { .. }) => Ok(None),
        Err(fault) => Err(fault),
    }
}
