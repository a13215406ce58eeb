//! Atoms at affine values.
ghost use Rattle.std.specs.Prelude.{ℕ, ◌≡◌, ◌≤◌, ◌*◌, ◌++◌, ◌+ℤ◌, ◌*ℤ◌, unsigned_abs, length, MatchOption, IfOk, if◌then◌else◌, ltb, Some, None, true, false};
ghost use Rattle.std.specs.List.{AllByRecursion};
ghost use Rattle.dc_poly.specs.Terms.{coef as coef_of};
ghost use Rattle.dc_poly.specs.NormalForm.{most};
ghost use Rattle.dc_affine.specs.Atoms.{AllFit, IsAtom, most_constant};
ghost use Rattle.dc_system.specs.Composed.{atom_at, atom_fits, atoms_at, atoms_fit, coef_at};
ghost use Rattle.dc_system.specs.Small.{IsGuard, IsSmall};

use dc_affine::{Atom, MOST_COEFFICIENT, MOST_CONSTANT};
use dc_poly::{Mono, Poly};
use sqlite_items::Items;
use std::alloc::{AllocError, Global};

// A coefficient times that of a monomial in a value.
fn product(coef: &i64, value: &Poly, mono: &Mono) -> i128
    requires coef { unsigned_abs coef.now ≤ most }
    requires value { IsSmall value.now }
    ensures value { result ≡ coef.now *ℤ coef_of value.now.terms mono.now }
    ensures small { unsigned_abs result ≤ most * most }
{
    *coef as i128 * value.coef(mono)
}

// The coefficient of a monomial in a sum of values, each times a coefficient.
fn combination(coefs: &[i64], values: &[Poly], mono: &Mono) -> i128
    requires few { length coefs.now ≤ 11 }
    requires coefs { AllFit coefs.now }
    requires values { AllByRecursion IsSmall values.now }
    ensures value { result ≡ coef_at coefs.now values.now mono.now }
    ensures small { unsigned_abs result ≤ 11 * (most * most) }
{
    let count = coefs.len().min(values.len());
    let mut sum: i128 = 0;
    for k in 0..count {
        sum += product(&coefs[k], &values[k], mono);
    }
    sum
}

// An atom at affine values of so many places, where it is within its sizes.
#[tactic(auto, using(crate::proofs::AtomSteps::reading))]
fn atom_with(
    alloc: Global,
    atom: &Atom,
    values: &[Poly],
    places: usize,
) -> Result<Option<Atom>, AllocError>
    requires few { places ≤ 11 }
    requires sized { IsAtom places atom.now }
    requires values { AllByRecursion IsSmall values.now }
    ensures { IfOk result
        (λ o. o ≡ (if atom_fits (atom_at places atom.now values.now) then Some
        (atom_at places atom.now values.now) else None)) }
{
    let coefs = atom.coefs.as_slice();
    let one = Mono::one(alloc, places)?;
    let sum = combination(coefs, values, &one);
    let constant = plus(&atom.c0, &sum);
    if exceeds(&constant, MOST_CONSTANT) {
        return Ok(None);
    }
    let mut all = Vec::new(alloc);
    for k in 0..places {
        let unit = Mono::unit(alloc, k, places)?;
        let coef = combination(coefs, values, &unit);
        if exceeds(&coef, MOST_COEFFICIENT) {
            return Ok(None);
        }
        all.push(narrow(&coef))?;
    }
    Ok(Some(Atom {
        c0: narrow(&constant),
        coefs: Items::from_vec(all),
    }))
}

// A constant and a sum.
fn plus(constant: &i64, sum: &i128) -> i128
    requires constant { unsigned_abs constant.now ≤ most_constant }
    requires sum { unsigned_abs sum.now ≤ 11 * (most * most) }
    ensures { result ≡ constant.now +ℤ sum.now }
{
    *constant as i128 + *sum
}

// Whether a number is larger in size.
fn exceeds(number: &i128, most: u128) -> bool
    ensures { result ≡ ltb most (unsigned_abs number.now) }
{
    number.unsigned_abs() > most
}

// A small number, as 64 bits have it.
fn narrow(number: &i128) -> i64
    requires { unsigned_abs number.now ≤ most_constant }
    ensures { result ≡ number.now }
{
    *number as i64
}

// Atoms, and behind them others at affine values of so many places, where these are within their sizes.
#[tactic(auto, using(crate::proofs::AtomSteps::guarding))]
pub(crate) fn guard_with(
    alloc: Global,
    first: &[Atom],
    second: &[Atom],
    values: &[Poly],
    places: usize,
) -> Result<Option<Vec<Atom>>, AllocError>
    requires few { places ≤ 11 }
    requires sized { AllByRecursion (IsAtom places) second.now }
    requires values { AllByRecursion IsSmall values.now }
    ensures { IfOk result
        (λ o. IsGuard (atoms_fit (atoms_at places second.now values.now))
        (first.now ++ atoms_at places second.now values.now) o) }
{
    let mut guard = Vec::new(alloc);
    for atom in first {
        guard.push(atom.copy(alloc)?)?;
    }
    for atom in second {
        let Some(atom) = atom_with(alloc, atom, values, places)? else {
            return Ok(None);
        };
        guard.push(atom)?;
    }
    Ok(Some(guard))
}
