//! Affine atoms, and the atoms of a comparison.
ghost use Rattle.std.specs.Prelude.{ℕ, ◌≡◌, ◌≤◌, ◌<◌, ◌≤ℤ◌, unsigned_abs, ℤ, pos, IfOk, List, [], ◌∷◌, ◌++◌, map, true};
ghost use Rattle.std.specs.List.{AllByRecursion};
ghost use Rattle.dc_poly.specs.Terms.{Exponents, IsPolynomial, coef};
ghost use Rattle.dc_poly.specs.Sums.{unit_at, zeros};
ghost use Rattle.dc_poly.specs.Affine.{units};
ghost use Rattle.dc_affine.specs.Atoms.{cases_of, most_constant};
ghost use Rattle.dc_affine.specs.Gaps.{gap_atom, gap_cases, signed};

use dc_poly::{Mono, Poly};
use dc_syntax::Rel;
use sqlite_items::Items;
use std::alloc::{AllocError, Global};

/// "The constant and the sum of the coefficients times the places is at least 0."
///
/// A missing coefficient is 0. Coefficients have a size of at most `MOST_COEFFICIENT`, the constant
/// one of at most `MOST_CONSTANT`.
#[derive(Debug, Drop)]
pub struct Atom {
    pub c0: i64,
    pub coefs: Items<i64>,
}

impl Atom {
    /// A copy.
    pub fn copy(&self, alloc: Global) -> Result<Atom, AllocError>
        ensures { IfOk result (λ a. a ≡ self.now) }
    {
        let coefs = Vec::from_slice(alloc, self.coefs.as_slice())?;
        Ok(Atom {
            c0: self.c0,
            coefs: Items::from_vec(coefs),
        })
    }
}

// The coefficient of a variable.
fn of_variable(alloc: Global, form: &Poly, index: usize) -> Result<i128, AllocError>
    requires { index < form.now.places }
    ensures { IfOk result (λ c. c ≡ coef form.now.terms (unit_at form.now.places index)) }
{
    let unit = Mono::unit(alloc, index, form.places())?;
    Ok(form.coef(&unit))
}

/// The constant of a polynomial.
pub fn constant(alloc: Global, form: &Poly) -> Result<i128, AllocError>
    ensures { IfOk result (λ c. c ≡ coef form.now.terms (zeros form.now.places)) }
{
    let one = Mono::one(alloc, form.places())?;
    Ok(form.coef(&one))
}

/// The coefficient of each variable of a polynomial, in order.
#[tactic(auto, using(crate::proofs::Units::reading_units))]
pub fn coefficients(alloc: Global, form: &Poly) -> Result<Vec<i128>, AllocError>
    requires { IsPolynomial form.now }
    ensures { IfOk result (λ v. v.items ≡ map (coef form.now.terms) (units form.now.places)) }
{
    let mut coefs = Vec::new(alloc);
    for k in 0..form.places() {
        coefs.push(of_variable(alloc, form, k)?)?;
    }
    Ok(coefs)
}

// A number, or its negation.
fn signed(number: i128, turned: bool) -> i64
    requires { unsigned_abs number ≤ most_constant }
    ensures value { result ≡ signed turned number }
    ensures small { unsigned_abs result ≤ most_constant }
{
    let number = number as i64;
    if turned { -number } else { number }
}

// Each number, or its negation.
#[tactic(auto, using(crate::proofs::Signed::signing))]
fn all_signed(alloc: Global, numbers: &[i128], turned: bool) -> Result<Vec<i64>, AllocError>
    requires { AllByRecursion (λ x. unsigned_abs x ≤ most_constant) numbers.now }
    ensures { IfOk result (λ v. v.items ≡ map (signed turned) numbers.now) }
{
    let mut all = Vec::new(alloc);
    for k in 0..numbers.len() {
        all.push(signed(numbers[k], turned))?;
    }
    Ok(all)
}

/// "The form less a number is at least 0", or turned, with the form's negation.
///
/// The atom has the form's own numbers: a coefficient may be as large as `MOST_CONSTANT`, and the
/// constant larger by the number. Whether it is within an atom's sizes is for the caller.
pub fn at_least(alloc: Global, form: &Poly, turned: bool, less: i64) -> Result<Atom, AllocError>
    requires kind { IsPolynomial form.now }
    requires fits { (u : Exponents) → unsigned_abs (coef form.now.terms u) ≤ most_constant }
    requires small { (pos 0 ≤ℤ less) × (less ≤ℤ pos 1) }
    ensures { IfOk result (λ a. a ≡ gap_atom form.now turned (unsigned_abs less)) }
{
    let numbers = coefficients(alloc, form)?;
    let coefs = all_signed(alloc, &numbers, turned)?;
    let constant = signed(constant(alloc, form)?, turned);
    Ok(Atom {
        c0: constant - less,
        coefs: Items::from_vec(coefs),
    })
}

// One case of one atom.
pub(crate) fn single(alloc: Global, atom: Atom) -> Result<Vec<Atom>, AllocError>
    ensures { IfOk result (λ v. v.items ≡ atom ∷ []) }
{
    let mut atoms = Vec::new(alloc);
    atoms.push(atom)?;
    Ok(atoms)
}

// The cases of a comparison, from the difference of its sides.
pub(crate) fn comparison(alloc: Global, gap: &Poly, rel: Rel) -> Result<Vec<Vec<Atom>>, AllocError>
    requires kind { IsPolynomial gap.now }
    requires fits { (u : Exponents) → unsigned_abs (coef gap.now.terms u) ≤ most_constant }
    ensures { IfOk result (λ v. cases_of v.items ≡ gap_cases gap.now rel) }
{
    let mut cases = Vec::new(alloc);
    match rel {
        Rel::Le => cases.push(single(alloc, at_least(alloc, gap, true, 0)?)?)?,
        Rel::Lt => cases.push(single(alloc, at_least(alloc, gap, true, 1)?)?)?,
        Rel::Ge => cases.push(single(alloc, at_least(alloc, gap, false, 0)?)?)?,
        Rel::Gt => cases.push(single(alloc, at_least(alloc, gap, false, 1)?)?)?,
        Rel::Eq => {
            let mut both = single(alloc, at_least(alloc, gap, true, 0)?)?;
            both.push(at_least(alloc, gap, false, 0)?)?;
            cases.push(both)?;
        }
        Rel::Ne => {
            cases.push(single(alloc, at_least(alloc, gap, true, 1)?)?)?;
            cases.push(single(alloc, at_least(alloc, gap, false, 1)?)?)?;
        }
    }
    Ok(cases)
}
