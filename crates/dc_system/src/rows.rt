//! Linear forms after an edge's update.
ghost use Rattle.std.specs.Prelude.{ℕ, ◌≡◌, ◌≤◌, ◌<◌, ◌*◌, ◌+◌, ◌+ℤ◌, ◌*ℤ◌, unsigned_abs, length, IfOk, List, ℤ, map, true};
ghost use Rattle.std.specs.List.{AllByRecursion};
ghost use Rattle.dc_math.specs.WholeVectors.{dot_ℤ};
ghost use Rattle.dc_poly.specs.Terms.{Exponents, IsPolynomial, polynomial, weight};
ghost use Rattle.dc_poly.specs.Terms.{coef as coef_of};
ghost use Rattle.dc_poly.specs.Sums.{unit_at, values as values_at, zeros};
ghost use Rattle.dc_poly.specs.Sums.{constant as constant_form};
ghost use Rattle.dc_poly.specs.Affine.{units};
ghost use Rattle.dc_poly.specs.NormalForm.{most};
ghost use Rattle.dc_affine.specs.Atoms.{AllFit};
ghost use Rattle.dc_system.specs.After.{row_after_of, weighted};
ghost use Rattle.dc_system.specs.Shapes.{IsEdge, IsForm};

use crate::edges::Edge;
use dc_affine::{coefficients, constant};
use dc_poly::Poly;
use sqlite_items::Items;
use std::alloc::{AllocError, Global};

/// A linear form over a program's variables, after an edge's update: what is affine of it, and
/// whether that is the whole.
#[derive(Debug, Drop)]
pub struct RowAfter {
    pub constant: i128,
    /// One for each variable, and a last one for the value that the edge chooses.
    pub coefs: Items<i128>,
    /// Whether the form is affine after the update. Then it is the constant and the sum of the
    /// coefficients times the variables and that value.
    pub is_affine: bool,
}

// A coefficient as a polynomial of so many places.
fn factor(alloc: Global, coef: &i64, places: usize) -> Result<Poly, AllocError>
    requires few { places ≤ 11 }
    requires coef { unsigned_abs coef.now ≤ most }
    ensures { IfOk result (λ p. p ≡ constant_form coef.now places) }
{
    Poly::constant(alloc, *coef as i128, places)
}

// A polynomial and a coefficient times another one.
#[tactic(auto, using(crate::proofs::RowSteps::adding))]
fn plus_times(alloc: Global, sum: &Poly, coef: &i64, value: &Poly) -> Result<Poly, AllocError>
    requires kind { IsPolynomial sum.now }
    requires light { weight sum.now.terms ≤ 10 * (most * (78 * most)) }
    requires coef { unsigned_abs coef.now ≤ most }
    requires value { IsForm sum.now.places value.now }
    ensures kind { IfOk result (λ p. IsPolynomial p) }
    ensures places { IfOk result (λ p. p.places ≡ sum.now.places) }
    ensures coefs { IfOk result
        (λ p. (u : Exponents)
        → coef_of p.terms u ≡ coef_of sum.now.terms u +ℤ coef.now *ℤ coef_of value.now.terms u) }
    ensures light { IfOk result (λ p. weight p.terms ≤ weight sum.now.terms + most * (78 * most)) }
{
    let factor = factor(alloc, coef, sum.places())?;
    let product = factor.mul(alloc, value)?;
    sum.add(alloc, &product)
}

// The sum of coefficients times polynomials of so many places.
#[tactic(auto, using(crate::proofs::RowSteps::summing))]
fn sum_of(alloc: Global, coefs: &[i64], values: &[Poly], places: usize) -> Result<Poly, AllocError>
    requires few { places ≤ 11 }
    requires short { length coefs.now ≤ 10 }
    requires coefs { AllFit coefs.now }
    requires values { AllByRecursion (IsForm places) values.now }
    ensures sum { IfOk result (λ p. p ≡ polynomial places (weighted coefs.now values.now)) }
    ensures kind { IfOk result (λ p. IsPolynomial p) }
{
    let count = coefs.len().min(values.len());
    let mut sum = Poly::constant(alloc, 0, places)?;
    for k in 0..count {
        sum = plus_times(alloc, &sum, &coefs[k], &values[k])?;
    }
    Ok(sum)
}

/// A linear form over so many variables after an edge's update.
///
/// It is affine after the update where its value is, as a whole: x - y is affine after x := n * n,
/// y := n * n, though its parts are not. The constant and the coefficients are those of the sum, in
/// 128 bits. An atom after the update is the form of its coefficients after it, with the atom's
/// constant added.
pub fn row_after(
    alloc: Global,
    edge: &Edge,
    row: &[i64],
    vars: usize,
) -> Result<RowAfter, AllocError>
    requires few { vars ≤ 10 }
    requires edge { IsEdge vars edge.now }
    requires short { length row.now ≤ vars }
    requires row { AllFit row.now }
    ensures row { IfOk result (λ r. r ≡ row_after_of vars edge.now row.now) }
    ensures value { IfOk result
        (λ r. r.is_affine ≡ true → (x : List ℤ)
        → r.constant +ℤ dot_ℤ r.coefs x ≡ dot_ℤ row.now (values_at edge.now.update x)) }
{
    let sum = sum_of(alloc, row, edge.update.as_slice(), vars + 1)?;
    let coefs = coefficients(alloc, &sum)?;
    Ok(RowAfter {
        constant: constant(alloc, &sum)?,
        coefs: Items::from_vec(coefs),
        is_affine: sum.degree() <= 1,
    })
}
