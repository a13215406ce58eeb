//! A monomial at the updated state.
ghost use Rattle.std.specs.Prelude.{ℕ, ℤ, List, ◌≡◌, ◌≤◌, ◌+◌, ◌*◌, ◌*ℤ◌, ◌^◌, length, All, IfOk};
ghost use Rattle.dc_poly.specs.Terms.{Polynomial, IsPolynomial, degree, degree_of, largest, mono_value, power, value, weight};
ghost use Rattle.dc_poly.specs.Sums.{values};
ghost use Rattle.dc_poly.specs.Conditions.{HavePlaces};
ghost use Rattle.dc_poly.specs.NormalForm.{IsNormalForm, normal_weight};
ghost use Rattle.dc_template.specs.Columns.{column_places};

use dc_poly::{Mono, Poly};
use std::alloc::{AllocError, Global};

/// A monomial at the updated state: its value at a point is the product of the updates' values
/// there, each to its exponent. The updates are normal forms, one for each place of the monomial.
///
/// Its number of places is that of the updates, or 1 where there are none. With its values that
/// fixes its terms. Its degree is at most 6, and the sizes of its coefficients add up to at most
/// `(78 * 2147483647)^3`.
pub fn template_column(alloc: Global, mono: &Mono, update: &[Poly]) -> Result<Poly, AllocError>
    requires low { degree mono.now ≤ 3 }
    requires one_each { length update.now ≡ length mono.now }
    requires normal { All (λ u. IsNormalForm u.terms) update.now }
    requires same_places { HavePlaces (column_places update.now) update.now }
    ensures value { IfOk result
        (λ p. (xs : List ℤ) → value p.terms xs ≡ mono_value mono.now (values update.now xs)) }
    ensures places { IfOk result (λ p. p.places ≡ column_places update.now) }
    ensures kind { IfOk result (λ p. IsPolynomial p) }
    ensures degree { IfOk result (λ p. degree_of p.terms ≤ 2 * degree mono.now) }
    ensures weight { IfOk result (λ p. weight p.terms ≤ normal_weight ^ degree mono.now) }
{
    let exponents = mono.exponents();
    let mut column = Poly::constant(alloc, 1, places_of(update))?;
    for k in 0..exponents.len() {
        column = times_power(alloc, column, &update[k], exponents[k])?;
    }
    Ok(column)
}

// The number of places of the updates, and 1 where there are none.
fn places_of(update: &[Poly]) -> usize
    ensures places { result ≡ column_places update.now }
    ensures few { result ≤ 11 }
{
    match update.first() {
        Some(first) => first.places(),
        None => 1,
    }
}

// A power of a normal form times a column.
fn times_power(alloc: Global, column: Poly, update: &Poly, exponent: u8) -> Result<Poly, AllocError>
    requires normal { IsNormalForm update.now.terms }
    requires same_places { update.now.places ≡ column.places }
    requires low { degree_of column.terms + 2 * exponent ≤ 12 }
    requires light { weight column.terms * normal_weight ^ exponent ≤ largest }
    ensures value { IfOk result
        (λ p. (xs : List ℤ) → value p.terms xs
        ≡ power (value update.now.terms xs) exponent *ℤ value column.terms xs) }
    ensures places { IfOk result (λ p. p.places ≡ column.places) }
    ensures kind { IfOk result (λ p. IsPolynomial p) }
    ensures degree { IfOk result (λ p. degree_of p.terms ≤ degree_of column.terms + 2 * exponent) }
    ensures weight { IfOk result
        (λ p. weight p.terms ≤ weight column.terms * normal_weight ^ exponent) }
{
    prove_eq!(column.places(), update.places());
    let mut product = column;
    for _k in 0..exponent {
        product = product.mul(alloc, update)?;
    }
    Ok(product)
}
