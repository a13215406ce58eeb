//! One term of a polynomial at values for its places.
ghost use Rattle.std.specs.Prelude.{ℕ, ◌≡◌, ◌≤◌, ◌<◌, ◌*◌, length, IfOk, unsigned_abs};
ghost use Rattle.std.specs.Bool.{MatchBool};
ghost use Rattle.dc_poly.specs.Terms.{Places, degree, largest};
ghost use Rattle.dc_poly.specs.Sums.{places_of, term_at};
ghost use Rattle.dc_poly.specs.Conditions.{HavePlaces, product_weight};

use super::lists::{constant, power_times};
use super::{Mono, Poly, Term};
use std::alloc::{AllocError, Global};

// Whether a value with a positive exponent is 0.
fn vanishes(mono: &Mono, values: &[Poly]) -> bool
    requires { length values.now ≡ length mono.now }
    ensures { MatchBool result (product_weight mono.now values.now ≡ 0)
        (0 < product_weight mono.now values.now) }
{
    let exponents = mono.exponents();
    for k in 0..exponents.len() {
        if exponents[k] > 0 && values[k].terms().is_empty() {
            return true;
        }
    }
    false
}

// A term at the values. Where it vanishes no power is computed, so that no part is larger than the
// whole.
pub(crate) fn at_values(
    alloc: Global,
    places: usize,
    term: &Term,
    values: &[Poly],
) -> Result<Vec<Term>, AllocError>
    requires few { places ≤ 11 }
    requires one_each { length values.now ≡ length term.now.mono }
    requires same_places { HavePlaces places values.now }
    requires low { degree term.now.mono ≤ 12 }
    requires light { unsigned_abs term.now.coef * product_weight term.now.mono values.now ≤ largest }
    ensures terms { IfOk result (λ v. v.items ≡ term_at places term.now.coef term.now.mono values.now) }
    ensures padded { IfOk result (λ v. Places places v.items) }
{
    if vanishes(&term.mono, values) {
        return Ok(Vec::new(alloc));
    }
    let exponents = term.mono.exponents();
    let mut product = constant(alloc, term.coef, places)?;
    let mut k = exponents.len();
    'places: while k > 0 {
        k -= 1;
        let value = values[k].terms();
        product = power_times(alloc, value, exponents[k], product)?;
    }
    Ok(product)
}

// The number of places of values, and 0 without values.
pub(crate) fn common_places(values: &[Poly]) -> usize
    ensures places { result ≡ places_of values.now }
    ensures few { result ≤ 11 }
{
    match values.first() {
        Some(value) => value.places(),
        None => 0,
    }
}
