//! Monomials at states: a list of polynomials, one for each variable.
ghost use Rattle.std.specs.Prelude.{ℕ, ℤ, List, ◌≡◌, ◌≤◌, ◌+◌, ◌-◌, ◌++◌, ◌^◌, ◌*◌, length, map, replicate, All, IfOk, OnOk, pos};
ghost use Rattle.std.specs.List.{range_with_len};
ghost use Rattle.dc_poly.specs.Terms.{degree, mono_value, value};
ghost use Rattle.dc_poly.specs.Sums.{constant, values, variable};
ghost use Rattle.dc_poly.specs.Conditions.{HavePlaces};
ghost use Rattle.dc_poly.specs.NormalForm.{IsNormalForm};
ghost use Rattle.dc_claims.specs.Blocks.{IsPart};

use dc_poly::{Mono, Poly};
use dc_template::template_column;
use std::alloc::{AllocError, Global};

/// So many variables as they are, over so many places.
pub fn identity(alloc: Global, vars: usize, places: usize) -> Result<Vec<Poly>, AllocError>
    requires few { places ≤ 11 }
    requires inside { vars ≤ places }
    ensures { IfOk result (λ v. v.items ≡ map (λ k. variable k places) (range_with_len 0 vars)) }
{
    let mut state = Vec::new(alloc);
    for index in 0..vars {
        state.push(Poly::variable(alloc, index, places)?)?;
    }
    Ok(state)
}

/// The state in which programs start, over the parameters: these as they are, and 0 for each local.
pub fn inputs(alloc: Global, params: usize, vars: usize) -> Result<Vec<Poly>, AllocError>
    requires few { vars ≤ 10 }
    requires inside { params ≤ vars }
    ensures { IfOk result
        (λ v. v.items
        ≡ map (λ k. variable k params) (range_with_len 0 params)
        ++ replicate (vars - params) (constant (pos 0) params)) }
{
    let mut state = identity(alloc, params, params)?;
    for _local in params..vars {
        state.push(Poly::constant(alloc, 0, params)?)?;
    }
    Ok(state)
}

/// A monomial at a state, over so many places.
pub fn at_state(
    alloc: Global,
    mono: &Mono,
    state: &[Poly],
    places: usize,
) -> Result<Poly, AllocError>
    requires few { places ≤ 11 }
    requires low { degree mono.now ≤ 3 }
    requires one_each { length state.now ≡ length mono.now }
    requires normal { All (λ u. IsNormalForm u.terms) state.now }
    requires same_places { HavePlaces places state.now }
    ensures value { IfOk result
        (λ p. (xs : List ℤ) → value p.terms xs ≡ mono_value mono.now (values state.now xs)) }
    ensures part { IfOk result (IsPart places 1) }
{
    if state.is_empty() {
        return Poly::constant(alloc, 1, places);
    }
    template_column(alloc, mono, state)
}
