//! Monomials in graded order, each once.
ghost use Rattle.std.specs.Prelude.{◌≡◌, ◌≤◌, ◌<◌, ◌++◌, ◌∷◌, length, map, IfOk, OnOk};
ghost use Rattle.dc_math.specs.OrderedLists.{Ordered};
ghost use Rattle.dc_poly.specs.Terms.{Before, Polynomial};
ghost use Rattle.dc_coefficients.specs.Spots.{IsSpot};
ghost use Rattle.dc_coefficients.specs.Monomials.{with_mono, with_monos, with_all, monos_in, all_terms};

use dc_poly::{Mono, Poly, Term};
use std::alloc::{AllocError, Global};
use std::cmp::Ordering;

// Where a monomial stands, or would stand.
enum Spot {
    There,
    Before(usize),
}

// By halving.
fn spot_of(list: &[Mono], mono: &Mono) -> Spot
    requires { Ordered Before list.now }
    ensures { IsSpot list.now mono.now result }
{
    let mut low = 0;
    let mut high = list.len();
    while low < high {
        let middle = low + (high - low) / 2;
        match list[middle].compare(mono) {
            Ordering::Less => low = middle + 1,
            Ordering::Equal => return Spot::There,
            Ordering::Greater => high = middle,
        }
    }
    Spot::Before(low)
}

// Adds a monomial, unless it is there.
fn add_mono(alloc: Global, list: &mut Vec<Mono>, mono: &Mono) -> Result<(), AllocError>
    requires { Ordered Before list.old.items }
    ensures { OnOk result (list.new.items ≡ with_mono mono.now list.old.items) }
{
    match spot_of(list.as_slice(), mono) {
        Spot::There => Ok(()),
        Spot::Before(index) => {
            list.insert(index, mono.copy(alloc)?)?;
            Ok(())
        }
    }
}

// Adds those of some terms.
fn add_terms(alloc: Global, list: &mut Vec<Mono>, terms: &[Term]) -> Result<(), AllocError>
    requires { Ordered Before list.old.items }
    ensures { OnOk result (list.new.items ≡ with_monos terms.now list.old.items) }
{
    let mut k = terms.len();
    'terms: while k > 0 {
        k -= 1;
        add_mono(alloc, list, &terms[k].mono)?;
    }
    Ok(())
}

// Adds those of polynomials.
fn add_forms(alloc: Global, list: &mut Vec<Mono>, forms: &[Poly]) -> Result<(), AllocError>
    requires { Ordered Before list.old.items }
    ensures { OnOk result (list.new.items ≡ with_all (all_terms forms.now) list.old.items) }
{
    let mut k = forms.len();
    'forms: while k > 0 {
        k -= 1;
        add_terms(alloc, list, forms[k].terms())?;
    }
    Ok(())
}

/// The monomials of the parts, of the rest and of the products.
pub fn monos_of(
    alloc: Global,
    parts: &[Poly],
    rest: &Poly,
    products: &[Poly],
) -> Result<Vec<Mono>, AllocError>
    ensures { IfOk result
        (λ v. v.items
        ≡ monos_in (all_terms parts.now ++ (rest.now.terms ∷ all_terms products.now))) }
{
    let mut list = Vec::new(alloc);
    add_forms(alloc, &mut list, products)?;
    add_terms(alloc, &mut list, rest.terms())?;
    add_forms(alloc, &mut list, parts)?;
    Ok(list)
}
