//! The left side of an atom as a polynomial.
ghost use Rattle.std.specs.Prelude.{ℕ, ◌≡◌, ◌≤◌, ◌+◌, length, map, IfOk};
ghost use Rattle.std.specs.List.{AllByRecursion};
ghost use Rattle.dc_poly.specs.Sums.{constant};
ghost use Rattle.dc_affine.specs.Atoms.{AllFit, IsAtom};
ghost use Rattle.dc_handelman.specs.Products.{form_of, linear_of};

use dc_affine::Atom;
use dc_poly::Poly;
use std::alloc::{AllocError, Global};

// A number, as a polynomial of so many places.
fn number(alloc: Global, value: &i64, places: usize) -> Result<Poly, AllocError>
    requires few { places ≤ 11 }
    ensures { IfOk result (λ p. p ≡ constant value.now places) }
{
    Poly::constant(alloc, *value as i128, places)
}

// The sum of each coefficient times its variable, the first at a place.
#[tactic(auto, using(crate::proofs::Walks::sums))]
fn linear(alloc: Global, coefs: &[i64], at: usize, places: usize) -> Result<Poly, AllocError>
    requires few { places ≤ 11 }
    requires inside { at + length coefs.now ≤ places }
    requires small { AllFit coefs.now }
    ensures { IfOk result (λ p. p ≡ linear_of places at coefs.now) }
{
    match coefs {
        [] => Poly::constant(alloc, 0, places),
        [first, rest @ ..] => {
            let variable = Poly::variable(alloc, at, places)?;
            let coef = number(alloc, first, places)?;
            let term = coef.mul(alloc, &variable)?;
            let others = linear(alloc, rest, at + 1, places)?;
            term.add(alloc, &others)
        }
    }
}

// The left side of an atom.
#[tactic(auto, using(crate::proofs::Walks::sums))]
fn form(alloc: Global, atom: &Atom, places: usize) -> Result<Poly, AllocError>
    requires few { places ≤ 11 }
    requires atom { IsAtom places atom.now }
    ensures { IfOk result (λ p. p ≡ form_of places atom.now) }
{
    let linear = linear(alloc, atom.coefs.as_slice(), 0, places)?;
    let constant = number(alloc, &atom.c0, places)?;
    constant.add(alloc, &linear)
}

// The left sides of atoms.
pub(crate) fn forms(alloc: Global, hyps: &[Atom], places: usize) -> Result<Vec<Poly>, AllocError>
    requires few { places ≤ 11 }
    requires atoms { AllByRecursion (IsAtom places) hyps.now }
    ensures { IfOk result (λ v. v.items ≡ map (form_of places) hyps.now) }
{
    let mut list = Vec::new(alloc);
    for atom in hyps {
        list.push(form(alloc, atom, places)?)?;
    }
    Ok(list)
}
