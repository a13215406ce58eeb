//! Polynomials, and what is computed with them.
ghost use Rattle.std.specs.Prelude.{ℕ, ℤ, List, ◌≡◌, ◌≤◌, ◌<◌, ◌+ℤ◌, ◌*ℤ◌, neg_ℤ, IfOk, slice_index_or, pos, unsigned_abs};
ghost use Rattle.dc_poly.specs.Terms as terms;
ghost use Rattle.dc_poly.specs.Terms.{IsPolynomial, degree_of, largest, value};
ghost use Rattle.dc_poly.specs.Sums as sums;
ghost use Rattle.dc_poly.specs.Sums.{sum_of, negation_of, product_of, composition_of, values};
ghost use Rattle.dc_poly.specs.Conditions.{CanAdd, CanMul, CanSubst};

use super::composition::{at_values, common_places};
use super::lists::{append, constant, merge, product};
use super::{Mono, Term};
use std::alloc::{AllocError, Global};
use std::marker::Model;

/// A polynomial with whole coefficients: terms in graded order, each with a coefficient other than 0,
/// and one exponent for each of at most 11 places.
///
/// Its degree is at most 12, and the sizes of its coefficients add up to at most 2^127 - 1.
#[derive(Drop)]
pub struct Poly {
    places: usize,
    terms: Vec<Term>,
}

impl Model for Poly {
    ghost use Rattle.dc_poly.specs.Terms.{Polynomial, polynomial, IsPolynomial};

    ghost Value = { Polynomial };

    ghost view = { λ p. polynomial p.places p.terms.items };

    ghost invariant = { λ p. IsPolynomial (polynomial p.places p.terms.items) };
}

impl Poly {
    /// A number, as a polynomial of so many places.
    pub fn constant(alloc: Global, value: i128, places: usize) -> Result<Poly, AllocError>
        requires few { places ≤ 11 }
        requires light { unsigned_abs value ≤ largest }
        ensures constant { IfOk result (λ p. p ≡ sums.constant value places) }
        ensures value { IfOk result (λ p. (xs : List ℤ) → terms.value p.terms xs ≡ value) }
        ensures kind { IfOk result (λ p. IsPolynomial p) }
    {
        Ok(Poly {
            places,
            terms: constant(alloc, value, places)?,
        })
    }

    /// The variable at a place, from 0.
    pub fn variable(alloc: Global, index: usize, places: usize) -> Result<Poly, AllocError>
        requires few { places ≤ 11 }
        requires inside { index < places }
        ensures variable { IfOk result (λ p. p ≡ sums.variable index places) }
        ensures value { IfOk result
            (λ p. (xs : List ℤ) → value p.terms xs ≡ slice_index_or xs index (pos 0)) }
        ensures kind { IfOk result (λ p. IsPolynomial p) }
    {
        let mono = Mono::unit(alloc, index, places)?;
        let mut terms = Vec::new(alloc);
        terms.push(Term { mono, coef: 1 })?;
        Ok(Poly { places, terms })
    }

    /// A copy.
    pub fn copy(&self, alloc: Global) -> Result<Poly, AllocError>
        ensures value { IfOk result (λ p. p ≡ self.now) }
        ensures kind { IfOk result (λ p. IsPolynomial p) }
    {
        let mut terms = Vec::new(alloc);
        append(alloc, &mut terms, self.terms.as_slice())?;
        Ok(Poly {
            places: self.places,
            terms,
        })
    }

    /// The sum, of the same number of places.
    pub fn add(&self, alloc: Global, other: &Poly) -> Result<Poly, AllocError>
        requires { CanAdd self.now other.now }
        ensures sum { IfOk result (λ p. p ≡ sum_of self.now other.now) }
        ensures value { IfOk result
            (λ p. (xs : List ℤ) → value p.terms xs
            ≡ value self.now.terms xs +ℤ value other.now.terms xs) }
        ensures kind { IfOk result (λ p. IsPolynomial p) }
    {
        Ok(Poly {
            places: self.places,
            terms: merge(alloc, self.terms.as_slice(), other.terms.as_slice())?,
        })
    }

    /// Each coefficient negated.
    pub fn neg(&self, alloc: Global) -> Result<Poly, AllocError>
        ensures negation { IfOk result (λ p. p ≡ negation_of self.now) }
        ensures value { IfOk result
            (λ p. (xs : List ℤ) → value p.terms xs ≡ neg_ℤ (value self.now.terms xs)) }
        ensures kind { IfOk result (λ p. IsPolynomial p) }
    {
        let list = self.terms.as_slice();
        let mut terms = Vec::new(alloc);
        for term in list {
            let mono = term.mono.copy(alloc)?;
            terms.push(Term {
                mono,
                coef: -term.coef,
            })?;
        }
        Ok(Poly {
            places: self.places,
            terms,
        })
    }

    /// The product, of the same number of places.
    pub fn mul(&self, alloc: Global, other: &Poly) -> Result<Poly, AllocError>
        requires { CanMul self.now other.now }
        ensures product { IfOk result (λ p. p ≡ product_of self.now other.now) }
        ensures value { IfOk result
            (λ p. (xs : List ℤ) → value p.terms xs
            ≡ value self.now.terms xs *ℤ value other.now.terms xs) }
        ensures kind { IfOk result (λ p. IsPolynomial p) }
    {
        Ok(Poly {
            places: self.places,
            terms: product(alloc, self.terms.as_slice(), other.terms.as_slice())?,
        })
    }

    /// The polynomial at values for its places, one each, which have one number of places among
    /// themselves. That is the number of places of the result, 0 without values.
    pub fn subst(&self, alloc: Global, values: &[Poly]) -> Result<Poly, AllocError>
        requires { CanSubst self.now values.now }
        ensures composition { IfOk result (λ p. p ≡ composition_of self.now values.now) }
        ensures value { IfOk result
            (λ p. (xs : List ℤ) → value p.terms xs ≡ value self.now.terms (sums.values values.now xs)) }
        ensures kind { IfOk result (λ p. IsPolynomial p) }
    {
        let list = self.terms.as_slice();
        let places = common_places(values);
        let mut terms = Vec::new(alloc);
        let mut k = list.len();
        'terms: while k > 0 {
            k -= 1;
            let part = at_values(alloc, places, &list[k], values)?;
            terms = merge(alloc, part.as_slice(), terms.as_slice())?;
        }
        Ok(Poly { places, terms })
    }

    /// The greatest degree of a term, 0 for the zero polynomial.
    pub fn degree(&self) -> u32
        ensures degree { result ≡ degree_of self.now.terms }
        ensures low { result ≤ 12 }
    {
        match self.terms.as_slice().last() {
            Some(term) => term.mono.degree(),
            None => 0,
        }
    }

    /// The coefficient of a monomial, 0 where there is no term with it.
    pub fn coef(&self, mono: &Mono) -> i128
        ensures { result ≡ terms.coef self.now.terms mono.now }
    {
        for term in self.terms.as_slice() {
            if term.mono.exponents() == mono.exponents() {
                return term.coef;
            }
        }
        0
    }

    /// The terms in graded order.
    pub fn terms(&self) -> &[Term]
        ensures terms { result.now ≡ self.now.terms }
        ensures kind { IsPolynomial self.now }
    {
        self.terms.as_slice()
    }

    /// The number of places.
    pub fn places(&self) -> usize
        ensures places { result ≡ self.now.places }
        ensures kind { IsPolynomial self.now }
    {
        self.places
    }
}
