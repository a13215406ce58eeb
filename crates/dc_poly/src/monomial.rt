//! Monomials, and terms with a coefficient.
ghost use Rattle.std.specs.Prelude.{ℕ, ◌≡◌, ◌≤◌, ◌<◌, ◌+◌, length, IsOk, IfOk};
ghost use Rattle.dc_poly.specs.Terms.{degree};
ghost use Rattle.dc_poly.specs.Order.{graded};
ghost use Rattle.dc_poly.specs.Sums.{times_mono, unit_at, zeros};

use smallvec::SmallVec;
use std::alloc::{AllocError, Global};
use std::cmp::Ordering;
use std::marker::Model;

/// The exponents of a product of variables, one for each place.
///
/// A monomial has at most 11 places, so that it takes no memory of its own.
#[derive(Drop)]
pub struct Mono {
    exponents: SmallVec<u8, 11>,
}

impl Model for Mono {
    ghost use Rattle.std.specs.Prelude.{List, ℕ, ◌≤◌, length};

    ghost Value = { List ℕ };

    ghost view = { λ m. m.exponents.items };

    ghost invariant = { λ m. length m.exponents.items ≤ 11 };
}

/// A coefficient times a monomial.
#[derive(Drop)]
pub struct Term {
    pub mono: Mono,
    pub coef: i128,
}

impl Mono {
    /// The monomial of these exponents.
    pub fn from_slice(alloc: Global, exponents: &[u8]) -> Result<Mono, AllocError>
        requires { length exponents.now ≤ 11 }
        ensures ok { IsOk result }
        ensures value { IfOk result (λ m. m ≡ exponents.now) }
    {
        Ok(Mono {
            exponents: SmallVec::from_slice(alloc, exponents)?,
        })
    }

    /// The monomial 1, without variables.
    #[tactic(auto, using(crate::proofs::Monos::starts))]
    pub fn one(alloc: Global, places: usize) -> Result<Mono, AllocError>
        requires { places ≤ 11 }
        ensures ok { IsOk result }
        ensures value { IfOk result (λ m. m ≡ zeros places) }
    {
        let exponents = [0u8; 11];
        Mono::from_slice(alloc, &exponents[..places])
    }

    /// The variable at a place, to the first power.
    #[tactic(auto, using(crate::proofs::Monos::starts))]
    pub fn unit(alloc: Global, index: usize, places: usize) -> Result<Mono, AllocError>
        requires few { places ≤ 11 }
        requires inside { index < places }
        ensures ok { IsOk result }
        ensures value { IfOk result (λ m. m ≡ unit_at places index) }
    {
        let mut exponents = [0u8; 11];
        exponents[index] = 1;
        Mono::from_slice(alloc, &exponents[..places])
    }

    /// The exponents, place by place.
    pub fn exponents(&self) -> &[u8]
        ensures value { result.now ≡ self.now }
        ensures few { length result.now ≤ 11 }
    {
        self.exponents.as_slice()
    }

    /// A copy, which takes no memory.
    pub fn copy(&self, alloc: Global) -> Result<Mono, AllocError>
        ensures ok { IsOk result }
        ensures value { IfOk result (λ m. m ≡ self.now) }
    {
        Mono::from_slice(alloc, self.exponents())
    }

    /// The sum of the exponents.
    #[tactic(auto, using(crate::proofs::Monos::degrees))]
    pub fn degree(&self) -> u32
        ensures { result ≡ degree self.now }
    {
        let mut total: u32 = 0;
        for e in self.exponents() {
            total += *e as u32;
        }
        total
    }

    /// Graded order: lower degree first, then the one with the greater exponent at the first
    /// difference.
    #[tactic(auto, using(crate::proofs::Monos::orders))]
    pub fn compare(&self, other: &Mono) -> Ordering
        ensures { result ≡ graded self.now other.now }
    {
        let mine = self.degree();
        let theirs = other.degree();
        if mine < theirs {
            return Ordering::Less;
        }
        if theirs < mine {
            return Ordering::Greater;
        }
        let a = self.exponents();
        let b = other.exponents();
        let common = a.len().min(b.len());
        for i in 0..common {
            if b[i] < a[i] {
                return Ordering::Less;
            }
            if a[i] < b[i] {
                return Ordering::Greater;
            }
        }
        a.len().cmp(&b.len())
    }

    /// The product of two monomials of the same places.
    #[tactic(auto, using(crate::proofs::Monos::products))]
    pub fn times(&self, alloc: Global, other: &Mono) -> Result<Mono, AllocError>
        requires same_places { length other.now ≡ length self.now }
        requires low { degree self.now + degree other.now ≤ 255 }
        ensures { IfOk result (λ m. m ≡ times_mono self.now other.now) }
    {
        let a = self.exponents();
        let b = other.exponents();
        let mut exponents: SmallVec<u8, 11> = SmallVec::new(alloc);
        for i in 0..a.len() {
            exponents.push(a[i] + b[i])?;
        }
        Ok(Mono { exponents })
    }
}

impl Term {
    /// A copy, which takes no memory.
    pub fn copy(&self, alloc: Global) -> Result<Term, AllocError>
        ensures ok { IsOk result }
        ensures value { IfOk result (λ t. t ≡ self.now) }
    {
        Ok(Term {
            mono: self.mono.copy(alloc)?,
            coef: self.coef,
        })
    }
}
