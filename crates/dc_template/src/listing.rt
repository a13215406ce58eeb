//! The monomials of a template in graded order, and their number.
ghost use Rattle.std.specs.Prelude.{ℕ, ◌≡◌, ◌≤◌, ◌+◌, ◌++◌, length, IfOk, OnOk};
ghost use Rattle.dc_poly.specs.Terms.{degree};
ghost use Rattle.dc_template.specs.Monomials.{AreMonomials, continued};
ghost use Rattle.dc_poly.specs.Monomials.{monomials_of};

use dc_poly::Mono;
use std::alloc::{AllocError, Global};

/// All monomials of at most the degree over so many variables, each once, in graded order: lower degree
/// first, then the one with the greater exponent at the first difference.
#[tactic(auto, using(crate::proofs::Walks::lists))]
pub fn monomials(alloc: Global, vars: usize, degree: u8) -> Result<Vec<Mono>, AllocError>
    requires few { vars ≤ 10 }
    requires low { degree ≤ 3 }
    ensures monomials { IfOk result (λ v. AreMonomials vars degree v.items) }
    ensures list { IfOk result (λ v. v.items ≡ monomials_of vars degree) }
{
    let one = Mono::one(alloc, vars)?;
    let mut list = Vec::new(alloc);
    for d in 0..degree + 1 {
        extend(alloc, &mut list, &one, 0, d)?;
    }
    Ok(list)
}

/// The number of monomials of at most the degree over so many variables. It takes no memory.
///
/// It is the binomial coefficient of `vars + degree` over `degree`: each division is exact.
#[tactic(auto, using(crate::proofs::Walks::counts))]
pub fn unknowns(vars: usize, degree: u8) -> u64
    requires few { vars ≤ 10 }
    requires low { degree ≤ 3 }
    ensures { result ≡ length (monomials_of vars degree) }
{
    let mut count = 1;
    for k in 1..degree as u64 + 1 {
        count = count * (vars as u64 + k) / k;
    }
    count
}

// Puts at the end of a list the products of a monomial with each monomial of this degree in the
// variables from a place on: first those with the variable at that place.
#[tactic(auto, using(crate::proofs::Walks::walks))]
fn extend(
    alloc: Global,
    out: &mut Vec<Mono>,
    mono: &Mono,
    from: usize,
    left: u8,
) -> Result<(), AllocError>
    requires inside { from ≤ length mono.now }
    requires low { degree mono.now + left ≤ 255 }
    ensures { OnOk result (out.new.items ≡ out.old.items ++ continued mono.now from left) }
{
    if left == 0 {
        out.push(mono.copy(alloc)?)?;
        return Ok(());
    }
    let places = mono.exponents().len();
    if from < places {
        let variable = Mono::unit(alloc, from, places)?;
        let more = mono.times(alloc, &variable)?;
        extend(alloc, out, &more, from, left - 1)?;
        extend(alloc, out, mono, from + 1, left)?;
    }
    Ok(())
}
