//! The products of at most so many atoms in their order, and their number.
ghost use Rattle.std.specs.Prelude.{ℕ, ◌≡◌, ◌≤◌, ◌-◌, ◌++◌, All, length, map, IfOk, OnOk};
ghost use Rattle.std.specs.List.{AllByRecursion};
ghost use Rattle.dc_affine.specs.Atoms.{IsAtom};
ghost use Rattle.dc_handelman.specs.Choices.{choices_of, of_size};
ghost use Rattle.dc_handelman.specs.Products.{IsProduct, products_of, times_choice};

use crate::forms::forms;
use dc_affine::Atom;
use dc_poly::Poly;
use std::alloc::{AllocError, Global};

/// All products of at most k of the atoms' left sides over so many places, repeats allowed: fewer
/// factors first, then by the factors' numbers, which rise in each product. The empty product 1 is
/// the first.
///
/// Each is a polynomial of so many places, of degree at most k.
pub fn products(alloc: Global, hyps: &[Atom], places: usize, k: u8) -> Result<Vec<Poly>, AllocError>
    requires few_places { places ≤ 11 }
    requires few { length hyps.now ≤ 2048 }
    requires some { 1 ≤ k }
    requires low { k ≤ 3 }
    requires not_many { length (choices_of (length hyps.now) k) ≤ 8192 }
    requires atoms { AllByRecursion (IsAtom places) hyps.now }
    ensures list { IfOk result (λ v. v.items ≡ products_of places hyps.now k) }
    ensures kinds { IfOk result (λ v. All (IsProduct places k) v.items) }
{
    let factors = forms(alloc, hyps, places)?;
    let one = Poly::constant(alloc, 1, places)?;
    let mut list = Vec::new(alloc);
    for size in 0..k + 1 {
        extend(alloc, &mut list, factors.as_slice(), &one, 0, size)?;
    }
    Ok(list)
}

/// The number of products of at most k of so many atoms. It takes no memory.
///
/// It is the binomial coefficient of `hyps + k` over `k`: each division is exact.
#[tactic(auto, using(crate::proofs::Walks::counts))]
pub fn product_count(hyps: usize, k: u8) -> u64
    requires few { hyps ≤ 2048 }
    requires some { 1 ≤ k }
    requires low { k ≤ 3 }
    ensures { result ≡ length (choices_of hyps k) }
{
    let mut count = 1;
    for factor in 1..k as u64 + 1 {
        count = count * (hyps as u64 + factor) / factor;
    }
    count
}

// Puts at the end of a list a product times each choice of so many factors, from a number on.
fn extend(
    alloc: Global,
    out: &mut Vec<Poly>,
    factors: &[Poly],
    product: &Poly,
    from: usize,
    left: u8,
) -> Result<(), AllocError>
    requires low { left ≤ 3 }
    requires factors { All (IsProduct product.now.places 1) factors.now }
    requires product { IsProduct product.now.places (3 - left) product.now }
    ensures { OnOk result
        (out.new.items
        ≡ out.old.items
        ++ map (times_choice factors.now product.now) (of_size (length factors.now - from) from left)) }
{
    if left == 0 {
        out.push(product.copy(alloc)?)?;
        return Ok(());
    }
    for i in from..factors.len() {
        let more = product.mul(alloc, &factors[i])?;
        extend(alloc, out, factors, &more, i, left - 1)?;
    }
    Ok(())
}
