//! Sums, products and powers of ordered lists of terms, whose degree may pass that of a polynomial.
ghost use Rattle.std.specs.Prelude.{ℕ, ◌≡◌, ◌≤◌, ◌<◌, ◌+◌, ◌*◌, ◌^◌, ◌++◌, length, IfOk, OnOk, IsTrue, ◌↔◌, unsigned_abs};
ghost use Rattle.dc_poly.specs.Terms.{Canonical, Places, degree, degree_of, largest, weight};
ghost use Rattle.dc_poly.specs.Sums.{constant_of, plus, shifted, times, times_power};
ghost use Rattle.dc_poly.specs.Conditions.{ArePadded};

use super::{Mono, Term};
use std::alloc::{AllocError, Global};
use std::cmp::Ordering;

// The constant as a list, empty for 0.
pub(crate) fn constant(alloc: Global, value: i128, places: usize) -> Result<Vec<Term>, AllocError>
    requires { places ≤ 11 }
    ensures { IfOk result (λ v. v.items ≡ constant_of value places) }
{
    let mut terms = Vec::new(alloc);
    if value != 0 {
        let mono = Mono::one(alloc, places)?;
        terms.push(Term { mono, coef: value })?;
    }
    Ok(terms)
}

// Puts copies of terms at the end of a list.
pub(crate) fn append(alloc: Global, out: &mut Vec<Term>, terms: &[Term]) -> Result<(), AllocError>
    ensures { OnOk result (out.new.items ≡ out.old.items ++ terms.now) }
{
    for term in terms {
        out.push(term.copy(alloc)?)?;
    }
    Ok(())
}

// The sum of two ordered lists, by one merge.
pub(crate) fn merge(alloc: Global, left: &[Term], right: &[Term]) -> Result<Vec<Term>, AllocError>
    requires left { Canonical left.now }
    requires right { Canonical right.now }
    requires light { weight left.now + weight right.now ≤ largest }
    ensures { IfOk result (λ v. v.items ≡ plus left.now right.now) }
{
    let mut out = Vec::new(alloc);
    let mut i = 0;
    let mut j = 0;
    'merge: while i < left.len() && j < right.len() {
        let a = &left[i];
        let b = &right[j];
        match a.mono.compare(&b.mono) {
            Ordering::Less => {
                out.push(a.copy(alloc)?)?;
                i += 1;
            }
            Ordering::Greater => {
                out.push(b.copy(alloc)?)?;
                j += 1;
            }
            Ordering::Equal => {
                let coef = a.coef + b.coef;
                if coef != 0 {
                    let mono = a.mono.copy(alloc)?;
                    out.push(Term { mono, coef })?;
                }
                i += 1;
                j += 1;
            }
        }
    }
    append(alloc, &mut out, &left[i..])?;
    append(alloc, &mut out, &right[j..])?;
    Ok(out)
}

// Each term of a list times one term, in the same order.
fn shift(alloc: Global, factor: &Term, terms: &[Term]) -> Result<Vec<Term>, AllocError>
    requires padded { Places (length factor.now.mono) terms.now }
    requires low { degree factor.now.mono + degree_of terms.now ≤ 255 }
    requires light { unsigned_abs factor.now.coef * weight terms.now ≤ largest }
    ensures { IfOk result (λ v. v.items ≡ shifted factor.now.mono factor.now.coef terms.now) }
{
    let mut out = Vec::new(alloc);
    for term in terms {
        let mono = factor.mono.times(alloc, &term.mono)?;
        let coef = factor.coef * term.coef;
        out.push(Term { mono, coef })?;
    }
    Ok(out)
}

// The product of two ordered lists: what the first term gives is merged into what the later terms give.
pub(crate) fn product(alloc: Global, left: &[Term], right: &[Term]) -> Result<Vec<Term>, AllocError>
    requires left { Canonical left.now }
    requires right { Canonical right.now }
    requires padded { ArePadded left.now right.now }
    requires low { degree_of left.now + degree_of right.now ≤ 255 }
    requires light { weight left.now * weight right.now ≤ largest }
    ensures { IfOk result (λ v. v.items ≡ times left.now right.now) }
{
    let mut sum = Vec::new(alloc);
    let mut k = left.len();
    'terms: while k > 0 {
        k -= 1;
        let part = shift(alloc, &left[k], right)?;
        sum = merge(alloc, part.as_slice(), sum.as_slice())?;
    }
    Ok(sum)
}

// A power of `value` times a list.
pub(crate) fn power_times(
    alloc: Global,
    value: &[Term],
    exponent: u8,
    list: Vec<Term>,
) -> Result<Vec<Term>, AllocError>
    requires value { Canonical value.now }
    requires list { Canonical list.items }
    requires padded { ArePadded value.now list.items }
    requires low { exponent * degree_of value.now + degree_of list.items ≤ 255 }
    requires nonzero { 0 < exponent → 0 < weight value.now }
    requires light { weight value.now ^ exponent * weight list.items ≤ largest }
    ensures { IfOk result (λ v. v.items ≡ times_power value.now exponent list.items) }
{
    let mut power = list;
    'powers: for _k in 0..exponent {
        power = product(alloc, value, power.as_slice())?;
    }
    Ok(power)
}
