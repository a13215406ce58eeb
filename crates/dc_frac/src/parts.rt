//! Sums and products of numerators and denominators, with the short ways of the common cases.

ghost use Rattle.std.specs.Prelude.{◌≡◌, ◌≢◌, ℕ, ◌<◌, ◌≤◌, ◌^◌, pos, negsuc, ◌≤ℤ◌, ◌<ℤ◌, ◌+ℤ◌, ◌*ℤ◌, unsigned_abs, SomeIff, IsTrue, int_div};
ghost use Rattle.dc_math.specs.Quotients.{gcd_ℤ};
ghost use Rattle.dc_frac.specs.Fits.{IsSmall};
ghost use Rattle.dc_frac.specs.Parts.{IsWord, SumFits, sum_pair, ApartFits, apart_pair, over_pair, ProductFits, product_pair, whole_pair};

use crate::gcd::gcd128;

const LEAST_WORD: i128 = -0x8000_0000_0000_0000;

const GREATEST_WORD: i128 = 0x7fff_ffff_ffff_ffff;

// whether a number fits a signed word of the machine
pub(crate) fn is_word(a: i128) -> bool
    ensures { IsTrue result → IsWord a }
{
    LEAST_WORD <= a && a <= GREATEST_WORD
}

// The product of two words can't overflow, which saves the product of double width by which
// `checked_mul` finds out.
pub(crate) fn small_product(a: i128, b: i128) -> Option<i128>
    ensures { SomeIff result (IsSmall (a *ℤ b)) (a *ℤ b) }
{
    if is_word(a) && is_word(b) {
        return Some(a * b);
    }
    let product = a.checked_mul(b)?;
    if product == i128::MIN {
        None
    } else {
        Some(product)
    }
}

pub(crate) fn small_sum(a: i128, b: i128) -> Option<i128>
    ensures { SomeIff result (IsSmall (a +ℤ b)) (a +ℤ b) }
{
    let sum = a.checked_add(b)?;
    if sum == i128::MIN { None } else { Some(sum) }
}

// By 1 nothing is divided, and words by the machine's own instruction; a 128-bit division is a call
// of a routine.
pub(crate) fn quotient(a: i128, d: i128) -> i128
    requires { pos 1 ≤ℤ d }
    ensures { result ≡ int_div a d }
{
    if d == 1 {
        a
    } else if is_word(a) && is_word(d) {
        (a as i64 / d as i64) as i128
    } else {
        a / d
    }
}

// The sum of whole numbers. Saves both common divisors, four divisions and three products.
fn sum_whole(a: i128, c: i128) -> Option<(i128, i128)>
    ensures { SomeIff result (IsSmall (a +ℤ c)) (whole_pair (a +ℤ c)) }
{
    Some((small_sum(a, c)?, 1))
}

// a/d + c/d. Saves a common divisor, two divisions and three products.
fn sum_over(a: i128, c: i128, d: i128) -> Option<(i128, i128)>
    requires d { pos 1 ≤ℤ d }
    ensures { SomeIff result (IsSmall (a +ℤ c)) (over_pair a c d) }
{
    let total = small_sum(a, c)?;
    let shared = gcd128(total, d);
    Some((quotient(total, shared), quotient(d, shared)))
}

// a/b + c/d where b and d have no common divisor: the sum is in lowest terms. Saves a common
// divisor and four divisions.
fn sum_apart(a: i128, b: i128, c: i128, d: i128) -> Option<(i128, i128)>
    ensures { SomeIff result (ApartFits a b c d) (apart_pair a b c d) }
{
    let left = small_product(a, d)?;
    let right = small_product(c, b)?;
    let total = small_sum(left, right)?;
    let den = small_product(b, d)?;
    Some((total, den))
}

// a/b + c/d where g is the greatest common divisor of b and d.
fn sum_by(a: i128, b: i128, c: i128, d: i128, g: i128) -> Option<(i128, i128)>
    requires g { pos 1 ≤ℤ g }
    requires g_small { IsSmall g }
    ensures { SomeIff result (SumFits a b c d g) (sum_pair a b c d g) }
{
    let b_part = quotient(b, g);
    let left = small_product(a, quotient(d, g))?;
    let right = small_product(c, b_part)?;
    let total = small_sum(left, right)?;
    let shared = gcd128(total, g);
    let den = small_product(b_part, quotient(d, shared))?;
    Some((quotient(total, shared), den))
}

// The numerator and denominator of a/b + c/d in lowest terms.
pub(crate) fn sum_parts(a: i128, b: i128, c: i128, d: i128) -> Option<(i128, i128)>
    requires b { pos 1 ≤ℤ b }
    requires d { pos 1 ≤ℤ d }
    requires a_small { IsSmall a }
    requires c_small { IsSmall c }
    ensures { SomeIff result (SumFits a b c d (gcd_ℤ b d)) (sum_pair a b c d (gcd_ℤ b d)) }
{
    if b == d {
        return if d == 1 {
            sum_whole(a, c)
        } else {
            sum_over(a, c, d)
        };
    }
    let common = gcd128(b, d);
    if common == 1 {
        return sum_apart(a, b, c, d);
    }
    sum_by(a, b, c, d, common)
}

// The product of whole numbers. Saves two common divisors and a product.
fn product_whole(a: i128, c: i128) -> Option<(i128, i128)>
    ensures { SomeIff result (IsSmall (a *ℤ c)) (whole_pair (a *ℤ c)) }
{
    Some((small_product(a, c)?, 1))
}

// The numerator and denominator of the product of a/b and c/d in lowest terms: what divides a
// numerator and the other's denominator is taken out first, so that nothing is computed that is
// larger than the answer.
pub(crate) fn product_parts(a: i128, b: i128, c: i128, d: i128) -> Option<(i128, i128)>
    requires b { pos 1 ≤ℤ b }
    requires d { pos 1 ≤ℤ d }
    requires a_small { IsSmall a }
    requires c_small { IsSmall c }
    ensures { SomeIff result (ProductFits a b c d) (product_pair a b c d) }
{
    if b == 1 && d == 1 {
        return product_whole(a, c);
    }
    let left = gcd128(a, d);
    let right = gcd128(c, b);
    let num = small_product(quotient(a, left), quotient(c, right))?;
    let den = small_product(quotient(b, right), quotient(d, left))?;
    Some((num, den))
}
