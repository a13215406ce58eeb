//! Small whole numbers, and rows that are to hold them.
#![tactic(auto)]

ghost use Rattle.std.specs.Prelude.{◌≡◌, ℕ, ◌<◌, ◌^◌, pos, ◌≤ℤ◌, ◌<ℤ◌, unsigned_abs, IsTrue, IfSome, true, false};
ghost use Rattle.dc_math.specs.Rational.{of_ℤ, ◌*ℚ◌};
ghost use Rattle.dc_math.specs.Tests.{is_zero};
ghost use Rattle.dc_math.specs.Inverse.{◌/ℚ◌};
ghost use Rattle.dc_frac.specs.Fits.{product_fits, quotient_fits};
ghost use Rattle.dc_frac.specs.Value.{value, IsChecked};
ghost use Rattle.dc_sparse.specs.Entries.{entry_at, KeepsCells};
ghost use Rattle.dc_sparse.specs.Rows.{KeepsRows};
ghost use Rattle.dc_sparse.specs.Scales.{IsWhole, IsDen, AreParted};
ghost use Rattle.dc_sparse.specs.Held.{nodes_of, height_of, KeepsSizes};

use crate::web::Web;
use dc_frac::{Frac, gcd128};

/// What whole numbers and denominators of rows stay below: 2^41. Products of three then fit 128 bits.
const LIMIT: u128 = 0x200_0000_0000;

/// The greatest signed word of the machine.
const GREATEST_WORD: i128 = 0x7fff_ffff_ffff_ffff;

/// Whether a number is whole and small.
pub(crate) fn is_small(number: &Frac) -> bool
    ensures { IsTrue result → IsWhole 41 (value number.now) }
{
    if number.den != 1 {
        return false;
    }
    number.num.unsigned_abs() < LIMIT
}

/// Whether a number is a denominator for a row of whole numbers.
pub(crate) fn is_den(number: &Frac) -> bool
    ensures { IsTrue result → IsDen (value number.now) }
{
    number.is_positive() && is_small(number)
}

impl Web {
    /// Whether the numbers of a row divided by `by` are whole and small.
    pub(crate) fn is_parted(&self, row: usize, by: Frac) -> bool
        requires row { row < height_of self.now }
        requires by { is_zero (value by) ≡ false }
        ensures { IsTrue result → AreParted (entry_at (nodes_of self.now) row) (value by) }
    {
        let mut done = 0;
        let mut next = self.right_of(row, None);
        while let Some(node) = next {
            let at = self.nodes[node].col();
            match quotient(self.nodes[node].value, by) {
                Some(part) => {
                    if !is_small(&part) {
                        return false;
                    }
                }
                None => return false,
            }
            done = at + 1;
            next = self.nodes[node].right();
        }
        true
    }

    /// A common divisor of `by` and the numerators of a row, with the sign of `by`.
    pub(crate) fn content(&self, row: usize, by: Frac) -> Frac
        requires row { row < height_of self.now }
        requires by { is_zero (value by) ≡ false }
        ensures { is_zero (value result) ≡ false }
    {
        let mut shared = size(by);
        let mut done = 0;
        let mut next = self.right_of(row, None);
        while let Some(node) = next {
            if shared == 1 {
                break;
            }
            let at = self.nodes[node].col();
            shared = gcd128(self.nodes[node].value.num, shared);
            done = at + 1;
            next = self.nodes[node].right();
        }
        let share = Frac::whole(shared);
        if by.is_negative() { share.neg() } else { share }
    }

    /// 1 over a common denominator of a row, where all stay small.
    pub(crate) fn common(&self, row: usize) -> Option<Frac>
        requires row { row < height_of self.now }
        ensures { IfSome result (λ share. is_zero (value share) ≡ false) }
    {
        let mut common = 1;
        let mut done = 0;
        let mut next = self.right_of(row, None);
        while let Some(node) = next {
            let at = self.nodes[node].col();
            common = joined(common, self.nodes[node].value.den)?;
            done = at + 1;
            next = self.nodes[node].right();
        }
        Some(Frac::new(1, common))
    }
}

/// The size of a numerator.
fn size(number: Frac) -> i128
    requires { is_zero (value number) ≡ false }
    ensures { pos 1 ≤ℤ result }
{
    if number.num < 0 {
        -number.num
    } else {
        number.num
    }
}

/// A common multiple of two denominators, where both are small.
fn joined(common: i128, den: i128) -> Option<i128>
    requires common { pos 1 ≤ℤ common }
    requires den { pos 1 ≤ℤ den }
    ensures { IfSome result (λ n. pos 1 ≤ℤ n) }
{
    if den == 1 {
        return Some(common);
    }
    if den.unsigned_abs() >= LIMIT {
        return None;
    }
    let more = den / gcd128(common, den);
    if more < 1 {
        return None;
    }
    let product = common.checked_mul(more)?;
    if product.unsigned_abs() < LIMIT {
        Some(product)
    } else {
        None
    }
}

/// The quotient of a number by one that isn't 0; `None` exactly where it doesn't fit. Where a whole
/// number divides another no common divisor is sought, and words are divided by one instruction.
pub(crate) fn quotient(number: Frac, by: Frac) -> Option<Frac>
    requires { is_zero (value by) ≡ false }
    ensures { IsChecked result (quotient_fits (value number) (value by))
        (value number /ℚ value by) }
{
    if number.den == 1 && by.den == 1 && is_word(number.num) && is_word(by.num) {
        let dividend = number.num as i64;
        let divisor = by.num as i64;
        if dividend % divisor == 0 {
            return Some(Frac::whole((dividend / divisor) as i128));
        }
    }
    number.div(by)
}

/// Whether a number and its negation fit a signed word of the machine.
fn is_word(number: i128) -> bool
    ensures { IsTrue result → unsigned_abs number < 2 ^ 63 }
{
    -GREATEST_WORD <= number && number <= GREATEST_WORD
}
