//! The order of fractions.

ghost use Rattle.std.specs.Prelude.{◌≡◌, ℕ, ◌+◌, ◌*◌, ◌/◌, ◌%◌, ◌<◌, ◌≤◌};
ghost use Rattle.std.specs.Ordering.{MatchOrdering};
ghost use Rattle.dc_math.specs.Rational.{◌<ℚ◌};
ghost use Rattle.dc_frac.specs.Value.{value};

use crate::Frac;
use crate::gcd::WORD;
use std::cmp::Ordering;

// a/b against c/d by whole parts, and where these are equal by the remainders: r/b is below s/d
// where d/s is below b/r. Products of words can't overflow, so those are compared at once, which
// saves the divisions.
fn compare_sizes(a: u128, b: u128, c: u128, d: u128) -> Ordering
    requires b { 0 < b }
    requires d { 0 < d }
    ensures { MatchOrdering result (a * d < c * b) (a * d ≡ c * b) (c * b < a * d) }
{
    if a <= WORD && b <= WORD && c <= WORD && d <= WORD {
        return (a * d).cmp(&(c * b));
    }
    let left = a / b;
    let right = c / d;
    if left < right {
        return Ordering::Less;
    }
    if right < left {
        return Ordering::Greater;
    }
    let left_rest = a % b;
    let right_rest = c % d;
    if right_rest == 0 {
        return if left_rest == 0 {
            Ordering::Equal
        } else {
            Ordering::Greater
        };
    }
    if left_rest == 0 {
        return Ordering::Less;
    }
    compare_sizes(d, right_rest, b, left_rest)
}

impl Frac {
    /// The order of two fractions, by whole parts and remainders.
    pub fn cmp(&self, other: &Frac) -> Ordering
        ensures { MatchOrdering result
            (value self.now <ℚ value other.now)
            (value self.now ≡ value other.now)
            (value other.now <ℚ value self.now) }
    {
        if self.den == other.den {
            // saves all products and divisions; whole numbers are among these
            return self.num.cmp(&other.num);
        }
        let left = self.num.unsigned_abs();
        let right = other.num.unsigned_abs();
        let left_den = self.den.unsigned_abs();
        let right_den = other.den.unsigned_abs();
        if self.num < 0 {
            if other.num < 0 {
                return compare_sizes(right, right_den, left, left_den);
            }
            return Ordering::Less;
        }
        if other.num < 0 {
            return Ordering::Greater;
        }
        compare_sizes(left, left_den, right, right_den)
    }
}
