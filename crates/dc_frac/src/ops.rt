//! The operations on fractions.

ghost use Rattle.std.specs.Prelude.{◌≡◌, ◌≢◌, ◌<◌, ◌^◌, ℤ, pos, ◌≤ℤ◌, unsigned_abs, IsTrue, IsFalse, ◌↔◌};
ghost use Rattle.dc_math.specs.Rational.{◌+ℚ◌, ◌-ℚ◌, ◌*ℚ◌, neg_ℚ, of_ℤ};
ghost use Rattle.dc_math.specs.Inverse.{inverse, ◌/ℚ◌};
ghost use Rattle.dc_math.specs.Floor.{floor};
ghost use Rattle.dc_math.specs.Tests.{is_zero, is_negative, is_positive};
ghost use Rattle.dc_frac.specs.Fits.{IsSmall, sum_fits, difference_fits, product_fits, quotient_fits};
ghost use Rattle.dc_frac.specs.Value.{value, IsChecked};

use crate::Frac;
use crate::gcd::gcd128;
use crate::parts::{product_parts, quotient, sum_parts};

impl Frac {
    /// The fraction `num`/`den` in lowest terms.
    pub fn new(num: i128, den: i128) -> Frac
        requires nonzero { den ≢ pos 0 }
        requires num_small { IsSmall num }
        requires den_small { IsSmall den }
        ensures { value result ≡ of_ℤ num /ℚ of_ℤ den }
    {
        if den < 0 {
            lowest(-num, -den)
        } else {
            lowest(num, den)
        }
    }

    /// The whole number `num`.
    pub fn whole(num: i128) -> Frac
        requires { IsSmall num }
        ensures { value result ≡ of_ℤ num }
    {
        Frac { num, den: 1 }
    }

    /// The sum; `None` exactly where it doesn't fit. For a/b + c/d let g = gcd(b, d), u = a*(d/g),
    /// v = c*(b/g), w = u + v and e = gcd(w, g): the sum is (w/e) / ((b/g)*(d/e)), and it fits
    /// where u, v, w and that denominator have a size of at most `MAX`.
    pub fn add(self, other: Frac) -> Option<Frac>
        ensures { IsChecked result (sum_fits (value self) (value other)) (value self +ℚ value other) }
    {
        let (num, den) = sum_parts(self.num, self.den, other.num, other.den)?;
        Some(Frac { num, den })
    }

    /// The difference; `None` exactly where the sum with the negation doesn't fit.
    pub fn sub(self, other: Frac) -> Option<Frac>
        ensures { IsChecked result (difference_fits (value self) (value other))
            (value self -ℚ value other) }
    {
        self.add(other.neg())
    }

    /// The product; `None` exactly where a part of its lowest terms passes `MAX` in size.
    pub fn mul(self, other: Frac) -> Option<Frac>
        ensures { IsChecked result (product_fits (value self) (value other))
            (value self *ℚ value other) }
    {
        let (num, den) = product_parts(self.num, self.den, other.num, other.den)?;
        Some(Frac { num, den })
    }

    /// The quotient by a number that isn't 0; `None` exactly where a part of its lowest terms
    /// passes `MAX` in size.
    pub fn div(self, other: Frac) -> Option<Frac>
        requires { IsFalse (is_zero (value other)) }
        ensures { IsChecked result (quotient_fits (value self) (value other))
            (value self /ℚ value other) }
    {
        self.mul(other.reciprocal())
    }

    /// The negation.
    pub fn neg(self) -> Frac
        ensures { value result ≡ neg_ℚ (value self) }
    {
        Frac {
            num: -self.num,
            den: self.den,
        }
    }

    /// The greatest whole number that is at most the fraction.
    pub fn floor(self) -> i128
        ensures { result ≡ floor (value self) }
    {
        if self.den == 1 {
            // saves the division
            self.num
        } else {
            self.num.div_euclid(self.den)
        }
    }

    /// Whether the fraction is 0.
    pub fn is_zero(self) -> bool
        ensures { result ≡ is_zero (value self) }
    {
        self.num == 0
    }

    /// Whether the fraction is below 0.
    pub fn is_negative(self) -> bool
        ensures { result ≡ is_negative (value self) }
    {
        self.num < 0
    }

    /// Whether the fraction is above 0.
    pub fn is_positive(self) -> bool
        ensures { result ≡ is_positive (value self) }
    {
        self.num > 0
    }

    fn reciprocal(self) -> Frac
        requires { IsFalse (is_zero (value self)) }
        ensures { value result ≡ inverse (value self) }
    {
        if self.num < 0 {
            return Frac {
                num: -self.den,
                den: -self.num,
            };
        }
        Frac {
            num: self.den,
            den: self.num,
        }
    }
}

fn lowest(num: i128, den: i128) -> Frac
    requires positive { pos 1 ≤ℤ den }
    requires num_small { IsSmall num }
    ensures { value result ≡ of_ℤ num /ℚ of_ℤ den }
{
    let shared = gcd128(num, den);
    Frac {
        num: quotient(num, shared),
        den: quotient(den, shared),
    }
}
