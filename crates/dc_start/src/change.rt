//! What a pivot makes of one entry.
#![tactic(auto, using(crate::proofs::Changes::changes))]

ghost use Rattle.std.specs.Prelude.{◌≡◌, false};
ghost use Rattle.dc_math.specs.Rational.{◌-ℚ◌, ◌*ℚ◌};
ghost use Rattle.dc_math.specs.Inverse.{◌/ℚ◌};
ghost use Rattle.dc_math.specs.Tests.{is_zero};
ghost use Rattle.dc_frac.specs.Fits.{quotient_fits};
ghost use Rattle.dc_frac.specs.Value.{value, IsChecked};
ghost use Rattle.dc_start.specs.Changes.{step_fits};

use dc_frac::Frac;

/// `x` by `by`, at once where `x` is 0.
pub fn quotient(x: Frac, by: Frac) -> Option<Frac>
    requires nonzero { is_zero (value by) ≡ false }
    ensures { IsChecked result (quotient_fits (value x) (value by)) (value x /ℚ value by) }
{
    if x.is_zero() {
        return Some(x);
    }
    x.div(by)
}

/// `y` less `factor * x`, at once where `x` is 0. Where `y` is 0 the product needs no sum.
pub fn step(y: Frac, factor: Frac, x: Frac) -> Option<Frac>
    ensures { IsChecked result (step_fits (value factor) (value x) (value y))
        (value y -ℚ value factor *ℚ value x) }
{
    if x.is_zero() {
        return Some(y);
    }
    let product = factor.mul(x)?;
    if y.is_zero() {
        return Some(product.neg());
    }
    y.sub(product)
}
