//! Sums of products, added up in rising order from 0.
#![tactic(auto)]

ghost use Rattle.std.specs.Prelude.{◌≡◌, ℕ, ◌<◌, length};
ghost use Rattle.std.specs.Option.{option_map};
ghost use Rattle.dc_frac.specs.Value.{value};
ghost use Rattle.dc_frac.specs.Fits.{IsSmall};
ghost use Rattle.dc_lp.specs.Problems.{IsColumn, IsWellFormed, coefficient_in, whole_at, columns};
ghost use Rattle.dc_lp.specs.Folds.{added, folded, numbers};
ghost use Rattle.dc_lp.specs.Verdicts.{left_fold};

use crate::{Entry, Problem};
use dc_frac::Frac;

/// The left side of an equation at `x`; `None` exactly where it doesn't fit.
pub fn left_sum(p: &Problem, x: &[Frac], row: usize) -> Option<Frac>
    requires well_formed { IsWellFormed p.now }
    requires length { length x.now ≡ columns p.now }
    ensures { option_map value result ≡ left_fold p.now (numbers x.now) row }
{
    let mut sum = Frac::whole(0);
    for j in 0..p.columns.len() {
        sum = add_term(sum, coefficient(&p.columns[j], row), x[j])?;
    }
    Some(sum)
}

/// A column's price under `y`; `None` exactly where it doesn't fit.
pub fn price(column: &[Entry], y: &[Frac]) -> Option<Frac>
    requires { IsColumn (length y.now) column.now }
    ensures { option_map value result
        ≡ folded (length y.now) (coefficient_in column.now) (numbers y.now) }
{
    let mut sum = Frac::whole(0);
    for e in column {
        sum = add_term(sum, e.value, y[e.row])?;
    }
    Some(sum)
}

/// The product of two vectors; `None` exactly where it doesn't fit.
pub fn dot(a: &[i128], x: &[Frac]) -> Option<Frac>
    requires small { (k : ℕ) → k < length a.now → IsSmall (whole_at a.now k) }
    requires length { length x.now ≡ length a.now }
    ensures { option_map value result ≡ folded (length a.now) (whole_at a.now) (numbers x.now) }
{
    let mut sum = Frac::whole(0);
    for i in 0..a.len() {
        sum = add_term(sum, a[i], x[i])?;
    }
    Some(sum)
}

/// A sum with one term `a * x` more; `None` exactly where that doesn't fit.
pub fn add_term(sum: Frac, a: i128, x: Frac) -> Option<Frac>
    requires { IsSmall a }
    ensures { option_map value result ≡ added (value sum) a (value x) }
{
    if a == 0 {
        return Some(sum);
    }
    sum.add(Frac::whole(a).mul(x)?)
}

/// The value of a column's entry in a row, and 0 where there is none.
pub fn coefficient(column: &[Entry], row: usize) -> i128
    ensures { result ≡ coefficient_in column.now row }
{
    for e in column {
        if e.row == row {
            return e.value;
        }
    }
    0
}
