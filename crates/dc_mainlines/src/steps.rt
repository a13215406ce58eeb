//! The clauses of the main problem, test by test.
ghost use Rattle.std.specs.Prelude.{◌≡◌, ◌+◌, ◌-◌, ◌*◌, ◌≤◌, ◌<◌, ℕ, All, IfOk, length, map, pos, Some, true};
ghost use Rattle.std.specs.List.{range_with_len};
ghost use Rattle.std.specs.Option.{option_map};
ghost use Rattle.dc_frac.specs.Fits.{IsSmall};
ghost use Rattle.dc_frac.specs.Value.{value};
ghost use Rattle.dc_math.specs.Rational.{le_ℚ, of_ℤ};
ghost use Rattle.dc_lp.specs.Problems.{IsWellFormed, whole_at, columns};
ghost use Rattle.dc_lp.specs.Folds.{folded, numbers};
ghost use Rattle.dc_cert.specs.Vectors.{AreItems, IsBelow, IsVector, entry_of, in_range};
ghost use Rattle.dc_clauses.specs.Steps.{all_of, counted, first_failure};
ghost use Rattle.dc_clauses.specs.Lines.{at};
ghost use Rattle.dc_clauses.specs.Mains.{whole_problem};
ghost use Rattle.dc_mainlines.specs.Sums.{priced, short_columns, signed, solved};

use crate::sums::short_column;
use dc_cert::{Item, Sparse};
use dc_clauses::{Step, failure, number_at};
use dc_frac::Frac;
use dc_lp::{Problem, add_term, price};
use std::cmp::Ordering;

/// The first item that isn't positive.
pub fn sign_failure(items: &[Item]) -> Option<Step>
    ensures { result ≡ first_failure (map signed items.now) }
{
    for item in items {
        if let Some(step) = failure(8, item.index, Some(item.value.is_positive())) {
            return Some(step);
        }
    }
    None
}

/// Whether a row's sum is the number on the right; none where it doesn't fit.
fn is_solved(sums: &[Option<Frac>], right: &[i128], row: usize) -> Option<bool>
    requires row { row < length sums.now }
    requires small { IsSmall (whole_at right.now row) }
    ensures { result ≡ solved sums.now (whole_at right.now) row }
{
    let sum = sums[row]?;
    Some(sum == Frac::whole(number_at(right, row)))
}

/// The first equation that doesn't hold.
#[tactic(auto, using(dc_clauses::proofs::Walks::numbering))]
pub fn equation_failure(clause: u8, sums: &[Option<Frac>], right: &[i128]) -> Option<Step>
    requires small { (k : ℕ) → k < length sums.now → IsSmall (whole_at right.now k) }
    ensures { result ≡ first_failure (counted clause 0 (map
        (solved sums.now (whole_at right.now)) (range_with_len 0 (length sums.now)))) }
{
    for row in 0..sums.len() {
        let test = is_solved(sums, right, row);
        if let Some(step) = failure(clause, row, test) {
            return Some(step);
        }
    }
    None
}

fn is_within(sum: &Frac, number: &i128) -> bool
    requires { IsSmall number.now }
    ensures { result ≡ le_ℚ (value sum.now) (of_ℤ number.now) }
{
    match sum.cmp(&Frac::whole(*number)) {
        Ordering::Less | Ordering::Equal => true,
        Ordering::Greater => false,
    }
}

/// Whether a column's price under `y` is right: that of an unknown its cost, that of a multiplier
/// at most 0. None where it doesn't fit.
fn is_priced(p: &Problem, unknowns: usize, costs: &[i128], y: &[Frac], k: usize) -> Option<bool>
    requires well_formed { IsWellFormed p.now }
    requires length { length y.now ≡ p.now.rows }
    requires room { unknowns * 2 ≤ columns p.now }
    requires below { k + unknowns < columns p.now }
    requires small { (j : ℕ) → j < columns p.now → IsSmall (whole_at costs.now j) }
    ensures { result
        ≡ priced (whole_problem p.now) unknowns (whole_at costs.now) (numbers y.now) k }
{
    let column = short_column(p, unknowns, k);
    let sum = price(&p.columns[column], y)?;
    if k < unknowns {
        Some(sum == Frac::whole(number_at(costs, column)))
    } else {
        Some(is_within(&sum, &0))
    }
}

/// The first column whose price isn't right: the unknowns, then the multipliers.
#[tactic(auto, using(dc_clauses::proofs::Walks::numbering))]
pub fn price_failure(p: &Problem, unknowns: usize, costs: &[i128], y: &[Frac]) -> Option<Step>
    requires well_formed { IsWellFormed p.now }
    requires length { length y.now ≡ p.now.rows }
    requires room { unknowns * 2 ≤ columns p.now }
    requires small { (j : ℕ) → j < columns p.now → IsSmall (whole_at costs.now j) }
    ensures { result ≡ first_failure (counted 10 0 (map
        (priced (whole_problem p.now) unknowns (whole_at costs.now) (numbers y.now))
        (range_with_len 0 (short_columns p.now unknowns)))) }
{
    for k in 0..p.columns.len() - unknowns {
        let test = is_priced(p, unknowns, costs, y, k);
        if let Some(step) = failure(10, k, test) {
            return Some(step);
        }
    }
    None
}

/// The value at an index, 0 where there is no item.
pub fn entry(items: &[Item], index: usize) -> Frac
    ensures { value result ≡ entry_of items.now index }
{
    let mut found = Frac::whole(0);
    for item in items {
        if item.index == index {
            found = item.value;
        }
    }
    found
}

/// The product of numbers with a vector; none where it doesn't fit.
fn product(numbers: &[i128], items: &[Item]) -> Option<Frac>
    requires small { (k : ℕ) → k < length numbers.now → IsSmall (whole_at numbers.now k) }
    requires rising { AreItems 0 items.now }
    requires below { All (IsBelow (length numbers.now)) items.now }
    ensures { option_map value result
        ≡ folded (length numbers.now) (whole_at numbers.now) (entry_of items.now) }
{
    let mut sum = Frac::whole(0);
    for item in items {
        sum = add_term(sum, numbers[item.index], item.value)?;
    }
    Some(sum)
}

/// The product of the right sides with a vector; none where it doesn't fit.
pub fn right_sum(p: &Problem, dual: &Sparse) -> Option<Frac>
    requires well_formed { IsWellFormed p.now }
    requires vector { IsVector dual.now }
    requires range { in_range p.now.rows dual.now ≡ true }
    ensures { option_map value result
        ≡ folded p.now.rows (whole_at p.now.b.items) (at dual.now) }
{
    product(&p.b, dual.items.as_slice())
}
