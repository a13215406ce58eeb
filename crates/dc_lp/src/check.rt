//! The checkers: each test of the vectors in turn.

ghost use Rattle.std.specs.Prelude.{◌≡◌, ◌+◌, ◌<◌, length};
ghost use Rattle.std.specs.Option.{option_map};
ghost use Rattle.dc_math.specs.Rational.{le_ℚ};
ghost use Rattle.dc_math.specs.Tests.{is_negative, is_positive};
ghost use Rattle.dc_frac.specs.Value.{value};
ghost use Rattle.dc_frac.specs.Fits.{IsSmall};
ghost use Rattle.dc_lp.specs.Problems.{IsWellFormed, linear_of, columns};
ghost use Rattle.dc_lp.specs.Linear.{IsSolution, IsDual, IsRefutation, IsRay, CostAtLeast, HasNoSolution, HasNoBound, cost_of, combined_right};
ghost use Rattle.dc_lp.specs.Folds.{numbers};
ghost use Rattle.dc_lp.specs.Verdicts.{IsVerdict, judged, cost_fold, right_fold, equation_test, price_test, value_test, primal_test, dual_test, refutation_test, ray_test};

use crate::fold::{dot, left_sum, price};
use crate::{Problem, Verdict};
use dc_frac::Frac;
use std::cmp::Ordering;

/// Whether `x` is a solution: tests `x[j] >= 0` for each column, then each equation.
pub fn check_primal(p: &Problem, x: &[Frac]) -> Verdict
    requires well_formed { IsWellFormed p.now }
    requires length { length x.now ≡ columns p.now }
    ensures verdict { IsVerdict (columns p.now + p.now.rows)
        (primal_test p.now (numbers x.now)) result }
    ensures solution { result ≡ Verdict.Holds → IsSolution (linear_of p.now) (numbers x.now) }
{
    let columns = p.columns.len();
    for j in 0..columns {
        if x[j].is_negative() {
            return Verdict::Fails { index: j };
        }
    }
    for i in 0..p.rows {
        match solves(p, x, p.b[i], i) {
            Some(true) => {}
            Some(false) => return Verdict::Fails { index: columns + i },
            None => return Verdict::Past128 { index: columns + i },
        }
    }
    Verdict::Holds
}

/// Whether `y` is a dual whose right side is the cost of `x`: tests `y * A_j <= cost_j` for each
/// column, then `cost * x = y * b`. Where it holds, no solution costs less than `x` does.
pub fn check_dual(p: &Problem, x: &[Frac], y: &[Frac]) -> Verdict
    requires well_formed { IsWellFormed p.now }
    requires x_length { length x.now ≡ columns p.now }
    requires y_length { length y.now ≡ p.now.rows }
    ensures verdict { IsVerdict (columns p.now + 1)
        (dual_test p.now (numbers x.now) (numbers y.now)) result }
    ensures dual { result ≡ Verdict.Holds → IsDual (linear_of p.now) (numbers y.now) }
    ensures value { result ≡ Verdict.Holds
        → cost_of (linear_of p.now) (numbers x.now) ≡ combined_right (linear_of p.now) (numbers y.now) }
    ensures best { result ≡ Verdict.Holds
        → CostAtLeast (linear_of p.now) (cost_of (linear_of p.now) (numbers x.now)) }
{
    for j in 0..p.columns.len() {
        match is_priced(p, y, p.cost[j], j) {
            Some(true) => {}
            Some(false) => return Verdict::Fails { index: j },
            None => return Verdict::Past128 { index: j },
        }
    }
    judge(p.columns.len(), same_value(p, x, y))
}

/// Whether `y` shows that there is no solution: tests `y * A_j <= 0` for each column, then `y * b > 0`.
pub fn check_refutation(p: &Problem, y: &[Frac]) -> Verdict
    requires well_formed { IsWellFormed p.now }
    requires length { length y.now ≡ p.now.rows }
    ensures verdict { IsVerdict (columns p.now + 1) (refutation_test p.now (numbers y.now)) result }
    ensures refutation { result ≡ Verdict.Holds → IsRefutation (linear_of p.now) (numbers y.now) }
    ensures excludes { result ≡ Verdict.Holds → HasNoSolution (linear_of p.now) }
{
    for j in 0..p.columns.len() {
        match is_priced(p, y, 0, j) {
            Some(true) => {}
            Some(false) => return Verdict::Fails { index: j },
            None => return Verdict::Past128 { index: j },
        }
    }
    judge(p.columns.len(), right_is_positive(p, y))
}

/// Whether `r` is a ray: tests `r[j] >= 0` for each column, each equation with right side 0, then
/// `cost * r < 0`. Where it holds, the cost falls below every bound from each solution on.
pub fn check_ray(p: &Problem, r: &[Frac]) -> Verdict
    requires well_formed { IsWellFormed p.now }
    requires length { length r.now ≡ columns p.now }
    ensures verdict { IsVerdict (columns p.now + p.now.rows + 1)
        (ray_test p.now (numbers r.now)) result }
    ensures ray { result ≡ Verdict.Holds → IsRay (linear_of p.now) (numbers r.now) }
    ensures goes_on { result ≡ Verdict.Holds → HasNoBound (linear_of p.now) }
{
    let columns = p.columns.len();
    for j in 0..columns {
        if r[j].is_negative() {
            return Verdict::Fails { index: j };
        }
    }
    for i in 0..p.rows {
        match solves(p, r, 0, i) {
            Some(true) => {}
            Some(false) => return Verdict::Fails { index: columns + i },
            None => return Verdict::Past128 { index: columns + i },
        }
    }
    judge(columns + p.rows, cost_is_negative(p, r))
}

/// The verdict of the last test, whose number is `index`, where all before it are true.
fn judge(index: usize, test: Option<bool>) -> Verdict
    ensures { result ≡ judged index test }
{
    match test {
        Some(true) => Verdict::Holds,
        Some(false) => Verdict::Fails { index },
        None => Verdict::Past128 { index },
    }
}

/// Whether `x` solves equation `row` with right side `b`; `None` where the left side doesn't fit.
fn solves(p: &Problem, x: &[Frac], b: i128, row: usize) -> Option<bool>
    requires well_formed { IsWellFormed p.now }
    requires length { length x.now ≡ columns p.now }
    requires small { IsSmall b }
    ensures { result ≡ equation_test p.now (numbers x.now) b row }
{
    let sum = left_sum(p, x, row)?;
    Some(sum == Frac::whole(b))
}

/// Whether column `j` is priced at most `cost`; `None` where its price doesn't fit.
fn is_priced(p: &Problem, y: &[Frac], cost: i128, j: usize) -> Option<bool>
    requires well_formed { IsWellFormed p.now }
    requires length { length y.now ≡ p.now.rows }
    requires column { j < columns p.now }
    requires small { IsSmall cost }
    ensures { result ≡ price_test p.now (numbers y.now) cost j }
{
    let sum = price(&p.columns[j], y)?;
    Some(is_at_most(&sum, &Frac::whole(cost)))
}

fn same_value(p: &Problem, x: &[Frac], y: &[Frac]) -> Option<bool>
    requires well_formed { IsWellFormed p.now }
    requires x_length { length x.now ≡ columns p.now }
    requires y_length { length y.now ≡ p.now.rows }
    ensures { result ≡ value_test p.now (numbers x.now) (numbers y.now) }
{
    let cost = dot(&p.cost, x)?;
    let right = dot(&p.b, y)?;
    Some(cost == right)
}

fn right_is_positive(p: &Problem, y: &[Frac]) -> Option<bool>
    requires well_formed { IsWellFormed p.now }
    requires length { length y.now ≡ p.now.rows }
    ensures { result ≡ option_map is_positive (right_fold p.now (numbers y.now)) }
{
    let right = dot(&p.b, y)?;
    Some(right.is_positive())
}

fn cost_is_negative(p: &Problem, r: &[Frac]) -> Option<bool>
    requires well_formed { IsWellFormed p.now }
    requires length { length r.now ≡ columns p.now }
    ensures { result ≡ option_map is_negative (cost_fold p.now (numbers r.now)) }
{
    let cost = dot(&p.cost, r)?;
    Some(cost.is_negative())
}

fn is_at_most(x: &Frac, y: &Frac) -> bool
    ensures { result ≡ le_ℚ (value x.now) (value y.now) }
{
    match x.cmp(y) {
        Ordering::Less | Ordering::Equal => true,
        Ordering::Greater => false,
    }
}
