//! The vectors that the table at the end of a run gives.
#![tactic(auto, using(crate::proofs::Readings::readings))]

ghost use Rattle.std.specs.Prelude.{◌≡◌, ◌+◌, ◌<◌, ◌≤◌, ◌^◌, length, IfOk, pos};
ghost use Rattle.dc_math.specs.Rational.{ℚ};
ghost use Rattle.dc_math.specs.RationalField.{rationals};
ghost use Rattle.dc_frac.specs.Value.{value};
ghost use Rattle.dc_lp.specs.Problems.{IsWellFormed, linear_of, columns};
ghost use Rattle.dc_lp.specs.Meanings.{IsUsable, height};
ghost use Rattle.dc_pivots.specs.Vectors.{basic_row, entry_or_zero};
ghost use Rattle.dc_simplex.specs.Outcomes.{IsVector, TellsEnd, pivots_of, solution_at, direction_at, multiplier_at};
ghost use Rattle.dc_simplex.specs.Steps.{IsAlong};

use crate::Outcome;
use dc_frac::Frac;
use dc_lp::{Problem, Tableau};
use dc_pivots::Ending;
use std::alloc::{AllocError, Global};

/// The outcome of a run that ended so after so many pivots.
pub fn outcome<T: Tableau>(
    alloc: Global,
    p: &Problem,
    ending: Ending,
    pivots: u64,
    tableau: &T,
) -> Result<Outcome, AllocError>
    requires well_formed { IsWellFormed p.now }
    requires usable { IsUsable (T.meaning tableau.now) }
    requires rows { p.now.rows ≡ length (T.meaning tableau.now).table.basis }
    requires columns { columns p.now ≡ (T.meaning tableau.now).table.real }
    requires along { IsAlong (columns p.now) ending }
    ensures vectors { IfOk result
        (λ o. TellsEnd (linear_of p.now) (T.meaning tableau.now).table ending o) }
    ensures pivots { IfOk result (λ o. pivots_of o ≡ pivots) }
{
    let m = p.rows;
    let n = p.columns.len();
    match ending {
        Ending::Infeasible => Ok(Outcome::Infeasible {
            y: multipliers(alloc, p, m, tableau)?,
            pivots,
        }),
        Ending::Optimal => Ok(Outcome::Optimal {
            x: solution(alloc, m, n, tableau)?,
            y: multipliers(alloc, p, m + 1, tableau)?,
            value: tableau.entry(m + 1, n + m).neg(),
            pivots,
        }),
        Ending::Unbounded(col) => Ok(Outcome::Unbounded {
            x: solution(alloc, m, n, tableau)?,
            ray: direction(alloc, col, m, n, tableau)?,
            pivots,
        }),
    }
}

/// The basic solution.
fn solution<T: Tableau>(
    alloc: Global,
    m: usize,
    n: usize,
    tableau: &T,
) -> Result<Vec<Frac>, AllocError>
    requires usable { IsUsable (T.meaning tableau.now) }
    requires rows { m ≡ length (T.meaning tableau.now).table.basis }
    requires columns { n ≡ (T.meaning tableau.now).table.real }
    requires small { m + n + 1 < 2 ^ 64 }
    ensures { IfOk result (λ x. IsVector n (solution_at (T.meaning tableau.now).table) x.items) }
{
    let mut x = Vec::new(alloc);
    for col in 0..n {
        x.push(entry_of(col, n + m, m, n, tableau))?;
    }
    Ok(x)
}

/// The way along which column `along` grows.
fn direction<T: Tableau>(
    alloc: Global,
    along: usize,
    m: usize,
    n: usize,
    tableau: &T,
) -> Result<Vec<Frac>, AllocError>
    requires usable { IsUsable (T.meaning tableau.now) }
    requires rows { m ≡ length (T.meaning tableau.now).table.basis }
    requires columns { n ≡ (T.meaning tableau.now).table.real }
    requires small { m + n + 1 < 2 ^ 64 }
    requires column { along < n }
    ensures { IfOk result (λ r. IsVector n (direction_at (T.meaning tableau.now).table along) r.items) }
{
    let mut ray = Vec::new(alloc);
    for col in 0..n {
        ray.push(growth(col, along, m, n, tableau))?;
    }
    Ok(ray)
}

/// How column `col` grows with column `along`.
fn growth<T: Tableau>(col: usize, along: usize, m: usize, n: usize, tableau: &T) -> Frac
    requires usable { IsUsable (T.meaning tableau.now) }
    requires rows { m ≡ length (T.meaning tableau.now).table.basis }
    requires columns { n ≡ (T.meaning tableau.now).table.real }
    requires small { m + n + 1 < 2 ^ 64 }
    requires column { along < n }
    ensures { value result ≡ direction_at (T.meaning tableau.now).table along col }
{
    if col == along {
        Frac::whole(1)
    } else {
        entry_of(col, along, m, n, tableau).neg()
    }
}

/// The multipliers of the equations by a cost row.
fn multipliers<T: Tableau>(
    alloc: Global,
    p: &Problem,
    cost_row: usize,
    tableau: &T,
) -> Result<Vec<Frac>, AllocError>
    requires well_formed { IsWellFormed p.now }
    requires usable { IsUsable (T.meaning tableau.now) }
    requires rows { p.now.rows ≡ length (T.meaning tableau.now).table.basis }
    requires columns { columns p.now ≡ (T.meaning tableau.now).table.real }
    requires cost_row { cost_row < height (T.meaning tableau.now).table }
    ensures { IfOk result
        (λ y. IsVector p.now.rows
        (multiplier_at (linear_of p.now) (T.meaning tableau.now).table cost_row) y.items) }
{
    let mut y = Vec::new(alloc);
    for row in 0..p.rows {
        y.push(multiplier(p, cost_row, row, tableau))?;
    }
    Ok(y)
}

/// The multiplier of an equation by a cost row.
fn multiplier<T: Tableau>(p: &Problem, cost_row: usize, row: usize, tableau: &T) -> Frac
    requires well_formed { IsWellFormed p.now }
    requires usable { IsUsable (T.meaning tableau.now) }
    requires rows { p.now.rows ≡ length (T.meaning tableau.now).table.basis }
    requires columns { columns p.now ≡ (T.meaning tableau.now).table.real }
    requires cost_row { cost_row < height (T.meaning tableau.now).table }
    requires row { row < p.now.rows }
    ensures { value result
        ≡ multiplier_at (linear_of p.now) (T.meaning tableau.now).table cost_row row }
{
    let entry = tableau.entry(cost_row, p.columns.len() + row);
    if p.b[row] < 0 { entry } else { entry.neg() }
}

/// The entry in column `at` of the row in which column `col` is basic, and 0 where it is in none.
fn entry_of<T: Tableau>(col: usize, at: usize, m: usize, n: usize, tableau: &T) -> Frac
    requires usable { IsUsable (T.meaning tableau.now) }
    requires rows { m ≡ length (T.meaning tableau.now).table.basis }
    requires columns { n ≡ (T.meaning tableau.now).table.real }
    requires small { m + n + 1 < 2 ^ 64 }
    requires within { at ≤ m + n }
    ensures { value result
        ≡ entry_or_zero ℚ rationals (T.meaning tableau.now).table at
        (basic_row (T.meaning tableau.now).table col) }
{
    match row_of(col, m, tableau) {
        None => Frac::whole(0),
        Some(row) => tableau.entry(row, at),
    }
}

/// The row in which a column is basic.
fn row_of<T: Tableau>(col: usize, m: usize, tableau: &T) -> Option<usize>
    requires usable { IsUsable (T.meaning tableau.now) }
    requires rows { m ≡ length (T.meaning tableau.now).table.basis }
    ensures { result ≡ basic_row (T.meaning tableau.now).table col }
{
    for row in 0..m {
        if tableau.basic(row) == col {
            return Some(row);
        }
    }
    None
}
