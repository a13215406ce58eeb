//! The left sides of the equations. Each column of a vector's items is gone through once.
ghost use Rattle.std.specs.Prelude.{◌≡◌, ◌+◌, ◌*◌, ◌≤◌, ◌<◌, ℕ, All, IfOk, length, true};
ghost use Rattle.dc_frac.specs.Fits.{IsSmall};
ghost use Rattle.dc_frac.specs.Value.{value};
ghost use Rattle.dc_lp.specs.Problems.{IsColumn, IsWellFormed, columns};
ghost use Rattle.dc_cert.specs.Vectors.{IsBelow, IsVector, in_range};
ghost use Rattle.dc_clauses.specs.Lines.{at};
ghost use Rattle.dc_clauses.specs.Mains.{left_fold, multipliers, short_column as column_of, whole_problem};
ghost use Rattle.dc_mainlines.specs.Sums.{AreSums, sum_at, sum_of, with_entry, with_items, with_term};

use dc_cert::{Item, Sparse};
use dc_frac::Frac;
use dc_lp::{Entry, Problem, add_term};
use std::alloc::{AllocError, Global};

/// The column of the problem for an unknown's plus, or behind the unknowns a multiplier.
pub fn short_column(p: &Problem, unknowns: usize, k: usize) -> usize
    requires room { unknowns * 2 ≤ columns p.now }
    requires below { k + unknowns < columns p.now }
    ensures column { result ≡ column_of (whole_problem p.now) unknowns k }
    ensures below { result < columns p.now }
{
    if k < unknowns { k * 2 } else { unknowns + k }
}

/// A sum with one term more; none where there was none, or where it doesn't fit.
fn with_one(sum: Option<Frac>, a: i128, x: Frac) -> Option<Frac>
    requires { IsSmall a }
    ensures { sum_of result ≡ with_term (sum_of sum) a (value x) }
{
    add_term(sum?, a, x)
}

/// Adds to the sum of each row its entry of a column times a number.
fn add_column(sums: &mut [Option<Frac>], column: &[Entry], x: Frac)
    requires { IsColumn (length sums.old) column.now }
    ensures { AreSums sums.new (length sums.old)
        (λ i. with_entry (sum_at sums.old i) column.now i (value x)) }
{
    for e in column {
        sums[e.row] = with_one(sums[e.row], e.value, x);
    }
}

/// Adds the columns of a vector's items, each times its value. Item k belongs to the column for
/// `start + k`.
fn add_items(sums: &mut [Option<Frac>], p: &Problem, unknowns: usize, items: &[Item], start: usize)
    requires well_formed { IsWellFormed p.now }
    requires rows { length sums.old ≡ p.now.rows }
    requires room { unknowns * 2 ≤ columns p.now }
    requires below { All (λ k. start + k.index + unknowns < columns p.now) items.now }
    ensures { AreSums sums.new p.now.rows
        (λ i. with_items p.now unknowns start i (sum_at sums.old i) items.now) }
{
    for item in items {
        let column = short_column(p, unknowns, start + item.index);
        add_column(sums, &p.columns[column], item.value);
    }
}

/// Adds the columns of the unknowns, and then those of the multipliers, each times its value.
fn add_values(
    sums: &mut [Option<Frac>],
    p: &Problem,
    unknowns: usize,
    unknown: &Sparse,
    lambda: &Sparse,
)
    requires well_formed { IsWellFormed p.now }
    requires rows { length sums.old ≡ p.now.rows }
    requires room { unknowns * 2 ≤ columns p.now }
    requires unknown_range { in_range unknowns unknown.now ≡ true }
    requires lambda_range { in_range (multipliers (whole_problem p.now) unknowns) lambda.now ≡ true }
    ensures { AreSums sums.new p.now.rows (λ i. with_items p.now unknowns unknowns i
        (with_items p.now unknowns 0 i (sum_at sums.old i) unknown.now.items) lambda.now.items) }
{
    add_items(sums, p, unknowns, unknown.items.as_slice(), 0);
    add_items(sums, p, unknowns, lambda.items.as_slice(), unknowns);
}

/// The left side of each equation; none where it doesn't fit.
pub fn left_sums(
    alloc: Global,
    p: &Problem,
    unknowns: usize,
    unknown: &Sparse,
    lambda: &Sparse,
) -> Result<Vec<Option<Frac>>, AllocError>
    requires well_formed { IsWellFormed p.now }
    requires room { unknowns * 2 ≤ columns p.now }
    requires unknown { IsVector unknown.now }
    requires lambda { IsVector lambda.now }
    requires unknown_range { in_range unknowns unknown.now ≡ true }
    requires lambda_range { in_range (multipliers (whole_problem p.now) unknowns) lambda.now ≡ true }
    ensures { IfOk result (λ sums. AreSums sums.items p.now.rows
        (left_fold (whole_problem p.now) unknowns unknown.now lambda.now)) }
{
    let mut sums = vec![in alloc; Some(Frac::whole(0)); p.rows]?;
    add_values(&mut sums, p, unknowns, unknown, lambda);
    Ok(sums)
}
