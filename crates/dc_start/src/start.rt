//! The starting table.
#![tactic(auto, using(crate::proofs::Loads::loads))]

ghost use Rattle.std.specs.Prelude.{◌≡◌, ◌+◌, ◌<◌, ◌^◌, IfOk};
ghost use Rattle.dc_frac.specs.Value.{value};
ghost use Rattle.dc_frac.specs.Fits.{IsSmall};
ghost use Rattle.dc_lp.specs.Problems.{IsWellFormed};
ghost use Rattle.dc_lp.specs.Tables.{made};
ghost use Rattle.dc_start.specs.Starts.{width, signed, whole_entry, lowered, start_value};

use dc_frac::Frac;
use dc_lp::{Problem, coefficient};
use std::alloc::{AllocError, Global};

/// The starting basis: the artificial columns.
pub fn start_basis(alloc: Global, m: usize, n: usize) -> Result<Vec<usize>, AllocError>
    requires { n + m < 2 ^ 64 }
    ensures { IfOk result (λ v. v.items ≡ made m (λ i. n + i)) }
{
    let mut basis = Vec::with_capacity(alloc, m)?;
    for i in 0..m {
        basis.push(n + i)?;
    }
    Ok(basis)
}

/// The starting table's number in a row and a column: an equation whose right side is negative is
/// negated, the artificial columns are units, the row of phase one is minus the sum of the
/// equations, and that of phase two has the costs.
pub fn first_value(p: &Problem, row: usize, col: usize) -> Frac
    requires well_formed { IsWellFormed p.now }
    requires row { row < p.now.rows + 2 }
    requires column { col < width p.now }
    ensures { value result ≡ start_value p.now row col }
{
    if row < p.rows {
        Frac::whole(first_entry(p, row, col))
    } else if row == p.rows {
        Frac::whole(minus_sum(p, col))
    } else if col < p.columns.len() {
        Frac::whole(p.cost[col])
    } else {
        Frac::whole(0)
    }
}

/// Minus the sum of the equations in a column.
fn minus_sum(p: &Problem, col: usize) -> i128
    requires well_formed { IsWellFormed p.now }
    requires column { col < width p.now }
    ensures { result ≡ lowered p.now col p.now.rows }
{
    let mut total = 0;
    for row in 0..p.rows {
        total -= first_entry(p, row, col);
    }
    total
}

/// The number of an equation in a column: the artificial columns are units, and an equation whose
/// right side is negative is negated.
fn first_entry(p: &Problem, row: usize, col: usize) -> i128
    requires well_formed { IsWellFormed p.now }
    requires row { row < p.now.rows }
    requires column { col < width p.now }
    ensures { result ≡ whole_entry p.now row col }
{
    let n = p.columns.len();
    if col < n {
        with_sign(p.b[row], coefficient(&p.columns[col], row))
    } else if col < n + p.rows {
        if col == n + row { 1 } else { 0 }
    } else {
        with_sign(p.b[row], p.b[row])
    }
}

/// `x`, negated where the right side `b` is negative.
fn with_sign(b: i128, x: i128) -> i128
    requires { IsSmall x }
    ensures { result ≡ signed b x }
{
    if b < 0 { -x } else { x }
}
