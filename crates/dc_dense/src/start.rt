//! The starting table.
#![tactic(auto, using(crate::proofs::Loads::loads))]

ghost use Rattle.std.specs.Prelude.{◌≡◌, ◌+◌, ◌*◌, ◌<◌, IfOk, OnOk};
ghost use Rattle.dc_lp.specs.Problems.{IsWellFormed};
ghost use Rattle.dc_start.specs.Starts.{width};
ghost use Rattle.dc_dense.specs.Rows.{HasRows};

use dc_frac::Frac;
use dc_lp::Problem;
use dc_start::first_value;
use std::alloc::{AllocError, Global};

/// The rows of the starting table, `size` numbers in all.
pub fn start_items(alloc: Global, p: &Problem, size: usize) -> Result<Vec<Frac>, AllocError>
    requires well_formed { IsWellFormed p.now }
    requires size { size ≡ (p.now.rows + 2) * width p.now }
    ensures { IfOk result (λ v. HasRows p.now (p.now.rows + 2) 0 v.items) }
{
    let mut items = Vec::with_capacity(alloc, size)?;
    for row in 0..p.rows + 2 {
        push_row(&mut items, p, row)?;
    }
    Ok(items)
}

/// One row more.
fn push_row(items: &mut Vec<Frac>, p: &Problem, row: usize) -> Result<(), AllocError>
    requires well_formed { IsWellFormed p.now }
    requires row { row < p.now.rows + 2 }
    requires rows { HasRows p.now row 0 items.old.items }
    ensures { OnOk result (HasRows p.now (row + 1) 0 items.new.items) }
{
    for col in 0..p.columns.len() + p.rows + 1 {
        items.push(first_value(p, row, col))?;
    }
    Ok(())
}
