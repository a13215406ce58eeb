//! The atoms of a location.
ghost use Rattle.std.specs.Prelude.{◌≡◌, ◌<◌, ◌++◌, IfOk, OnOk, length};
ghost use Rattle.dc_rows.specs.Candidate.{row_at};
ghost use Rattle.dc_greatest.specs.Kept.{IsBelow, IsFit, with_least, least_rows};

use crate::family::LocFamily;
use dc_affine::Atom;
use dc_moves::row_atom;
use dc_rows::Candidates;
use std::alloc::{AllocError, Global};

/// Adds the least atom of a row, if it has one.
fn push_least(
    alloc: Global,
    c: &Candidates,
    row: usize,
    least: Option<usize>,
    atoms: &mut Vec<Atom>,
) -> Result<(), AllocError>
    requires row { row < length c.now.rows }
    requires least { IsBelow (length c.now.bounds) least }
    ensures { OnOk result
        (atoms.new.items ≡ atoms.old.items ++ with_least c.now (row_at c.now row) least) }
{
    let Some(k) = least else {
        return Ok(());
    };
    let row = &c.rows.as_slice()[row];
    let bound = c.bounds.as_slice()[k];
    atoms.push(row_atom(alloc, row.as_slice(), bound)?)?;
    Ok(())
}

/// Each row that is kept, with its least bound.
pub(crate) fn least_atoms(
    alloc: Global,
    c: &Candidates,
    f: &LocFamily,
) -> Result<Vec<Atom>, AllocError>
    requires { IsFit c.now f.now }
    ensures { IfOk result (λ v. v.items ≡ least_rows c.now c.now.rows f.now.least) }
{
    let mut atoms = Vec::new(alloc);
    let least = f.least.as_slice();
    for row in 0..least.len() {
        push_least(alloc, c, row, least[row], &mut atoms)?;
    }
    Ok(atoms)
}
