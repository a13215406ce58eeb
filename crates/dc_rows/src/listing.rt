//! The candidates of a program's system.
ghost use Rattle.std.specs.Prelude.{◌≡◌, IfOk, IfErr, None};
ghost use Rattle.std.specs.List.{AllByRecursion};
ghost use Rattle.dc_affine.specs.Atoms.{IsAtom};
ghost use Rattle.dc_system.specs.Shapes.{IsWellFormed};
ghost use Rattle.dc_rows.specs.Candidate.{candidates_of, size_fault, IsRowFault, AreCandidates};

use crate::kinds::{Candidates, RowFault};
use crate::{bounds, rows};
use dc_affine::Atom;
use dc_syntax::Count;
use dc_system::System;
use sqlite_items::Items;
use std::alloc::Global;

const MOST_ROWS: usize = 1024;

const MOST_BOUNDS: usize = 256;

/// The candidates of a program's system, as `build` gives it, and of the atoms of its condition.
///
/// For a condition in several cases these are the atoms of all cases in order. The rows are, each
/// where it stands first: `x` and `-x` for each variable in order; with `pairs`, for each two
/// variables in order, their difference both ways, their sum and its negation; the linear parts of
/// the condition's atoms and then of the guards' atoms, but for zero and for atoms that mention a
/// chosen value. The bounds are 0, the literals and the sizes of the condition's constants, with
/// the numbers next to them, and the negations of all these, but for those of size above
/// 2147483648; they rise.
///
/// More than 1,024 rows, or else more than 256 bounds, are refused with their number.
pub fn candidates(
    alloc: Global,
    s: &System,
    when: &[Atom],
    pairs: bool,
) -> Result<Candidates, RowFault>
    requires system { IsWellFormed s.now }
    requires atoms { AllByRecursion (IsAtom s.now.params) when.now }
    ensures list { IfOk result (λ c. c ≡ candidates_of s.now when.now pairs) }
    ensures within { IfOk result (λ c. size_fault (candidates_of s.now when.now pairs) ≡ None) }
    ensures kind { IfOk result (λ c. AreCandidates s.now.vars c) }
    ensures fault { IfErr result (IsRowFault (candidates_of s.now when.now pairs)) }
{
    let rows = rows::gather(alloc, s, when, pairs)?;
    if rows.len() > MOST_ROWS {
        return Err(RowFault::TooLarge {
            what: Count::Rows,
            count: rows.len() as u64,
        });
    }
    let bounds = bounds::gather(alloc, s, when)?;
    if bounds.len() > MOST_BOUNDS {
        return Err(RowFault::TooLarge {
            what: Count::Bounds,
            count: bounds.len() as u64,
        });
    }
    Ok(Candidates {
        rows: rows.into_items(alloc)?,
        bounds: Items::from_vec(bounds),
    })
}
