//! Solving without a limit on pivots: how many a run can make at most, and a call that always comes
//! to the end of the run.
#![tactic(auto)]

ghost use Rattle.std.specs.Prelude.{◌≡◌, ◌+◌, ◌<◌, ◌≤◌, ◌^◌, IfOk, SomeIff};
ghost use Rattle.dc_lp.specs.Problems.{IsWellFormed, linear_of, columns};
ghost use Rattle.dc_pivots.specs.FieldLaws.{choose};
ghost use Rattle.dc_simplex.specs.Outcomes.{Shows, UsesOneOfOpposites};
ghost use Rattle.dc_cycle.specs.Ended.{SolvesToEnd, TellsEnds, TellsPast};

use dc_lp::{Problem, Tableau};
use dc_simplex::{Outcome, SolveFault, solve};
use std::alloc::Global;
use thiserror::Error;

/// Why there is no outcome.
#[derive(Debug, Drop, Error)]
pub enum EndFault {
    /// Pivot number `pivot`, counted from 1, is the first whose values don't fit 128 bits.
    #[error("pivot {pivot} passes 128 bits")]
    Past128 { pivot: u64 },
    /// Memory ran out.
    #[error("no memory")]
    NoMemory,
}

/// The number of sets of `rows` columns among `columns + rows`: a run over `rows` equations in
/// `columns` unknowns makes fewer pivots. `None` exactly where it passes 2^64 - 1. It takes no
/// memory.
pub fn bases(rows: usize, columns: usize) -> Option<u64>
    requires rows { rows ≤ 2048 }
    requires columns { columns ≤ 8192 }
    ensures { SomeIff result (choose (columns + rows) rows < 2 ^ 64) (choose (columns + rows) rows) }
{
    let mut count: u64 = 1;
    for i in 0..rows {
        count = grown(count, columns, i)?;
    }
    Some(count)
}

/// One row more, and with it one column.
fn grown(count: u64, columns: usize, i: usize) -> Option<u64>
    requires count { count ≡ choose (columns + i) i }
    requires columns { columns ≤ 8192 }
    requires rows { i < 2048 }
    ensures { SomeIff result (choose (columns + i + 1) (i + 1) < 2 ^ 64)
        (choose (columns + i + 1) (i + 1)) }
{
    let next = count as u128 * (columns + i + 1) as u128 / (i + 1) as u128;
    if next <= u64::MAX as u128 {
        Some(next as u64)
    } else {
        None
    }
}

/// Solves a linear problem to the end of its run. The budget is at least the number of sets of m
/// columns among n + m, for m equations in n unknowns (`bases` tells it), and so is never spent.
///
/// The result is that of `dc_simplex::solve`, with nothing for a spent budget.
///
/// # Errors
/// `Past128` exactly where a pivot of the run doesn't fit. The tableau is then in no state that is
/// told.
pub fn solve_ended<T: Tableau>(
    alloc: Global,
    p: &Problem,
    tableau: &mut T,
    budget: u64,
) -> Result<Outcome, EndFault>
    requires well_formed { IsWellFormed p.now }
    requires enough { choose (columns p.now + p.now.rows) p.now.rows ≤ budget }
    ensures answer { SolvesToEnd (linear_of p.now) budget (T.meaning tableau.new) result }
    ensures ends { TellsEnds (linear_of p.now) result }
    ensures past { TellsPast (linear_of p.now) result }
    ensures shows { IfOk result (Shows (linear_of p.now)) }
    ensures opposites { IfOk result (UsesOneOfOpposites (linear_of p.now)) }
{
    match solve(alloc, p, tableau, budget) {
        Ok(outcome) => Ok(outcome),
        Err(SolveFault::Past128 { pivot }) => Err(EndFault::Past128 { pivot }),
        Err(SolveFault::Budget { .. }) => unreachable!(),
        Err(SolveFault::NoMemory) => Err(EndFault::NoMemory),
    }
}
