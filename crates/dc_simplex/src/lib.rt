//! The simplex method in exact numbers, by Bland's rule (R. G. Bland, New finite pivoting rules for
//! the simplex method, 1977), over any tableau.
//!
//! The pivot run is defined in `dc_pivots`, apart from any code: it is the same to the last pivot
//! whatever holds the tableau.
#![tactic(auto)]

pub mod laws;
mod next;
mod run;
mod vectors;

ghost use Rattle.std.specs.Prelude.{◌≡◌, ◌≢◌, ℕ, ◌+◌, ◌≤◌, IfOk};
ghost use Rattle.dc_lp.specs.Problems.{IsWellFormed, linear_of, columns};
ghost use Rattle.dc_pivots.specs.FieldLaws.{choose};
ghost use Rattle.dc_simplex.specs.Outcomes.{Solves, TellsOnly, Shows, UsesOneOfOpposites};

use crate::run::load_and_run;
use crate::vectors::outcome;
pub use dc_dense::Dense;
use dc_frac::Frac;
use dc_lp::{Problem, Tableau};
use std::alloc::Global;
use thiserror::Error;

/// How a run ends, with the number of its pivots.
#[derive(Debug, Drop)]
pub enum Outcome {
    /// `x` is a solution and `y` a dual, both of cost `value`: no solution costs less.
    Optimal {
        x: Vec<Frac>,
        y: Vec<Frac>,
        value: Frac,
        pivots: u64,
    },
    /// `y` is a refutation: there is no solution.
    Infeasible {
        y: Vec<Frac>,
        pivots: u64,
    },
    /// `x` is a solution and `ray` a ray: the cost falls below every bound.
    Unbounded {
        x: Vec<Frac>,
        ray: Vec<Frac>,
        pivots: u64,
    },
}

/// Why there is no outcome.
#[derive(Debug, Drop, Error)]
pub enum SolveFault {
    /// Pivot number `pivot`, counted from 1, is the first whose values don't fit 128 bits.
    #[error("pivot {pivot} passes 128 bits")]
    Past128 { pivot: u64 },
    /// After `pivots` pivots, the whole budget, another is due.
    #[error("more than {pivots} pivots")]
    Budget { pivots: u64 },
    /// Memory ran out.
    #[error("no memory")]
    NoMemory,
}

/// Solves a linear problem with at most `budget` pivots, drive-out included, on a tableau that is
/// lent for it.
///
/// The result is the answer of the problem's pivot run: its end with the vectors of its last table,
/// where the tableau is left; or the first refusal of the run. A budget of as many pivots as there
/// are sets of m columns among n + m, for m equations in n unknowns, is never spent. Of two columns
/// that are each other's negatives, with their costs, a solution or a ray uses at most one.
///
/// # Errors
/// `Past128` exactly where a pivot within the budget doesn't fit, and `Budget` exactly where the
/// run wants one more than the budget. The tableau is then in no state that is told.
pub fn solve<T: Tableau>(
    alloc: Global,
    p: &Problem,
    tableau: &mut T,
    budget: u64,
) -> Result<Outcome, SolveFault>
    requires { IsWellFormed p.now }
    ensures answer { Solves (linear_of p.now) budget (T.meaning tableau.new) result }
    ensures exact { TellsOnly (linear_of p.now) budget result }
    ensures shows { IfOk result (Shows (linear_of p.now)) }
    ensures opposites { IfOk result (UsesOneOfOpposites (linear_of p.now)) }
    ensures enough { choose (columns p.now + p.now.rows) p.now.rows ≤ budget → (n : ℕ)
        → result ≢ Err (SolveFault.Budget n) }
{
    let (ending, pivots) = match load_and_run(p, tableau, budget) {
        Ok(end) => end,
        Err(fault) => return Err(fault),
    };
    match outcome(alloc, p, ending, pivots, tableau) {
        Ok(outcome) => Ok(outcome),
        Err(_) => Err(SolveFault::NoMemory),
    }
}
