//! The pivot run on a tableau.
#![tactic(auto, using(crate::proofs::Steps::steps))]

ghost use Rattle.std.specs.Prelude.{◌≡◌, ◌+◌, ◌<◌, ◌^◌, true, false, OnOk, IfOk, IfErr, ◌⊎◌};
ghost use Rattle.dc_lp.specs.Problems.{IsWellFormed, linear_of, columns};
ghost use Rattle.dc_lp.specs.Meanings.{IsUsable, IsPivotCell, ready_at, resting, start, pivoted, pivot_fits};
ghost use Rattle.dc_simplex.specs.Steps.{Runs};

use crate::SolveFault;
use crate::next::next_due;
use dc_lp::{Problem, Tableau};
use dc_pivots::{Due, Ending, Phase};

/// Loads a problem and runs it to its end, which comes with the number of pivots.
pub fn load_and_run<T: Tableau>(
    p: &Problem,
    tableau: &mut T,
    budget: u64,
) -> Result<(Ending, u64), SolveFault>
    requires { IsWellFormed p.now }
    ensures { Runs (linear_of p.now) budget (T.meaning tableau.new) result }
{
    if tableau.load(p).is_err() {
        return Err(SolveFault::NoMemory);
    }
    run(p, tableau, budget)
}

/// Runs from the start on a tableau that was just loaded.
fn run<T: Tableau>(p: &Problem, tableau: &mut T, budget: u64) -> Result<(Ending, u64), SolveFault>
    requires well_formed { IsWellFormed p.now }
    requires small { p.now.rows + columns p.now + 1 < 2 ^ 64 }
    requires loaded { T.meaning tableau.old ≡ resting (start p.now) }
    ensures { Runs (linear_of p.now) budget (T.meaning tableau.new) result }
{
    let m = p.rows;
    let n = p.columns.len();
    let mut phase = Phase::One;
    let mut pivots = 0;
    loop {
        match next_due(phase, m, n, tableau) {
            // a pivot is due then, of which a quotient doesn't fit
            Err(_) => {
                judge_budget(pivots, budget)?;
                return Err(past(pivots + 1));
            }
            Ok(Due::End(ending)) => return Ok((ending, pivots)),
            Ok(Due::Pivot(next, row, col)) => {
                judge_budget(pivots, budget)?;
                change(row, col, pivots + 1, tableau)?;
                phase = next;
                pivots += 1;
            }
        }
    }
}

/// The fault of a pivot that doesn't fit.
fn past(pivot: u64) -> SolveFault
    ensures { result ≡ SolveFault.Past128 pivot }
{
    SolveFault::Past128 { pivot }
}

/// Judges whether the budget allows a pivot after so many.
fn judge_budget(pivots: u64, budget: u64) -> Result<(), SolveFault>
    ensures left { IfOk result (λ u. ¬ (pivots ≡ budget)) }
    ensures spent { IfErr result (λ e. (e ≡ SolveFault.Budget pivots) × (pivots ≡ budget)) }
{
    if pivots == budget {
        return Err(SolveFault::Budget { pivots });
    }
    Ok(())
}

/// Makes the pivot of this number, for which there is room.
fn pivot_at<T: Tableau>(
    row: usize,
    col: usize,
    pivot: u64,
    tableau: &mut T,
) -> Result<(), SolveFault>
    requires usable { IsUsable (T.meaning tableau.old) }
    requires cell { IsPivotCell (T.meaning tableau.old).table row col }
    requires ready { T.meaning tableau.old ≡ ready_at (T.meaning tableau.old).table row col }
    ensures ok { OnOk result (T.meaning tableau.new
        ≡ resting (pivoted (T.meaning tableau.old).table row col)) }
    ensures fits { OnOk result (pivot_fits (T.meaning tableau.old).table row col ≡ true) }
    ensures err { IfErr result (λ e. (e ≡ SolveFault.Past128 pivot)
        × (pivot_fits (T.meaning tableau.old).table row col ≡ false)) }
{
    if tableau.pivot(row, col).is_err() {
        return Err(past(pivot));
    }
    Ok(())
}

/// Makes the pivot of this number, which is due.
fn change<T: Tableau>(row: usize, col: usize, pivot: u64, tableau: &mut T) -> Result<(), SolveFault>
    requires usable { IsUsable (T.meaning tableau.old) }
    requires cell { IsPivotCell (T.meaning tableau.old).table row col }
    ensures ok { OnOk result (T.meaning tableau.new
        ≡ resting (pivoted (T.meaning tableau.old).table row col)) }
    ensures fits { OnOk result (pivot_fits (T.meaning tableau.old).table row col ≡ true) }
    ensures err { IfErr result (λ e. (e ≡ SolveFault.NoMemory)
        ⊎ ((e ≡ SolveFault.Past128 pivot)
        × (pivot_fits (T.meaning tableau.old).table row col ≡ false))) }
{
    if tableau.room(row, col).is_err() {
        return Err(SolveFault::NoMemory);
    }
    pivot_at(row, col, pivot, tableau)
}
