//! The main problem.
ghost use Rattle.std.specs.Prelude.{◌≡◌, ◌⊎◌, ◌≤◌, ◌<◌, All, IfOk, IfErr, None, length};
ghost use Rattle.dc_syntax.specs.declared.tree.Count.TheVariants as count;
ghost use Rattle.dc_lp.specs.Problems.{IsWellFormed, linear_of};
ghost use Rattle.dc_points.specs.Stated.{rational};
ghost use Rattle.dc_claims.specs.Claims.{products_count};
ghost use Rattle.dc_claims.specs.Duties.{IsThere};
ghost use Rattle.dc_claims.specs.Plans.{IsFit};
ghost use Rattle.dc_claims.specs.Problems.{main_problem};
ghost use Rattle.dc_duties.specs.Lent.{flags_of, lent, pair_of};
ghost use Rattle.dc_duties.specs.Tasks.{IsTask};
ghost use Rattle.dc_table.specs.Tables.{equations_in};
ghost use Rattle.dc_match.specs.declared.fault.MatchFault.TheVariants.{NoMemory, TooLarge};
ghost use Rattle.dc_match.specs.Answers.{IsFault, IsFilled, IsFillFault, size_fault};

use crate::counts::{column_count, equation_count};
use crate::fault::MatchFault;
use dc_affine::Atom;
use dc_claims::Duty;
use dc_duties::{Programs, SidePlan, Task, block_of, duties_in_order};
use dc_lp::Problem;
use dc_syntax::Count;
use dc_table::Table;
use sqlite_items::Items;
use std::alloc::Global;

/// The greatest number of columns.
const COLUMNS: u64 = 8192;

/// The greatest number of equations.
const EQUATIONS: usize = 2048;

/// The main problem of two programs with atoms at their locations and of the cases of a condition, for
/// potentials of at most the degree and products of at most so many atoms.
///
/// # Errors
/// `TooLarge` with `Columns` exactly where it has more than 8,192 columns, which are counted before any
/// product is made; else with `Equations` exactly where it has more than 2,048 equations.
pub fn problem_of(
    alloc: Global,
    new: &SidePlan,
    old: &SidePlan,
    cases: &[Items<Atom>],
    live: &[bool],
    degree: u8,
    products: u8,
) -> Result<Problem, MatchFault>
    requires fit { IsFit (pair_of new.now old.now cases.now) degree products
        (flags_of new.now old.now live.now) }
    ensures problem { IfOk result
        (λ p. linear_of p
        ≡ rational
        (main_problem (pair_of new.now old.now cases.now) degree products
        (flags_of new.now old.now live.now))) }
    ensures well_formed { IfOk result (λ p. IsWellFormed p) }
    ensures within { IfOk result
        (λ p. size_fault (pair_of new.now old.now cases.now) degree products
        (flags_of new.now old.now live.now)
        ≡ None) }
    ensures fault { IfErr result
        (IsFault (pair_of new.now old.now cases.now) degree products
        (flags_of new.now old.now live.now)) }
{
    let programs = Programs { new, old, cases };
    let duties = duties_in_order(alloc, new, old, live)?;
    let count = column_count(&programs, duties.as_slice(), degree, products);
    if count > COLUMNS {
        return Err(MatchFault::TooLarge {
            what: Count::Columns,
            count,
        });
    }
    let task = Task::new(alloc, &programs, degree, products)?;
    let table = fill_table(alloc, &task, duties.as_slice())?;
    let problem = table.into_problem(alloc)?;
    Ok(problem)
}

// The table of some duties.
fn fill_table(alloc: Global, task: &Task, duties: &[Duty]) -> Result<Table, MatchFault>
    requires task { IsTask task.now }
    requires there { All (IsThere (lent task.now.programs.now)) duties.now }
    requires few { All (λ o. products_count
        (lent task.now.programs.now) task.now.products o ≤ 8192) duties.now }
    ensures ok { IfOk result
        (IsFilled (lent task.now.programs.now) task.now.degree task.now.products duties.now) }
    ensures err { IfErr result
        (IsFillFault (lent task.now.programs.now) task.now.degree task.now.products duties.now) }
{
    let unknowns = task.unknowns.as_slice().len();
    let Some(columns) = unknowns.checked_mul(2) else {
        return Err(MatchFault::NoMemory);
    };
    let mut table = Table::new(alloc, columns)?;
    for duty in duties {
        let block = block_of(alloc, task, duty)?;
        let Some(rows) = table.rows.checked_add(block.monos.as_slice().len()) else {
            return Err(MatchFault::NoMemory);
        };
        if rows > EQUATIONS {
            return Err(too_many(alloc, task, duties));
        }
        table.add(alloc, &block)?;
    }
    Ok(table)
}

// How many equations there are, as a fault.
fn too_many(alloc: Global, task: &Task, duties: &[Duty]) -> MatchFault
    requires task { IsTask task.now }
    requires there { All (IsThere (lent task.now.programs.now)) duties.now }
    requires few { All (λ o. products_count
        (lent task.now.programs.now) task.now.products o ≤ 8192) duties.now }
    ensures { (result ≡ NoMemory)
        ⊎ (result
        ≡ TooLarge count.Equations
        (length
        (equations_in (lent task.now.programs.now) task.now.degree task.now.products duties.now))) }
{
    match equation_count(alloc, task, duties) {
        Ok(count) => MatchFault::TooLarge {
            what: Count::Equations,
            count,
        },
        Err(_) => MatchFault::NoMemory,
    }
}
