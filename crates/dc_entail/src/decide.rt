//! The two questions.
ghost use Rattle.std.specs.Prelude.{ℕ, ◌≡◌, ◌<◌, ◌^◌, IfOk, IfErr, length, sum_by, unsigned_abs};
ghost use Rattle.std.specs.List.{AllByRecursion};
ghost use Rattle.dc_affine.specs.Atoms.{IsAtom};
ghost use Rattle.dc_lp.specs.Problems.{IsWellFormed, linear_of};
ghost use Rattle.dc_points.specs.Points.{IsDead};
ghost use Rattle.dc_points.specs.Stated.{rational, empty_problem as empty_problem_of, sup_problem as sup_problem_of};
ghost use Rattle.dc_entail.specs.Answers.{TellsEmptiness, TellsSup, IsSolveFault, TellsOnly};

use crate::answer::{Emptiness, Sup};
use crate::column::{column_entries, place_entries, zeros};
use dc_affine::Atom;
use dc_lp::{Problem, Tableau};
use dc_simplex::{Outcome, SolveFault, solve};
use std::alloc::{AllocError, Global};

/// Whether any rational point meets the atoms, which have at most `places` coefficients, by at most
/// `budget` pivots on a tableau that is lent as working space.
///
/// `Dead` exactly where none does, with the solution of the outcome of the problem that
/// `empty_problem` states; `Live` exactly where one does, with the refutation of that outcome, of
/// `places + 1` numbers.
///
/// # Errors
/// `Past128` and `Budget` exactly where the run of that problem has them. The tableau is left in no
/// state that is told.
pub fn empty<T: Tableau>(
    alloc: Global,
    hyps: &[Atom],
    places: usize,
    tableau: &mut T,
    budget: u64,
) -> Result<Emptiness, SolveFault>
    requires atoms { AllByRecursion (IsAtom places) hyps.now }
    ensures answer { IfOk result (TellsEmptiness hyps.now places budget) }
    ensures fault { IfErr result (IsSolveFault (rational (empty_problem_of hyps.now places)) budget) }
    ensures exact { TellsOnly (rational (empty_problem_of hyps.now places)) budget result }
{
    let Ok(p) = empty_problem(alloc, hyps, places) else {
        return Err(SolveFault::NoMemory);
    };
    match solve(alloc, &p, tableau, budget) {
        Ok(Outcome::Optimal { x, .. }) => Ok(Emptiness::Dead { mult: x }),
        Ok(Outcome::Infeasible { y, .. }) => Ok(Emptiness::Live { y }),
        Ok(Outcome::Unbounded { .. }) => unreachable!(),
        Err(fault) => Err(fault),
    }
}

/// From which number on a form is entailed by atoms that some point meets, by at most `budget`
/// pivots on a tableau that is lent as working space. The form has a coefficient for each place;
/// the sum of their sizes is below 2^70.
///
/// `At` with the least number, where there is one, and the solution of the outcome of the problem
/// that `sup_problem` states; `NoBound` exactly where the form is entailed from no number on, with
/// the refutation of that outcome.
///
/// # Errors
/// `Past128` and `Budget` exactly where the run of that problem has them. The tableau is left in no
/// state that is told.
pub fn sup<T: Tableau>(
    alloc: Global,
    hyps: &[Atom],
    form: &[i128],
    tableau: &mut T,
    budget: u64,
) -> Result<Sup, SolveFault>
    requires atoms { AllByRecursion (IsAtom (length form.now)) hyps.now }
    requires live { ¬ IsDead hyps.now }
    requires light { sum_by unsigned_abs form.now < 2 ^ 70 }
    ensures answer { IfOk result (TellsSup hyps.now form.now budget) }
    ensures fault { IfErr result (IsSolveFault (rational (sup_problem_of hyps.now form.now)) budget) }
    ensures exact { TellsOnly (rational (sup_problem_of hyps.now form.now)) budget result }
{
    let Ok(p) = sup_problem(alloc, hyps, form) else {
        return Err(SolveFault::NoMemory);
    };
    match solve(alloc, &p, tableau, budget) {
        Ok(Outcome::Optimal { x, value, .. }) => Ok(Sup::At { value, mult: x }),
        Ok(Outcome::Infeasible { y, .. }) => Ok(Sup::NoBound { y }),
        Ok(Outcome::Unbounded { .. }) => unreachable!(),
        Err(fault) => Err(fault),
    }
}

/// The problem that `empty` solves: a column for each atom, an equation for each place with the
/// coefficients and right side 0, and a last equation with the constants and right side -1; no
/// column costs.
pub fn empty_problem(alloc: Global, hyps: &[Atom], places: usize) -> Result<Problem, AllocError>
    requires atoms { AllByRecursion (IsAtom places) hyps.now }
    ensures problem { IfOk result (λ p. linear_of p ≡ rational (empty_problem_of hyps.now places)) }
    ensures well_formed { IfOk result (λ p. IsWellFormed p) }
{
    let Some(rows) = places.checked_add(1) else {
        return Err(AllocError);
    };
    let mut columns = Vec::new(alloc);
    for atom in hyps {
        columns.push(column_entries(alloc, atom, places)?)?;
    }
    let mut b = zeros(alloc, places)?;
    b.push(-1)?;
    let cost = zeros(alloc, hyps.len())?;
    Ok(Problem {
        rows,
        columns,
        b,
        cost,
    })
}

/// The problem that `sup` solves: a column for each atom, which costs the atom's constant, and an
/// equation for each place with the coefficients and the form's as right side. Here the atoms may
/// be dead.
pub fn sup_problem(alloc: Global, hyps: &[Atom], form: &[i128]) -> Result<Problem, AllocError>
    requires atoms { AllByRecursion (IsAtom (length form.now)) hyps.now }
    requires light { sum_by unsigned_abs form.now < 2 ^ 70 }
    ensures problem { IfOk result (λ p. linear_of p ≡ rational (sup_problem_of hyps.now form.now)) }
    ensures well_formed { IfOk result (λ p. IsWellFormed p) }
{
    let mut columns = Vec::new(alloc);
    let mut cost = Vec::new(alloc);
    for atom in hyps {
        columns.push(place_entries(alloc, atom, form.len())?)?;
        cost.push(atom.c0 as i128)?;
    }
    Ok(Problem {
        rows: form.len(),
        columns,
        b: Vec::from_slice(alloc, form)?,
        cost,
    })
}
