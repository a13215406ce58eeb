//! What is due at a table.
#![tactic(auto, using(crate::proofs::Dues::dues))]

ghost use Rattle.std.specs.Prelude.{◌≡◌, ◌+◌, ◌<◌, ◌^◌, length};
ghost use Rattle.dc_math.specs.Rational.{ℚ};
ghost use Rattle.dc_math.specs.RationalField.{rationals};
ghost use Rattle.dc_lp.specs.Tables.{real_entry};
ghost use Rattle.dc_lp.specs.Meanings.{IsUsable, drive_cell};
ghost use Rattle.dc_simplex.specs.Limits.{due_in};
ghost use Rattle.dc_simplex.specs.Steps.{told, due_one, due_two, due_drive, end_one};

use dc_lp::{PastQuotient, Tableau};
use dc_pivots::{Due, Ending, Phase};

/// What is due after a pivot of the phase, where there are `m` equations in `n` unknowns.
pub fn next_due<T: Tableau>(
    phase: Phase,
    m: usize,
    n: usize,
    tableau: &T,
) -> Result<Due, PastQuotient>
    requires usable { IsUsable (T.meaning tableau.now) }
    requires rows { m ≡ length (T.meaning tableau.now).table.basis }
    requires columns { n ≡ (T.meaning tableau.now).table.real }
    requires small { m + n + 1 < 2 ^ 64 }
    ensures { result ≡ told (T.meaning tableau.now).table (due_in phase (T.meaning tableau.now).table) }
{
    match phase {
        Phase::One => next_one(m, n, tableau),
        Phase::Drive => next_drive(m, n, tableau),
        Phase::Two => next_two(m, tableau),
    }
}

/// What is due in phase one, or else after it.
fn next_one<T: Tableau>(m: usize, n: usize, tableau: &T) -> Result<Due, PastQuotient>
    requires usable { IsUsable (T.meaning tableau.now) }
    requires rows { m ≡ length (T.meaning tableau.now).table.basis }
    requires columns { n ≡ (T.meaning tableau.now).table.real }
    requires small { m + n + 1 < 2 ^ 64 }
    ensures { result ≡ told (T.meaning tableau.now).table (due_one (T.meaning tableau.now).table) }
{
    match tableau.entering(m) {
        None => after_one(m, n, tableau),
        Some(col) => match tableau.ratio_row(col) {
            Err(past) => Err(past),
            Ok(None) => after_one(m, n, tableau),
            Ok(Some(row)) => Ok(Due::Pivot(Phase::One, row, col)),
        },
    }
}

/// What is due where phase one is over.
fn after_one<T: Tableau>(m: usize, n: usize, tableau: &T) -> Result<Due, PastQuotient>
    requires usable { IsUsable (T.meaning tableau.now) }
    requires rows { m ≡ length (T.meaning tableau.now).table.basis }
    requires columns { n ≡ (T.meaning tableau.now).table.real }
    requires small { m + n + 1 < 2 ^ 64 }
    ensures { result ≡ told (T.meaning tableau.now).table (end_one (T.meaning tableau.now).table) }
{
    if tableau.entry(m, n + m).is_negative() {
        Ok(Due::End(Ending::Infeasible))
    } else {
        next_drive(m, n, tableau)
    }
}

/// What is due in the drive-out, or else in phase two.
fn next_drive<T: Tableau>(m: usize, n: usize, tableau: &T) -> Result<Due, PastQuotient>
    requires usable { IsUsable (T.meaning tableau.now) }
    requires rows { m ≡ length (T.meaning tableau.now).table.basis }
    requires columns { n ≡ (T.meaning tableau.now).table.real }
    requires small { m + n + 1 < 2 ^ 64 }
    ensures { result ≡ told (T.meaning tableau.now).table (due_drive (T.meaning tableau.now).table) }
{
    match cell_to_drive(m, n, tableau) {
        None => next_two(m, tableau),
        Some((row, col)) => Ok(Due::Pivot(Phase::Drive, row, col)),
    }
}

/// What is due in phase two.
fn next_two<T: Tableau>(m: usize, tableau: &T) -> Result<Due, PastQuotient>
    requires usable { IsUsable (T.meaning tableau.now) }
    requires rows { m ≡ length (T.meaning tableau.now).table.basis }
    requires small { m + 1 < 2 ^ 64 }
    ensures { result ≡ told (T.meaning tableau.now).table (due_two (T.meaning tableau.now).table) }
{
    match tableau.entering(m + 1) {
        None => Ok(Due::End(Ending::Optimal)),
        Some(col) => match tableau.ratio_row(col) {
            Err(past) => Err(past),
            Ok(None) => Ok(Due::End(Ending::Unbounded(col))),
            Ok(Some(row)) => Ok(Due::Pivot(Phase::Two, row, col)),
        },
    }
}

/// The first row with an artificial basic column and a nonzero real entry, and the least column of
/// such an entry.
fn cell_to_drive<T: Tableau>(m: usize, n: usize, tableau: &T) -> Option<(usize, usize)>
    requires usable { IsUsable (T.meaning tableau.now) }
    requires rows { m ≡ length (T.meaning tableau.now).table.basis }
    requires columns { n ≡ (T.meaning tableau.now).table.real }
    requires small { m + n + 1 < 2 ^ 64 }
    ensures { result ≡ drive_cell (T.meaning tableau.now).table }
{
    for row in 0..m {
        if tableau.basic(row) >= n {
            if let Some(col) = real_entry(row, m, n, tableau) {
                return Some((row, col));
            }
        }
    }
    None
}

/// The least real column with a nonzero entry in the row of an equation.
fn real_entry<T: Tableau>(row: usize, m: usize, n: usize, tableau: &T) -> Option<usize>
    requires usable { IsUsable (T.meaning tableau.now) }
    requires rows { m ≡ length (T.meaning tableau.now).table.basis }
    requires columns { n ≡ (T.meaning tableau.now).table.real }
    requires small { m + n + 1 < 2 ^ 64 }
    requires row { row < m }
    ensures { result ≡ real_entry ℚ rationals (T.meaning tableau.now).table row }
{
    for col in 0..n {
        if !tableau.entry(row, col).is_zero() {
            return Some(col);
        }
    }
    None
}
