//! What a tableau is, whatever holds it.

ghost use Rattle.std.specs.Prelude.{◌≡◌, ◌<◌, ◌≤◌, true, false, OnOk, OnErr, IsOk, slice_index, length, ◌↔◌};
ghost use Rattle.dc_frac.specs.Value.{value};
ghost use Rattle.dc_lp.specs.Problems.{IsWellFormed};
ghost use Rattle.dc_lp.specs.Meanings.{Meaning, IsUsable, IsCell, IsPivotCell, resting, ready_at, start, at, height, width, entering, ratio_answer, pivoted, pivot_fits};

use crate::Problem;
use dc_frac::Frac;
use std::alloc::AllocError;
use thiserror::Error;

/// A quotient of right side by entry passes 128 bits.
#[derive(Debug, Drop, Error)]
#[error("a quotient passes 128 bits")]
pub struct PastQuotient;

/// A value of a pivot passes 128 bits.
#[derive(Debug, Drop, Error)]
#[error("a value of a pivot passes 128 bits")]
pub struct PastPivot;

/// A table of fractions for the simplex method with Bland's rule (R. G. Bland, New finite pivoting
/// rules for the simplex method, 1977).
///
/// With m equations in n unknowns there are the rows 0 to m - 1 of the equations, the row m of
/// phase one and the row m + 1 of phase two; the n real columns are followed by m artificial
/// columns and the right side. Every call but `load` requires a tableau that is loaded and that no
/// pivot broke.
pub trait Tableau {
    ghost meaning: { Self → Meaning };

    /// Holds the starting table of a well-formed problem. After a refusal nothing is loaded.
    fn load(&mut self, p: &Problem) -> Result<(), AllocError>
        requires { IsWellFormed p.now }
        ensures ok { OnOk result (meaning self.new ≡ resting (start p.now)) }
        ensures err { OnErr result ((meaning self.new).loaded ≡ false) };

    /// The entry in a row and a column.
    fn entry(&self, row: usize, col: usize) -> Frac
        requires usable { IsUsable (meaning self.now) }
        requires cell { IsCell (meaning self.now).table row col }
        ensures { value result ≡ at (meaning self.now).table row col };

    /// The column that is basic in a row.
    fn basic(&self, row: usize) -> usize
        requires usable { IsUsable (meaning self.now) }
        requires row { row < length (meaning self.now).table.basis }
        ensures { result ≡ slice_index (meaning self.now).table.basis row };

    /// The least real column with a negative entry in a cost row; `None` exactly where there is none.
    fn entering(&self, cost_row: usize) -> Option<usize>
        requires usable { IsUsable (meaning self.now) }
        requires cost_row { length (meaning self.now).table.basis ≤ cost_row }
        requires row { cost_row < height (meaning self.now).table }
        ensures { result ≡ entering (meaning self.now).table cost_row };

    /// Of the equations' rows with a positive entry in a column, the one whose quotient of right
    /// side by entry is least, ties by the least basic column; `None` exactly where no entry is
    /// positive.
    ///
    /// # Errors
    /// `PastQuotient` exactly where one of the quotients doesn't fit.
    fn ratio_row(&self, col: usize) -> Result<Option<usize>, PastQuotient>
        requires usable { IsUsable (meaning self.now) }
        requires column { col < width (meaning self.now).table }
        ensures { result ≡ ratio_answer (meaning self.now).table col };

    /// Makes room for the pivot at a cell. It changes nothing else, and nothing at all after a
    /// refusal.
    fn room(&mut self, row: usize, col: usize) -> Result<(), AllocError>
        requires usable { IsUsable (meaning self.old) }
        requires cell { IsPivotCell (meaning self.old).table row col }
        ensures ok { OnOk result (meaning self.new ≡ ready_at (meaning self.old).table row col) }
        ensures err { OnErr result (meaning self.new ≡ meaning self.old) };

    /// Makes the pivot at the cell for which there is room. It takes no memory.
    ///
    /// # Errors
    /// `PastPivot` exactly where a quotient, product or difference of the pivot doesn't fit. The
    /// tableau is broken then until it is loaded again.
    fn pivot(&mut self, row: usize, col: usize) -> Result<(), PastPivot>
        requires ready { meaning self.old ≡ ready_at (meaning self.old).table row col }
        requires cell { IsPivotCell (meaning self.old).table row col }
        ensures ok { OnOk result (meaning self.new
            ≡ resting (pivoted (meaning self.old).table row col)) }
        ensures err { OnErr result ((meaning self.new).broken ≡ true) }
        ensures fits { IsOk result ↔ (pivot_fits (meaning self.old).table row col ≡ true) };
}
