//! The row that leaves, sought down the lists of two columns.
#![tactic(auto)]

ghost use Rattle.std.specs.Prelude.{◌≡◌, ◌<◌, length};
ghost use Rattle.dc_frac.specs.Value.{value};
ghost use Rattle.dc_math.specs.Rational.{ℚ};
ghost use Rattle.dc_lp.specs.Tables.{Table};
ghost use Rattle.dc_lp.specs.Meanings.{ratio_answer};
ghost use Rattle.dc_start.specs.Ratios.{row_of};
ghost use Rattle.dc_sparse.specs.Lines.{IsLast};
ghost use Rattle.dc_sparse.specs.Entries.{entry_at, IsNodeAt};
ghost use Rattle.dc_sparse.specs.Shape.{IsShaped};
ghost use Rattle.dc_sparse.specs.Ratios.{HasRatios};
ghost use Rattle.dc_sparse.specs.Held.{nodes_of, height_of, width_of, columns_of};

use crate::web::Web;
use dc_frac::Frac;
use dc_lp::PastQuotient;
use dc_start::{Candidate, better};

impl Web {
    /// Of the equations' rows with a positive entry in a column, the one whose quotient of right
    /// side by entry is least, ties by the least basic column; `None` exactly where no entry is
    /// positive. So in each table with these quotients.
    ///
    /// # Errors
    /// `PastQuotient` exactly where one of the quotients doesn't fit.
    pub(crate) fn ratio_row(
        &self,
        columns: usize,
        basis: &[usize],
        col: usize,
    ) -> Result<Option<usize>, PastQuotient>
        requires shape { IsShaped columns (length basis.now) (height_of self.now) (width_of self.now) }
        requires col { col < width_of self.now }
        ensures { (t : Table ℚ) → HasRatios t columns basis.now (nodes_of self.now) col
            → result ≡ ratio_answer t col }
    {
        let right = columns + basis.len();
        let mut best: Option<Candidate> = None;
        let mut above = None;
        let mut done = 0;
        let mut next = self.down_of(col, None);
        while let Some(node) = next {
            let row = self.nodes[node].row();
            if row >= basis.len() {
                return Ok(row_of(best));
            }
            let entry = self.nodes[node].value;
            above = self.above_of(right, row, above);
            if entry.is_positive() {
                let Some(ratio) = self.entry_below(row, right, above).div(entry) else {
                    return Err(PastQuotient);
                };
                best = Some(better(basis, Candidate { row, ratio }, best));
            }
            done = row + 1;
            next = self.nodes[node].down();
        }
        Ok(row_of(best))
    }

    /// The entry at a cell, which stands behind `above` in its column.
    fn entry_below(&self, row: usize, col: usize, above: Option<usize>) -> Frac
        requires col { col < width_of self.now }
        requires above { IsLast (columns_of self.now) col row above }
        ensures { value result ≡ entry_at (nodes_of self.now) row col }
    {
        match self.node_below(row, col, above) {
            Some(node) => self.nodes[node].value,
            None => Frac::whole(0),
        }
    }

    /// The node at a cell, which stands behind `above` in its column.
    fn node_below(&self, row: usize, col: usize, above: Option<usize>) -> Option<usize>
        requires col { col < width_of self.now }
        requires above { IsLast (columns_of self.now) col row above }
        ensures { IsNodeAt (nodes_of self.now) row col result }
    {
        let node = self.down_of(col, above)?;
        if self.nodes[node].row() == row {
            Some(node)
        } else {
            None
        }
    }
}

fn row_of(best: Option<Candidate>) -> Option<usize>
    ensures { result ≡ row_of best }
{
    best.map(|candidate| candidate.row)
}
