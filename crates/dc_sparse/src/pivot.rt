//! Pivots of a web whose rows are scaled.
#![tactic(auto)]

ghost use Rattle.std.specs.Prelude.{◌≡◌, ◌≢◌, ℕ, ◌+◌, ◌<◌, ◌≤◌, IsTrue, Some, None, true, false};
ghost use Rattle.dc_math.specs.Rational.{◌*ℚ◌};
ghost use Rattle.dc_math.specs.Inverse.{◌/ℚ◌};
ghost use Rattle.dc_math.specs.Tests.{is_zero};
ghost use Rattle.dc_frac.specs.Value.{value};
ghost use Rattle.dc_lp.specs.Meanings.{all_below};
ghost use Rattle.dc_frac.specs.Fits.{quotient_fits};
ghost use Rattle.dc_sparse.specs.Entries.{entry_at};
ghost use Rattle.dc_sparse.specs.Scales.{scale_at};
ghost use Rattle.dc_sparse.specs.Pivots.{entries_fit, ArePivoted, quotients_fit};
ghost use Rattle.dc_sparse.specs.Rows.{steps_fit, stepped_at, rows_fit, RowsAreReduced};
ghost use Rattle.dc_sparse.specs.Rows.{gaps_in_row, gaps_in_rows};

use crate::scaled::Scaled;
use dc_frac::Frac;

impl Scaled {
    ghost use Rattle.dc_sparse.specs.Held.{nodes_of, node_count, height_of, width_of, held_at, KeepsHeld, KeepsOthers, KeepsEntries};

    /// Makes the pivot at a cell with an entry. Whether it fits; where it doesn't, the rows are
    /// left half done. It takes no memory.
    pub(crate) fn pivot(&mut self, row: usize, col: usize) -> bool
        requires row { row < height_of self.old.web }
        requires col { col < width_of self.old.web }
        requires entry { is_zero (held_at self.old row col) ≡ false }
        requires spare { gaps_in_rows (held_at self.old) (width_of self.old.web) row col
            (height_of self.old.web)
            ≤ self.old.web.spare }
        ensures fits { result
            ≡ entries_fit (held_at self.old) (width_of self.old.web) (height_of self.old.web) row col }
        ensures pivoted { IsTrue result
            → ArePivoted (held_at self.old) (held_at self.new) (width_of self.old.web)
            (height_of self.old.web) row col }
        ensures arena { node_count self.new.web ≡ node_count self.old.web }
        ensures height { height_of self.new.web ≡ height_of self.old.web }
        ensures width { width_of self.new.web ≡ width_of self.old.web }
    {
        self.turn(row, col) && self.reduce_rows(row, col)
    }

    /// Divides the pivot's row by its entry in the pivot's column. Whether the quotients fit; where
    /// they don't, the row is left half done. It takes no memory.
    pub(crate) fn turn(&mut self, row: usize, col: usize) -> bool
        requires row { row < height_of self.old.web }
        requires col { col < width_of self.old.web }
        requires entry { is_zero (held_at self.old row col) ≡ false }
        ensures fits { result ≡ quotients_fit (held_at self.old) (width_of self.old.web) row col }
        ensures divided { IsTrue result → (k : ℕ) → k < width_of self.old.web
            → held_at self.new row k ≡ held_at self.old row k /ℚ held_at self.old row col }
        ensures others { KeepsOthers self.old self.new row }
    {
        let by = self.web.entry(row, col);
        match self.dens[row] {
            Some(_) => {
                self.lower(row, by);
                true
            }
            None => {
                if !self.web.divide_row(row, by) {
                    return false;
                }
                self.gather(row);
                true
            }
        }
    }

    /// Reduces every row but `pivot` that has an entry in column `col`. Whether it fits; where it
    /// doesn't, the rows are left half done. It takes no memory.
    pub(crate) fn reduce_rows(&mut self, pivot: usize, col: usize) -> bool
        requires pivot { pivot < height_of self.old.web }
        requires col { col < width_of self.old.web }
        requires entry { is_zero (held_at self.old pivot col) ≡ false }
        requires spare { gaps_in_rows (held_at self.old) (width_of self.old.web) pivot col
            (height_of self.old.web) ≤ self.old.web.spare }
        ensures fits { result
            ≡ rows_fit (held_at self.old) (width_of self.old.web) pivot col (height_of self.old.web) }
        ensures reduced { IsTrue result
            → RowsAreReduced (held_at self.old) (held_at self.new) (width_of self.old.web) pivot col
            (height_of self.old.web) }
        ensures arena { node_count self.new.web ≡ node_count self.old.web }
        ensures height { height_of self.new.web ≡ height_of self.old.web }
        ensures width { width_of self.new.web ≡ width_of self.old.web }
    {
        let mut done = 0;
        let mut next = self.web.down_of(col, None);
        while let Some(node) = next {
            let row = self.web.nodes[node].row();
            let number = self.web.nodes[node].value;
            next = self.web.nodes[node].down();
            if row != pivot {
                if !self.reduce(row, pivot, col, number) {
                    return false;
                }
            }
            done = row + 1;
        }
        true
    }

    /// Takes its entry in column `col`, which is held as `number`, times row `pivot` from another
    /// row. Column `col` becomes 0. Whether it fits; where it doesn't, the row is left half done.
    /// It takes no memory.
    fn reduce(&mut self, row: usize, pivot: usize, col: usize, number: Frac) -> bool
        requires row { row < height_of self.old.web }
        requires pivot { pivot < height_of self.old.web }
        requires other { pivot ≢ row }
        requires number { value number ≡ entry_at (nodes_of self.old.web) row col }
        requires entry { is_zero (held_at self.old pivot col) ≡ false }
        requires spare { gaps_in_row (held_at self.old) row pivot (width_of self.old.web)
            ≤ self.old.web.spare }
        ensures fits { result ≡ steps_fit (held_at self.old) (width_of self.old.web) pivot col row }
        ensures reduced { IsTrue result → (k : ℕ) → k < width_of self.old.web
            → held_at self.new row k ≡ stepped_at (held_at self.old) pivot col row k }
        ensures others { KeepsHeld self.old self.new row }
        ensures spare { IsTrue result
            → self.old.web.spare ≤ self.new.web.spare
            + gaps_in_row (held_at self.old) row pivot (width_of self.old.web) }
        ensures arena { node_count self.new.web ≡ node_count self.old.web }
        ensures height { height_of self.new.web ≡ height_of self.old.web }
        ensures width { width_of self.new.web ≡ width_of self.old.web }
    {
        if let Some(mine) = self.dens[row] {
            if let Some(other) = self.dens[pivot] {
                self.reduce_whole(row, pivot, col, number, mine, other);
                return true;
            }
        }
        self.reduce_fractions(row, pivot, col)
    }

    /// The same for two rows of whole numbers, over these denominators.
    fn reduce_whole(
        &mut self,
        row: usize,
        pivot: usize,
        col: usize,
        number: Frac,
        mine: Frac,
        other: Frac,
    )
        requires row { row < height_of self.old.web }
        requires pivot { pivot < height_of self.old.web }
        requires other { pivot ≢ row }
        requires number { value number ≡ entry_at (nodes_of self.old.web) row col }
        requires mine { scale_at self.old.dens.items row ≡ Some mine }
        requires den { scale_at self.old.dens.items pivot ≡ Some other }
        requires entry { is_zero (held_at self.old pivot col) ≡ false }
        requires spare { gaps_in_row (held_at self.old) row pivot (width_of self.old.web)
            ≤ self.old.web.spare }
        ensures fits { steps_fit (held_at self.old) (width_of self.old.web) pivot col row ≡ true }
        ensures reduced { (k : ℕ) → k < width_of self.old.web
            → held_at self.new row k ≡ stepped_at (held_at self.old) pivot col row k }
        ensures others { KeepsHeld self.old self.new row }
        ensures spare { self.old.web.spare
            ≤ self.new.web.spare + gaps_in_row (held_at self.old) row pivot (width_of self.old.web) }
        ensures arena { node_count self.new.web ≡ node_count self.old.web }
        ensures height { height_of self.new.web ≡ height_of self.old.web }
        ensures width { width_of self.new.web ≡ width_of self.old.web }
    {
        let Some(ratio) = number.div(other) else {
            unreachable!();
        };
        let Some(by) = mine.mul(Frac::whole(ratio.den)) else {
            unreachable!();
        };
        self.dens[row] = None;
        let small = self.web.combine_row(row, pivot, col, ratio.den, ratio.num);
        self.settle(row, by, small);
    }

    /// The same for two rows that needn't hold whole numbers.
    fn reduce_fractions(&mut self, row: usize, pivot: usize, col: usize) -> bool
        requires row { row < height_of self.old.web }
        requires pivot { pivot < height_of self.old.web }
        requires other { pivot ≢ row }
        requires entry { is_zero (held_at self.old pivot col) ≡ false }
        requires spare { gaps_in_row (held_at self.old) row pivot (width_of self.old.web)
            ≤ self.old.web.spare }
        ensures fits { result ≡ steps_fit (held_at self.old) (width_of self.old.web) pivot col row }
        ensures reduced { IsTrue result → (k : ℕ) → k < width_of self.old.web
            → held_at self.new row k ≡ stepped_at (held_at self.old) pivot col row k }
        ensures others { KeepsHeld self.old self.new row }
        ensures spare { IsTrue result
            → self.old.web.spare ≤ self.new.web.spare
            + gaps_in_row (held_at self.old) row pivot (width_of self.old.web) }
        ensures arena { node_count self.new.web ≡ node_count self.old.web }
        ensures height { height_of self.new.web ≡ height_of self.old.web }
        ensures width { width_of self.new.web ≡ width_of self.old.web }
    {
        self.spread(row);
        let factor = self.factor(row, pivot, col);
        if !self.web.reduce_row(row, pivot, col, factor) {
            return false;
        }
        self.gather(row);
        true
    }

    /// What row `pivot` is multiplied by as it is held, to be taken from a row of fractions: that
    /// row's entry over its denominator. Where the quotient doesn't fit, row `pivot` becomes one of
    /// fractions.
    fn factor(&mut self, row: usize, pivot: usize, col: usize) -> Frac
        requires row { row < height_of self.old.web }
        requires pivot { pivot < height_of self.old.web }
        requires other { pivot ≢ row }
        requires fractions { scale_at self.old.dens.items row ≡ None }
        ensures factor { (k : ℕ) → value result *ℚ entry_at (nodes_of self.new.web) pivot k
            ≡ held_at self.old row col *ℚ held_at self.old pivot k }
        ensures entries { KeepsEntries self.old self.new pivot }
    {
        let number = self.web.entry(row, col);
        if let Some(den) = self.dens[pivot] {
            if let Some(factor) = number.div(den) {
                return factor;
            }
            self.spread(pivot);
        }
        number
    }
}
