//! Rows of a pivot.
#![tactic(auto)]

ghost use Rattle.std.specs.Prelude.{◌≡◌, ◌≢◌, ◌+◌, ◌<◌, ◌≤◌, ◌||◌, ◌==◌, IsTrue, IfSome, cond, max, true, false};
ghost use Rattle.dc_math.specs.Tests.{is_zero};
ghost use Rattle.dc_frac.specs.Value.{value, IsChecked};
ghost use Rattle.dc_start.specs.Changes.{step_fits};
ghost use Rattle.dc_sparse.specs.Lines.{IsFirst, IsLast};
ghost use Rattle.dc_sparse.specs.Entries.{entry_at, IsNodeAt, KeepsCells};
ghost use Rattle.dc_sparse.specs.Rows.{IsFirstNegative, reductions_fit, reduced_entry, row_gaps, AreReduced, KeepsRows};
ghost use Rattle.dc_sparse.specs.Rows.{divisions_fit, AreDivided, rows_gaps, entries_in};
ghost use Rattle.dc_sparse.specs.Held.{nodes_of, node_count, height_of, width_of, rows_of, columns_of};

use crate::web::Web;
use crate::whole::quotient;
use dc_frac::Frac;
use dc_start::step;

impl Web {
    /// Takes `factor` times row `pivot` from another row. Column `col` becomes 0. Whether that
    /// fits; where it doesn't, the row is left half done. It takes no memory.
    pub(crate) fn reduce_row(&mut self, row: usize, pivot: usize, col: usize, factor: Frac) -> bool
        requires row { row < height_of self.old }
        requires pivot { pivot < height_of self.old }
        requires other { pivot ≢ row }
        requires entry { is_zero (entry_at (nodes_of self.old) pivot col) ≡ false }
        requires spare { row_gaps (nodes_of self.old) row pivot (width_of self.old) ≤ self.old.spare }
        ensures fits { result
            ≡ reductions_fit (nodes_of self.old) row pivot col (value factor) (width_of self.old) }
        ensures reduced { IsTrue result → AreReduced (nodes_of self.old) (nodes_of self.new) row pivot
            col (value factor) (width_of self.old) }
        ensures others { KeepsRows (nodes_of self.old) (nodes_of self.new) row }
        ensures spare { IsTrue result → self.old.spare
            ≤ self.new.spare + row_gaps (nodes_of self.old) row pivot (width_of self.old) }
        ensures arena { node_count self.new ≡ node_count self.old }
        ensures height { height_of self.new ≡ height_of self.old }
        ensures width { width_of self.new ≡ width_of self.old }
    {
        let mut left = None;
        let mut done = 0;
        let mut source = self.right_of(pivot, None);
        while let Some(node) = source {
            let at = self.nodes[node].col();
            let by = self.nodes[node].value;
            left = self.left_of(row, at, left);
            let found = self.node_at(row, at, left);
            match self.entry_after(row, at, col, factor, by, found) {
                Some(entry) => self.put(row, at, entry, left, found),
                None => return false,
            }
            done = at + 1;
            source = self.nodes[node].right();
        }
        true
    }

    /// Divides a row. Whether the quotients fit; where they don't, the row is left half done. It
    /// takes no memory.
    pub(crate) fn divide_row(&mut self, row: usize, by: Frac) -> bool
        requires row { row < height_of self.old }
        requires nonzero { is_zero (value by) ≡ false }
        ensures fits { result ≡ divisions_fit (nodes_of self.old) row (value by) (width_of self.old) }
        ensures divided { IsTrue result
            → AreDivided (nodes_of self.old) (nodes_of self.new) row (value by) (width_of self.old) }
        ensures others { KeepsRows (nodes_of self.old) (nodes_of self.new) row }
        ensures cells { KeepsCells (nodes_of self.old) (nodes_of self.new) }
        ensures spare { self.new.spare ≡ self.old.spare }
        ensures arena { node_count self.new ≡ node_count self.old }
        ensures height { height_of self.new ≡ height_of self.old }
        ensures width { width_of self.new ≡ width_of self.old }
    {
        let mut done = 0;
        let mut next = self.right_of(row, None);
        while let Some(node) = next {
            let at = self.nodes[node].col();
            match quotient(self.nodes[node].value, by) {
                Some(quotient) => self.set(node, quotient),
                None => return false,
            }
            done = at + 1;
            next = self.nodes[node].right();
        }
        true
    }

    /// In how many columns row `pivot` has an entry and another row has none.
    fn row_gaps(&self, row: usize, pivot: usize) -> usize
        requires row { row < height_of self.now }
        requires pivot { pivot < height_of self.now }
        ensures { result ≡ row_gaps (nodes_of self.now) row pivot (width_of self.now) }
    {
        let mut count = 0;
        let mut left = None;
        let mut done = 0;
        let mut source = self.right_of(pivot, None);
        while let Some(node) = source {
            let at = self.nodes[node].col();
            left = self.left_of(row, at, left);
            count += self.gap_at(row, at, left);
            done = at + 1;
            source = self.nodes[node].right();
        }
        count
    }

    /// The least of the columns before `limit` in which a row has a negative entry.
    pub(crate) fn first_negative(&self, row: usize, limit: usize) -> Option<usize>
        requires row { row < height_of self.now }
        ensures { IsFirstNegative (nodes_of self.now) row limit result }
    {
        let mut done = 0;
        let mut next = self.right_of(row, None);
        while let Some(node) = next {
            let at = self.nodes[node].col();
            if at >= limit {
                return None;
            }
            if self.nodes[node].value.is_negative() {
                return Some(at);
            }
            done = at + 1;
            next = self.nodes[node].right();
        }
        None
    }

    /// 1 where a cell has no entry, and else 0.
    fn gap_at(&self, row: usize, col: usize, left: Option<usize>) -> usize
        requires row { row < height_of self.now }
        requires left { IsLast (rows_of self.now) row col left }
        ensures { result ≡ cond (is_zero (entry_at (nodes_of self.now) row col)) 1 0 }
    {
        match self.node_at(row, col, left) {
            Some(_) => 0,
            None => 1,
        }
    }

    /// How many nodes are to be free for the pivot at a cell: as many as it makes entries from 0,
    /// or 0 where enough are free for sure. Rows are counted until the free nodes suffice for the
    /// rest of them. `None` where the number passes 64 bits.
    pub(crate) fn need(&self, pivot: usize, col: usize) -> Option<usize>
        requires pivot { pivot < height_of self.now }
        requires col { col < width_of self.now }
        requires entry { is_zero (entry_at (nodes_of self.now) pivot col) ≡ false }
        ensures { IfSome result (λ n. max self.now.spare n
            ≡ max self.now.spare (rows_gaps (nodes_of self.now) (width_of self.now) pivot col
            (height_of self.now))) }
    {
        let across = self.row_length(pivot) - 1;
        let mut count: usize = 0;
        let mut done = 0;
        let mut next = self.down_of(col, None);
        while let Some(node) = next {
            let row = self.nodes[node].row();
            if row != pivot {
                if self.suffices(pivot, col, across, count, done, next) {
                    return Some(0);
                }
                count = count.checked_add(self.row_gaps(row, pivot))?;
            }
            done = row + 1;
            next = self.nodes[node].down();
        }
        Some(count)
    }

    /// Whether the free nodes suffice for the pivot at a cell even if no other row from `from` on
    /// that has an entry in its column has one in the other columns of the pivot's row. The rows
    /// before make `count` entries from 0, and `first` is the column's next node.
    fn suffices(
        &self,
        pivot: usize,
        col: usize,
        across: usize,
        count: usize,
        from: usize,
        first: Option<usize>,
    ) -> bool
        requires pivot { pivot < height_of self.now }
        requires col { col < width_of self.now }
        requires entry { is_zero (entry_at (nodes_of self.now) pivot col) ≡ false }
        requires across { across + 1
            ≡ entries_in (entry_at (nodes_of self.now) pivot) (width_of self.now) }
        requires count { count ≡ rows_gaps (nodes_of self.now) (width_of self.now) pivot col from }
        requires first { IsFirst (columns_of self.now) col from first }
        requires within { from ≤ height_of self.now }
        ensures { IsTrue result
            → rows_gaps (nodes_of self.now) (width_of self.now) pivot col (height_of self.now)
            ≤ self.now.spare }
    {
        if count > self.spare {
            return false;
        }
        let mut left = self.spare - count;
        let mut done = from;
        let mut next = first;
        while let Some(node) = next {
            let row = self.nodes[node].row();
            if row != pivot {
                if left < across {
                    return false;
                }
                left -= across;
            }
            done = row + 1;
            next = self.nodes[node].down();
        }
        true
    }

    /// How many entries a row has.
    fn row_length(&self, row: usize) -> usize
        requires row { row < height_of self.now }
        ensures { result ≡ entries_in (entry_at (nodes_of self.now) row) (width_of self.now) }
    {
        let mut count = 0;
        let mut done = 0;
        let mut next = self.right_of(row, None);
        while let Some(node) = next {
            let at = self.nodes[node].col();
            count += 1;
            done = at + 1;
            next = self.nodes[node].right();
        }
        count
    }

    /// What the entry in a column of a row becomes, whose node is `found`, where the pivot's row
    /// has `by` there.
    fn entry_after(
        &self,
        row: usize,
        at: usize,
        col: usize,
        factor: Frac,
        by: Frac,
        found: Option<usize>,
    ) -> Option<Frac>
        requires found { IsNodeAt (nodes_of self.now) row at found }
        ensures { let old = entry_at (nodes_of self.now) row at in
            IsChecked result (at == col || step_fits (value factor) (value by) old)
            (reduced_entry at col (value factor) (value by) old) }
    {
        if at == col {
            return Some(Frac::whole(0));
        }
        match found {
            Some(node) => step(self.nodes[node].value, factor, by),
            None => step(Frac::whole(0), factor, by),
        }
    }
}
