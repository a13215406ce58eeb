//! Rows of whole numbers that are combined.
#![tactic(auto)]

ghost use Rattle.std.specs.Prelude.{◌≡◌, ◌≢◌, ℕ, ◌+◌, ◌<◌, ◌≤◌, ◌^◌, pos, ◌≤ℤ◌, unsigned_abs, IsTrue, true, false};
ghost use Rattle.dc_math.specs.Rational.{of_ℤ, ◌*ℚ◌};
ghost use Rattle.dc_math.specs.Tests.{is_zero};
ghost use Rattle.dc_frac.specs.Value.{value};
ghost use Rattle.dc_sparse.specs.Lines.{IsLast, StandsBefore};
ghost use Rattle.dc_sparse.specs.Nodes.{is_live, item, col_at};
ghost use Rattle.dc_sparse.specs.Entries.{entry_at, StandsAt, IsNodeAt, IsPut};
ghost use Rattle.dc_sparse.specs.Rows.{reduced_entry, row_gaps, IsMultiplied, AreCombined, KeepsRows};
ghost use Rattle.dc_sparse.specs.Scales.{IsWhole, IsMultiplier};
ghost use Rattle.dc_sparse.specs.Held.{nodes_of, node_count, height_of, width_of, rows_of, KeepsSizes};

use crate::web::Web;
use crate::whole::is_small;
use dc_frac::Frac;

/// Where a walk along a row ends: the last node that it passes, and whether all numbers so far are
/// small.
#[derive(Clone, Copy, Drop)]
struct Passage {
    pub left: Option<usize>,
    pub small: bool,
}

impl Web {
    /// Multiplies a row of small whole numbers by `times` and takes `factor` times row `pivot` from
    /// it. Column `col` becomes 0. Whether all numbers of the row are small then. It takes no
    /// memory.
    pub(crate) fn combine_row(
        &mut self,
        row: usize,
        pivot: usize,
        col: usize,
        times: i128,
        factor: i128,
    ) -> bool
        requires row { row < height_of self.old }
        requires pivot { pivot < height_of self.old }
        requires other { pivot ≢ row }
        requires entry { is_zero (entry_at (nodes_of self.old) pivot col) ≡ false }
        requires spare { row_gaps (nodes_of self.old) row pivot (width_of self.old) ≤ self.old.spare }
        requires times { IsMultiplier times }
        requires factor { unsigned_abs factor < 2 ^ 41 }
        requires mine { (k : ℕ) → IsWhole 41 (entry_at (nodes_of self.old) row k) }
        requires theirs { (k : ℕ) → IsWhole 41 (entry_at (nodes_of self.old) pivot k) }
        ensures combined { AreCombined (nodes_of self.old) (nodes_of self.new) row pivot col
            (of_ℤ times) (of_ℤ factor) (width_of self.old) }
        ensures small { IsTrue result → (k : ℕ) → IsWhole 41 (entry_at (nodes_of self.new) row k) }
        ensures others { KeepsRows (nodes_of self.old) (nodes_of self.new) row }
        ensures spare { self.old.spare
            ≤ self.new.spare + row_gaps (nodes_of self.old) row pivot (width_of self.old) }
        ensures arena { node_count self.new ≡ node_count self.old }
        ensures height { height_of self.new ≡ height_of self.old }
        ensures width { width_of self.new ≡ width_of self.old }
    {
        let mut small = true;
        let mut left = None;
        let mut done = 0;
        let mut source = self.right_of(pivot, None);
        while let Some(node) = source {
            let at = self.nodes[node].col();
            let by = self.nodes[node].value;
            let passage = self.multiply_to(row, done, at, left, times, small);
            left = passage.left;
            let found = self.node_at(row, at, left);
            let entry = self.combination(row, at, col, times, factor, by, found);
            small = stays_small(passage.small, entry);
            self.put(row, at, entry, left, found);
            done = at + 1;
            source = self.nodes[node].right();
        }
        self.multiply_rest(row, done, left, times, small)
    }

    /// Multiplies the numbers of a row from column `done` up to column `limit`, whose nodes stand
    /// behind `from`. Gives the last node before `limit`, and whether all products are small where
    /// the numbers so far are.
    fn multiply_to(
        &mut self,
        row: usize,
        done: usize,
        limit: usize,
        from: Option<usize>,
        times: i128,
        small: bool,
    ) -> Passage
        requires row { row < height_of self.old }
        requires limit { done ≤ limit }
        requires from { StandsBefore (rows_of self.old) row done from }
        requires times { IsMultiplier times }
        requires whole { (k : ℕ) → done ≤ k → IsWhole 41 (entry_at (nodes_of self.old) row k) }
        ensures left { IsLast (rows_of self.new) row limit result.left }
        ensures multiplied { IsMultiplied (nodes_of self.old) (nodes_of self.new) row done limit
            (of_ℤ times) }
        ensures before { IsTrue result.small → IsTrue small }
        ensures small { IsTrue result.small → (k : ℕ) → done ≤ k → k < limit
            → IsWhole 41 (entry_at (nodes_of self.old) row k *ℚ of_ℤ times) }
        ensures sizes { KeepsSizes self.old self.new }
    {
        let mut all = small;
        let mut left = from;
        let mut next = self.right_of(row, from);
        while let Some(node) = next {
            if self.nodes[node].col() >= limit {
                return Passage { left, small: all };
            }
            all = self.multiply(node, done, times, all);
            left = next;
            next = self.nodes[node].right();
        }
        Passage { left, small: all }
    }

    /// The same up to the row's end.
    fn multiply_rest(
        &mut self,
        row: usize,
        done: usize,
        from: Option<usize>,
        times: i128,
        small: bool,
    ) -> bool
        requires row { row < height_of self.old }
        requires width { done ≤ width_of self.old }
        requires from { StandsBefore (rows_of self.old) row done from }
        requires times { IsMultiplier times }
        requires whole { (k : ℕ) → done ≤ k → IsWhole 41 (entry_at (nodes_of self.old) row k) }
        ensures multiplied { IsMultiplied (nodes_of self.old) (nodes_of self.new) row done
            (width_of self.old) (of_ℤ times) }
        ensures before { IsTrue result → IsTrue small }
        ensures small { IsTrue result → (k : ℕ) → done ≤ k → k < width_of self.old
            → IsWhole 41 (entry_at (nodes_of self.old) row k *ℚ of_ℤ times) }
        ensures sizes { KeepsSizes self.old self.new }
    {
        if times == 1 {
            return small;
        }
        let width = self.col_heads.len();
        self.multiply_to(row, done, width, from, times, small).small
    }

    /// Multiplies the number of a node, unless it stands before column `done`. Whether the product
    /// is small where `small` tells that of other numbers.
    fn multiply(&mut self, node: usize, done: usize, times: i128, small: bool) -> bool
        requires node { is_live (nodes_of self.old) node ≡ true }
        requires times { IsMultiplier times }
        requires whole { done ≤ col_at (nodes_of self.old) node
            → IsWhole 41 (item (nodes_of self.old) node) }
        ensures done { col_at (nodes_of self.old) node < done
            → nodes_of self.new ≡ nodes_of self.old }
        ensures entry { done ≤ col_at (nodes_of self.old) node
            → (i k : ℕ) → StandsAt (nodes_of self.old) node i k → IsPut (nodes_of self.old)
            (nodes_of self.new) i k (item (nodes_of self.old) node *ℚ of_ℤ times) }
        ensures stays { (n i k : ℕ) → StandsAt (nodes_of self.old) n i k
            → StandsAt (nodes_of self.new) n i k }
        ensures before { IsTrue result → IsTrue small }
        ensures small { IsTrue result → done ≤ col_at (nodes_of self.old) node
            → IsWhole 41 (item (nodes_of self.old) node *ℚ of_ℤ times) }
        ensures sizes { KeepsSizes self.old self.new }
    {
        if times == 1 {
            return small;
        }
        if self.nodes[node].col() < done {
            return small;
        }
        let entry = Frac::whole(product(self.nodes[node].value, times));
        self.set(node, entry);
        stays_small(small, entry)
    }

    /// `times` times the number in a column of a row, whose node is `found`, less `factor` times
    /// what the pivot's row has there: `by`.
    fn combination(
        &self,
        row: usize,
        at: usize,
        col: usize,
        times: i128,
        factor: i128,
        by: Frac,
        found: Option<usize>,
    ) -> Frac
        requires found { IsNodeAt (nodes_of self.now) row at found }
        requires times { IsMultiplier times }
        requires factor { unsigned_abs factor < 2 ^ 41 }
        requires by { IsWhole 41 (value by) }
        requires whole { IsWhole 41 (entry_at (nodes_of self.now) row at) }
        ensures { value result ≡ reduced_entry at col (of_ℤ factor) (value by)
            (entry_at (nodes_of self.now) row at *ℚ of_ℤ times) }
    {
        if at == col {
            return Frac::whole(0);
        }
        let taken = product(by, factor);
        match found {
            Some(node) => Frac::whole(product(self.nodes[node].value, times) - taken),
            None => Frac::whole(-taken),
        }
    }
}

/// A small whole number times another one.
fn product(number: Frac, by: i128) -> i128
    requires number { IsWhole 41 (value number) }
    requires by { unsigned_abs by < 2 ^ 41 }
    ensures value { of_ℤ result ≡ value number *ℚ of_ℤ by }
    ensures small { unsigned_abs result < 2 ^ 82 }
{
    number.num * by
}

/// Whether numbers stay whole and small with one more.
fn stays_small(small: bool, entry: Frac) -> bool
    ensures before { IsTrue result → IsTrue small }
    ensures here { IsTrue result → IsWhole 41 (value entry) }
{
    small && is_small(&entry)
}
