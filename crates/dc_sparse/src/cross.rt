//! The tableau.
#![tactic(auto)]

ghost use Rattle.std.specs.Prelude.{◌≡◌, ◌↔◌, ℕ, ◌+◌, ◌<◌, ◌≤◌, List, max, vec_len, length, true, false, Some, OnOk, OnErr, IsOk, slice_index};
ghost use Rattle.dc_lp.specs.Fill.{gaps};
ghost use Rattle.dc_sparse.specs.Held.{table_of};
ghost use Rattle.dc_sparse.specs.Shape.{IsShaped};

use crate::scaled::Scaled;
use dc_frac::Frac;
use dc_lp::{PastPivot, PastQuotient, Problem, Tableau};
use dc_start::start_basis;
use std::alloc::{AllocError, Global};

/// A tableau of linked nodes, one for each entry that isn't 0. The nodes stand in an arena: a pivot
/// passes along the rows that have an entry in its column, frees the nodes of entries that become 0
/// and takes free ones for those that come, and takes no memory. A row holds whole numbers over one
/// denominator as long as all of them stay below 2^41, and else fractions. It has room for 2^32 - 1
/// nodes, rows and columns: past that it answers want of memory.
#[derive(Drop)]
pub struct Cross {
    alloc: Global,
    loaded: bool,
    broken: bool,
    ready: Option<(usize, usize)>,
    columns: usize,
    basis: Vec<usize>,
    held: Scaled,
    ghost shape: { loaded ≡ true → IsShaped columns (vec_len basis)
        (length held.web.row_heads.items) (length held.web.col_heads.items) },
    ghost room: { (r j : ℕ) → ready ≡ Some (r, j)
        → gaps (table_of columns basis.items held) r j ≤ held.web.spare },
}

impl Cross {
    ghost use Rattle.dc_sparse.specs.Meanings.{cross_meaning, arena_of, spare_of, live_of};
    ghost use Rattle.dc_lp.specs.Fill.{entry_count};

    /// A tableau that isn't loaded, without nodes. It takes no memory.
    pub fn new(alloc: Global) -> Cross
        ensures meaning { (cross_meaning result).loaded ≡ false }
        ensures arena { arena_of result ≡ 0 }
    {
        Cross {
            alloc,
            loaded: false,
            broken: false,
            ready: None,
            columns: 0,
            basis: Vec::new(alloc),
            held: Scaled::new(alloc),
        }
    }

    /// How many nodes are free.
    pub fn spare(&self) -> usize
        ensures { result ≡ spare_of self.now }
    {
        self.held.web.spare()
    }

    /// How many nodes are linked: one for each entry that isn't 0.
    pub fn live(&self) -> usize
        ensures nodes { result ≡ live_of self.now }
        ensures entries { (cross_meaning self.now).loaded ≡ true
            → result ≡ entry_count (cross_meaning self.now).table }
    {
        self.held.web.live()
    }

    /// Makes at least `count` nodes free, in an arena that grows by those that are missing. After a
    /// refusal all is as before.
    pub fn reserve(&mut self, count: usize) -> Result<(), AllocError>
        ensures meaning { cross_meaning self.new ≡ cross_meaning self.old }
        ensures live { live_of self.new ≡ live_of self.old }
        ensures ok { OnOk result (spare_of self.new ≡ max (spare_of self.old) count) }
        ensures err { OnErr result (spare_of self.new ≡ spare_of self.old) }
    {
        self.held.reserve(count)
    }
}

impl Tableau for Cross {
    ghost use Rattle.dc_lp.specs.Problems.{IsWellFormed};
    ghost use Rattle.dc_lp.specs.Meanings.{IsUsable, IsPivotCell, resting, ready_at, start, pivoted, pivot_fits};
    ghost use Rattle.dc_sparse.specs.Meanings.{cross_meaning, arena_of, spare_of, live_of};
    ghost use Rattle.dc_lp.specs.Fill.{fill, entry_count};
    ghost use Rattle.dc_sparse.specs.Sizes.{GrowsFor};

    ghost meaning = { cross_meaning };

    /// The nodes that were there are taken again; the arena grows only where they are fewer than
    /// the starting table's nonzero entries, after a refusal too.
    fn load(&mut self, p: &Problem) -> Result<(), AllocError>
        requires { IsWellFormed p.now }
        ensures ok { OnOk result (cross_meaning self.new ≡ resting (start p.now)) }
        ensures err { OnErr result ((cross_meaning self.new).loaded ≡ false) }
        ensures arena { GrowsFor (arena_of self.old) (arena_of self.new) (entry_count (start p.now)) }
    {
        self.loaded = false;
        self.ready = None;
        let rows = p.rows;
        let columns = p.columns.len();
        let basis = start_basis(self.alloc, rows, columns)?;
        self.held.reset(self.alloc, rows + 2, columns + rows + 1)?;
        self.held.fill(p)?;
        self.basis = basis;
        self.columns = columns;
        self.broken = false;
        self.loaded = true;
        Ok(())
    }

    fn entry(&self, row: usize, col: usize) -> Frac {
        self.held.entry(row, col)
    }

    fn basic(&self, row: usize) -> usize {
        self.basis[row]
    }

    fn entering(&self, cost_row: usize) -> Option<usize> {
        self.held.web.first_negative(cost_row, self.columns)
    }

    fn ratio_row(&self, col: usize) -> Result<Option<usize>, PastQuotient> {
        self.held.web.ratio_row(self.columns, &self.basis, col)
    }

    /// Makes as many nodes free as the pivot fills cells, in an arena that grows by those that are
    /// missing. The cells are counted only where a bound by the lengths of the pivot's row and
    /// column passes the free nodes.
    fn room(&mut self, row: usize, col: usize) -> Result<(), AllocError>
        requires usable { IsUsable (cross_meaning self.old) }
        requires cell { IsPivotCell (cross_meaning self.old).table row col }
        ensures ok { OnOk result
            (cross_meaning self.new ≡ ready_at (cross_meaning self.old).table row col) }
        ensures err { OnErr result (cross_meaning self.new ≡ cross_meaning self.old) }
        ensures live { live_of self.new ≡ live_of self.old }
        ensures spare { OnOk result (spare_of self.new
            ≡ max (spare_of self.old) (fill (cross_meaning self.old).table row col)) }
        ensures kept { OnErr result (spare_of self.new ≡ spare_of self.old) }
    {
        let Some(count) = self.held.web.need(row, col) else {
            return Err(AllocError);
        };
        self.held.reserve(count)?;
        self.ready = Some((row, col));
        Ok(())
    }

    /// The arena stays as large as it was.
    fn pivot(&mut self, row: usize, col: usize) -> Result<(), PastPivot>
        requires ready { cross_meaning self.old ≡ ready_at (cross_meaning self.old).table row col }
        requires cell { IsPivotCell (cross_meaning self.old).table row col }
        ensures ok { OnOk result (cross_meaning self.new
            ≡ resting (pivoted (cross_meaning self.old).table row col)) }
        ensures err { OnErr result ((cross_meaning self.new).broken ≡ true) }
        ensures fits { IsOk result ↔ (pivot_fits (cross_meaning self.old).table row col ≡ true) }
        ensures arena { arena_of self.new ≡ arena_of self.old }
    {
        self.ready = None;
        if self.held.pivot(row, col) {
            self.basis[row] = col;
            Ok(())
        } else {
            self.broken = true;
            Err(PastPivot)
        }
    }
}
