//! A web whose rows hold fractions, or whole numbers over one denominator.
#![tactic(auto)]

ghost use Rattle.std.specs.Prelude.{◌≡◌, ℕ, ◌+◌, ◌<◌, ◌≤◌, max, length, IsTrue, IsFalse, OnOk, OnErr, IfOk, [], None, true, false};
ghost use Rattle.dc_math.specs.Rational.{of_ℤ};
ghost use Rattle.dc_math.specs.Tests.{is_zero};
ghost use Rattle.dc_frac.specs.Value.{value};
ghost use Rattle.dc_frac.specs.Fits.{quotient_fits};
ghost use Rattle.dc_sparse.specs.Entries.{entry_at, KeepsAll};
ghost use Rattle.dc_sparse.specs.Scales.{AreScaled, AreFractions, IsWhole, scale_at};
ghost use Rattle.dc_sparse.specs.Webs.{IsBlank};
ghost use Rattle.dc_sparse.specs.Fills.{IsPartOf, IsStarted};
ghost use Rattle.dc_sparse.specs.Sizes.{HasGrown};
ghost use Rattle.dc_lp.specs.Problems.{IsWellFormed};
ghost use Rattle.dc_start.specs.Starts.{width};
ghost use Rattle.dc_sparse.specs.Props.{AreScaled_prop};

use crate::web::Web;
use crate::whole::is_den;
use dc_frac::Frac;
use dc_lp::Problem;
use std::alloc::{AllocError, Global};

/// A web, and the denominator of each row that holds whole numbers; a row without one holds fractions.
#[derive(Drop)]
pub(crate) struct Scaled {
    pub web: Web,
    pub dens: Vec<Option<Frac>>,
    pub ghost scaled: { AreScaled web.nodes.items dens.items (length web.row_heads.items) } by { AreScaled_prop web.nodes.items dens.items (length web.row_heads.items) },
}

impl Scaled {
    ghost use Rattle.dc_sparse.specs.Held.{nodes_of, node_count, height_of, width_of, held_at, KeepsSizes, TakesOver, KeepsEntries};

    /// A table without rows and columns. It takes no memory.
    pub(crate) fn new(alloc: Global) -> Scaled
        ensures nodes { result.web.nodes.items ≡ [] }
        ensures rows { result.web.row_heads.items ≡ [] }
        ensures columns { result.web.col_heads.items ≡ [] }
        ensures spare { result.web.spare ≡ 0 }
    {
        Scaled {
            web: Web::new(alloc),
            dens: Vec::new(alloc),
        }
    }

    /// The entry at a cell.
    pub(crate) fn entry(&self, row: usize, col: usize) -> Frac
        requires row { row < height_of self.now.web }
        ensures { value result ≡ held_at self.now row col }
    {
        let number = self.web.entry(row, col);
        match self.dens[row] {
            Some(den) => {
                let Some(entry) = number.div(den) else {
                    unreachable!();
                };
                entry
            }
            None => number,
        }
    }

    /// Makes at least `count` nodes free, in an arena that grows by those that are missing. After a
    /// refusal all is as before.
    pub(crate) fn reserve(&mut self, count: usize) -> Result<(), AllocError>
        ensures ok { OnOk result (self.new.web.spare ≡ max self.old.web.spare count) }
        ensures err { OnErr result (nodes_of self.new.web ≡ nodes_of self.old.web) }
        ensures kept { KeepsAll (nodes_of self.old.web) (nodes_of self.new.web) }
        ensures entries { (i k : ℕ) → held_at self.new i k ≡ held_at self.old i k }
        ensures live { node_count self.new.web + self.old.web.spare
            ≡ node_count self.old.web + self.new.web.spare }
        ensures spare { self.old.web.spare ≤ self.new.web.spare }
        ensures rows { self.new.web.row_heads.items ≡ self.old.web.row_heads.items }
        ensures columns { self.new.web.col_heads.items ≡ self.old.web.col_heads.items }
    {
        self.web.reserve(count)
    }

    /// Frees all nodes, for a table of so many rows and columns. After a refusal nothing has changed.
    pub(crate) fn reset(
        &mut self,
        alloc: Global,
        height: usize,
        width: usize,
    ) -> Result<(), AllocError>
        ensures arena { node_count self.new.web ≡ node_count self.old.web }
        ensures blank { OnOk result (IsBlank (nodes_of self.new.web)) }
        ensures spare { OnOk result (self.new.web.spare ≡ node_count self.new.web) }
        ensures height { OnOk result (height_of self.new.web ≡ height) }
        ensures width { OnOk result (width_of self.new.web ≡ width) }
        ensures fractions { OnOk result (AreFractions self.new.dens.items 0) }
        ensures err { OnErr result (self.new ≡ self.old) }
    {
        let dens = no_dens(alloc, height)?;
        self.web.reset(alloc, height, width)?;
        self.dens = dens;
        Ok(())
    }

    /// Holds the starting table of a problem. After a refusal the table is left half done.
    pub(crate) fn fill(&mut self, p: &Problem) -> Result<(), AllocError>
        requires well_formed { IsWellFormed p.now }
        requires blank { IsBlank (nodes_of self.old.web) }
        requires height { height_of self.old.web ≡ p.now.rows + 2 }
        requires width { width_of self.old.web ≡ width p.now }
        requires fractions { AreFractions self.old.dens.items 0 }
        ensures ok { OnOk result (IsStarted p.now (held_at self.new)) }
        ensures part { IsPartOf p.now (nodes_of self.new.web) (p.now.rows + 2) }
        ensures arena { (n : ℕ) → HasGrown n (node_count self.old.web) self.old.web.spare
            → HasGrown n (node_count self.new.web) self.new.web.spare }
        ensures height { height_of self.new.web ≡ height_of self.old.web }
        ensures width { width_of self.new.web ≡ width_of self.old.web }
    {
        self.web.fill(p)?;
        self.gather_all();
        Ok(())
    }

    /// Makes rows of fractions ones of whole numbers, where these are small. It takes no memory.
    fn gather_all(&mut self)
        requires fractions { AreFractions self.old.dens.items 0 }
        ensures entries { (i k : ℕ) → held_at self.new i k ≡ held_at self.old i k }
        ensures sizes { KeepsSizes self.old.web self.new.web }
    {
        for row in 0..self.dens.len() {
            self.gather(row);
        }
    }

    /// Makes a row its numbers over `by`, as whole numbers over one denominator: both are divided
    /// by `share`. Whether that gives small whole numbers; where it doesn't, nothing changes. It
    /// takes no memory.
    pub(crate) fn take(&mut self, row: usize, by: Frac, share: Frac) -> bool
        requires row { row < height_of self.old.web }
        requires by { is_zero (value by) ≡ false }
        requires share { is_zero (value share) ≡ false }
        ensures taken { IsTrue result → TakesOver self.old self.new row (value by) }
        ensures refused { IsFalse result → self.new ≡ self.old }
    {
        let Some(den) = by.div(share) else {
            return false;
        };
        if !is_den(&den) || !self.web.is_parted(row, share) {
            return false;
        }
        let _fits = self.web.divide_row(row, share);
        self.dens[row] = Some(den);
        true
    }

    /// Makes a row its numbers over `by`, as fractions. It takes no memory.
    pub(crate) fn split(&mut self, row: usize, by: Frac)
        requires row { row < height_of self.old.web }
        requires by { is_zero (value by) ≡ false }
        requires fit { (k : ℕ)
            → quotient_fits (entry_at (nodes_of self.old.web) row k) (value by) ≡ true }
        ensures taken { TakesOver self.old self.new row (value by) }
        ensures den { scale_at self.new.dens.items row ≡ None }
    {
        let _fits = self.web.divide_row(row, by);
        self.dens[row] = None;
    }

    /// Makes a row of small whole numbers these over `by`, where `by` is a denominator. Whether it
    /// is; else nothing changes. It takes no memory.
    pub(crate) fn keep(&mut self, row: usize, by: Frac) -> bool
        requires row { row < height_of self.old.web }
        requires whole { (k : ℕ) → IsWhole 41 (entry_at (nodes_of self.old.web) row k) }
        ensures taken { IsTrue result → TakesOver self.old self.new row (value by) }
        ensures refused { IsFalse result → self.new ≡ self.old }
    {
        if !is_den(&by) {
            return false;
        }
        self.dens[row] = Some(by);
        true
    }

    /// Makes a row its numbers over `by`, all without their common divisor: as whole numbers where
    /// these are small, and else as fractions. It takes no memory.
    pub(crate) fn lower(&mut self, row: usize, by: Frac)
        requires row { row < height_of self.old.web }
        requires by { is_zero (value by) ≡ false }
        requires fit { (k : ℕ)
            → quotient_fits (entry_at (nodes_of self.old.web) row k) (value by) ≡ true }
        ensures { TakesOver self.old self.new row (value by) }
    {
        let share = self.web.content(row, by);
        if !self.take(row, by, share) {
            self.split(row, by);
        }
    }

    /// Makes a row its numbers over `by`, as whole numbers where these are small, if need be
    /// without their common divisor. `small` tells that all numbers of the row are whole and small.
    /// It takes no memory.
    pub(crate) fn settle(&mut self, row: usize, by: Frac, small: bool)
        requires row { row < height_of self.old.web }
        requires whole { IsTrue small → (k : ℕ) → IsWhole 41 (entry_at (nodes_of self.old.web) row k) }
        requires by { is_zero (value by) ≡ false }
        requires fit { (k : ℕ)
            → quotient_fits (entry_at (nodes_of self.old.web) row k) (value by) ≡ true }
        ensures { TakesOver self.old self.new row (value by) }
    {
        if !small || !self.keep(row, by) {
            self.lower(row, by);
        }
    }

    /// Makes a row one of fractions. It takes no memory.
    pub(crate) fn spread(&mut self, row: usize)
        requires row { row < height_of self.old.web }
        ensures entries { KeepsEntries self.old self.new row }
        ensures den { scale_at self.new.dens.items row ≡ None }
    {
        if let Some(den) = self.dens[row] {
            self.split(row, den);
        }
    }

    /// Makes a row of fractions one of whole numbers over a common denominator, where these are
    /// small. It takes no memory.
    pub(crate) fn gather(&mut self, row: usize)
        requires row { row < height_of self.old.web }
        requires den { scale_at self.old.dens.items row ≡ None }
        ensures { KeepsEntries self.old self.new row }
    {
        if let Some(share) = self.web.common(row) {
            let _taken = self.take(row, Frac::whole(1), share);
        }
    }
}

/// `count` rows of fractions.
fn no_dens(alloc: Global, count: usize) -> Result<Vec<Option<Frac>>, AllocError>
    ensures { IfOk result (λ v. (length v.items ≡ count) × AreFractions v.items 0) }
{
    let mut dens = Vec::with_capacity(alloc, count)?;
    for _ in 0..count {
        dens.push(None)?;
    }
    Ok(dens)
}
