//! The starting table.
#![tactic(auto)]

ghost use Rattle.std.specs.Prelude.{◌≡◌, ℕ, ◌+◌, ◌<◌, ◌≤◌, OnOk};
ghost use Rattle.dc_lp.specs.Problems.{IsWellFormed, columns};
ghost use Rattle.dc_start.specs.Starts.{width};
ghost use Rattle.dc_sparse.specs.Webs.{IsBlank};
ghost use Rattle.dc_sparse.specs.Fills.{IsPartOf, IsFilled, IsFilling};
ghost use Rattle.dc_sparse.specs.Sizes.{HasGrown};
ghost use Rattle.dc_sparse.specs.Held.{nodes_of, node_count, height_of, width_of};

use crate::web::Web;
use dc_lp::Problem;
use dc_start::first_value;
use std::alloc::AllocError;

impl Web {
    /// Holds the starting table of a problem, from its last column to its first. After a refusal the
    /// table is left half done.
    pub(crate) fn fill(&mut self, p: &Problem) -> Result<(), AllocError>
        requires well_formed { IsWellFormed p.now }
        requires blank { IsBlank (nodes_of self.old) }
        requires height { height_of self.old ≡ p.now.rows + 2 }
        requires width { width_of self.old ≡ width p.now }
        ensures ok { OnOk result (IsFilled p.now (nodes_of self.new) (p.now.rows + 2) 0) }
        ensures part { IsPartOf p.now (nodes_of self.new) (p.now.rows + 2) }
        ensures arena { (n : ℕ) → HasGrown n (node_count self.old) self.old.spare
            → HasGrown n (node_count self.new) self.new.spare }
        ensures height { height_of self.new ≡ height_of self.old }
        ensures width { width_of self.new ≡ width_of self.old }
    {
        let mut col = p.columns.len() + p.rows + 1;
        while col > 0 {
            col -= 1;
            self.fill_column(p, col)?;
        }
        Ok(())
    }

    /// Holds a column of the starting table, where those behind it are held.
    fn fill_column(&mut self, p: &Problem, col: usize) -> Result<(), AllocError>
        requires well_formed { IsWellFormed p.now }
        requires filled { IsFilled p.now (nodes_of self.old) (p.now.rows + 2) (col + 1) }
        requires column { col < width p.now }
        requires height { height_of self.old ≡ p.now.rows + 2 }
        requires width { width_of self.old ≡ width p.now }
        ensures ok { OnOk result (IsFilled p.now (nodes_of self.new) (p.now.rows + 2) col) }
        ensures part { IsPartOf p.now (nodes_of self.new) (p.now.rows + 2) }
        ensures arena { (n : ℕ) → HasGrown n (node_count self.old) self.old.spare
            → HasGrown n (node_count self.new) self.new.spare }
        ensures height { height_of self.new ≡ height_of self.old }
        ensures width { width_of self.new ≡ width_of self.old }
    {
        if col < p.columns.len() {
            return self.fill_real(p, col);
        }
        if col < p.columns.len() + p.rows {
            return self.fill_unit(p, col);
        }
        self.fill_right(p, col)
    }

    /// Holds a real column: its two costs and its entries, from the last to the first.
    fn fill_real(&mut self, p: &Problem, col: usize) -> Result<(), AllocError>
        requires well_formed { IsWellFormed p.now }
        requires filled { IsFilled p.now (nodes_of self.old) (p.now.rows + 2) (col + 1) }
        requires column { col < columns p.now }
        requires height { height_of self.old ≡ p.now.rows + 2 }
        requires width { width_of self.old ≡ width p.now }
        ensures ok { OnOk result (IsFilled p.now (nodes_of self.new) (p.now.rows + 2) col) }
        ensures part { IsPartOf p.now (nodes_of self.new) (p.now.rows + 2) }
        ensures arena { (n : ℕ) → HasGrown n (node_count self.old) self.old.spare
            → HasGrown n (node_count self.new) self.new.spare }
        ensures height { height_of self.new ≡ height_of self.old }
        ensures width { width_of self.new ≡ width_of self.old }
    {
        self.fill_cell(p, p.rows + 1, col)?;
        self.fill_cell(p, p.rows, col)?;
        let mut left = p.columns[col].len();
        while left > 0 {
            left -= 1;
            self.fill_cell(p, p.columns[col][left].row, col)?;
        }
        Ok(())
    }

    /// Holds an artificial column: its cost in phase one and its unit.
    fn fill_unit(&mut self, p: &Problem, col: usize) -> Result<(), AllocError>
        requires well_formed { IsWellFormed p.now }
        requires filled { IsFilled p.now (nodes_of self.old) (p.now.rows + 2) (col + 1) }
        requires low { columns p.now ≤ col }
        requires column { col < columns p.now + p.now.rows }
        requires height { height_of self.old ≡ p.now.rows + 2 }
        requires width { width_of self.old ≡ width p.now }
        ensures ok { OnOk result (IsFilled p.now (nodes_of self.new) (p.now.rows + 2) col) }
        ensures part { IsPartOf p.now (nodes_of self.new) (p.now.rows + 2) }
        ensures arena { (n : ℕ) → HasGrown n (node_count self.old) self.old.spare
            → HasGrown n (node_count self.new) self.new.spare }
        ensures height { height_of self.new ≡ height_of self.old }
        ensures width { width_of self.new ≡ width_of self.old }
    {
        self.fill_cell(p, p.rows, col)?;
        self.fill_cell(p, col - p.columns.len(), col)?;
        Ok(())
    }

    /// Holds a column row by row: that of the right sides.
    fn fill_right(&mut self, p: &Problem, col: usize) -> Result<(), AllocError>
        requires well_formed { IsWellFormed p.now }
        requires filled { IsFilled p.now (nodes_of self.old) (p.now.rows + 2) (col + 1) }
        requires column { col < width p.now }
        requires height { height_of self.old ≡ p.now.rows + 2 }
        requires width { width_of self.old ≡ width p.now }
        ensures ok { OnOk result (IsFilled p.now (nodes_of self.new) (p.now.rows + 2) col) }
        ensures part { IsPartOf p.now (nodes_of self.new) (p.now.rows + 2) }
        ensures arena { (n : ℕ) → HasGrown n (node_count self.old) self.old.spare
            → HasGrown n (node_count self.new) self.new.spare }
        ensures height { height_of self.new ≡ height_of self.old }
        ensures width { width_of self.new ≡ width_of self.old }
    {
        let mut row = p.rows + 2;
        while row > 0 {
            row -= 1;
            self.fill_cell(p, row, col)?;
        }
        Ok(())
    }

    /// Holds an entry of the starting table, where those below it in its column and those in the
    /// columns behind are held.
    fn fill_cell(&mut self, p: &Problem, row: usize, col: usize) -> Result<(), AllocError>
        requires well_formed { IsWellFormed p.now }
        requires row { row < p.now.rows + 2 }
        requires column { col < width p.now }
        requires filling { IsFilling p.now (nodes_of self.old) (p.now.rows + 2) (row + 1) col }
        requires height { height_of self.old ≡ p.now.rows + 2 }
        requires width { width_of self.old ≡ width p.now }
        ensures ok { OnOk result (IsFilling p.now (nodes_of self.new) (p.now.rows + 2) row col) }
        ensures part { IsPartOf p.now (nodes_of self.new) (p.now.rows + 2) }
        ensures arena { (n : ℕ) → HasGrown n (node_count self.old) self.old.spare
            → HasGrown n (node_count self.new) self.new.spare }
        ensures height { height_of self.new ≡ height_of self.old }
        ensures width { width_of self.new ≡ width_of self.old }
    {
        self.hold(row, col, first_value(p, row, col))?;
        Ok(())
    }
}
