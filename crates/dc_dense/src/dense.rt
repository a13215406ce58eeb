//! The tableau.
#![tactic(auto, using(crate::proofs::Links::links, crate::proofs::Indices::indices))]

ghost use Rattle.std.specs.Prelude.{◌≡◌, ◌+◌, ◌<◌, ◌≤◌, vec_len, length, true, false, Some, slice_index, MatchOption};
ghost use Rattle.dc_dense.specs.Shape.{IsShaped};

use crate::pivot::pivot_items;
use crate::start::start_items;
use dc_frac::Frac;
use dc_lp::{PastPivot, PastQuotient, Problem, Tableau};
use dc_start::{Candidate, better, start_basis};
use std::alloc::{AllocError, Global};

/// A tableau in one vector of fractions, row after row. A pivot passes over the zeros of its row,
/// and over the rows with a zero in its column; it takes no memory.
#[derive(Drop)]
pub struct Dense {
    alloc: Global,
    loaded: bool,
    broken: bool,
    ready: Option<(usize, usize)>,
    rows: usize,
    columns: usize,
    width: usize,
    basis: Vec<usize>,
    items: Vec<Frac>,
    ghost shape: { loaded ≡ true → IsShaped rows columns width (vec_len basis) (vec_len items) },
}

impl Dense {
    ghost use Rattle.dc_dense.specs.Meanings.{dense_meaning};

    /// A tableau that isn't loaded. It takes no memory.
    pub fn new(alloc: Global) -> Dense
        ensures { (dense_meaning result).loaded ≡ false }
    {
        Dense {
            alloc,
            loaded: false,
            broken: false,
            ready: None,
            rows: 0,
            columns: 0,
            width: 0,
            basis: Vec::new(alloc),
            items: Vec::new(alloc),
        }
    }
}

impl Tableau for Dense {
    ghost use Rattle.dc_dense.specs.Meanings.{dense_meaning};

    ghost meaning = { dense_meaning };

    fn load(&mut self, p: &Problem) -> Result<(), AllocError> {
        self.loaded = false;
        self.items = Vec::new(self.alloc);
        let rows = p.rows;
        let columns = p.columns.len();
        let width = columns + rows + 1;
        let Some(size) = (rows + 2).checked_mul(width) else {
            return Err(AllocError);
        };
        self.items = start_items(self.alloc, p, size)?;
        self.basis = start_basis(self.alloc, rows, columns)?;
        self.rows = rows;
        self.columns = columns;
        self.width = width;
        self.broken = false;
        self.ready = None;
        self.loaded = true;
        Ok(())
    }

    fn entry(&self, row: usize, col: usize) -> Frac {
        self.items[row * self.width + col]
    }

    fn basic(&self, row: usize) -> usize {
        self.basis[row]
    }

    fn entering(&self, cost_row: usize) -> Option<usize> {
        for col in 0..self.columns {
            if self.entry(cost_row, col).is_negative() {
                return Some(col);
            }
        }
        None
    }

    fn ratio_row(&self, col: usize) -> Result<Option<usize>, PastQuotient> {
        let right = self.columns + self.rows;
        let mut best: Option<Candidate> = None;
        for row in 0..self.rows {
            let entry = self.entry(row, col);
            if entry.is_positive() {
                let Some(ratio) = self.entry(row, right).div(entry) else {
                    return Err(PastQuotient);
                };
                best = Some(better(&self.basis, Candidate { row, ratio }, best));
            }
        }
        Ok(best.map(|candidate| candidate.row))
    }

    fn room(&mut self, row: usize, col: usize) -> Result<(), AllocError> {
        self.ready = Some((row, col));
        Ok(())
    }

    fn pivot(&mut self, row: usize, col: usize) -> Result<(), PastPivot> {
        self.ready = None;
        if pivot_items(&mut self.items, self.rows + 2, self.width, row, col) {
            self.basis[row] = col;
            Ok(())
        } else {
            self.broken = true;
            Err(PastPivot)
        }
    }
}
