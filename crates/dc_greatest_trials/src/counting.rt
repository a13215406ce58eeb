//! A tableau that counts the problems that it is loaded with.
use dc_frac::Frac;
use dc_lp::{PastPivot, PastQuotient, Problem, Tableau};
use dc_simplex::Dense;
use std::alloc::{AllocError, Global};

/// A dense tableau with a count.
#[derive(Drop)]
pub(crate) struct Counting {
    pub loads: u64,
    inner: Dense,
}

impl Counting {
    pub(crate) fn new(alloc: Global) -> Counting {
        Counting {
            loads: 0,
            inner: Dense::new(alloc),
        }
    }
}

impl Tableau for Counting {
    ghost use Rattle.dc_dense.specs.Meanings.{dense_meaning};

    ghost meaning = { λ c. dense_meaning c.inner };

    fn load(&mut self, p: &Problem) -> Result<(), AllocError> {
        self.loads = self.loads.saturating_add(1);
        self.inner.load(p)
    }

    fn entry(&self, row: usize, col: usize) -> Frac {
        self.inner.entry(row, col)
    }

    fn basic(&self, row: usize) -> usize {
        self.inner.basic(row)
    }

    fn entering(&self, cost_row: usize) -> Option<usize> {
        self.inner.entering(cost_row)
    }

    fn ratio_row(&self, col: usize) -> Result<Option<usize>, PastQuotient> {
        self.inner.ratio_row(col)
    }

    fn room(&mut self, row: usize, col: usize) -> Result<(), AllocError> {
        self.inner.room(row, col)
    }

    fn pivot(&mut self, row: usize, col: usize) -> Result<(), PastPivot> {
        self.inner.pivot(row, col)
    }
}
