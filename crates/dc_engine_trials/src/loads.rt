//! How many problems an analysis loads.
use crate::rows::{EMPTY, row_of, run_on};
use dc_frac::Frac;
use dc_lp::{PastPivot, PastQuotient, Problem, Tableau};
use dc_sparse::Cross;
use std::alloc::AllocError;
use std::test::Fail;

/// A tableau that counts what it loads.
#[derive(Drop)]
struct Counting {
    inner: Cross,
    loads: u64,
}

impl Tableau for Counting {
    ghost use Rattle.dc_sparse.specs.Meanings.{cross_meaning};

    ghost meaning = { λ t. cross_meaning t.inner };

    fn load(&mut self, p: &Problem) -> Result<(), AllocError> {
        self.loads = self.loads.saturating_add(1);
        self.inner.load(p)
    }

    fn entry(&self, row: usize, col: usize) -> Frac {
        self.inner.entry(row, col)
    }

    fn basic(&self, row: usize) -> usize {
        self.inner.basic(row)
    }

    fn entering(&self, cost_row: usize) -> Option<usize> {
        self.inner.entering(cost_row)
    }

    fn ratio_row(&self, col: usize) -> Result<Option<usize>, PastQuotient> {
        self.inner.ratio_row(col)
    }

    fn room(&mut self, row: usize, col: usize) -> Result<(), AllocError> {
        self.inner.room(row, col)
    }

    fn pivot(&mut self, row: usize, col: usize) -> Result<(), PastPivot> {
        self.inner.pivot(row, col)
    }
}

/// Two empty programs ask four different problems: whether the case is dead, both bounds of the
/// parameter at the entry, and the main one.
#[test]
fn each_different_problem_is_loaded(rt: HostRuntime) -> Result<(), Fail> {
    let alloc = rt.alloc();
    let mut tableau = Counting {
        inner: Cross::new(alloc),
        loads: 0,
    };
    let found = run_on(alloc, &row_of(EMPTY, EMPTY, "true", 0, 1), &mut tableau)?;
    assert!(rt; found.is_ok());
    assert!(rt; tableau.loads >= 4);
    Ok(())
}
