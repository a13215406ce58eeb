//! Whether a problem is well formed.

ghost use Rattle.std.specs.Prelude.{◌≡◌, ℕ, ◌+◌, ◌<◌, ◌^◌, length, IsTrue, ◌↔◌, sum_by, unsigned_abs, SomeIff};
ghost use Rattle.dc_frac.specs.Fits.{IsSmall};
ghost use Rattle.dc_lp.specs.Problems.{AreEntries, IsColumn, IsWellFormed, entries, weight, whole_at, columns};

use crate::{Entry, Problem};
use dc_frac::MAX;

impl Problem {
    /// Whether the problem is well formed.
    pub fn is_well_formed(&self) -> bool
        ensures { IsTrue result ↔ IsWellFormed self.now }
    {
        self.b.len() == self.rows
            && self.cost.len() == self.columns.len()
            && are_columns(self)
            && is_light(&self.b)
            && are_small(&self.cost)
    }
}

fn are_columns(p: &Problem) -> bool
    ensures { IsTrue result ↔ ((j : ℕ) → j < columns p.now → IsColumn p.now.rows (entries p.now j)) }
{
    for j in 0..p.columns.len() {
        if !is_column(&p.columns[j], p.rows) {
            return false;
        }
    }
    true
}

fn is_column(column: &[Entry], rows: usize) -> bool
    ensures { IsTrue result ↔ IsColumn rows column.now }
{
    are_entries(column, rows) && is_light_column(column)
}

fn are_entries(column: &[Entry], rows: usize) -> bool
    ensures { IsTrue result ↔ AreEntries 0 rows column.now }
{
    let mut low = 0;
    for e in column {
        if e.row < low || e.row >= rows || e.value == 0 {
            return false;
        }
        low = e.row + 1;
    }
    true
}

fn is_light_column(column: &[Entry]) -> bool
    ensures { IsTrue result ↔ weight column.now < 2 ^ 127 }
{
    let mut total = 0;
    for e in column {
        match add_size(total, e.value) {
            Some(sum) => total = sum,
            None => return false,
        }
    }
    true
}

fn is_light(xs: &[i128]) -> bool
    ensures { IsTrue result ↔ sum_by unsigned_abs xs.now < 2 ^ 127 }
{
    let mut total = 0;
    for x in xs {
        match add_size(total, *x) {
            Some(sum) => total = sum,
            None => return false,
        }
    }
    true
}

fn are_small(xs: &[i128]) -> bool
    ensures { IsTrue result ↔ ((k : ℕ) → k < length xs.now → IsSmall (whole_at xs.now k)) }
{
    for x in xs {
        if *x == i128::MIN {
            return false;
        }
    }
    true
}

fn add_size(total: u128, x: i128) -> Option<u128>
    requires { total < 2 ^ 127 }
    ensures { SomeIff result (total + unsigned_abs x < 2 ^ 127) (total + unsigned_abs x) }
{
    let sum = total + x.unsigned_abs();
    if sum <= MAX as u128 { Some(sum) } else { None }
}
