//! Linear problems in exact numbers: what a solution, a dual, a refutation and a ray are, what they
//! show, checkers for them, and what a tableau is.
//!
//! The definitions are the usual ones (Schrijver, Theory of Linear and Integer Programming,
//! chapters 7 and 11). No call of the checkers takes memory.
#![tactic(auto)]

mod check;
mod fold;
pub mod laws;
mod shape;
mod tableau;

pub use crate::check::{check_dual, check_primal, check_ray, check_refutation};
pub use crate::fold::{add_term, coefficient, dot, price};
pub use crate::tableau::{PastPivot, PastQuotient, Tableau};

/// A nonzero coefficient of a column.
#[derive(Clone, Copy, Debug, PartialEq, Eq)]
pub struct Entry {
    pub row: usize,
    pub value: i128,
}

/// The least `cost * x` with `A x = b` and `x >= 0`, where A is given by its columns.
///
/// It is well formed where each column's rows rise and stay below `rows`, values aren't 0, there is
/// one cost for each column and one `b` for each row, and the sum of sizes of each column, that of
/// `b` and the size of each cost are at most 2^127 - 1.
#[derive(Drop)]
pub struct Problem {
    pub rows: usize,
    pub columns: Vec<Vec<Entry>>,
    pub b: Vec<i128>,
    pub cost: Vec<i128>,
}

/// What a checker answers. Its tests are numbered from 0, and the first that isn't true decides.
#[derive(Clone, Copy, Debug, PartialEq, Eq)]
pub enum Verdict {
    /// Each test is true, and each sum fits.
    Holds,
    /// Test `index` is false.
    Fails { index: usize },
    /// In test `index` a sum passes 128 bits.
    Past128 { index: usize },
}
