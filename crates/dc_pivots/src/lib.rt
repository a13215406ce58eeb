//! The pivot run of the simplex method by Bland's rule, over any ordered field, and its laws. The
//! definitions are in specs/.
#![tactic(auto)]

pub mod laws;

/// For what a pivot is made: to lower the sum of the artificial columns, to take one out of the
/// basis, or to lower the cost.
#[derive(Clone, Copy, Debug, PartialEq, Eq)]
pub enum Phase {
    One,
    Drive,
    Two,
}

/// How a run ends; without bound along the column that enters.
#[derive(Clone, Copy, Debug, PartialEq, Eq)]
pub enum Ending {
    Infeasible,
    Optimal,
    Unbounded(usize),
}

/// What is due at a table: the pivot of a phase at a row and a column, or the end.
#[derive(Clone, Copy, Debug, PartialEq, Eq)]
pub enum Due {
    Pivot(Phase, usize, usize),
    End(Ending),
}
