//! Laws of the answers and the outcome of a run.

ghost use Rattle.dc_simplex.specs.Limits.{HasAnswer, HasOneAnswer};
ghost use Rattle.dc_simplex.specs.Outcomes.{HasOneOutcome};

/// Within each budget the run of a problem has exactly one answer: its end, a pivot that doesn't
/// fit, or that the budget is spent.
pub fn one_answer()
    ensures some { HasAnswer }
    ensures only { HasOneAnswer }
{}

/// A problem has one outcome at most, apart from any tableau and budget: outcomes of the same
/// problem have the same end, the same numbers and the same number of pivots.
pub fn one_outcome()
    ensures { HasOneOutcome }
{}
