//! Laws of stated problems, and of lists of problems. Each function has no code of its own: what it
//! ensures is the law.
ghost use Rattle.dc_entail.specs.Asked.{RefusalsJoin, RefusalExcludes, DoneOrRefused};
ghost use Rattle.dc_entail.specs.Equal.{EqualHaveOneOutcome, EqualHaveOneAnswer, EqualHaveOneSolution, EqualHaveOneRefutation};

/// Equal problems have one outcome: those that agree at every index of their equations and columns
/// have the same end with the same numbers, after as many pivots, and the same refusal within a
/// budget.
pub fn equal_problems_have_one_outcome()
    ensures outcome { EqualHaveOneOutcome }
    ensures answer { EqualHaveOneAnswer }
    ensures solution { EqualHaveOneSolution }
    ensures refutation { EqualHaveOneRefutation }
{}

/// The first refusal of two lists joined is that of the first list, or that of the second where the
/// first has none.
pub fn refusals_join()
    ensures { RefusalsJoin }
{}

/// No list is refused and comes to its end; each does one of the two.
pub fn refused_or_done()
    ensures excludes { RefusalExcludes }
    ensures one { DoneOrRefused }
{}
