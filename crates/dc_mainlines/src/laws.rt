//! What the clauses show. Each function has no code: what it ensures is the law.
ghost use Rattle.dc_mainlines.specs.Laws.{MainProblemsArePaired, ProblemsAreWhole, StepsShow, StepsShowClaims};

/// Where the clauses hold of a certificate's vectors, a problem whose unknowns have two columns
/// each has a solution of least cost at the threshold, or no solution, or solutions whose costs
/// have no bound.
pub fn clauses_show()
    ensures { StepsShow }
{}

/// The main problem of two programs is such a problem. So where the clauses hold of its vectors, the
/// threshold is the least one that potentials certify, or they certify none, or each.
pub fn clauses_show_claims()
    ensures paired { MainProblemsArePaired }
    ensures claims { StepsShowClaims }
{}

/// A problem by columns is fixed by its numbers: the same over the rational numbers, the same over the
/// whole ones.
pub fn problems_are_whole()
    ensures { ProblemsAreWhole }
{}
