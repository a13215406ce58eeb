//! Laws of claims. Each function has no code: what it ensures is the law.
ghost use Rattle.dc_claims.specs.Laws.{AtMostOneClaim, CertifiedAreCosts, CertifiedBoundRuns, EquationsAreIdentities, HigherAreCertified, OutcomesAreClaims, SolutionsSplit, SplitsCost, SplitsExist, VacuousRunNowhere};

/// No two of the three claims hold: a least threshold, none, and every one; and the least threshold is
/// one.
pub fn at_most_one_claim()
    ensures { AtMostOneClaim }
{}

/// Values certify exactly where their vector, each unknown split in two, solves the main problem.
pub fn equations_are_identities()
    ensures { EquationsAreIdentities }
{}

/// Values have a split, each solution is the split of some values, and a split costs its threshold.
pub fn solutions_are_splits()
    ensures exist { SplitsExist }
    ensures solutions { SolutionsSplit }
    ensures cost { SplitsCost }
{}

/// The certified thresholds are exactly the costs of the solutions of the main problem, and what is
/// above one is one. So a solution of least cost, no solution, and costs below every bound are the
/// three claims.
pub fn outcomes_are_claims()
    ensures costs { CertifiedAreCosts }
    ensures higher { HigherAreCertified }
    ensures claims { OutcomesAreClaims }
{}

/// Where the atoms hold at each state that is reached from an input, a run of new costs at most a
/// certified threshold more than a run of old on the same input; where every threshold is
/// certified, no input has a run of both. The systems are any two: folded ones as well as those of
/// the programs' texts.
pub fn certified_thresholds_bound_runs()
    ensures bound { CertifiedBoundRuns }
    ensures nowhere { VacuousRunNowhere }
{}
