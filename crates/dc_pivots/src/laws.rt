//! Laws of the pivot run, for each linear problem over the rational numbers (Bland, New Finite
//! Pivoting Rules for the Simplex Method, 1977).

ghost use Rattle.dc_pivots.specs.Laws.{StaysFeasible, PivotsHaveCells, NeverRepeats, Ends, EndsSoon, NeverSpent, PhaseOneLeaves, StayOpposite, EndsRight, EndsTrue, HasOutcome};

/// Each table of a run has a basic column for each equation and no negative right side, so its
/// basic solution is at least 0; and where a pivot is due, it is at a nonzero entry of an equation
/// in a real column.
pub fn tables_stay_feasible()
    ensures feasible { StaysFeasible }
    ensures cells { PivotsHaveCells }
{}

/// No set of basic columns comes twice in a run, whatever the phases: the pivot rule never goes
/// round in a circle.
pub fn bases_differ()
    ensures { NeverRepeats }
{}

/// Each run ends. With m equations in n unknowns it makes fewer pivots than there are sets of m
/// columns among n + m, so a budget of as many is never spent.
pub fn runs_end()
    ensures ends { Ends }
    ensures fewer { EndsSoon }
    ensures enough { NeverSpent }
{}

/// In phase one a row leaves wherever a column enters.
pub fn phase_one_leaves()
    ensures { PhaseOneLeaves }
{}

/// Real columns that are each other's negatives, and whose costs are, stay so. They are never both
/// basic; while one is basic the other is 0 in both cost rows and doesn't enter; of the basic
/// solution, and of the ray, one of the two is 0.
pub fn opposites_stay()
    ensures { StayOpposite }
{}

/// Wherever a run ends, its last table has a certificate: a solution and a dual of equal value, a
/// refutation, or a solution and a ray. So no solution costs less than the value, there is no
/// solution, or the cost falls below every bound.
pub fn ends_right()
    ensures shown { EndsRight }
    ensures so { EndsTrue }
{}

/// Every linear problem over the rational numbers has a solution and a dual of equal value, a
/// refutation, or a solution with a ray: strong duality, and Farkas' lemma in its hard direction
/// (Schrijver, Theory of Linear and Integer Programming, chapter 7).
pub fn problems_have_outcomes()
    ensures { HasOutcome }
{}
