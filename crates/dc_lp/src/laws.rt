//! Laws of linear problems over the rational numbers, for vectors of any numbers.

ghost use Rattle.dc_lp.specs.Laws.{WeakDuality, BestByDual, RefutationExcludes, RayGoesOn, Fills, EntriesGrow, ColumnEnters, NoColumnEnters, RowLeaves, NoRowLeaves, SumsFit, LeavesOut};

/// Weak duality: a solution costs at least the right side of each dual. So a solution whose cost is
/// the right side of a dual is a best one.
pub fn duality()
    ensures weak { WeakDuality }
    ensures best { BestByDual }
{}

/// A problem with a refutation has no solution (the easy direction of Farkas' lemma).
pub fn refutation()
    ensures { RefutationExcludes }
{}

/// From a solution on along a ray, the cost falls below every bound.
pub fn ray()
    ensures { RayGoesOn }
{}

/// The fill of a pivot is fixed by where the zeros are before it: it is the number of crossings of
/// an entry of the pivot's column with one of its row at which there is none. So many entries a
/// table has at most more after a pivot than before it.
pub fn fill()
    ensures gaps { Fills }
    ensures grows { EntriesGrow }
{}

/// The column that enters is the least real one with a negative entry in the cost row, and none
/// enters exactly where there is no such column.
pub fn entering()
    ensures column { ColumnEnters }
    ensures none { NoColumnEnters }
{}

/// The row that leaves is the one with a positive entry in the column such that, of the rows that
/// have one, none has a lesser quotient of right side by entry, none that ties has a lesser basic
/// column, and none before it ties with the same. None leaves exactly where no entry of the column is
/// positive.
pub fn leaving()
    ensures row { RowLeaves }
    ensures none { NoRowLeaves }
{}

/// A fold that exists is the sum of its products, and it fits. Terms with a coefficient or a number
/// that is 0 can be left out: they change neither the sum nor whether there is one.
pub fn folds()
    ensures sum { SumsFit }
    ensures left_out { LeavesOut }
{}
