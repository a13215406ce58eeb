//! Laws of candidates. Each function has no code: what it ensures is the law.
ghost use Rattle.dc_rows.specs.Laws.{AreKind, BoundsAreNear, RowsHaveSources};

/// A row is a candidate exactly where it is a variable or its negation, with pairs such a sum or
/// difference of two variables, or a linear part of an atom of the condition, or of a guard's atom
/// that does not mention the chosen value, which is not zero.
pub fn rows_have_sources()
    ensures { RowsHaveSources }
{}

/// A number is a bound exactly where it is of size at most 2147483648 and it or its negation is 0,
/// a literal of the program or the size of a constant of the condition, or one less or one more.
pub fn bounds_are_near()
    ensures { BoundsAreNear }
{}

/// What no limit refuses is as every call wants it that is lent candidates: the rows differ, none
/// is zero, each has a coefficient of an atom's size for each variable; the bounds rise and are of
/// an atom's size.
pub fn lists_are_candidates()
    ensures { AreKind }
{}
