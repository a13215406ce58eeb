//! Laws of sparse vectors. Each function has no code: what it ensures is the law.
ghost use Rattle.dc_clauses.specs.Items.{SumsOverItems};

/// The sum over the items of a sparse vector is the dot product with the vector that it stands for,
/// value and fit, also over the first items alone.
pub fn sums_over_items()
    ensures { SumsOverItems }
{}
