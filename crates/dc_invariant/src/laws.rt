//! Laws of the session's part. Each function has no code of its own: what it ensures is the law.
ghost use Rattle.dc_invariant.specs.Laws.{HasPruning, OnePruning, PrintedAreAtoms, HasKeeping, OneKeeping, OneSide};

/// There is one list of problems that pruning asks, and printed atoms are such as a certificate keeps.
pub fn pruning_is_one()
    ensures some { HasPruning }
    ensures one { OnePruning }
    ensures atoms { PrintedAreAtoms }
{}

/// There is one list of problems that show printed atoms, and one side of a certificate that shows
/// them.
pub fn keeping_is_one()
    ensures some { HasKeeping }
    ensures one { OneKeeping }
    ensures side { OneSide }
{}
