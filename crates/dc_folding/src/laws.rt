//! Laws of folding. Each function has no code: what it ensures is the law.
ghost use Rattle.dc_folding.specs.Laws.{FoldingLosesNothing, InductionIsKept, LeastNeverRises};
ghost use Rattle.dc_folding.specs.Laws.{OneFold, OneFoldOf, SomeFold, StrongerAtoms};

/// A family that is inductive stays so where a location is folded and its atoms are left out.
pub fn induction_is_kept()
    ensures { InductionIsKept }
{}

/// Where other atoms entail those of each location, whatever is certified over these is certified over
/// the others: fewer duties are owed, and by Farkas' lemma an atom that a live list entails is a sum of
/// the list's atoms and of 1 with factors of at least 0, so that products of such atoms are sums of the
/// list's products.
pub fn stronger_atoms_certify()
    ensures { StrongerAtoms }
{}

/// Whatever is certified over an inductive family is certified over what is left of it where a location
/// of one side is folded: along the composed edge the sum of the two edges' left sides is owed, that of
/// the second one at the state after the first.
pub fn one_fold_certifies()
    ensures { OneFold }
{}

/// Two well formed systems with their printed atoms have one folded pair, with the printed atoms of the
/// folded systems from the same candidates.
pub fn pairs_have_one_fold()
    ensures some { SomeFold }
    ensures one { OneFoldOf }
{}

/// Whatever is certified over the printed atoms of two systems is certified over those of the folded
/// systems: so the least threshold never rises by folding, no certificate is lost, and what is vacuous
/// stays so.
pub fn folding_loses_nothing()
    ensures certified { FoldingLosesNothing }
    ensures least { LeastNeverRises }
{}
