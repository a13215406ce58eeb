//! Laws of the rounds. Each function has no code: what it ensures is the law.
ghost use Rattle.dc_greatest.specs.Laws.{RoundsReachGreatest, OneSession, RoundsEnd, FamiliesHaveShapes, ShapesAreFamilies, OneShape, ListsAreLeast, UnchangedGive, UnchangedAsk, EntriesAskOnce};

/// The rounds come to one family in one way; from all candidates they end, in the greatest family.
pub fn rounds_end()
    ensures one { OneSession }
    ensures greatest { RoundsReachGreatest }
    ensures end { RoundsEnd }
{}

/// Least bounds keep a family whole, in one form.
pub fn least_bounds()
    ensures whole { FamiliesHaveShapes }
    ensures families { ShapesAreFamilies }
    ensures one { OneShape }
    ensures lists { ListsAreLeast }
{}

/// What a round has not changed asks nothing new, and takes nothing.
pub fn unchanged_edges()
    ensures give { UnchangedGive }
    ensures ask { UnchangedAsk }
    ensures entries { EntriesAskOnce }
{}
