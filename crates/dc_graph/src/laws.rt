//! Laws of the labelled graph. Each function has no code: what it ensures is the law.
ghost use Rattle.dc_graph.specs.Laws.{PiecesByParts, RunsAreWalks, EndsInside};

/// The numbers and the edges of each statement, by those of the statements inside it.
pub fn pieces_go_by_the_tree()
    ensures { PiecesByParts }
{}

/// From each state, the walks from number 0 to the exit are exactly the finished runs of the body,
/// at the same costs and to the same states.
pub fn walks_are_runs()
    ensures { RunsAreWalks }
{}

/// Each edge goes between numbers of the graph, and none leaves the exit.
pub fn edges_stay_inside()
    ensures { EndsInside }
{}
