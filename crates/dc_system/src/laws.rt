//! Laws of systems. Each function has no code: what it ensures is the law.
ghost use Rattle.dc_system.specs.Laws.{AreWellFormed, ComposedCrosses, ComposedIsEdge, CostsAreFoldedPaths, CostsArePaths, FoldedIsWellFormed, FoldedPaths, FoldedPathsAreRuns, LiteralsAreNumbers, NewNumbersKeepPaths, OneFoldKeepsPaths, OneFolded, PathsAreRuns, PathsKeepLength, SomeFolded};

/// From each state, the paths through a procedure's system from location 0 to the exit are exactly
/// the finished runs of its body, at the same costs and to the same states.
pub fn paths_are_runs()
    ensures { PathsAreRuns }
{}

/// A program costs c on an input exactly where the input has one number for each parameter and a
/// path at cost c leads through the program's system, plain or folded, from the start state.
pub fn costs_are_those_of_paths()
    ensures plain { CostsArePaths }
    ensures folded { CostsAreFoldedPaths }
{}

/// A path keeps the number of variables of its state.
pub fn paths_keep_length()
    ensures { PathsKeepLength }
{}

/// The system of a program within the limits is well formed.
pub fn systems_are_well_formed()
    ensures { AreWellFormed }
{}

/// The literals of a system rise, and are those of the procedure.
pub fn literals_are_the_numbers()
    ensures { LiteralsAreNumbers }
{}

/// Along a composed edge one gets, at the same cost, exactly where one gets along the first edge
/// and then the second.
pub fn composed_edges_cross_both()
    ensures crosses { ComposedCrosses }
    ensures edge { ComposedIsEdge }
{}

/// A folded system is well formed, and has exactly the paths of the system from its entry to its
/// exit. So those of a procedure's folded system are the procedure's finished runs.
pub fn folded_systems_have_the_paths()
    ensures well_formed { FoldedIsWellFormed }
    ensures paths { FoldedPaths }
    ensures runs { FoldedPathsAreRuns }
{}

/// One fold keeps the paths from the entry to the exit, and new numbers for the locations that are
/// left change nothing but the numbers.
pub fn steps_of_a_folding_keep_paths()
    ensures fold { OneFoldKeepsPaths }
    ensures numbers { NewNumbersKeepPaths }
{}

/// Each well formed system has a folded one, and only one.
pub fn folded_systems_are_fixed()
    ensures some { SomeFolded }
    ensures one { OneFolded }
{}
