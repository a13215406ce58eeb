//! Laws of the tableau of linked nodes.

ghost use Rattle.dc_sparse.specs.Laws.{HasLists, HasRoom};

/// Each index of the arena stands in the list of its row and in that of its column, once in each,
/// or in the list of free nodes, once. A row's list has its nodes by rising column, and a column's
/// by rising row. What a linked node holds, over the denominator of its row, is the entry at its
/// cell, which isn't 0, and an entry without a node is 0.
pub fn lists()
    ensures { HasLists }
{}

/// A tableau that is ready for a pivot has at least as many free nodes as the pivot's fill.
pub fn room()
    ensures { HasRoom }
{}
