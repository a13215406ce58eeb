//! Laws of rising lists. Each function has no code of its own: what it ensures is the law.
ghost use Rattle.dc_worklist.specs.Laws.{NumbersAreAdded, ListsStayLists, ListsAreSets};

/// A number that is put on a list is on it besides those that were, and the list still rises; a
/// rising list is told by what is on it.
pub fn numbers_are_added()
    ensures added { NumbersAreAdded }
    ensures rising { ListsStayLists }
    ensures sets { ListsAreSets }
{}
