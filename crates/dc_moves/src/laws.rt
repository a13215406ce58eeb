//! Laws of these lists and forms. Each function has no code of its own: what it ensures is the law.
ghost use Rattle.dc_moves.specs.Laws.{CutsAskTheSame, CutsAskTheSameForms, CutsSayTheSame, CutsAreAtoms, FormsHavePlaces, FormsAreLight, FormsTellAtoms};

/// A guard at the places of its edge makes the same problems, and says the same of every point.
pub fn guards_keep_their_meaning()
    ensures empty { CutsAskTheSame }
    ensures forms { CutsAskTheSameForms }
    ensures meaning { CutsSayTheSame }
    ensures atoms { CutsAreAtoms }
{}

/// A form after an edge has a coefficient for each place of the edge, and tells where an atom after
/// the edge is entailed.
pub fn forms_tell_atoms()
    ensures places { FormsHavePlaces }
    ensures light { FormsAreLight }
    ensures atoms { FormsTellAtoms }
{}
