//! Farkas' lemma for lists of affine atoms. Each function has no code of its own: what it ensures
//! is the law.

ghost use Rattle.dc_points.specs.Laws.{EmptySolutionsCombine, RefutationsShow, SupSolutionsCombine, DeadAreShown, LiveAreNamed, MetAreShown, DeadOrMet, ShownAreEntailed, EntailedAreShown, CombinationsShow, AtomsAreForms, LeastOrNone, WholePointsMeet};

/// The two problems in the words of atoms: their solutions are multipliers that combine the list to
/// -1, or to the form and the solution's cost; a refutation of the empty problem is at most 0 with
/// each atom's column, and its last part is negative.
pub fn problems_speak_of_atoms()
    ensures empty { EmptySolutionsCombine }
    ensures live { RefutationsShow }
    ensures sup { SupSolutionsCombine }
{}

/// A list is dead exactly where multipliers of at least 0 combine it to -1. A vector that shows it
/// live names a point that meets it, and there is such a vector for each list that a point meets.
/// Each list is dead or is met by a point.
pub fn lists_are_dead_or_met()
    ensures dead { DeadAreShown }
    ensures named { LiveAreNamed }
    ensures met { MetAreShown }
    ensures either { DeadOrMet }
{}

/// Farkas' lemma. Its easy direction (`entailed`): an atom that is a sum of a list's atoms and of
/// 1, with factors of at least 0, holds wherever the list does. Its hard direction (`shown`): what
/// a list entails that isn't dead is such a sum (Schrijver, Theory of Linear and Integer
/// Programming, chapter 7).
pub fn entailed_is_shown()
    ensures entailed { ShownAreEntailed }
    ensures shown { EntailedAreShown }
    ensures combined { CombinationsShow }
{}

/// From which number on a form is entailed: over a list that isn't dead from a least number on,
/// with multipliers that combine the list to the form and that number, or from none. An atom is
/// entailed exactly where its form is from its constant on.
pub fn forms_have_least_bounds()
    ensures atoms { AtomsAreForms }
    ensures least { LeastOrNone }
{}

/// Atoms hold at whole numbers exactly where the point of these meets them.
pub fn whole_points_meet()
    ensures { WholePointsMeet }
{}
