//! Laws of families. Each function has no code: what it ensures is the law.
ghost use Rattle.dc_families.specs.Laws.{EntailmentIsDecided, SystemsAreGraphs, FoldsAreGraphs, ReachedMeet, CandidatesAreOver, RoundsAreMonotone, OneRound, HasRound, HasGreatest, OneGreatest, EverythingIsUpward, RoundsAreUpward, ListsAreFamilies, DeadHaveFalse, GreatestIsHonest, HasPrinted, OnePrinted, PrintedSayLists, PrintedAreInductive};

/// Each list entails an atom or does not.
pub fn entailment_is_decided()
    ensures { EntailmentIsDecided }
{}

/// A well formed system is a graph, and so it is with one of its locations folded.
pub fn systems_are_graphs()
    ensures whole { SystemsAreGraphs }
    ensures folded { FoldsAreGraphs }
{}

/// What a path reaches from an allowed input meets each inductive family that mentions no chosen
/// value, as no family of candidates does.
pub fn reached_states_meet()
    ensures reached { ReachedMeet }
    ensures over { CandidatesAreOver }
{}

/// A round leaves more from more. From each family of candidates it leaves one family.
pub fn rounds_are_functions()
    ensures monotone { RoundsAreMonotone }
    ensures one { OneRound }
    ensures some { HasRound }
{}

/// There is one greatest family, and it has false wherever its list is dead.
pub fn greatest_is_one()
    ensures some { HasGreatest }
    ensures one { OneGreatest }
    ensures dead { DeadHaveFalse }
    ensures honest { GreatestIsHonest }
{}

/// Of each row every candidate is there from the least bound on, and stays so by rounds.
pub fn rows_go_up()
    ensures everything { EverythingIsUpward }
    ensures rounds { RoundsAreUpward }
{}

/// The list of a location says what its family says.
pub fn lists_are_families()
    ensures { ListsAreFamilies }
{}

/// There is one list of printed atoms for each location; it says what the location's list says, and
/// so the printed atoms of the greatest family are an inductive family.
pub fn printed_atoms()
    ensures some { HasPrinted }
    ensures one { OnePrinted }
    ensures meaning { PrintedSayLists }
    ensures inductive { PrintedAreInductive }
{}
