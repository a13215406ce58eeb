//! Laws of generated sources. Each function has no code: what it ensures is the law.

ghost use Rattle.dc_sample_laws.specs.Laws.{ConditionIsRead, HaveNoFault, PairsAreRead, SourcesAreRead};

/// The source of a list of costs says the procedure that has a loop for each cost. So both sources
/// of a pair say procedures, which have the same parameters.
pub fn sources_are_read()
    ensures sources { SourcesAreRead }
    ensures pairs { PairsAreRead }
{}

/// The condition of a pair says its one case, over the parameters of the pair's procedures.
pub fn the_condition_is_read()
    ensures { ConditionIsRead }
{}

/// Nothing is wrong with a pair: neither source nor the condition is refused, and the parameters agree.
pub fn pairs_have_no_fault()
    ensures { HaveNoFault }
{}
