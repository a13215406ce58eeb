//! Laws of forms, atoms and conditions. Each function has no code: what it ensures is the law.
ghost use Rattle.dc_affine.specs.Laws.{FormsByParts, FormsHaveValues, FaultsByParts, CasesByParts, CasesTell, FactsTell};

/// The normal form of each expression, by its operands' forms, and its first fault.
pub fn forms_go_by_the_tree()
    ensures forms { FormsByParts }
    ensures faults { FaultsByParts }
{}

/// The value of the normal form of an expression is the value of the expression.
pub fn forms_have_values()
    ensures { FormsHaveValues }
{}

/// The conjunctions of a condition, and of its negation, by those of its parts.
pub fn conjunctions_go_by_the_table()
    ensures { CasesByParts }
{}

/// All atoms of some conjunction hold at a state exactly where the condition, or its negation, is true.
pub fn conjunctions_tell_the_condition()
    ensures atoms { CasesTell }
    ensures facts { FactsTell }
{}
