//! Laws of the ends of an analysis and of a check. Each function has no code: what it ensures is
//! the law.
ghost use Rattle.dc_endings.specs.Laws.{EachEnds, EachIsChecked, EachIsMade, EachMadeEnds};

/// A check of a certificate within its ranges has an answer, want of memory aside: it is accepted,
/// or a first step does not hold, or a limit is passed.
pub fn checks_end()
    ensures { EachIsChecked }
{}

/// Where every problem of the session comes to its end, the outcomes give a certificate: each
/// number of their vectors fits 128 bits. Of it the analysis is told, or a sum that the checker
/// wants doesn't fit. So each analysis has an answer: a certificate, or a first refusal.
pub fn analyses_end()
    ensures made { EachIsMade }
    ensures told { EachMadeEnds }
    ensures answers { EachEnds }
{}
