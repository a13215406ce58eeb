//! Laws of plain programs. Each function has no code: what it ensures is the law.
ghost use Rattle.dc_plain.specs.Laws.{AcceptedSayDifference, PlainAreLeast, PlainHaveDifference};
ghost use Rattle.dc_plain.specs.Laws.{PrintedPlainAreLeast, SystemsHavePair};

/// Two finished runs of plain programs on one input cost apart what their sums are apart, and each
/// input has two such runs.
pub fn plain_programs_have_a_difference()
    ensures { PlainHaveDifference }
{}

/// That difference is the least threshold of the two programs' systems, built or folded, for
/// potentials of each degree and products of each size, under the condition that is always true: with
/// whatever inductive atoms, and with those that an analysis prints.
pub fn the_difference_is_least()
    ensures least { PlainAreLeast }
    ensures printed { PrintedPlainAreLeast }
    ensures pair { SystemsHavePair }
{}

/// So an accepted certificate of two plain programs, without a condition, claims exactly that
/// difference: never another threshold, nor that there is none, nor that every one can be certified.
pub fn accepted_certificates_say_the_difference()
    ensures { AcceptedSayDifference }
{}
