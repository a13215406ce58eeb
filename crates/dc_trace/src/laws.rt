//! Laws of replay. Each function has no code: what it ensures is the law.
ghost use Rattle.dc_trace.specs.Laws.{CostIsPaid, EndsOnce, PaidIsCost};

/// From each point, in each number of turns, a replay has exactly one end, whichever numbers may occur.
pub fn ends_once()
    ensures { EndsOnce }
{}

/// What a replay pays is a cost of the procedure on its input, whichever numbers may occur.
pub fn paid_is_cost()
    ensures { PaidIsCost }
{}

/// Each cost of a procedure on an input is paid by a replay with some choices and some number of
/// turns, where any whole number may occur.
pub fn cost_is_paid()
    ensures { CostIsPaid }
{}
