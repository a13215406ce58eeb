//! Refusals of the steps, as refusals of the analysis.
ghost use Rattle.std.specs.Prelude.{◌≡◌};
ghost use Rattle.dc_engine.specs.Faults.{IsFold, IsFoldOf, match_fault_of, refused_at, row_fault_of, system_fault_of};

use dc_check::CheckFault;
use dc_greatest::InvFault;
use dc_match::MatchFault;
use dc_rows::RowFault;
use dc_session::{AnalyseFault, PastAt};
use dc_syntax::Side;
use dc_system::SystemFault;

/// Why a side has no system.
pub(crate) fn of_system(side: Side, fault: SystemFault) -> AnalyseFault
    ensures { result ≡ system_fault_of side fault }
{
    match fault {
        SystemFault::TooLarge { what, count } => AnalyseFault::TooLarge {
            side: Some(side),
            what,
            count,
        },
        SystemFault::NoMemory => AnalyseFault::NoMemory,
    }
}

/// Why a side has no candidates.
pub(crate) fn of_rows(side: Side, fault: RowFault) -> AnalyseFault
    ensures { result ≡ row_fault_of side fault }
{
    match fault {
        RowFault::TooLarge { what, count } => AnalyseFault::TooLarge {
            side: Some(side),
            what,
            count,
        },
        RowFault::NoMemory => AnalyseFault::NoMemory,
    }
}

/// Why there is no main problem.
pub(crate) fn of_match(fault: MatchFault) -> AnalyseFault
    ensures { result ≡ match_fault_of fault }
{
    match fault {
        MatchFault::TooLarge { what, count } => AnalyseFault::TooLarge {
            side: None,
            what,
            count,
        },
        MatchFault::NoMemory => AnalyseFault::NoMemory,
    }
}

/// Why a problem has no outcome.
pub(crate) fn of_problem(fault: InvFault) -> AnalyseFault
    ensures { result ≡ refused_at fault }
{
    match fault {
        InvFault::Past128 { site, pivot } => {
            AnalyseFault::Past128(PastAt::Pivot { site, pivot })
        }
        InvFault::Budget { site } => AnalyseFault::Budget { site },
        InvFault::NoMemory => AnalyseFault::NoMemory,
    }
}

/// A sum that the checker wants passes 128 bits, or memory ran out. It refuses nothing else of a
/// certificate that is made.
pub(crate) fn of_check(fault: CheckFault) -> AnalyseFault
    requires { IsFold fault }
    ensures { IsFoldOf fault result }
{
    match fault {
        CheckFault::Past128 { clause, index } => {
            AnalyseFault::Past128(PastAt::Fold { clause, index })
        }
        CheckFault::NoMemory => AnalyseFault::NoMemory,
        CheckFault::Rejected { .. } => unreachable!(),
        CheckFault::TooLarge { .. } => unreachable!(),
    }
}
