//! Why a certificate is not accepted.
ghost use Rattle.std.specs.Prelude.{◌≡◌};
ghost use Rattle.dc_check.specs.Faults.{fault_at};

use dc_clauses::Step;
use dc_syntax::{Count, Side};
use std::alloc::AllocError;
use thiserror::Error;

/// The first step that does not hold, or a size that passes its limit.
#[derive(Debug, Drop, Error)]
pub enum CheckFault {
    /// A clause is false at an index.
    #[error("a clause is false")]
    Rejected {
        clause: u8,
        index: u64,
    },
    /// A sum that a clause wants at an index passes 128 bits.
    #[error("a sum passes 128 bits")]
    Past128 {
        clause: u8,
        index: u64,
    },
    /// The system of a side, or without a side the main problem, passes a limit.
    #[error("too large")]
    TooLarge {
        side: Option<Side>,
        what: Count,
        count: u64,
    },
    /// Memory ran out.
    #[error("out of memory")]
    NoMemory,
}

impl From<AllocError> for CheckFault {
    ghost use Rattle.std.specs.Prelude.{◌≡◌};
    ghost use Rattle.dc_check.specs.declared.fault.CheckFault.TheVariants.{NoMemory};

    ghost from_gives = { λ _ e. e ≡ NoMemory };

    fn from(_error: AllocError) -> CheckFault {
        CheckFault::NoMemory
    }
}

/// A step that does not hold, as a fault.
pub fn raise(step: Step) -> CheckFault
    ensures { result ≡ fault_at step }
{
    let Step {
        clause,
        index,
        test,
    } = step;
    match test {
        Some(_) => CheckFault::Rejected { clause, index },
        None => CheckFault::Past128 { clause, index },
    }
}
