//! Why there is no problem.
use dc_syntax::Count;
use std::alloc::AllocError;
use thiserror::Error;

/// Why there is no problem.
#[derive(Debug, Drop, Error)]
pub enum MatchFault {
    /// More than 8,192 columns, or else more than 2,048 equations.
    #[error("the main problem is too large")]
    TooLarge { what: Count, count: u64 },
    /// Memory ran out.
    #[error("out of memory")]
    NoMemory,
}

impl From<AllocError> for MatchFault {
    ghost use Rattle.std.specs.Prelude.{◌≡◌};
    ghost use Rattle.dc_match.specs.declared.fault.MatchFault.TheVariants.{NoMemory};

    ghost from_gives = { λ _ e. e ≡ NoMemory };

    fn from(_error: AllocError) -> MatchFault {
        MatchFault::NoMemory
    }
}
