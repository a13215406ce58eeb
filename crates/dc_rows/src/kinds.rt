//! Candidates, and why there are none.
use dc_syntax::Count;
use sqlite_items::Items;
use std::alloc::AllocError;
use thiserror::Error;

/// Which linear forms may be bounded, and by which numbers: each row and each bound make the atom
/// "row + bound >= 0".
///
/// A row has one coefficient for each variable.
#[derive(Debug, Drop)]
pub struct Candidates {
    pub rows: Items<Items<i64>>,
    /// Rising.
    pub bounds: Items<i64>,
}

/// Why there are no candidates.
#[derive(Debug, Drop, Error)]
pub enum RowFault {
    /// More than 1,024 rows, or else more than 256 bounds, and how many there are.
    #[error("too many candidates")]
    TooLarge { what: Count, count: u64 },
    /// Memory ran out.
    #[error("out of memory")]
    NoMemory,
}

impl From<AllocError> for RowFault {
    ghost use Rattle.std.specs.Prelude.{◌≡◌};
    ghost use Rattle.dc_rows.specs.declared.kinds.RowFault.TheVariants.{NoMemory};

    ghost from_gives = { λ _ e. e ≡ NoMemory };

    fn from(_error: AllocError) -> RowFault {
        RowFault::NoMemory
    }
}
