//! Why an analysis gives no certificate.
use dc_entail::Site;
use dc_syntax::{Count, Side};
use thiserror::Error;

/// What passes 128 bits.
#[derive(Clone, Copy, Debug, PartialEq)]
pub enum PastAt {
    /// A pivot of the problem at a site, counted from 1.
    Pivot { site: Site, pivot: u64 },
    /// A sum that a clause of the checker wants, at an index, over the certificate that was made.
    Fold { clause: u8, index: u64 },
}

/// The first step of an analysis that is refused, or want of memory.
#[derive(Debug, Drop, Error)]
pub enum AnalyseFault {
    /// A count of a program, or of the main problem where no side is named, passes its limit.
    #[error("too large")]
    TooLarge {
        side: Option<Side>,
        what: Count,
        count: u64,
    },
    /// A value passes 128 bits.
    #[error("past 128 bits")]
    Past128(PastAt),
    /// The problem at a site wants more pivots than the settings allow.
    #[error("the pivots are spent")]
    Budget {
        site: Site,
    },
    /// Memory ran out.
    #[error("out of memory")]
    NoMemory,
}
