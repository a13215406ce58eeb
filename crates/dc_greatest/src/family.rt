//! Families as the code keeps them, and refusals.
ghost use Rattle.std.specs.Prelude.{◌≡◌};
ghost use Rattle.dc_greatest.specs.Refusals.{with_site};

use dc_entail::Site;
use dc_simplex::SolveFault;
use sqlite_items::Items;
use std::alloc::AllocError;
use thiserror::Error;

/// The atoms of a location: whether `-1 >= 0` is one, and for each row the number of the least
/// bound that is kept. All greater bounds are kept with it.
#[derive(Debug, Drop)]
pub struct LocFamily {
    pub dead: bool,
    pub least: Items<Option<usize>>,
}

/// The atoms of each location.
#[derive(Debug, Drop)]
pub struct Family {
    pub at: Items<LocFamily>,
}

/// Why there is no answer.
#[derive(Debug, Drop, Error)]
pub enum InvFault {
    /// The problem at a site is the first with a pivot that doesn't fit 128 bits, counted from 1.
    #[error("pivot {pivot} passes 128 bits")]
    Past128 { site: Site, pivot: u64 },
    /// The problem at a site is the first that wants more pivots than the budget.
    #[error("the pivots are spent")]
    Budget { site: Site },
    /// Memory ran out.
    #[error("out of memory")]
    NoMemory,
}

impl InvFault {
    /// The refusal of the problem at a site.
    pub fn at(site: Site, fault: SolveFault) -> InvFault
        ensures { result ≡ with_site site fault }
    {
        match fault {
            SolveFault::Past128 { pivot } => InvFault::Past128 { site, pivot },
            SolveFault::Budget { .. } => InvFault::Budget { site },
            SolveFault::NoMemory => InvFault::NoMemory,
        }
    }
}

impl From<AllocError> for InvFault {
    ghost use Rattle.std.specs.Prelude.{◌≡◌};
    ghost use Rattle.dc_greatest.specs.declared.family.InvFault.TheVariants.{NoMemory};

    ghost from_gives = { λ _ e. e ≡ NoMemory };

    fn from(_error: AllocError) -> InvFault {
        InvFault::NoMemory
    }
}
