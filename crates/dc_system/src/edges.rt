//! Edges and systems.
use dc_affine::Atom;
use dc_poly::Poly;
use dc_syntax::Count;
use sqlite_items::Items;
use std::alloc::AllocError;
use thiserror::Error;

/// An edge between two locations.
///
/// Its polynomials have one place for each variable and a last one for the value that the edge
/// chooses. It may be taken in a state, with a chosen value, where its guard holds there; it then
/// costs its cost and leads to its updates, all of them taken there.
#[derive(Drop)]
pub struct Edge {
    pub from: usize,
    pub to: usize,
    pub guard: Items<Atom>,
    /// What each variable becomes.
    pub update: Items<Poly>,
    /// Whether the chosen value may be mentioned.
    pub any: bool,
    pub cost: Poly,
}

/// A transition system over the variables of a procedure, the first `params` of which are its
/// parameters.
///
/// Location 0 is the entry, the last one the exit.
#[derive(Drop)]
pub struct System {
    pub vars: usize,
    pub params: usize,
    pub locs: usize,
    pub edges: Items<Edge>,
    /// The different literals of the procedure, rising.
    pub literals: Items<u32>,
}

/// Why a procedure has no system.
#[derive(Debug, Drop, Error)]
pub enum SystemFault {
    /// More than 128 locations, or else more than 512 edges. A count past 64 bits stands at 2^64 - 1.
    #[error("the system is too large")]
    TooLarge { what: Count, count: u64 },
    /// Memory ran out.
    #[error("out of memory")]
    NoMemory,
}

impl From<AllocError> for SystemFault {
    ghost use Rattle.std.specs.Prelude.{◌≡◌};
    ghost use Rattle.dc_system.specs.declared.edges.SystemFault.TheVariants.{NoMemory};

    ghost from_gives = { λ _ e. e ≡ NoMemory };

    fn from(_error: AllocError) -> SystemFault {
        SystemFault::NoMemory
    }
}
