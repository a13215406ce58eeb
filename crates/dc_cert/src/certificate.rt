//! The parts of a certificate. `specs/Ranges` says which certificates have a text.
ghost use Rattle.std.specs.Prelude.{◌≡◌, ◌↔◌, IfOk, IsTrue};
ghost use Rattle.dc_cert.specs.Claims.{claim_of};
ghost use Rattle.dc_cert.specs.Ranges.{is_live as shows_live};

use crate::sparse::Sparse;
use dc_affine::Atom;
use dc_frac::Frac;
use sqlite_items::Items;
use std::alloc::{AllocError, Global};

/// Whether a list of atoms has no rational point (`Dead`, with the multipliers that combine them to
/// -1) or has one (`Live`, with a vector that names it).
#[derive(Debug)]
pub enum Liveness {
    Dead(Sparse),
    Live(Sparse),
}

// The drops of this file are by hand, so that a function that drops a certificate does so in one step.
impl Drop for Liveness {
    fn drop(self) {
        match self {
            Liveness::Dead(_items) => {}
            Liveness::Live(_items) => {}
        }
    }
}

impl Liveness {
    /// Whether it says that there is a point.
    pub fn is_live(&self) -> bool
        ensures { result ≡ shows_live self.now }
    {
        match self {
            Liveness::Dead(_) => false,
            Liveness::Live(_) => true,
        }
    }

    /// A copy.
    pub fn copy(&self, alloc: Global) -> Result<Liveness, AllocError>
        ensures { IfOk result (λ l. l ≡ self.now) }
    {
        match self {
            Liveness::Dead(s) => Ok(Liveness::Dead(s.copy(alloc)?)),
            Liveness::Live(s) => Ok(Liveness::Live(s.copy(alloc)?)),
        }
    }
}

/// What is kept of an edge: whether its source's atoms with its guard are live, and for each atom
/// of its target the multipliers that show it after the edge.
#[derive(Debug, Drop)]
pub struct EdgeCert {
    pub live: Liveness,
    pub keeps: Items<Sparse>,
}

impl EdgeCert {
    /// A copy.
    pub fn copy(&self, alloc: Global) -> Result<EdgeCert, AllocError>
        ensures { IfOk result (λ e. e ≡ self.now) }
    {
        let live = self.live.copy(alloc)?;
        let keeps = copy_vectors(alloc, self.keeps.as_slice())?;
        Ok(EdgeCert { live, keeps })
    }
}

/// What is kept of one program: the atoms of each location; for each case of the condition the
/// multipliers that show the atoms of location 0; the edges; and whether the exit's atoms are live.
#[derive(Debug)]
pub struct SideCert {
    pub families: Items<Items<Atom>>,
    pub entry_keeps: Items<Items<Sparse>>,
    pub edges: Items<EdgeCert>,
    pub exit_line: Liveness,
}

impl Drop for SideCert {
    fn drop(self) {
        let SideCert {
            families: _families,
            entry_keeps: _entry_keeps,
            edges: _edges,
            exit_line: _exit_line,
        } = self;
    }
}

impl SideCert {
    /// A copy.
    pub fn copy(&self, alloc: Global) -> Result<SideCert, AllocError>
        ensures { IfOk result (λ s. s ≡ self.now) }
    {
        let families = copy_families(alloc, self.families.as_slice())?;
        let entry_keeps = copy_keeps(alloc, self.entry_keeps.as_slice())?;
        let edges = copy_edges(alloc, self.edges.as_slice())?;
        let exit_line = self.exit_line.copy(alloc)?;
        Ok(SideCert {
            families,
            entry_keeps,
            edges,
            exit_line,
        })
    }
}

fn copy_vectors(alloc: Global, list: &[Sparse]) -> Result<Items<Sparse>, AllocError>
    ensures { IfOk result (λ l. l ≡ list.now) }
{
    let mut copies = Items::new(alloc);
    for s in list {
        copies.push(s.copy(alloc)?)?;
    }
    Ok(copies)
}

fn copy_atoms(alloc: Global, list: &[Atom]) -> Result<Items<Atom>, AllocError>
    ensures { IfOk result (λ l. l ≡ list.now) }
{
    let mut copies = Items::new(alloc);
    for a in list {
        copies.push(a.copy(alloc)?)?;
    }
    Ok(copies)
}

fn copy_families(alloc: Global, list: &[Items<Atom>]) -> Result<Items<Items<Atom>>, AllocError>
    ensures { IfOk result (λ l. l ≡ list.now) }
{
    let mut copies = Items::new(alloc);
    for atoms in list {
        copies.push(copy_atoms(alloc, atoms.as_slice())?)?;
    }
    Ok(copies)
}

fn copy_keeps(alloc: Global, list: &[Items<Sparse>]) -> Result<Items<Items<Sparse>>, AllocError>
    ensures { IfOk result (λ l. l ≡ list.now) }
{
    let mut copies = Items::new(alloc);
    for keeps in list {
        copies.push(copy_vectors(alloc, keeps.as_slice())?)?;
    }
    Ok(copies)
}

fn copy_edges(alloc: Global, list: &[EdgeCert]) -> Result<Items<EdgeCert>, AllocError>
    ensures { IfOk result (λ l. l ≡ list.now) }
{
    let mut copies = Items::new(alloc);
    for e in list {
        copies.push(e.copy(alloc)?)?;
    }
    Ok(copies)
}

/// What is claimed, with the vectors of the main problem that show it.
#[derive(Debug)]
pub enum Body {
    /// The least threshold.
    Threshold {
        t: Frac,
        unknown: Sparse,
        lambda: Sparse,
        dual: Sparse,
    },
    /// No threshold can be certified.
    Nothing {
        dual: Sparse,
    },
    /// Every threshold can be certified.
    Vacuous {
        unknown: Sparse,
        lambda: Sparse,
        ray_unknown: Sparse,
        ray_lambda: Sparse,
    },
}

impl Drop for Body {
    fn drop(self) {
        match self {
            Body::Threshold {
                t: _,
                unknown: _unknown,
                lambda: _lambda,
                dual: _dual,
            } => {}
            Body::Nothing { dual: _dual } => {}
            Body::Vacuous {
                unknown: _unknown,
                lambda: _lambda,
                ray_unknown: _ray_unknown,
                ray_lambda: _ray_lambda,
            } => {}
        }
    }
}

/// What is claimed, without the vectors that show it.
#[derive(Clone, Copy, Debug, PartialEq, Eq)]
pub enum Claim {
    /// The least threshold.
    Threshold(Frac),
    /// No threshold can be certified.
    Nothing,
    /// Every threshold can be certified.
    Vacuous,
}

impl Body {
    /// The claim.
    pub fn claim(&self) -> Claim
        ensures { result ≡ claim_of self.now }
    {
        match self {
            Body::Threshold { t, .. } => Claim::Threshold(*t),
            Body::Nothing { .. } => Claim::Nothing,
            Body::Vacuous { .. } => Claim::Vacuous,
        }
    }
}

/// A certificate. Version 1 has one case of the condition, version 2 one to 64.
#[derive(Debug)]
pub struct Certificate {
    pub version: u8,
    pub body: Body,
    pub degree: u8,
    pub products: u8,
    pub when: Items<Liveness>,
    pub new_side: SideCert,
    pub old_side: SideCert,
}

impl Drop for Certificate {
    fn drop(self) {
        let Certificate {
            version: _,
            body: _body,
            degree: _,
            products: _,
            when: _when,
            new_side: _new_side,
            old_side: _old_side,
        } = self;
    }
}

/// What an analysis is asked for: the degree of the templates, the number of factors of a product,
/// whether rows of two variables are candidates, and how many pivots a problem may take.
#[derive(Clone, Copy, Debug, PartialEq, Eq)]
pub struct Settings {
    pub degree: u8,
    pub products: u8,
    pub pairs: bool,
    pub pivots: u64,
}
