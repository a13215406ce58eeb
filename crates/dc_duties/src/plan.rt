//! The two programs, and what the blocks of their duties are made from.
use crate::unknowns::{Extent, unknown_list};
use dc_affine::Atom;
use dc_claims::Unknown;
use dc_poly::Mono;
use dc_syntax::Side;
use dc_system::{Edge, System};
use dc_template::monomials;
use sqlite_items::Items;
use std::alloc::{AllocError, Global};

/// A program with the atoms of each location, and which of its edges, and whether its exit, are live.
#[derive(Clone, Copy)]
pub struct SidePlan<'a> {
    pub system: &'a System,
    /// The atoms of each location.
    pub families: &'a [Items<Atom>],
    /// One flag for each edge.
    pub live: &'a [bool],
    pub exit_live: bool,
}

/// Both programs and the cases of the condition.
#[derive(Clone, Copy)]
pub struct Programs<'a> {
    pub new: &'a SidePlan<'a>,
    pub old: &'a SidePlan<'a>,
    pub cases: &'a [Items<Atom>],
}

impl<'a> Programs<'a> {
    ghost use Rattle.std.specs.Prelude.{◌≡◌, ◌<◌, ◌≤◌, [], length, slice_index_or};
    ghost use Rattle.dc_system.specs.Shapes.{IsEdge, IsWellFormed, IsWithin};
    ghost use Rattle.dc_claims.specs.Duties.{atoms_at, edge_at, system_of};
    ghost use Rattle.dc_claims.specs.Plans.{IsPair, IsPlan};
    ghost use Rattle.dc_duties.specs.Lent.{lent, plan_of};

    // One of the programs.
    fn plan(&self, side: Side) -> &'a SidePlan<'a>
        ensures { result.now ≡ plan_of self.now side }
    {
        match side {
            Side::New => self.new,
            Side::Old => self.old,
        }
    }

    /// The system of a side.
    pub fn system(&self, side: Side) -> &'a System
        requires { IsPair (lent self.now) }
        ensures system { result.now ≡ system_of (lent self.now) side }
        ensures formed { IsWellFormed result.now }
    {
        self.plan(side).system
    }

    /// An edge of a side.
    pub fn edge(&self, side: Side, number: usize) -> &'a Edge
        requires pair { IsPair (lent self.now) }
        requires there { number < length (system_of (lent self.now) side).edges }
        ensures edge { result.now ≡ edge_at (system_of (lent self.now) side) number }
        ensures kind { IsEdge (system_of (lent self.now) side).vars result.now }
        ensures ends { IsWithin (system_of (lent self.now) side).locs result.now }
    {
        let edges = self.system(side).edges.as_slice();
        &edges[number]
    }

    /// The atoms of a location of a side.
    pub fn atoms(&self, side: Side, location: usize) -> &'a [Atom]
        requires pair { IsPair (lent self.now) }
        requires there { location < (system_of (lent self.now) side).locs }
        ensures atoms { result.now ≡ atoms_at (lent self.now) side location }
        ensures few { length result.now ≤ 1024 }
    {
        let plan = self.plan(side);
        plan.families[location].as_slice()
    }

    /// The atoms of a case.
    pub fn case(&self, number: usize) -> &'a [Atom]
        requires pair { IsPair (lent self.now) }
        requires there { number < length self.now.cases.now }
        ensures atoms { result.now ≡ slice_index_or self.now.cases.now number [] }
        ensures few { length result.now ≤ 256 }
    {
        self.cases[number].as_slice()
    }
}

/// The programs, the degree of their potentials, how many atoms a product has at most, and the
/// unknowns.
#[derive(Drop)]
pub struct Task<'a> {
    pub programs: &'a Programs<'a>,
    pub degree: u8,
    pub products: u8,
    /// The monomials of the potentials of new, and of old.
    pub new_monomials: Vec<Mono>,
    pub old_monomials: Vec<Mono>,
    pub unknowns: Vec<Unknown>,
}

impl<'a> Task<'a> {
    ghost use Rattle.std.specs.Prelude.{◌≡◌, ◌≤◌, IfOk};
    ghost use Rattle.dc_claims.specs.Claims.{monomials_at};
    ghost use Rattle.dc_claims.specs.Plans.{IsPair};
    ghost use Rattle.dc_duties.specs.Lent.{lent};
    ghost use Rattle.dc_duties.specs.Tasks.{IsTask, IsTaskOf};

    /// With the unknowns of potentials of at most this degree.
    pub fn new(
        alloc: Global,
        programs: &'a Programs<'a>,
        degree: u8,
        products: u8,
    ) -> Result<Task<'a>, AllocError>
        requires pair { IsPair (lent programs.now) }
        requires low { degree ≤ 3 }
        requires some { 1 ≤ products }
        requires few { products ≤ 3 }
        ensures { IfOk result (IsTaskOf programs.now degree products) }
    {
        let new_monomials = monomials(alloc, programs.new.system.vars, degree)?;
        let old_monomials = monomials(alloc, programs.old.system.vars, degree)?;
        let new_extent = Extent {
            locations: programs.new.system.locs,
            monomials: new_monomials.as_slice().len(),
        };
        let old_extent = Extent {
            locations: programs.old.system.locs,
            monomials: old_monomials.as_slice().len(),
        };
        let unknowns = unknown_list(alloc, new_extent, old_extent)?;
        Ok(Task {
            programs,
            degree,
            products,
            new_monomials,
            old_monomials,
            unknowns,
        })
    }

    /// The monomials of a side's potentials.
    pub fn monomials(&self, side: Side) -> &[Mono]
        requires { IsTask self.now }
        ensures { result.now ≡ monomials_at (lent self.now.programs.now) self.now.degree side }
    {
        match side {
            Side::New => self.new_monomials.as_slice(),
            Side::Old => self.old_monomials.as_slice(),
        }
    }
}
