//! Locations with one way in and one way out, folded into the edge before them.
ghost use Rattle.std.specs.Prelude.{ℕ, ◌≡◌, ◌≤◌, ◌<◌, ◌+◌, ◌-◌, ◌↔◌, not, eqb, filter, IfOk, OnOk, MatchOption, map, length, slice_set, get_or, [], ◌∷◌, Some, None, true, ℤ};
ghost use Rattle.std.specs.List.{AllByRecursion};
ghost use Rattle.dc_syntax.specs.Value.{State};
ghost use Rattle.dc_system.specs.Folded.{Folding, IsFolded, folded, into, number_in, numbers_below, out_of, renumbered, without};
ghost use Rattle.dc_system.specs.Folded.{fold_at as edge_at};
ghost use Rattle.dc_system.specs.Laws.{Through};
ghost use Rattle.dc_system.specs.Shapes.{IsEdge, IsWithin, IsWellFormed};
ghost use Rattle.dc_system.specs.Spots.{IsLeast, IsOnly, IsSpotAt, Net};
ghost use Rattle.dc_system.specs.declared.edges.Edge.{Edge as EdgeRecord};

use crate::composition::compose;
use crate::edges::{Edge, System};
use dc_affine::Atom;
use dc_poly::Poly;
use sqlite_items::Items;
use std::alloc::{AllocError, Global};

// The only edge into a location, where there is only one.
#[tactic(auto, using(crate::proofs::Onlies::onlies))]
fn only_into(edges: &[Edge], location: usize) -> Option<usize>
    ensures { IsOnly (into location edges.now) edges.now result }
{
    let mut found = None;
    for k in 0..edges.len() {
        if edges[k].to == location {
            if found.is_some() {
                return None;
            }
            found = Some(k);
        }
    }
    found
}

// The only edge out of a location, where there is only one.
#[tactic(auto, using(crate::proofs::Onlies::onlies))]
fn only_out_of(edges: &[Edge], location: usize) -> Option<usize>
    ensures { IsOnly (out_of location edges.now) edges.now result }
{
    let mut found = None;
    for k in 0..edges.len() {
        if edges[k].from == location {
            if found.is_some() {
                return None;
            }
            found = Some(k);
        }
    }
    found
}

/// A foldable location, the index of the edge into it, and the edge that it is folded into.
#[derive(Drop)]
pub(crate) struct Spot {
    pub location: usize,
    pub index: usize,
    pub edge: Edge,
}

// Whether a location may be folded, and into what.
#[tactic(auto, using(crate::proofs::Spotting::spotting))]
fn spot_at(
    alloc: Global,
    edges: &[Edge],
    vars: usize,
    exit: usize,
    location: usize,
) -> Result<Option<Spot>, AllocError>
    requires few { vars ≤ 10 }
    requires shaped { AllByRecursion (IsEdge vars) edges.now }
    ensures { IfOk result (λ o. IsSpotAt vars exit edges.now location o) }
{
    if location == 0 || location == exit {
        return Ok(None);
    }
    let Some(index) = only_into(edges, location) else {
        return Ok(None);
    };
    let Some(leaving) = only_out_of(edges, location) else {
        return Ok(None);
    };
    let first = &edges[index];
    let second = &edges[leaving];
    if first.from == location || second.to == location {
        return Ok(None);
    }
    let Some(edge) = compose(alloc, first, second, vars)? else {
        return Ok(None);
    };
    Ok(Some(Spot {
        location,
        index,
        edge,
    }))
}

// The least foldable location.
#[tactic(auto, using(crate::proofs::Spotting::leasts))]
fn least(
    alloc: Global,
    edges: &[Edge],
    vars: usize,
    exit: usize,
) -> Result<Option<Spot>, AllocError>
    requires few { vars ≤ 10 }
    requires few_locations { exit < 128 }
    requires shaped { AllByRecursion (IsEdge vars) edges.now }
    requires ends { AllByRecursion (IsWithin (exit + 1)) edges.now }
    ensures { IfOk result (λ o. IsLeast vars exit edges.now o) }
{
    for location in 0..exit {
        let spot = spot_at(alloc, edges, vars, exit, location)?;
        if spot.is_some() {
            return Ok(spot);
        }
    }
    Ok(None)
}

// Takes the edges out of a location away.
fn keep_edges(edges: &mut Vec<Edge>, location: usize)
    ensures { edges.new.items ≡ filter (λ e. not (eqb e.from location)) edges.old.items }
{
    edges.retain(|e| e.from != location);
}

// Takes a location away.
fn keep_others(left: &mut Vec<usize>, location: usize)
    ensures { left.new.items ≡ without location left.old.items }
{
    left.retain(|k| *k != location);
}

// Puts the composed edge where the edge in stands, takes the edge out away, and the location
// with it.
#[tactic(auto, using(crate::proofs::Spotting::folding_out))]
fn fold_out(edges: &mut Vec<Edge>, left: &mut Vec<usize>, spot: Spot)
    requires index { spot.index < length edges.old.items }
    requires only { (d : EdgeRecord)
        → into spot.location edges.old.items ≡ get_or edges.old.items spot.index d ∷ [] }
    ensures edges { edges.new.items ≡ folded spot.location spot.edge edges.old.items }
    ensures left { left.new.items ≡ without spot.location left.old.items }
{
    let Spot {
        location,
        index,
        edge,
    } = spot;
    edges[index] = edge;
    keep_edges(edges, location);
    keep_others(left, location);
}

// Folds the least foldable location again and again, until there is none.
#[tactic(auto, using(crate::proofs::FoldSteps::folding_all))]
fn fold_all(
    alloc: Global,
    edges: &mut Vec<Edge>,
    left: &mut Vec<usize>,
    vars: usize,
    exit: usize,
) -> Result<(), AllocError>
    requires few { vars ≤ 10 }
    requires few_locations { exit < 128 }
    requires net { Net vars exit left.old.items edges.old.items }
    ensures folding { OnOk result
        (Folding vars exit left.old.items edges.old.items left.new.items edges.new.items) }
    ensures ended { OnOk result ((l : ℕ) → edge_at vars exit edges.new.items l ≡ None) }
{
    'folds: while let Some(spot) = least(alloc, edges.as_slice(), vars, exit)? {
        fold_out(edges, left, spot);
    }
    Ok(())
}

// The number of a location among those that are left.
#[tactic(auto, using(crate::proofs::FoldSteps::counting_below))]
fn number(left: &[usize], location: usize) -> usize
    requires { length left.now ≤ 128 }
    ensures { result ≡ number_in left.now location }
{
    let mut below = 0;
    for other in left {
        if *other < location {
            below += 1;
        }
    }
    below
}

// Edges between locations that are numbered anew.
#[tactic(auto, using(crate::proofs::FoldSteps::renumbering))]
fn renumber(alloc: Global, left: &[usize], edges: Vec<Edge>) -> Result<Vec<Edge>, AllocError>
    requires { length left.now ≤ 128 }
    ensures { IfOk result (λ v. v.items ≡ map (renumbered left.now) edges.items) }
{
    let mut all = Vec::new(alloc);
    for edge in edges {
        let Edge {
            from,
            to,
            guard,
            update,
            any,
            cost,
        } = edge;
        all.push(Edge {
            from: number(left, from),
            to: number(left, to),
            guard,
            update,
            any,
            cost,
        })?;
    }
    Ok(all)
}

// Copies of atoms.
fn atoms(alloc: Global, atoms: &[Atom]) -> Result<Vec<Atom>, AllocError>
    ensures { IfOk result (λ v. v.items ≡ atoms.now) }
{
    let mut all = Vec::new(alloc);
    for atom in atoms {
        all.push(atom.copy(alloc)?)?;
    }
    Ok(all)
}

// Copies of polynomials.
fn forms(alloc: Global, forms: &[Poly]) -> Result<Vec<Poly>, AllocError>
    ensures { IfOk result (λ v. v.items ≡ forms.now) }
{
    let mut all = Vec::new(alloc);
    for form in forms {
        all.push(form.copy(alloc)?)?;
    }
    Ok(all)
}

impl Edge {
    /// A copy.
    pub fn copy(&self, alloc: Global) -> Result<Edge, AllocError>
        ensures { IfOk result (λ e. e ≡ self.now) }
    {
        let guard = atoms(alloc, self.guard.as_slice())?;
        let update = forms(alloc, self.update.as_slice())?;
        Ok(Edge {
            from: self.from,
            to: self.to,
            guard: Items::from_vec(guard),
            update: Items::from_vec(update),
            any: self.any,
            cost: self.cost.copy(alloc)?,
        })
    }
}

// Copies of edges.
fn copies(alloc: Global, edges: &[Edge]) -> Result<Vec<Edge>, AllocError>
    ensures { IfOk result (λ v. v.items ≡ edges.now) }
{
    let mut all = Vec::new(alloc);
    for edge in edges {
        all.push(edge.copy(alloc)?)?;
    }
    Ok(all)
}

// The numbers below one, in order.
#[tactic(auto, using(crate::proofs::FoldSteps::counting_up))]
fn numbers(alloc: Global, count: usize) -> Result<Vec<usize>, AllocError>
    ensures { IfOk result (λ v. v.items ≡ numbers_below count) }
{
    let mut all = Vec::new(alloc);
    for k in 0..count {
        all.push(k)?;
    }
    Ok(all)
}

// The folded system.
#[tactic(auto, using(crate::proofs::FoldSteps::folding_whole))]
fn folded_system(alloc: Global, s: &System) -> Result<System, AllocError>
    requires { IsWellFormed s.now }
    ensures { IfOk result (λ t. IsFolded s.now t) }
{
    let exit = s.locs - 1;
    let mut edges = copies(alloc, s.edges.as_slice())?;
    let mut left = numbers(alloc, s.locs)?;
    fold_all(alloc, &mut edges, &mut left, s.vars, exit)?;
    let edges = renumber(alloc, left.as_slice(), edges)?;
    let literals = Items::from_slice(alloc, s.literals.as_slice())?;
    Ok(System {
        vars: s.vars,
        params: s.params,
        locs: left.len(),
        edges: Items::from_vec(edges),
        literals,
    })
}

/// The system with locations folded into the edge before them.
///
/// A location is foldable where it is neither the entry nor the exit, has exactly one edge in and
/// exactly one edge out, neither of which goes from it to itself, and the two have a composed edge
/// ([`compose`]). That edge then stands where the edge in stood, and the edge out is taken away.
/// The least foldable location is folded again and again until there is none; then the locations
/// that are left are numbered anew in their order, and the edges keep their order.
///
/// From each state the paths from location 0 to the exit are exactly those of the system that was lent.
#[tactic(auto, using(crate::proofs::FoldSteps::folded_laws))]
pub fn fold(alloc: Global, s: &System) -> Result<System, AllocError>
    requires { IsWellFormed s.now }
    ensures folded { IfOk result (λ t. IsFolded s.now t) }
    ensures well_formed { IfOk result (λ t. IsWellFormed t) }
    ensures paths { IfOk result
        (λ t. (x : State) (c : ℤ) (y : State) → length x ≡ s.now.vars → Through t x c y
        ↔ Through s.now x c y) }
{
    let folded = folded_system(alloc, s)?;
    Ok(folded)
}
