//! Lists of locations and of edges.
ghost use Rattle.std.specs.Prelude.{◌≡◌, ◌↔◌, ◌<◌, ℕ, IsTrue, IfOk, length, replicate, true};
ghost use Rattle.dc_system.specs.Shapes.{IsWellFormed};
ghost use Rattle.dc_families.specs.Graphs.{graph_of};
ghost use Rattle.dc_worklist.specs.Listed.{is_listed};
ghost use Rattle.dc_greatest.specs.Bounds.{first_number as first_number_of, whole_of};
ghost use Rattle.dc_greatest.specs.Searches.{HasChanged};

use crate::family::LocFamily;
use dc_rows::Candidates;
use dc_system::System;
use dc_worklist::WorkList;
use sqlite_items::Items;
use std::alloc::{AllocError, Global};

/// The number of the first bound, if there is one.
fn first_number(bounds: &[i64]) -> Option<usize>
    ensures { result ≡ first_number_of bounds.now }
{
    if bounds.is_empty() { None } else { Some(0) }
}

/// All candidates of a location.
fn whole(alloc: Global, c: &Candidates) -> Result<LocFamily, AllocError>
    ensures { IfOk result (λ f. f ≡ whole_of c.now) }
{
    let first = first_number(c.bounds.as_slice());
    let least = vec![in alloc; first; c.rows.len()]?;
    Ok(LocFamily {
        dead: true,
        least: Items::from_vec(least),
    })
}

/// All candidates of so many locations.
pub(crate) fn everything(
    alloc: Global,
    locs: usize,
    c: &Candidates,
) -> Result<Vec<LocFamily>, AllocError>
    ensures { IfOk result (λ v. v.items ≡ replicate locs (whole_of c.now)) }
{
    let mut at = Vec::new(alloc);
    for _ in 0..locs {
        at.push(whole(alloc, c)?)?;
    }
    Ok(at)
}

fn copy_one(alloc: Global, f: &LocFamily) -> Result<LocFamily, AllocError>
    ensures { IfOk result (λ g. g ≡ f.now) }
{
    let least = Items::from_slice(alloc, f.least.as_slice())?;
    Ok(LocFamily {
        dead: f.dead,
        least,
    })
}

/// A copy.
pub(crate) fn copy(alloc: Global, at: &[LocFamily]) -> Result<Vec<LocFamily>, AllocError>
    ensures { IfOk result (λ v. v.items ≡ at.now) }
{
    let mut copied = Vec::new(alloc);
    for f in at {
        copied.push(copy_one(alloc, f)?)?;
    }
    Ok(copied)
}

fn same_numbers(a: &[Option<usize>], b: &[Option<usize>]) -> bool
    ensures { IsTrue result ↔ (a.now ≡ b.now) }
{
    a == b
}

fn same_one(a: &LocFamily, b: &LocFamily) -> bool
    ensures { IsTrue result ↔ (a.now ≡ b.now) }
{
    a.dead == b.dead && same_numbers(a.least.as_slice(), b.least.as_slice())
}

/// Whether two families are the same.
pub(crate) fn are_same(a: &[LocFamily], b: &[LocFamily]) -> bool
    requires { length a.now ≡ length b.now }
    ensures { IsTrue result ↔ (a.now ≡ b.now) }
{
    for k in 0..a.len() {
        if !same_one(&a[k], &b[k]) {
            return false;
        }
    }
    true
}

/// The list of all edges.
pub(crate) fn all_edges(alloc: Global, edges: usize) -> Result<WorkList, AllocError>
    ensures edges { IfOk result (λ w. w.edges ≡ edges) }
    ensures all { IfOk result (λ w. (k : ℕ) → k < edges → is_listed k w.numbers ≡ true) }
{
    let mut work = WorkList::new(alloc, edges)?;
    for k in 0..edges {
        work.insert(k);
    }
    Ok(work)
}

/// The edges whose source has changed.
pub(crate) fn changed_edges(
    alloc: Global,
    s: &System,
    old: &[LocFamily],
    new: &[LocFamily],
) -> Result<WorkList, AllocError>
    requires system { IsWellFormed s.now }
    requires old { length old.now ≡ s.now.locs }
    requires new { length new.now ≡ s.now.locs }
    ensures edges { IfOk result (λ w. w.edges ≡ length s.now.edges) }
    ensures changed { IfOk result (λ w. HasChanged (graph_of s.now) old.now new.now w.numbers) }
{
    let mut work = WorkList::new(alloc, s.edges.len())?;
    for (k, edge) in s.edges.as_slice().iter().enumerate() {
        if !same_one(&old[edge.from], &new[edge.from]) {
            work.insert(k);
        }
    }
    Ok(work)
}
