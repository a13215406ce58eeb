//! Clauses 3 and 5: the keeps of the entry and of the edges.
ghost use Rattle.std.specs.Prelude.{◌≡◌, ◌≤◌, ◌*◌, ◌+◌, ◌+ℤ◌, true, length, unsigned_abs, IfOk};
ghost use Rattle.std.specs.List.{list_all};
ghost use Rattle.dc_poly.specs.NormalForm.{most};
ghost use Rattle.dc_affine.specs.Atoms.{IsAtom, most_constant};
ghost use Rattle.dc_system.specs.After.{atom_after as moved_of, is_affine_after};
ghost use Rattle.dc_system.specs.Shapes.{IsEdge as IsEdgeOver};
ghost use Rattle.dc_cert.specs.Ranges.{AreAtoms, AreKeeps};
ghost use Rattle.dc_cert.specs.Vectors.{IsVector, in_range};
ghost use Rattle.dc_clauses.specs.Steps.{IsShort, IsWalk, counted, first_failure};
ghost use Rattle.dc_clauses.specs.Lent.{IsEdgePart, IsPart, IsShaped, entry_fits_cases};
ghost use Rattle.dc_clauses.specs.Sides.{atoms_at as atoms_of_location, edge_atoms, entry_test as shows_at_entry, entry_tests, keep_test as shows_after, keep_tests, paired};

use crate::cases::alone;
use crate::hyps::Hyps;
use crate::lines::keep_test;
use crate::shape::{atoms_at, edge_hyps, edge_places};
use crate::step::{Step, Walk, failure};
use dc_affine::Atom;
use dc_cert::{EdgeCert, SideCert, Sparse};
use dc_system::{Edge, RowAfter, System, row_after};
use sqlite_items::Items;
use std::alloc::{AllocError, Global};

/// An atom in 128 bits.
#[derive(Drop)]
struct WideAtom {
    constant: i128,
    coefs: Items<i128>,
}

/// The same number in 128 bits.
fn wide_number(number: &i64) -> i128
    ensures { result ≡ number.now }
{
    *number as i128
}

/// The same atom in 128 bits.
fn widen(alloc: Global, atom: &Atom) -> Result<WideAtom, AllocError>
    ensures constant { IfOk result (λ w. w.constant ≡ atom.now.c0) }
    ensures coefs { IfOk result (λ w. w.coefs ≡ atom.now.coefs) }
{
    let mut coefs = Items::new(alloc);
    for coef in atom.coefs.as_slice() {
        coefs.push(wide_number(coef))?;
    }
    Ok(WideAtom {
        constant: wide_number(&atom.c0),
        coefs,
    })
}

/// Whether a keep shows an atom of the entry over the parameters, from the atoms of a case.
fn entry_test(
    alloc: Global,
    s: &System,
    case: &[Atom],
    atom: &Atom,
    keep: &Sparse,
) -> Result<Option<bool>, AllocError>
    requires vector { IsVector keep.now }
    requires range { in_range (length case.now) keep.now ≡ true }
    requires atom { IsAtom 10 atom.now }
    ensures { IfOk result (λ t. t ≡ shows_at_entry s.now case.now atom.now keep.now) }
{
    let target = widen(alloc, atom)?;
    Ok(keep_test(
        &alone(case),
        s.params,
        target.coefs.as_slice(),
        &target.constant,
        true,
        keep,
    ))
}

/// The first keep of a case of which clause 3 does not hold. The keeps count on from `start`.
fn case_keep_failure(
    alloc: Global,
    s: &System,
    case: &[Atom],
    atoms: &[Atom],
    keeps: &[Sparse],
    start: usize,
) -> Result<Option<Step>, AllocError>
    requires keeps { AreKeeps keeps.now }
    requires range { list_all (in_range (length case.now)) keeps.now ≡ true }
    requires atoms { AreAtoms atoms.now }
    requires one_each { length keeps.now ≤ length atoms.now }
    requires room { start ≤ 1048576 }
    ensures { IfOk result
        (λ r. r ≡ first_failure
        (counted 3 start (paired (shows_at_entry s.now case.now) atoms.now keeps.now))) }
{
    for k in 0..keeps.len() {
        let test = entry_test(alloc, s, case, &atoms[k], &keeps[k])?;
        if let Some(step) = failure(3, start + k, test) {
            return Ok(Some(step));
        }
    }
    Ok(None)
}

/// The constant of an atom, and with it that of its row after an edge.
fn sum(constant: &i64, more: &i128) -> i128
    requires constant { unsigned_abs constant.now ≤ most_constant }
    requires more { unsigned_abs more.now ≤ 10 * (most * most) }
    ensures value { result ≡ constant.now +ℤ more.now }
{
    *constant as i128 + *more
}

/// An atom after an edge's update, and whether it is affine there.
fn move_atom(
    alloc: Global,
    s: &System,
    e: &Edge,
    atom: &Atom,
) -> Result<(WideAtom, bool), AllocError>
    requires few { s.now.vars ≤ 10 }
    requires edge { IsEdgeOver s.now.vars e.now }
    requires atom { IsAtom 10 atom.now }
    requires full { length atom.now.coefs ≡ s.now.vars }
    ensures constant { IfOk result (λ m. m.0.constant ≡ (moved_of s.now.vars e.now atom.now).c0) }
    ensures coefs { IfOk result (λ m. m.0.coefs ≡ (moved_of s.now.vars e.now atom.now).coefs) }
    ensures affine { IfOk result (λ m. m.1 ≡ is_affine_after e.now atom.now.coefs) }
{
    let row = row_after(alloc, e, atom.coefs.as_slice(), s.vars)?;
    let RowAfter {
        constant,
        coefs,
        is_affine,
    } = row;
    let constant = sum(&atom.c0, &constant);
    Ok((WideAtom { constant, coefs }, is_affine))
}

/// Whether a keep shows an atom of an edge's target after the update, and that is affine.
fn moved_test(
    alloc: Global,
    s: &System,
    x: &SideCert,
    e: &Edge,
    atom: &Atom,
    keep: &Sparse,
) -> Result<Option<bool>, AllocError>
    requires few { s.now.vars ≤ 10 }
    requires edge { IsEdgeOver s.now.vars e.now }
    requires vector { IsVector keep.now }
    requires range { in_range (length (edge_atoms x.now e.now)) keep.now ≡ true }
    requires atom { IsAtom 10 atom.now }
    requires full { length atom.now.coefs ≡ s.now.vars }
    ensures { IfOk result (λ t. t ≡ shows_after s.now x.now e.now atom.now keep.now) }
{
    let (target, is_affine) = move_atom(alloc, s, e, atom)?;
    let hyps = edge_hyps(x, e);
    let places = edge_places(s.vars, e);
    Ok(keep_test(
        &hyps,
        places,
        target.coefs.as_slice(),
        &target.constant,
        is_affine,
        keep,
    ))
}

/// The first keep of an edge of which clause 5 does not hold. The keeps count on from `start`.
fn edge_keep_failure(
    alloc: Global,
    s: &System,
    x: &SideCert,
    e: &Edge,
    c: &EdgeCert,
    start: usize,
) -> Result<Option<Step>, AllocError>
    requires part { IsEdgePart s.now x.now e.now c.now }
    requires room { start ≤ 1048576 }
    ensures { IfOk result
        (λ r. r ≡ first_failure
        (counted 5 start (paired (shows_after s.now x.now e.now)
        (atoms_of_location x.now e.now.to) c.now.keeps))) }
{
    let atoms = atoms_at(x, e.to);
    let keeps = c.keeps.as_slice();
    for k in 0..keeps.len() {
        let test = moved_test(alloc, s, x, e, &atoms[k], &keeps[k])?;
        if let Some(step) = failure(5, start + k, test) {
            return Ok(Some(step));
        }
    }
    Ok(None)
}

/// The walk over the tests of clause 3, of which the first has the index `start`.
pub fn entry_walk(
    alloc: Global,
    s: &System,
    cases: &[Items<Atom>],
    x: &SideCert,
    start: usize,
) -> Result<Walk, AllocError>
    requires part { IsPart s.now x.now }
    requires few { length cases.now ≤ 64 }
    requires fits { entry_fits_cases x.now cases.now ≡ true }
    requires room { start ≤ 65536 }
    ensures walk { IfOk result (IsWalk 3 start (entry_tests s.now cases.now x.now)) }
    ensures short { IfOk result (IsShort (start + 65536)) }
{
    let atoms = atoms_at(x, 0);
    let lists = x.entry_keeps.as_slice();
    let mut next = start;
    for k in 0..cases.len().min(lists.len()) {
        let keeps = lists[k].as_slice();
        let found = case_keep_failure(alloc, s, cases[k].as_slice(), atoms, keeps, next)?;
        if let Some(step) = found {
            return Ok(Walk::Stopped { step });
        }
        next += keeps.len();
    }
    Ok(Walk::Passed { next })
}

/// The walk over the tests of clause 5, of which the first has the index `start`.
pub fn keep_walk(alloc: Global, s: &System, x: &SideCert, start: usize) -> Result<Walk, AllocError>
    requires shaped { IsShaped s.now x.now }
    requires room { start ≤ 524288 }
    ensures walk { IfOk result (IsWalk 5 start (keep_tests s.now x.now)) }
    ensures short { IfOk result (IsShort (start + 524288)) }
{
    let edges = s.edges.as_slice();
    let certs = x.edges.as_slice();
    let mut next = start;
    for k in 0..edges.len() {
        let cert = &certs[k];
        let found = edge_keep_failure(alloc, s, x, &edges[k], cert, next)?;
        if let Some(step) = found {
            return Ok(Walk::Stopped { step });
        }
        next += cert.keeps.len();
    }
    Ok(Walk::Passed { next })
}
