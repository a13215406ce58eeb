//! Atoms and forms for the problems of an analysis.
ghost use Rattle.std.specs.Prelude.{◌≡◌, ◌≤◌, ◌++◌, ◌∷◌, IfOk, OnOk, take};
ghost use Rattle.dc_families.specs.Families.{bounded as bounded_by};
ghost use Rattle.dc_families.specs.Moves.{edge_places as places_of};
ghost use Rattle.dc_moves.specs.Cuts.{cut_to, with_guard as guarded};

use dc_affine::Atom;
use dc_system::Edge;
use sqlite_items::Items;
use std::alloc::{AllocError, Global};

/// The atom "row + bound >= 0".
pub fn row_atom(alloc: Global, row: &[i64], bound: i64) -> Result<Atom, AllocError>
    ensures { IfOk result (λ a. a ≡ bounded_by row.now bound) }
{
    let coefs = Items::from_slice(alloc, row)?;
    Ok(Atom { c0: bound, coefs })
}

/// The first numbers of a row, as many as it has of `places`.
pub fn first_numbers(alloc: Global, row: &[i64], places: usize) -> Result<Vec<i128>, AllocError>
    ensures { IfOk result (λ v. v.items ≡ take places row.now) }
{
    let count = row.len().min(places);
    let mut numbers = Vec::new(alloc);
    for coef in &row[..count] {
        numbers.push(*coef as i128)?;
    }
    Ok(numbers)
}

/// How many places an edge speaks over: the variables, and the chosen value where it has one.
pub fn edge_places(vars: usize, edge: &Edge) -> usize
    requires { vars ≤ 10 }
    ensures { result ≡ places_of vars edge.now }
{
    if edge.any { vars + 1 } else { vars }
}

/// A copy of a list.
pub fn copy_atoms(alloc: Global, atoms: &[Atom]) -> Result<Vec<Atom>, AllocError>
    ensures { IfOk result (λ v. v.items ≡ atoms.now) }
{
    let mut copies = Vec::new(alloc);
    for atom in atoms {
        copies.push(atom.copy(alloc)?)?;
    }
    Ok(copies)
}

/// The coefficients of the first places alone.
fn cut(alloc: Global, atom: &Atom, places: usize) -> Result<Atom, AllocError>
    ensures { IfOk result (λ a. a ≡ cut_to places atom.now) }
{
    let coefs = atom.coefs.as_slice();
    let count = coefs.len().min(places);
    row_atom(alloc, &coefs[..count], atom.c0)
}

/// Atoms, and behind them the guard of an edge at so many places: an edge that chooses no value
/// speaks over the variables alone, though its guard may have a coefficient, of 0, for the chosen
/// value.
pub fn with_guard(
    alloc: Global,
    mut atoms: Vec<Atom>,
    edge: &Edge,
    places: usize,
) -> Result<Vec<Atom>, AllocError>
    ensures { IfOk result (λ v. v.items ≡ guarded places atoms.items edge.now) }
{
    for atom in edge.guard.as_slice() {
        atoms.push(cut(alloc, atom, places)?)?;
    }
    Ok(atoms)
}
