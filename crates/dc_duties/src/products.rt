//! The products of a duty's atoms.
ghost use Rattle.std.specs.Prelude.{◌≡◌, ◌++◌, ◌<◌, ◌≤◌, All, length, IfOk, OnOk};
ghost use Rattle.dc_handelman.specs.Products.{IsProduct};
ghost use Rattle.dc_claims.specs.Claims.{products_count};
ghost use Rattle.dc_claims.specs.Duties.{IsThere, atoms_of, places_of};
ghost use Rattle.dc_claims.specs.Plans.{IsPair};
ghost use Rattle.dc_claims.specs.Problems.{products_at};
ghost use Rattle.dc_duties.specs.Lent.{lent};

use crate::plan::Programs;
use dc_affine::Atom;
use dc_claims::Duty;
use dc_handelman::{product_count, products};
use dc_poly::Poly;
use std::alloc::{AllocError, Global};

// Adds copies of atoms.
fn append(alloc: Global, list: &mut Vec<Atom>, atoms: &[Atom]) -> Result<(), AllocError>
    ensures { OnOk result (list.new.items ≡ list.old.items ++ atoms.now) }
{
    for atom in atoms {
        list.push(atom.copy(alloc)?)?;
    }
    Ok(())
}

// Copies of atoms, and of more behind them.
fn join(alloc: Global, atoms: &[Atom], more: &[Atom]) -> Result<Vec<Atom>, AllocError>
    ensures { IfOk result (λ v. v.items ≡ atoms.now ++ more.now) }
{
    let mut list = Vec::new(alloc);
    append(alloc, &mut list, atoms)?;
    append(alloc, &mut list, more)?;
    Ok(list)
}

// Copies of atoms.
fn copies(alloc: Global, atoms: &[Atom]) -> Result<Vec<Atom>, AllocError>
    ensures { IfOk result (λ v. v.items ≡ atoms.now) }
{
    let mut list = Vec::new(alloc);
    append(alloc, &mut list, atoms)?;
    Ok(list)
}

// The atoms of a duty; those of an edge are those of the location that it leaves, and its guard.
fn duty_atoms(alloc: Global, programs: &Programs, duty: &Duty) -> Result<Vec<Atom>, AllocError>
    requires pair { IsPair (lent programs.now) }
    requires there { IsThere (lent programs.now) duty.now }
    ensures { IfOk result (λ v. v.items ≡ atoms_of (lent programs.now) duty.now) }
{
    match *duty {
        Duty::Along(side, number) => {
            let edge = programs.edge(side, number);
            join(
                alloc,
                programs.atoms(side, edge.from),
                edge.guard.as_slice(),
            )
        }
        Duty::AtExit(side) => {
            let exit = programs.system(side).locs - 1;
            copies(alloc, programs.atoms(side, exit))
        }
        Duty::AtEntry(number) => copies(alloc, programs.case(number)),
    }
}

/// The products of at most k of a duty's atoms.
pub fn duty_products(
    alloc: Global,
    programs: &Programs,
    duty: &Duty,
    places: usize,
    k: u8,
) -> Result<Vec<Poly>, AllocError>
    requires pair { IsPair (lent programs.now) }
    requires there { IsThere (lent programs.now) duty.now }
    requires places { places ≡ places_of (lent programs.now) duty.now }
    requires some { 1 ≤ k }
    requires low { k ≤ 3 }
    requires not_many { products_count (lent programs.now) k duty.now ≤ 8192 }
    ensures list { IfOk result (λ v. v.items ≡ products_at (lent programs.now) k duty.now) }
    ensures kinds { IfOk result
        (λ v. All (IsProduct (places_of (lent programs.now) duty.now) k) v.items) }
{
    let atoms = duty_atoms(alloc, programs, duty)?;
    products(alloc, atoms.as_slice(), places, k)
}

// How many atoms a duty has.
fn atom_count(programs: &Programs, duty: &Duty) -> usize
    requires pair { IsPair (lent programs.now) }
    requires there { IsThere (lent programs.now) duty.now }
    ensures count { result ≡ length (atoms_of (lent programs.now) duty.now) }
    ensures few { result ≤ 2048 }
{
    match *duty {
        Duty::Along(side, number) => {
            let edge = programs.edge(side, number);
            programs.atoms(side, edge.from).len() + edge.guard.len()
        }
        Duty::AtExit(side) => {
            let exit = programs.system(side).locs - 1;
            programs.atoms(side, exit).len()
        }
        Duty::AtEntry(number) => programs.case(number).len(),
    }
}

/// The number of its products. No product is made.
pub fn duty_product_count(programs: &Programs, duty: &Duty, k: u8) -> u64
    requires pair { IsPair (lent programs.now) }
    requires there { IsThere (lent programs.now) duty.now }
    requires some { 1 ≤ k }
    requires low { k ≤ 3 }
    ensures { result ≡ products_count (lent programs.now) k duty.now }
{
    product_count(atom_count(programs, duty), k)
}
