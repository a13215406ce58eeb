//! Printed atoms.
ghost use Rattle.std.specs.Prelude.{◌≡◌, ◌≤◌, ◌<◌, ◌∷◌, [], IfOk, IfErr, OnOk, ◌++◌, if◌then◌else◌, is_some, length, insert, map, replicate, pos};
ghost use Rattle.std.specs.List.{AllByRecursion};
ghost use Rattle.dc_affine.specs.Atoms.{IsFullAtom};
ghost use Rattle.dc_system.specs.Shapes.{IsWellFormed};
ghost use Rattle.dc_points.specs.Points.{IsDead};
ghost use Rattle.dc_rows.specs.Candidate.{AreCandidates};
ghost use Rattle.dc_families.specs.Graphs.{graph_of};
ghost use Rattle.dc_families.specs.Families.{never as never_of};
ghost use Rattle.dc_families.specs.Rounds.{IsHonest};
ghost use Rattle.dc_greatest.specs.Answers.{IsFault};
ghost use Rattle.dc_greatest.specs.Kept.{stands_for, IsShaped};
ghost use Rattle.dc_invariant.specs.Prunes.{PrunesAsk};
ghost use Rattle.dc_invariant.specs.Answers.{TellsPrinted};
ghost use Rattle.dc_invariant.specs.Lent.{Only, IsPruning, family, one_asked, IsOneStep, IsListed, RowsAsk, ArePruned, HasLeast, kept_atom, LocationAsks, TellsLocation, rows_with};

use crate::asking::entails;
use dc_affine::Atom;
use dc_entail::Site;
use dc_greatest::{Family, InvFault, LocFamily};
use dc_lp::Tableau;
use dc_moves::row_atom;
use dc_rows::Candidates;
use dc_syntax::Side;
use dc_system::System;
use sqlite_items::Items;
use std::alloc::{AllocError, Global};

/// A family of candidate atoms, by the least bounds of its rows.
#[derive(Drop)]
pub(crate) struct Pruning<'a> {
    pub side: Side,
    pub system: &'a System,
    pub candidates: &'a Candidates,
    pub at: &'a [LocFamily],
    pub budget: u64,
}

/// So many zeros.
fn zeros(alloc: Global, count: usize) -> Result<Vec<i64>, AllocError>
    ensures { IfOk result (λ v. v.items ≡ replicate count (pos 0)) }
{
    vec![in alloc; 0; count]
}

/// The atom that nothing meets, alone.
fn never(alloc: Global, vars: usize) -> Result<Items<Atom>, AllocError>
    ensures { IfOk result (λ v. v ≡ never_of vars ∷ []) }
{
    let coefs = Items::from_vec(zeros(alloc, vars)?);
    let mut atoms = Items::new(alloc);
    atoms.push(Atom { c0: -1, coefs })?;
    Ok(atoms)
}

/// Notes the number of a row, where it is kept.
fn push_kept(rows: &mut Vec<usize>, row: usize, number: &Option<usize>) -> Result<(), AllocError>
    ensures { OnOk result
        (rows.new.items ≡ rows.old.items ++ (if is_some number.now then row ∷ [] else [])) }
{
    if number.is_none() {
        return Ok(());
    }
    rows.push(row)?;
    Ok(())
}

/// The numbers of the rows that are kept.
fn kept_rows(alloc: Global, least: &[Option<usize>]) -> Result<Vec<usize>, AllocError>
    ensures { IfOk result (λ v. v.items ≡ rows_with least.now) }
{
    let mut rows = Vec::new(alloc);
    for (row, number) in least.iter().enumerate() {
        push_kept(&mut rows, row, number)?;
    }
    Ok(rows)
}

/// The atom of a row with its least bound.
fn least_atom(
    alloc: Global,
    c: &Candidates,
    least: &[Option<usize>],
    row: usize,
) -> Result<Atom, AllocError>
    requires { HasLeast c.now least.now row }
    ensures { IfOk result (λ a. a ≡ kept_atom c.now least.now row) }
{
    let Some(number) = least[row] else {
        unreachable!()
    };
    let coefs = c.rows.as_slice()[row].as_slice();
    row_atom(alloc, coefs, c.bounds.as_slice()[number])
}

/// The atom of each of these rows.
fn least_atoms(
    alloc: Global,
    c: &Candidates,
    least: &[Option<usize>],
    rows: &[usize],
) -> Result<Vec<Atom>, AllocError>
    requires { AllByRecursion (HasLeast c.now least.now) rows.now }
    ensures { IfOk result (λ v. v.items ≡ map (kept_atom c.now least.now) rows.now) }
{
    let mut atoms = Vec::new(alloc);
    for row in rows {
        atoms.push(least_atom(alloc, c, least, *row)?)?;
    }
    Ok(atoms)
}

/// Puts an atom where it was.
fn put_back(atoms: &mut Vec<Atom>, number: usize, atom: Atom) -> Result<(), InvFault>
    requires { number ≤ length atoms.old.items }
    ensures answer { OnOk result (atoms.new.items ≡ insert atoms.old.items number atom) }
    ensures fault { IfErr result (λ f. f ≡ InvFault.NoMemory) }
{
    match atoms.insert(number, atom) {
        Ok(()) => Ok(()),
        Err(_) => Err(InvFault::NoMemory),
    }
}

/// Takes one of some atoms out, where the others entail it.
fn prune_one<T: Tableau>(
    alloc: Global,
    site: Site,
    number: usize,
    atoms: &mut Vec<Atom>,
    vars: usize,
    tableau: &mut T,
    budget: u64,
) -> Result<(), InvFault>
    requires few { vars ≤ 10 }
    requires inside { number < length atoms.old.items }
    requires atoms { AllByRecursion (IsFullAtom vars) atoms.old.items }
    requires live { ¬ IsDead atoms.old.items }
    ensures answer { OnOk result (IsOneStep site number budget atoms.old.items atoms.new.items) }
    ensures fault { IfErr result (IsFault budget (Only (one_asked site number atoms.old.items ∷ []))) }
{
    let atom = atoms.remove(number);
    match entails(alloc, site, atoms, &atom, vars, tableau, budget) {
        Ok(true) => Ok(()),
        Ok(false) => put_back(atoms, number, atom),
        Err(fault) => Err(fault),
    }
}

/// Leaves out, from the last to the first, each atom of a location that the others still there entail.
fn prune_atoms<T: Tableau>(
    alloc: Global,
    t: &Pruning,
    location: usize,
    rows: &[usize],
    mut atoms: Vec<Atom>,
    tableau: &mut T,
) -> Result<Vec<Atom>, InvFault>
    requires lent { IsPruning t.now }
    requires rows { IsListed t.now location rows.now atoms.items }
    ensures answer { IfOk result (λ v. ArePruned t.now location rows.now v.items) }
    ensures fault { IfErr result (IsFault t.now.budget (RowsAsk t.now location rows.now)) }
{
    let mut left = rows.len();
    while left > 0 {
        left -= 1;
        let site = Site::Prune {
            side: t.side,
            location,
            row: rows[left],
        };
        match prune_one(
            alloc,
            site,
            left,
            &mut atoms,
            t.system.vars,
            tableau,
            t.budget,
        ) {
            Ok(()) => {}
            Err(fault) => return Err(fault),
        }
    }
    Ok(atoms)
}

/// The printed atoms of a location.
fn printed_at<T: Tableau>(
    alloc: Global,
    t: &Pruning,
    location: usize,
    tableau: &mut T,
) -> Result<Items<Atom>, InvFault>
    requires lent { IsPruning t.now }
    requires inside { location < t.now.system.now.locs }
    ensures answer { IfOk result (TellsLocation t.now location) }
    ensures fault { IfErr result (IsFault t.now.budget (LocationAsks t.now location)) }
{
    let f = &t.at[location];
    if f.dead {
        return Ok(never(alloc, t.system.vars)?);
    }
    let least = f.least.as_slice();
    let rows = kept_rows(alloc, least)?;
    let atoms = least_atoms(alloc, t.candidates, least, &rows)?;
    match prune_atoms(alloc, t, location, &rows, atoms, tableau) {
        Ok(atoms) => Ok(Items::from_vec(atoms)),
        Err(fault) => Err(fault),
    }
}

/// The printed atoms of each location of a family: `-1 >= 0` alone where the family has it; else
/// each row that is kept, in order, with its least bound, of which from the last to the first those
/// are left out that the others still there entail.
///
/// # Errors
/// `Past128` and `Budget` exactly where the first problem of pruning that does not come to its end
/// has them, with its site. The tableau is lent as working space and left in no state that is
/// told.
pub fn prune<T: Tableau>(
    alloc: Global,
    side: Side,
    s: &System,
    c: &Candidates,
    f: &Family,
    tableau: &mut T,
    budget: u64,
) -> Result<Items<Items<Atom>>, InvFault>
    requires system { IsWellFormed s.now }
    requires kind { AreCandidates s.now.vars c.now }
    requires shape { IsShaped s.now.locs c.now f.now.at }
    requires honest { IsHonest (graph_of s.now) c.now (stands_for s.now.vars c.now f.now.at) }
    ensures answer { IfOk result
        (TellsPrinted side (graph_of s.now) c.now (stands_for s.now.vars c.now f.now.at) budget) }
    ensures fault { IfErr result
        (IsFault budget (PrunesAsk side c.now (stands_for s.now.vars c.now f.now.at)
        (graph_of s.now))) }
{
    let lent = Pruning {
        side,
        system: s,
        candidates: c,
        at: f.at.as_slice(),
        budget,
    };
    match printed_each(alloc, &lent, tableau) {
        Ok(printed) => Ok(printed),
        Err(fault) => Err(fault),
    }
}

/// The printed atoms of each location.
fn printed_each<T: Tableau>(
    alloc: Global,
    t: &Pruning,
    tableau: &mut T,
) -> Result<Items<Items<Atom>>, InvFault>
    requires lent { IsPruning t.now }
    ensures answer { IfOk result
        (TellsPrinted t.now.side (graph_of t.now.system.now) t.now.candidates.now
        (family t.now) t.now.budget) }
    ensures fault { IfErr result
        (IsFault t.now.budget
        (PrunesAsk t.now.side t.now.candidates.now (family t.now) (graph_of t.now.system.now))) }
{
    let mut printed = Items::new(alloc);
    for location in 0..t.system.locs {
        match printed_at(alloc, t, location, tableau) {
            Ok(atoms) => printed.push(atoms)?,
            Err(fault) => return Err(fault),
        }
    }
    Ok(printed)
}
