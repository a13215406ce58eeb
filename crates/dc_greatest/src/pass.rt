//! One edge, or one case of the condition, in a round.
ghost use Rattle.std.specs.Prelude.{◌≡◌, ◌<◌, IfOk, IfErr, OnOk, length, slice_index_or, take};
ghost use Rattle.dc_math.specs.Members.{Among};
ghost use Rattle.dc_points.specs.Points.{Entails, IsDead};
ghost use Rattle.dc_points.specs.Stated.{rational, sup_problem};
ghost use Rattle.dc_entail.specs.Answers.{IsSolveFault};
ghost use Rattle.dc_entail.specs.Asked.{AllDone};
ghost use Rattle.dc_rows.specs.Candidate.{bound_at, row_at};
ghost use Rattle.dc_families.specs.Families.{bounded};
ghost use Rattle.dc_families.specs.Moves.{at_start};
ghost use Rattle.dc_families.specs.Rounds.{EdgeGives};
ghost use Rattle.dc_greatest.specs.Answers.{IsFault};
ghost use Rattle.dc_greatest.specs.Bounds.{IsLeast, HasEnd, HasNoMore, IsRowLowered, IsLowered, IsTaken};
ghost use Rattle.dc_greatest.specs.Kept.{IsFit};
ghost use Rattle.dc_greatest.specs.Lent.{IsLent, graph, family, AreShaped, atoms_of, HasRowEnd, IsRowFault, edge_row_asked, edge_rows_asked, entry_row_asked, entry_rows_asked, case_at, case_asked, EdgeAsks, IsEdgeTaken};

use crate::atoms::least_atoms;
use crate::bounds::{least_bound, lower};
use crate::family::{InvFault, LocFamily};
use crate::lent::Lent;
use dc_affine::Atom;
use dc_entail::{Emptiness, Site, empty};
use dc_lp::Tableau;
use dc_moves::{edge_places, first_numbers, with_guard};
use dc_simplex::SolveFault;
use dc_system::{Edge, row_after};
use std::alloc::Global;

/// The first bound with which a live edge gives a row.
fn edge_least<T: Tableau>(
    alloc: Global,
    t: &Lent,
    at: &[LocFamily],
    edge: &Edge,
    hyps: &[Atom],
    row: usize,
    tableau: &mut T,
) -> Result<Option<usize>, SolveFault>
    requires lent { IsLent t.now }
    requires shape { AreShaped t.now at.now }
    requires edge { Among edge.now t.now.system.now.edges }
    requires row { row < length t.now.candidates.now.rows }
    requires hyps { hyps.now ≡ atoms_of t.now (family t.now at.now) edge.now }
    requires live { ¬ IsDead hyps.now }
    ensures least { IfOk result
        (IsLeast t.now.candidates.now
        (λ m. EdgeGives (graph t.now) (family t.now at.now) edge.now
        (bounded (row_at t.now.candidates.now row) (bound_at t.now.candidates.now m)))) }
    ensures done { IfOk result (λ o. HasRowEnd t.now (family t.now at.now) edge.now row) }
    ensures fault { IfErr result (IsRowFault t.now (family t.now at.now) edge.now row) }
{
    let form = &t.candidates.rows.as_slice()[row];
    let Ok(after) = row_after(alloc, edge, form.as_slice(), t.system.vars) else {
        return Err(SolveFault::NoMemory);
    };
    if !after.is_affine {
        return Ok(None);
    }
    let places = edge_places(t.system.vars, edge);
    let coefs = &after.coefs.as_slice()[..places];
    least_bound(
        alloc,
        hyps,
        coefs,
        &after.constant,
        t.candidates,
        tableau,
        t.budget,
    )
}

/// A row of a live edge's target, if it had one before the round.
fn edge_row<T: Tableau>(
    alloc: Global,
    t: &Lent,
    at: &[LocFamily],
    k: usize,
    edge: &Edge,
    hyps: &[Atom],
    row: usize,
    target: &mut LocFamily,
    tableau: &mut T,
) -> Result<(), InvFault>
    requires lent { IsLent t.now }
    requires shape { AreShaped t.now at.now }
    requires edge { Among edge.now t.now.system.now.edges }
    requires row { row < length t.now.candidates.now.rows }
    requires hyps { hyps.now ≡ atoms_of t.now (family t.now at.now) edge.now }
    requires live { ¬ IsDead hyps.now }
    requires fit { IsFit t.now.candidates.now target.old }
    requires before { HasNoMore (slice_index_or at.now edge.now.to target.old) target.old }
    ensures lowered { OnOk result
        (IsRowLowered (EdgeGives (graph t.now)
        (family t.now at.now) edge.now) t.now.candidates.now row target.old target.new) }
    ensures done { OnOk result
        (AllDone t.now.budget (edge_row_asked t.now (family t.now at.now) k edge.now row)) }
    ensures fault { IfErr result
        (IsFault t.now.budget
        (λ asked. asked ≡ edge_row_asked t.now (family t.now at.now) k edge.now row)) }
{
    if at[edge.to].least.as_slice()[row].is_none() {
        return Ok(());
    }
    match edge_least(alloc, t, at, edge, hyps, row, tableau) {
        Ok(least) => {
            lower(target, row, least);
            Ok(())
        }
        Err(fault) => Err(InvFault::at(
            Site::EdgeRow {
                side: t.side,
                edge: k,
                row,
            },
            fault,
        )),
    }
}

/// The rows of a live edge's target.
fn edge_rows<T: Tableau>(
    alloc: Global,
    t: &Lent,
    at: &[LocFamily],
    k: usize,
    edge: &Edge,
    hyps: &[Atom],
    target: &mut LocFamily,
    tableau: &mut T,
) -> Result<(), InvFault>
    requires lent { IsLent t.now }
    requires shape { AreShaped t.now at.now }
    requires edge { Among edge.now t.now.system.now.edges }
    requires hyps { hyps.now ≡ atoms_of t.now (family t.now at.now) edge.now }
    requires live { ¬ IsDead hyps.now }
    requires fit { IsFit t.now.candidates.now target.old }
    requires before { HasNoMore (slice_index_or at.now edge.now.to target.old) target.old }
    ensures lowered { OnOk result
        (IsLowered (EdgeGives (graph t.now) (family t.now at.now) edge.now)
        (length t.now.candidates.now.rows) t.now.candidates.now target.old target.new) }
    ensures done { OnOk result
        (AllDone t.now.budget (edge_rows_asked t.now (family t.now at.now) k edge.now)) }
    ensures fault { IfErr result
        (IsFault t.now.budget
        (λ asked. asked ≡ edge_rows_asked t.now (family t.now at.now) k edge.now)) }
{
    for row in 0..t.candidates.rows.len() {
        match edge_row(alloc, t, at, k, edge, hyps, row, target, tableau) {
            Ok(()) => {}
            Err(fault) => return Err(fault),
        }
    }
    Ok(())
}

/// Takes an edge into a round, at its target.
pub(crate) fn pass_edge<T: Tableau>(
    alloc: Global,
    t: &Lent,
    at: &[LocFamily],
    k: usize,
    edge: &Edge,
    target: &mut LocFamily,
    tableau: &mut T,
) -> Result<(), InvFault>
    requires lent { IsLent t.now }
    requires shape { AreShaped t.now at.now }
    requires edge { Among edge.now t.now.system.now.edges }
    requires fit { IsFit t.now.candidates.now target.old }
    requires before { HasNoMore (slice_index_or at.now edge.now.to target.old) target.old }
    ensures answer { OnOk result
        (IsEdgeTaken t.now (family t.now at.now) k edge.now target.old target.new) }
    ensures fault { IfErr result
        (IsFault t.now.budget (EdgeAsks t.now (family t.now at.now) k edge.now)) }
{
    let source = &at[edge.from];
    if source.dead {
        return Ok(());
    }
    let places = edge_places(t.system.vars, edge);
    let atoms = least_atoms(alloc, t.candidates, source)?;
    let hyps = with_guard(alloc, atoms, edge, places)?;
    match empty(alloc, &hyps, places, tableau, t.budget) {
        Ok(Emptiness::Dead { .. }) => Ok(()),
        Ok(Emptiness::Live { .. }) => {
            target.dead = false;
            edge_rows(alloc, t, at, k, edge, &hyps, target, tableau)
        }
        Err(fault) => Err(InvFault::at(
            Site::Edge {
                side: t.side,
                edge: k,
            },
            fault,
        )),
    }
}

/// The first bound with which a live case gives a row, with the locals 0.
fn case_least<T: Tableau>(
    alloc: Global,
    t: &Lent,
    case: &[Atom],
    row: usize,
    tableau: &mut T,
) -> Result<Option<usize>, SolveFault>
    requires lent { IsLent t.now }
    requires case { Among case.now t.now.cases.now }
    requires live { ¬ IsDead case.now }
    requires row { row < length t.now.candidates.now.rows }
    ensures least { IfOk result
        (IsLeast t.now.candidates.now
        (λ m. Entails case.now
        (at_start t.now.system.now.params
        (bounded (row_at t.now.candidates.now row) (bound_at t.now.candidates.now m))))) }
    ensures done { IfOk result
        (λ o. HasEnd t.now.budget
        (sup_problem case.now (take t.now.system.now.params (row_at t.now.candidates.now row)))) }
    ensures fault { IfErr result
        (IsSolveFault (rational
        (sup_problem case.now
        (take t.now.system.now.params (row_at t.now.candidates.now row)))) t.now.budget) }
{
    let form = &t.candidates.rows.as_slice()[row];
    let Ok(form) = first_numbers(alloc, form.as_slice(), t.system.params) else {
        return Err(SolveFault::NoMemory);
    };
    least_bound(alloc, case, &form, &0, t.candidates, tableau, t.budget)
}

/// A row of the entry by a live case, if it had one before the round.
fn case_row<T: Tableau>(
    alloc: Global,
    t: &Lent,
    at: &[LocFamily],
    k: usize,
    row: usize,
    target: &mut LocFamily,
    tableau: &mut T,
) -> Result<(), InvFault>
    requires lent { IsLent t.now }
    requires shape { AreShaped t.now at.now }
    requires case { k < length t.now.cases.now }
    requires live { ¬ IsDead (case_at t.now k) }
    requires row { row < length t.now.candidates.now.rows }
    requires fit { IsFit t.now.candidates.now target.old }
    requires before { HasNoMore (slice_index_or at.now 0 target.old) target.old }
    ensures lowered { OnOk result
        (IsRowLowered (λ a. Entails (case_at t.now k)
        (at_start t.now.system.now.params a)) t.now.candidates.now row target.old target.new) }
    ensures done { OnOk result
        (AllDone t.now.budget
        (entry_row_asked t.now (family t.now at.now) k (case_at t.now k) row)) }
    ensures fault { IfErr result
        (IsFault t.now.budget
        (λ asked. asked ≡ entry_row_asked t.now (family t.now at.now) k (case_at t.now k) row)) }
{
    if at[0].least.as_slice()[row].is_none() {
        return Ok(());
    }
    match case_least(alloc, t, t.cases[k].as_slice(), row, tableau) {
        Ok(least) => {
            lower(target, row, least);
            Ok(())
        }
        Err(fault) => Err(InvFault::at(
            Site::EntryRow {
                side: t.side,
                case: k,
                row,
            },
            fault,
        )),
    }
}

/// The rows of the entry by a live case.
fn case_rows<T: Tableau>(
    alloc: Global,
    t: &Lent,
    at: &[LocFamily],
    k: usize,
    target: &mut LocFamily,
    tableau: &mut T,
) -> Result<(), InvFault>
    requires lent { IsLent t.now }
    requires shape { AreShaped t.now at.now }
    requires case { k < length t.now.cases.now }
    requires live { ¬ IsDead (case_at t.now k) }
    requires fit { IsFit t.now.candidates.now target.old }
    requires before { HasNoMore (slice_index_or at.now 0 target.old) target.old }
    ensures lowered { OnOk result
        (IsLowered (λ a. Entails (case_at t.now k) (at_start t.now.system.now.params a))
        (length t.now.candidates.now.rows) t.now.candidates.now target.old target.new) }
    ensures done { OnOk result (AllDone t.now.budget (entry_rows_asked t.now (family t.now at.now) k)) }
    ensures fault { IfErr result
        (IsFault t.now.budget (λ asked. asked ≡ entry_rows_asked t.now (family t.now at.now) k)) }
{
    for row in 0..t.candidates.rows.len() {
        match case_row(alloc, t, at, k, row, target, tableau) {
            Ok(()) => {}
            Err(fault) => return Err(fault),
        }
    }
    Ok(())
}

/// Takes a case of the condition into a round, at the entry.
pub(crate) fn pass_case<T: Tableau>(
    alloc: Global,
    t: &Lent,
    at: &[LocFamily],
    k: usize,
    target: &mut LocFamily,
    tableau: &mut T,
) -> Result<(), InvFault>
    requires lent { IsLent t.now }
    requires shape { AreShaped t.now at.now }
    requires case { k < length t.now.cases.now }
    requires fit { IsFit t.now.candidates.now target.old }
    requires before { HasNoMore (slice_index_or at.now 0 target.old) target.old }
    ensures taken { OnOk result
        (IsTaken (λ a. Entails (case_at t.now k) (at_start t.now.system.now.params a))
        t.now.system.now.vars t.now.candidates.now target.old target.new) }
    ensures done { OnOk result (AllDone t.now.budget (case_asked t.now (family t.now at.now) k)) }
    ensures fault { IfErr result
        (IsFault t.now.budget (λ asked. asked ≡ case_asked t.now (family t.now at.now) k)) }
{
    if !t.live[k] {
        return Ok(());
    }
    target.dead = false;
    case_rows(alloc, t, at, k, target, tableau)
}
