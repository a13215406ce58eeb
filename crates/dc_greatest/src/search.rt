//! The greatest family, by rounds from every candidate everywhere.
ghost use Rattle.std.specs.Prelude.{◌≡◌, suc, ◌<◌, false, IfOk, IfErr, OnOk, length};
ghost use Rattle.dc_system.specs.Shapes.{IsWellFormed};
ghost use Rattle.dc_program.specs.Programs.{IsCondition};
ghost use Rattle.dc_points.specs.Shown.{AreFlags};
ghost use Rattle.dc_rows.specs.Candidate.{AreCandidates};
ghost use Rattle.dc_families.specs.Graphs.{graph_of};
ghost use Rattle.dc_greatest.specs.Parts.{RoundsAsk};
ghost use Rattle.dc_greatest.specs.Answers.{TellsGreatest, IsFault};
ghost use Rattle.dc_greatest.specs.Lent.{IsLent, family, AreShaped, EntryAsks, EdgesAsk, RoundAsks, AreFirstTaken, AreSettled, IsSettledEntry, IsRoundTo, AreEntriesTaken, AreEdgesTaken};

use crate::family::{Family, InvFault, LocFamily};
use crate::lent::Lent;
use crate::lists::{all_edges, are_same, changed_edges, copy, everything};
use crate::pass::{pass_case, pass_edge};
use dc_affine::Atom;
use dc_lp::Tableau;
use dc_rows::Candidates;
use dc_syntax::Side;
use dc_system::System;
use dc_worklist::WorkList;
use sqlite_items::Items;
use std::alloc::Global;

/// Takes the cases of the condition into a round.
fn pass_cases<T: Tableau>(
    alloc: Global,
    t: &Lent,
    at: &[LocFamily],
    next: &mut Vec<LocFamily>,
    tableau: &mut T,
) -> Result<(), InvFault>
    requires lent { IsLent t.now }
    requires shape { AreShaped t.now at.now }
    requires copied { next.old.items ≡ at.now }
    ensures answer { OnOk result (AreEntriesTaken t.now (family t.now at.now) next.new.items) }
    ensures fault { IfErr result (IsFault t.now.budget (EntryAsks t.now (family t.now at.now))) }
{
    for k in 0..t.cases.len() {
        match pass_case(alloc, t, at, k, &mut next[0], tableau) {
            Ok(()) => {}
            Err(fault) => return Err(fault),
        }
    }
    Ok(())
}

/// Takes an edge into a round, or leaves it where it is not listed.
fn pass_one<T: Tableau>(
    alloc: Global,
    t: &Lent,
    work: &WorkList,
    at: &[LocFamily],
    k: usize,
    next: &mut Vec<LocFamily>,
    tableau: &mut T,
) -> Result<(), InvFault>
    requires lent { IsLent t.now }
    requires shape { AreShaped t.now at.now }
    requires work { work.now.edges ≡ length t.now.system.now.edges }
    requires settled { AreSettled t.now (family t.now at.now) work.now.numbers }
    requires number { k < length t.now.system.now.edges }
    requires before { AreFirstTaken t.now (family t.now at.now) k next.old.items }
    ensures answer { OnOk result (AreFirstTaken t.now (family t.now at.now) (suc k) next.new.items) }
    ensures fault { IfErr result (IsFault t.now.budget (EdgesAsk t.now (family t.now at.now))) }
{
    if !work.holds(k) {
        return Ok(());
    }
    let edge = &t.system.edges.as_slice()[k];
    match pass_edge(alloc, t, at, k, edge, &mut next[edge.to], tableau) {
        Ok(()) => Ok(()),
        Err(fault) => Err(fault),
    }
}

/// Takes the listed edges into a round.
fn pass_edges<T: Tableau>(
    alloc: Global,
    t: &Lent,
    work: &WorkList,
    at: &[LocFamily],
    next: &mut Vec<LocFamily>,
    tableau: &mut T,
) -> Result<(), InvFault>
    requires lent { IsLent t.now }
    requires shape { AreShaped t.now at.now }
    requires work { work.now.edges ≡ length t.now.system.now.edges }
    requires settled { AreSettled t.now (family t.now at.now) work.now.numbers }
    requires entries { AreEntriesTaken t.now (family t.now at.now) next.old.items }
    ensures answer { OnOk result (AreEdgesTaken t.now (family t.now at.now) next.new.items) }
    ensures fault { IfErr result (IsFault t.now.budget (EdgesAsk t.now (family t.now at.now))) }
{
    for k in 0..t.system.edges.len() {
        match pass_one(alloc, t, work, at, k, next, tableau) {
            Ok(()) => {}
            Err(fault) => return Err(fault),
        }
    }
    Ok(())
}

/// What a round begins with: the family, and the cases of the condition taken into it where they
/// have not been looked at.
fn begin<T: Tableau>(
    alloc: Global,
    t: &Lent,
    fresh: bool,
    at: &[LocFamily],
    tableau: &mut T,
) -> Result<Vec<LocFamily>, InvFault>
    requires lent { IsLent t.now }
    requires shape { AreShaped t.now at.now }
    requires entry { fresh ≡ false → IsSettledEntry t.now (family t.now at.now) }
    ensures answer { IfOk result (λ v. AreEntriesTaken t.now (family t.now at.now) v.items) }
    ensures fault { IfErr result (IsFault t.now.budget (RoundAsks t.now (family t.now at.now))) }
{
    let mut next = copy(alloc, at)?;
    if !fresh {
        return Ok(next);
    }
    match pass_cases(alloc, t, at, &mut next, tableau) {
        Ok(()) => Ok(next),
        Err(fault) => Err(fault),
    }
}

/// One round: the cases of the condition where they have not been looked at, and the listed edges.
fn round<T: Tableau>(
    alloc: Global,
    t: &Lent,
    fresh: bool,
    work: &WorkList,
    at: &[LocFamily],
    tableau: &mut T,
) -> Result<Vec<LocFamily>, InvFault>
    requires lent { IsLent t.now }
    requires shape { AreShaped t.now at.now }
    requires work { work.now.edges ≡ length t.now.system.now.edges }
    requires entry { fresh ≡ false → IsSettledEntry t.now (family t.now at.now) }
    requires settled { AreSettled t.now (family t.now at.now) work.now.numbers }
    ensures answer { IfOk result (λ v. IsRoundTo t.now (family t.now at.now) v.items) }
    ensures fault { IfErr result (IsFault t.now.budget (RoundAsks t.now (family t.now at.now))) }
{
    let mut next = match begin(alloc, t, fresh, at, tableau) {
        Ok(next) => next,
        Err(fault) => return Err(fault),
    };
    match pass_edges(alloc, t, work, at, &mut next, tableau) {
        Ok(()) => Ok(next),
        Err(fault) => Err(fault),
    }
}

/// Rounds until one changes nothing.
fn rounds<T: Tableau>(alloc: Global, t: &Lent, tableau: &mut T) -> Result<Vec<LocFamily>, InvFault>
    requires lent { IsLent t.now }
    ensures answer { IfOk result
        (λ v. TellsGreatest t.now.side t.now.system.now t.now.cases.now t.now.live.now
        t.now.candidates.now t.now.budget v.items) }
    ensures fault { IfErr result
        (IsFault t.now.budget
        (RoundsAsk t.now.side
        (graph_of t.now.system.now) t.now.cases.now t.now.live.now t.now.candidates.now)) }
{
    let mut at = everything(alloc, t.system.locs, t.candidates)?;
    let mut work = all_edges(alloc, t.system.edges.len())?;
    let mut fresh = true;
    loop {
        let next = match round(alloc, t, fresh, &work, &at, tableau) {
            Ok(next) => next,
            Err(fault) => return Err(fault),
        };
        if are_same(&next, &at) {
            return Ok(at);
        }
        work = changed_edges(alloc, t.system, &at, &next)?;
        fresh = false;
        at = next;
    }
}

/// The greatest inductive family of the candidates' atoms: the strongest that holds at each
/// location whenever a run from an allowed input comes there and that one step after another shows.
///
/// The cases are the condition's, with a flag for each that says whether it is live. Rounds begin
/// with every candidate at every location and drop what an edge or a case does not give, until one
/// drops nothing. An edge is looked at again only where its source has changed. Each problem is
/// solved by at most `budget` pivots on a tableau that is lent as working space.
///
/// # Errors
/// `Past128` and `Budget` exactly where the first problem of the rounds that is refused is refused
/// so, with its site; what is not solved again equals a problem that came to its end. The tableau
/// is left in no state that is told.
pub fn greatest<T: Tableau>(
    alloc: Global,
    side: Side,
    s: &System,
    cases: &[Items<Atom>],
    live: &[bool],
    c: &Candidates,
    tableau: &mut T,
    budget: u64,
) -> Result<Family, InvFault>
    requires system { IsWellFormed s.now }
    requires condition { IsCondition s.now.params cases.now }
    requires flags { AreFlags live.now cases.now }
    requires kind { AreCandidates s.now.vars c.now }
    ensures answer { IfOk result (λ f. TellsGreatest side s.now cases.now live.now c.now budget f.at) }
    ensures fault { IfErr result
        (IsFault budget (RoundsAsk side (graph_of s.now) cases.now live.now c.now)) }
{
    let lent = Lent {
        side,
        system: s,
        cases,
        live,
        candidates: c,
        budget,
    };
    match rounds(alloc, &lent, tableau) {
        Ok(at) => Ok(Family {
            at: Items::from_vec(at),
        }),
        Err(fault) => Err(fault),
    }
}
