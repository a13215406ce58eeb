//! The side of a version.
ghost use Rattle.std.specs.Prelude.{◌≡◌, IfOk, IfErr, None};
ghost use Rattle.dc_program.specs.Programs.{IsCondition};
ghost use Rattle.dc_points.specs.Flags.{AreFlags};
ghost use Rattle.dc_rows.specs.Candidate.{AreCandidates};
ghost use Rattle.dc_system.specs.Shapes.{IsWellFormed};
ghost use Rattle.dc_families.specs.Graphs.{graph_of};
ghost use Rattle.dc_greatest.specs.Answers.{IsFault};
ghost use Rattle.dc_session.specs.Answers.{IsInput};
ghost use Rattle.dc_session.specs.Refusals.{early_excess};
ghost use Rattle.dc_engine.specs.Parts.{AreVersions, EarlyAsks, PartAsks, TellsEarly, TellsPart, input_of};

use crate::cases::{case_lines, flags_of};
use crate::lent::{Early, Lent, Version, Versions};
use dc_affine::Atom;
use dc_cert::SideCert;
use dc_greatest::{InvFault, greatest};
use dc_invariant::{keep_proofs, prune};
use dc_lp::Tableau;
use dc_syntax::Side;
use sqlite_items::Items;
use std::alloc::Global;

/// The side of a version: the rounds, then pruning, then what shows the printed atoms.
fn side_of<T: Tableau>(
    alloc: Global,
    side: Side,
    v: &Version,
    cases: &[Items<Atom>],
    live: &[bool],
    tableau: &mut T,
    budget: u64,
) -> Result<SideCert, InvFault>
    requires system { IsWellFormed v.now.system }
    requires condition { IsCondition v.now.system.params cases.now }
    requires flags { AreFlags live.now cases.now }
    requires kind { AreCandidates v.now.system.vars v.now.candidates }
    ensures answer { IfOk result
        (TellsPart side (graph_of v.now.system) cases.now live.now v.now.candidates budget) }
    ensures fault { IfErr result
        (IsFault budget
        (PartAsks side (graph_of v.now.system) cases.now live.now v.now.candidates)) }
{
    let (s, c) = (&v.system, &v.candidates);
    let family = match greatest(alloc, side, s, cases, live, c, tableau, budget) {
        Ok(family) => family,
        Err(fault) => return Err(fault),
    };
    let printed = match prune(alloc, side, s, c, &family, tableau, budget) {
        Ok(printed) => printed,
        Err(fault) => return Err(fault),
    };
    match keep_proofs(alloc, side, s, cases, live, printed, tableau, budget) {
        Ok(part) => Ok(part),
        Err(fault) => Err(fault),
    }
}

/// The answers of all problems before the main one: of the cases, of the new version, of the old one.
pub(crate) fn early_answers<T: Tableau>(
    alloc: Global,
    t: &Lent,
    v: &Versions,
    tableau: &mut T,
) -> Result<Early, InvFault>
    requires input { IsInput (input_of t.now) }
    requires counts { early_excess (input_of t.now) ≡ None }
    requires versions { AreVersions (input_of t.now) v.now }
    ensures answer { IfOk result (TellsEarly (input_of t.now) v.now) }
    ensures fault { IfErr result
        (IsFault t.now.settings.now.pivots (EarlyAsks (input_of t.now))) }
{
    let when = match case_lines(alloc, t, tableau) {
        Ok(lines) => lines,
        Err(fault) => return Err(fault),
    };
    let Ok(live) = flags_of(alloc, when.as_slice()) else {
        return Err(InvFault::NoMemory);
    };
    let budget = t.settings.pivots;
    let new_side = match side_of(alloc, Side::New, &v.new, t.cases, &live, tableau, budget) {
        Ok(side) => side,
        Err(fault) => return Err(fault),
    };
    let old_side = match side_of(alloc, Side::Old, &v.old, t.cases, &live, tableau, budget) {
        Ok(side) => side,
        Err(fault) => return Err(fault),
    };
    Ok(Early {
        when,
        new_side,
        old_side,
    })
}
