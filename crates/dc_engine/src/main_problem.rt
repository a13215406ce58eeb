//! The main problem of both sides.
ghost use Rattle.std.specs.Prelude.{◌≡◌, ◌≤◌, IfOk, IfErr, None};
ghost use Rattle.dc_lp.specs.Problems.{IsWellFormed, linear_of};
ghost use Rattle.dc_points.specs.Stated.{rational};
ghost use Rattle.dc_claims.specs.Plans.{IsFit};
ghost use Rattle.dc_check.specs.Faults.{count_of};
ghost use Rattle.dc_check.specs.Pairs.{edge_flags};
ghost use Rattle.dc_engine.specs.Faults.{IsExcess};
ghost use Rattle.dc_engine.specs.Parts.{degree_of, flags_in, main_in, pair_in, products_of, width_of};

use crate::cases::flags_of;
use crate::fault::of_match;
use crate::lent::{Early, Lent, Versions};
use dc_cert::EdgeCert;
use dc_lp::Problem;
use dc_match::{SidePlan, problem_of};
use dc_session::AnalyseFault;
use dc_system::System;
use dc_template::unknowns;
use std::alloc::{AllocError, Global};

/// Which edges are live.
fn edges_live(alloc: Global, edges: &[EdgeCert]) -> Result<Vec<bool>, AllocError>
    ensures { IfOk result (λ v. v.items ≡ edge_flags edges.now) }
{
    let mut live = Vec::new(alloc);
    for edge in edges {
        live.push(edge.live.is_live())?;
    }
    Ok(live)
}

/// The main problem over the printed atoms.
pub(crate) fn main_of(
    alloc: Global,
    t: &Lent,
    v: &Versions,
    e: &Early,
) -> Result<Problem, AnalyseFault>
    requires fit { IsFit (pair_in t.now v.now e.now) (degree_of t.now) (products_of t.now)
        (flags_in e.now) }
    ensures problem { IfOk result (λ p. linear_of p ≡ rational (main_in t.now v.now e.now)) }
    ensures well_formed { IfOk result (λ p. IsWellFormed p) }
    ensures within { IfOk result (λ p. width_of t.now v.now e.now ≡ None) }
    ensures fault { IfErr result (IsExcess (width_of t.now v.now e.now)) }
{
    let Ok(new_live) = edges_live(alloc, e.new_side.edges.as_slice()) else {
        return Err(AnalyseFault::NoMemory);
    };
    let Ok(old_live) = edges_live(alloc, e.old_side.edges.as_slice()) else {
        return Err(AnalyseFault::NoMemory);
    };
    let Ok(live) = flags_of(alloc, e.when.as_slice()) else {
        return Err(AnalyseFault::NoMemory);
    };
    let new = SidePlan {
        system: &v.new.system,
        families: e.new_side.families.as_slice(),
        live: new_live.as_slice(),
        exit_live: e.new_side.exit_line.is_live(),
    };
    let old = SidePlan {
        system: &v.old.system,
        families: e.old_side.families.as_slice(),
        live: old_live.as_slice(),
        exit_live: e.old_side.exit_line.is_live(),
    };
    let (degree, products) = (t.settings.degree, t.settings.products);
    match problem_of(
        alloc,
        &new,
        &old,
        t.cases,
        live.as_slice(),
        degree,
        products,
    ) {
        Ok(problem) => Ok(problem),
        Err(fault) => Err(of_match(fault)),
    }
}

/// The number of unknowns of potentials of a degree.
pub(crate) fn unknown_count(new: &System, old: &System, degree: u8) -> usize
    requires new_few { new.now.vars ≤ 10 }
    requires old_few { old.now.vars ≤ 10 }
    requires low { degree ≤ 3 }
    requires room { count_of new.now old.now degree ≤ 8192 }
    ensures { result ≡ count_of new.now old.now degree }
{
    let new_count = new.locs as u64 * unknowns(new.vars, degree);
    let old_count = old.locs as u64 * unknowns(old.vars, degree);
    (1 + new_count + old_count) as usize
}
