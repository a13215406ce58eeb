//! What the main problem is made of.
ghost use Rattle.std.specs.Prelude.{◌≡◌, ◌≤◌, IfOk, IfErr, None, map};
ghost use Rattle.dc_cert.specs.Ranges.{is_live};
ghost use Rattle.dc_lp.specs.Problems.{IsWellFormed, linear_of};
ghost use Rattle.dc_points.specs.Stated.{rational};
ghost use Rattle.dc_claims.specs.Plans.{IsFit};
ghost use Rattle.dc_claims.specs.Problems.{main_problem};
ghost use Rattle.dc_check.specs.Pairs.{edge_flags, flags, pair};
ghost use Rattle.dc_check.specs.Faults.{count_of, width_of};
ghost use Rattle.dc_check.specs.Answers.{main_fault};
ghost use Rattle.dc_check.specs.Refusals.{IsWidthFault};

use crate::fault::CheckFault;
use dc_affine::Atom;
use dc_cert::{Certificate, EdgeCert, Liveness};
use dc_lp::Problem;
use dc_match::{MatchFault, SidePlan, problem_of};
use dc_system::System;
use dc_template::unknowns;
use sqlite_items::Items;
use std::alloc::{AllocError, Global};

/// Which edges are live.
fn edges_live(alloc: Global, edges: &[EdgeCert]) -> Result<Vec<bool>, AllocError>
    ensures { IfOk result (λ v. v.items ≡ edge_flags edges.now) }
{
    let mut live = Vec::new(alloc);
    for edge in edges {
        live.push(edge.live.is_live())?;
    }
    Ok(live)
}

/// Which cases are live.
fn cases_live(alloc: Global, when: &[Liveness]) -> Result<Vec<bool>, AllocError>
    ensures { IfOk result (λ v. v.items ≡ map is_live when.now) }
{
    let mut live = Vec::new(alloc);
    for line in when {
        live.push(line.is_live())?;
    }
    Ok(live)
}

/// Why there is no main problem.
fn width(fault: MatchFault) -> CheckFault
    ensures { result ≡ width_of fault }
{
    match fault {
        MatchFault::TooLarge { what, count } => CheckFault::TooLarge {
            side: None,
            what,
            count,
        },
        MatchFault::NoMemory => CheckFault::NoMemory,
    }
}

/// The main problem of a certificate.
pub fn main_problem_of(
    alloc: Global,
    new: &System,
    old: &System,
    cases: &[Items<Atom>],
    c: &Certificate,
) -> Result<Problem, CheckFault>
    requires fit { IsFit (pair new.now old.now cases.now c.now) c.now.degree c.now.products
        (flags c.now) }
    ensures problem { IfOk result
        (λ p. linear_of p ≡ rational
        (main_problem (pair new.now old.now cases.now c.now) c.now.degree c.now.products
        (flags c.now))) }
    ensures well_formed { IfOk result (λ p. IsWellFormed p) }
    ensures within { IfOk result (λ p. main_fault new.now old.now cases.now c.now ≡ None) }
    ensures fault { IfErr result (IsWidthFault new.now old.now cases.now c.now) }
{
    let new_live = edges_live(alloc, c.new_side.edges.as_slice())?;
    let old_live = edges_live(alloc, c.old_side.edges.as_slice())?;
    let live = cases_live(alloc, c.when.as_slice())?;
    let new_plan = SidePlan {
        system: new,
        families: c.new_side.families.as_slice(),
        live: new_live.as_slice(),
        exit_live: c.new_side.exit_line.is_live(),
    };
    let old_plan = SidePlan {
        system: old,
        families: c.old_side.families.as_slice(),
        live: old_live.as_slice(),
        exit_live: c.old_side.exit_line.is_live(),
    };
    match problem_of(
        alloc,
        &new_plan,
        &old_plan,
        cases,
        live.as_slice(),
        c.degree,
        c.products,
    ) {
        Ok(problem) => Ok(problem),
        Err(fault) => Err(width(fault)),
    }
}

/// The number of unknowns of potentials of a degree.
pub fn unknown_count(new: &System, old: &System, degree: u8) -> usize
    requires new_few { new.now.vars ≤ 10 }
    requires old_few { old.now.vars ≤ 10 }
    requires low { degree ≤ 3 }
    requires room { count_of new.now old.now degree ≤ 8192 }
    ensures { result ≡ count_of new.now old.now degree }
{
    let new_count = new.locs as u64 * unknowns(new.vars, degree);
    let old_count = old.locs as u64 * unknowns(old.vars, degree);
    (1 + new_count + old_count) as usize
}
