//! Clauses 1 to 6 in order.
ghost use Rattle.std.specs.Prelude.{ℕ, ◌≡◌, ◌≤◌, ◌∷◌, ◌++◌, [], List, length, true, IfOk};
ghost use Rattle.std.specs.List.{AllByRecursion};
ghost use Rattle.dc_system.specs.Shapes.{IsWellFormed};
ghost use Rattle.dc_cert.specs.Ranges.{IsCertificate};
ghost use Rattle.dc_clauses.specs.Steps.{IsWalk, Test, counted, first_failure};
ghost use Rattle.dc_clauses.specs.Lent.{IsCase, IsPart, IsShaped, entry_fits_cases};
ghost use Rattle.dc_clauses.specs.Sides.{edge_tests, entry_tests, exit_tests, family_steps, keep_tests, shape_tests};

use crate::cases::case_failure;
use crate::edges::{edge_failure, exit_test};
use crate::keeps::{entry_walk, keep_walk};
use crate::shape::shape_fits;
use crate::step::{Step, Walk, failure};
use dc_affine::Atom;
use dc_cert::{Certificate, SideCert};
use dc_system::System;
use sqlite_items::Items;
use std::alloc::{AllocError, Global};

/// The first of two tests that is not true.
fn first_of(clause: u8, first: Option<bool>, second: Option<bool>) -> Option<Step>
    ensures { result ≡ first_failure (counted clause 0 (first ∷ second ∷ [])) }
{
    if let Some(step) = failure(clause, 0, first) {
        return Some(step);
    }
    failure(clause, 1, second)
}

/// The first shape of which clause 1 does not hold.
fn shape_failure(new: &System, old: &System, cases: &[Items<Atom>], c: &Certificate) -> Option<Step>
    requires new { IsPart new.now c.now.new_side }
    requires old { IsPart old.now c.now.old_side }
    requires new_each { length c.now.new_side.entry_keeps ≡ length c.now.when }
    requires old_each { length c.now.old_side.entry_keeps ≡ length c.now.when }
    ensures { result ≡ first_failure (counted 1 0 (shape_tests new.now old.now cases.now c.now)) }
{
    let when = c.when.as_slice();
    let new_fits = shape_fits(new, cases, when, &c.new_side);
    let old_fits = shape_fits(old, cases, when, &c.old_side);
    first_of(1, Some(new_fits), Some(old_fits))
}

/// The first line of an exit of which clause 6 does not hold.
fn exit_failure(
    new: &System,
    old: &System,
    new_side: &SideCert,
    old_side: &SideCert,
) -> Option<Step>
    requires new { IsShaped new.now new_side.now }
    requires old { IsShaped old.now old_side.now }
    ensures { result ≡ first_failure
        (counted 6 0 (exit_tests new.now new_side.now old.now old_side.now)) }
{
    let new_exit = exit_test(new, new_side);
    let old_exit = exit_test(old, old_side);
    first_of(6, new_exit, old_exit)
}

/// The step at which a walk stopped.
fn stop(walk: Walk) -> Option<Step>
    ensures { (c k : ℕ) (ts : List Test) → IsWalk c k ts walk
        → result ≡ first_failure (counted c k ts) }
{
    match walk {
        Walk::Passed { .. } => None,
        Walk::Stopped { step } => Some(step),
    }
}

/// The first keep of an entry of which clause 3 does not hold.
fn entry_failure(
    alloc: Global,
    new: &System,
    old: &System,
    cases: &[Items<Atom>],
    new_side: &SideCert,
    old_side: &SideCert,
) -> Result<Option<Step>, AllocError>
    requires new { IsPart new.now new_side.now }
    requires old { IsPart old.now old_side.now }
    requires few { length cases.now ≤ 64 }
    requires new_fits { entry_fits_cases new_side.now cases.now ≡ true }
    requires old_fits { entry_fits_cases old_side.now cases.now ≡ true }
    ensures { IfOk result
        (λ r. r ≡ first_failure
        (counted 3 0 (entry_tests new.now cases.now new_side.now
        ++ entry_tests old.now cases.now old_side.now))) }
{
    match entry_walk(alloc, new, cases, new_side, 0)? {
        Walk::Passed { next } => {
            let walk = entry_walk(alloc, old, cases, old_side, next)?;
            Ok(stop(walk))
        }
        Walk::Stopped { step } => Ok(Some(step)),
    }
}

/// The first line of an edge of which clause 4 does not hold.
fn line_failure(
    new: &System,
    old: &System,
    new_side: &SideCert,
    old_side: &SideCert,
) -> Option<Step>
    requires new { IsShaped new.now new_side.now }
    requires old { IsShaped old.now old_side.now }
    ensures { result ≡ first_failure
        (counted 4 0 (edge_tests new.now new_side.now ++ edge_tests old.now old_side.now)) }
{
    if let Some(step) = edge_failure(new, new_side, 0) {
        return Some(step);
    }
    edge_failure(old, old_side, new.edges.len())
}

/// The first keep of an edge of which clause 5 does not hold.
fn keep_failure(
    alloc: Global,
    new: &System,
    old: &System,
    new_side: &SideCert,
    old_side: &SideCert,
) -> Result<Option<Step>, AllocError>
    requires new { IsShaped new.now new_side.now }
    requires old { IsShaped old.now old_side.now }
    ensures { IfOk result
        (λ r. r ≡ first_failure
        (counted 5 0 (keep_tests new.now new_side.now ++ keep_tests old.now old_side.now))) }
{
    match keep_walk(alloc, new, new_side, 0)? {
        Walk::Passed { next } => {
            let walk = keep_walk(alloc, old, old_side, next)?;
            Ok(stop(walk))
        }
        Walk::Stopped { step } => Ok(Some(step)),
    }
}

/// The first step of clauses 1 to 6 that does not hold. The systems are those of the certificate's
/// version, and the cases speak of the parameters.
pub fn family_failure(
    alloc: Global,
    new: &System,
    old: &System,
    cases: &[Items<Atom>],
    c: &Certificate,
) -> Result<Option<Step>, AllocError>
    requires new { IsWellFormed new.now }
    requires old { IsWellFormed old.now }
    requires few { length cases.now ≤ 64 }
    requires cases { AllByRecursion (IsCase new.now.params) cases.now }
    requires certificate { IsCertificate c.now }
    ensures { IfOk result (λ r. r ≡ first_failure (family_steps new.now old.now cases.now c.now)) }
{
    if let Some(step) = shape_failure(new, old, cases, c) {
        return Ok(Some(step));
    }
    if let Some(step) = case_failure(new.params, cases, c.when.as_slice()) {
        return Ok(Some(step));
    }
    if let Some(step) = entry_failure(alloc, new, old, cases, &c.new_side, &c.old_side)? {
        return Ok(Some(step));
    }
    if let Some(step) = line_failure(new, old, &c.new_side, &c.old_side) {
        return Ok(Some(step));
    }
    if let Some(step) = keep_failure(alloc, new, old, &c.new_side, &c.old_side)? {
        return Ok(Some(step));
    }
    Ok(exit_failure(new, old, &c.new_side, &c.old_side))
}
