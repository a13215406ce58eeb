//! The check of a certificate.
ghost use Rattle.std.specs.Prelude.{◌≡◌, ◌⊎◌, IfOk, IfErr, OnOk, None};
ghost use Rattle.dc_syntax.specs.Params.{HaveSameParams};
ghost use Rattle.dc_program.specs.Programs.{IsCondition, IsProgram};
ghost use Rattle.dc_system.specs.Shapes.{IsWellFormed};
ghost use Rattle.dc_system.specs.Systems.{size_fault};
ghost use Rattle.dc_cert.specs.Ranges.{IsCertificate};
ghost use Rattle.dc_clauses.specs.Steps.{AllHold};
ghost use Rattle.dc_check.specs.Faults.{size_of};
ghost use Rattle.dc_check.specs.Systems.{IsSystemOf};
ghost use Rattle.dc_check.specs.Answers.{Accepts, IsFault, IsReady, claim_steps};
ghost use Rattle.dc_check.specs.Refusals.{IsSizeFault, IsStepFault};

use crate::fault::{CheckFault, raise};
use crate::lent::{main_problem_of, unknown_count};
use dc_affine::Atom;
use dc_cert::{Certificate, Claim};
use dc_clauses::family_failure;
use dc_mainlines::main_failure;
use dc_syntax::{Proc, Side};
use dc_system::{System, SystemFault, build, fold};
use sqlite_items::Items;
use std::alloc::Global;

/// Why a side has no system.
fn size(side: Side, fault: SystemFault) -> CheckFault
    ensures { result ≡ size_of side fault }
{
    match fault {
        SystemFault::TooLarge { what, count } => CheckFault::TooLarge {
            side: Some(side),
            what,
            count,
        },
        SystemFault::NoMemory => CheckFault::NoMemory,
    }
}

/// The system of a side, of which a certificate of this version speaks.
fn version_system(alloc: Global, p: &Proc, version: u8, side: Side) -> Result<System, CheckFault>
    requires program { IsProgram p.now }
    requires version { (version ≡ 1) ⊎ (version ≡ 2) }
    ensures system { IfOk result (λ s. IsSystemOf version p.now s) }
    ensures within { IfOk result (λ s. size_fault p.now ≡ None) }
    ensures well_formed { IfOk result (λ s. IsWellFormed s) }
    ensures fault { IfErr result (IsSizeFault side p.now) }
{
    let plain = match build(alloc, p) {
        Ok(found) => found,
        Err(fault) => return Err(size(side, fault)),
    };
    if version == 1 {
        return Ok(plain);
    }
    match fold(alloc, &plain) {
        Ok(folded) => Ok(folded),
        Err(_) => Err(CheckFault::NoMemory),
    }
}

/// Checks all clauses over the two systems.
fn check_steps(
    alloc: Global,
    new: &System,
    old: &System,
    cases: &[Items<Atom>],
    c: &Certificate,
) -> Result<(), CheckFault>
    requires new { IsWellFormed new.now }
    requires old { IsWellFormed old.now }
    requires params { new.now.params ≡ old.now.params }
    requires condition { IsCondition new.now.params cases.now }
    requires certificate { IsCertificate c.now }
    ensures ready { OnOk result (IsReady new.now old.now cases.now c.now) }
    ensures claims { OnOk result (AllHold (claim_steps new.now old.now cases.now c.now)) }
    ensures fault { IfErr result (IsStepFault new.now old.now cases.now c.now) }
{
    let families = family_failure(alloc, new, old, cases, c)?;
    if let Some(step) = families {
        return Err(raise(step));
    }
    let problem = match main_problem_of(alloc, new, old, cases, c) {
        Ok(found) => found,
        Err(fault) => return Err(fault),
    };
    let unknowns = unknown_count(new, old, c.degree);
    let claims = main_failure(alloc, &problem, unknowns, &c.body)?;
    if let Some(step) = claims {
        return Err(raise(step));
    }
    Ok(())
}

/// Checks a certificate over two procedures with the same parameters, and the cases of a condition.
///
/// The systems are those of the certificate's version. The clauses on families come first, then the
/// size of the main problem, then the other clauses. Nothing is asked of where the certificate came
/// from but its ranges.
///
/// # Errors
/// `Rejected` exactly where the first step that does not hold is a false clause, `Past128` where a
/// sum of it doesn't fit, `TooLarge` where a system or the main problem is the first that passes a
/// limit.
pub fn check(
    alloc: Global,
    new: &Proc,
    old: &Proc,
    cases: &[Items<Atom>],
    c: &Certificate,
) -> Result<Claim, CheckFault>
    requires new { IsProgram new.now }
    requires old { IsProgram old.now }
    requires params { HaveSameParams new.now old.now }
    requires condition { IsCondition new.now.params cases.now }
    requires certificate { IsCertificate c.now }
    ensures claim { IfOk result (Accepts new.now old.now cases.now c.now) }
    ensures fault { IfErr result (IsFault new.now old.now cases.now c.now) }
{
    let new_system = match version_system(alloc, new, c.version, Side::New) {
        Ok(found) => found,
        Err(fault) => return Err(fault),
    };
    let old_system = match version_system(alloc, old, c.version, Side::Old) {
        Ok(found) => found,
        Err(fault) => return Err(fault),
    };
    match check_steps(alloc, &new_system, &old_system, cases, c) {
        Ok(()) => Ok(c.body.claim()),
        Err(fault) => Err(fault),
    }
}
