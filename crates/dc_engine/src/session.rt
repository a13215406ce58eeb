//! The session of an analysis.
ghost use Rattle.std.specs.Prelude.{◌≡◌, IfOk, IfErr, None};
ghost use Rattle.dc_session.specs.Answers.{IsFault, IsInput, TellsCertificate};
ghost use Rattle.dc_session.specs.Refusals.{early_excess};
ghost use Rattle.dc_engine.specs.Inputs.{IsAnswer, input};
ghost use Rattle.dc_engine.specs.Parts.{AreVersions, TellsEarly, TellsMade, input_of};

use crate::body::body_of;
use crate::fault::{of_check, of_problem};
use crate::lent::{Early, Lent, Versions};
use crate::main_problem::{main_of, unknown_count};
use crate::sides::early_answers;
use crate::versions::both_versions;
use dc_affine::Atom;
use dc_cert::{Certificate, Settings};
use dc_check::check;
use dc_entail::Site;
use dc_greatest::InvFault;
use dc_lp::Tableau;
use dc_session::AnalyseFault;
use dc_simplex::solve;
use dc_sparse::Cross;
use dc_syntax::Proc;
use sqlite_items::Items;
use std::alloc::Global;

/// The certificate that the main problem's outcome gives, with what the problems before it have given.
fn make_certificate<T: Tableau>(
    alloc: Global,
    t: &Lent,
    v: &Versions,
    e: Early,
    tableau: &mut T,
) -> Result<Certificate, AnalyseFault>
    requires input { IsInput (input_of t.now) }
    requires counts { early_excess (input_of t.now) ≡ None }
    requires versions { AreVersions (input_of t.now) v.now }
    requires early { TellsEarly (input_of t.now) v.now e }
    ensures certificate { IfOk result (TellsMade (input_of t.now) (T.meaning tableau.new)) }
    ensures fault { IfErr result (IsFault (input_of t.now)) }
{
    let problem = match main_of(alloc, t, v, &e) {
        Ok(problem) => problem,
        Err(fault) => return Err(fault),
    };
    let count = unknown_count(&v.new.system, &v.old.system, t.settings.degree);
    let outcome = match solve(alloc, &problem, tableau, t.settings.pivots) {
        Ok(outcome) => outcome,
        Err(fault) => return Err(of_problem(InvFault::at(Site::Main, fault))),
    };
    let Ok(body) = body_of(alloc, &outcome, count) else {
        return Err(AnalyseFault::NoMemory);
    };
    Ok(Certificate {
        version: 2,
        body,
        degree: t.settings.degree,
        products: t.settings.products,
        when: e.when,
        new_side: e.new_side,
        old_side: e.old_side,
    })
}

/// Analyses two procedures with the same parameters under the cases of a condition, on a tableau
/// that is lent for all problems.
///
/// The certificate is the one that the outcomes of the session give, and the checker accepts it.
/// The tableau is left at the table at which the run of the main problem ends.
///
/// # Errors
/// `TooLarge`, `Past128` and `Budget` exactly where the first step that is refused is refused so.
/// The tableau is then in no state that is told.
pub fn analyse_on<T: Tableau>(
    alloc: Global,
    new: &Proc,
    old: &Proc,
    cases: &[Items<Atom>],
    s: &Settings,
    tableau: &mut T,
) -> Result<Certificate, AnalyseFault>
    requires input { IsInput (input new.now old.now cases.now s.now) }
    ensures certificate { IfOk result
        (TellsCertificate (input new.now old.now cases.now s.now) (T.meaning tableau.new)) }
    ensures fault { IfErr result (IsFault (input new.now old.now cases.now s.now)) }
{
    let lent = Lent {
        new,
        old,
        cases,
        settings: s,
    };
    let v = match both_versions(alloc, &lent) {
        Ok(versions) => versions,
        Err(fault) => return Err(fault),
    };
    let e = match early_answers(alloc, &lent, &v, tableau) {
        Ok(early) => early,
        Err(fault) => return Err(of_problem(fault)),
    };
    let certificate = match make_certificate(alloc, &lent, &v, e, tableau) {
        Ok(certificate) => certificate,
        Err(fault) => return Err(fault),
    };
    match check(alloc, new, old, cases, &certificate) {
        Ok(_claim) => Ok(certificate),
        Err(fault) => Err(of_check(fault)),
    }
}

/// Analyses two procedures with the same parameters under the cases of a condition.
///
/// # Errors
/// As `analyse_on`.
pub fn analyse(
    alloc: Global,
    new: &Proc,
    old: &Proc,
    cases: &[Items<Atom>],
    s: &Settings,
) -> Result<Certificate, AnalyseFault>
    requires input { IsInput (input new.now old.now cases.now s.now) }
    ensures certificate { IfOk result (IsAnswer (input new.now old.now cases.now s.now)) }
    ensures fault { IfErr result (IsFault (input new.now old.now cases.now s.now)) }
{
    let mut tableau = Cross::new(alloc);
    analyse_on(alloc, new, old, cases, s, &mut tableau)
}
