//! Which cases of the condition are live.
ghost use Rattle.std.specs.Prelude.{◌≡◌, ◌∷◌, [], IfOk, IfErr, map};
ghost use Rattle.std.specs.List.{AllByRecursion};
ghost use Rattle.dc_affine.specs.Atoms.{IsAtom};
ghost use Rattle.dc_cert.specs.Ranges.{is_live};
ghost use Rattle.dc_points.specs.Flags.{IsFlag};
ghost use Rattle.dc_greatest.specs.Answers.{IsFault};
ghost use Rattle.dc_invariant.specs.Shown.{IsLine};
ghost use Rattle.dc_session.specs.Session.{case_asked, cases_asked};
ghost use Rattle.dc_session.specs.Answers.{IsInput};
ghost use Rattle.dc_engine.specs.Parts.{Only, TellsCases, input_of};

use crate::lent::Lent;
use dc_affine::Atom;
use dc_cert::{Liveness, sparse_of};
use dc_entail::{Emptiness, Site, empty};
use dc_greatest::InvFault;
use dc_lp::Tableau;
use sqlite_items::Items;
use std::alloc::{AllocError, Global};

/// The line that says whether a case is dead, and shows it.
fn case_line<T: Tableau>(
    alloc: Global,
    number: usize,
    case: &[Atom],
    params: usize,
    tableau: &mut T,
    budget: u64,
) -> Result<Liveness, InvFault>
    requires atoms { AllByRecursion (IsAtom params) case.now }
    ensures answer { IfOk result (IsLine case.now params budget) }
    ensures flag { IfOk result (λ l. IsFlag (is_live l) case.now) }
    ensures fault { IfErr result
        (IsFault budget (Only (case_asked params number case.now ∷ []))) }
{
    let site = Site::When { case: number };
    match empty(alloc, case, params, tableau, budget) {
        Ok(Emptiness::Dead { mult }) => Ok(Liveness::Dead(sparse_of(alloc, &mult)?)),
        Ok(Emptiness::Live { y }) => Ok(Liveness::Live(sparse_of(alloc, &y)?)),
        Err(fault) => Err(InvFault::at(site, fault)),
    }
}

/// A line for each case.
pub(crate) fn case_lines<T: Tableau>(
    alloc: Global,
    t: &Lent,
    tableau: &mut T,
) -> Result<Items<Liveness>, InvFault>
    requires input { IsInput (input_of t.now) }
    ensures answer { IfOk result (TellsCases (input_of t.now)) }
    ensures fault { IfErr result
        (IsFault t.now.settings.now.pivots (Only (cases_asked t.now.new.now.params t.now.cases.now))) }
{
    let mut lines = Items::new(alloc);
    let budget = t.settings.pivots;
    for (number, case) in t.cases.iter().enumerate() {
        match case_line(
            alloc,
            number,
            case.as_slice(),
            t.new.params,
            tableau,
            budget,
        ) {
            Ok(line) => lines.push(line)?,
            Err(fault) => return Err(fault),
        }
    }
    Ok(lines)
}

/// Which cases are live, by their lines.
pub(crate) fn flags_of(alloc: Global, lines: &[Liveness]) -> Result<Vec<bool>, AllocError>
    ensures { IfOk result (λ v. v.items ≡ map is_live lines.now) }
{
    let mut live = Vec::new(alloc);
    for line in lines {
        live.push(line.is_live())?;
    }
    Ok(live)
}
