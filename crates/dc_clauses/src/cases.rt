//! Clause 2: the cases of the condition, and whether each is dead or live.
ghost use Rattle.std.specs.Prelude.{◌≡◌, ◌≤◌};
ghost use Rattle.std.specs.List.{AllByRecursion};
ghost use Rattle.dc_cert.specs.Ranges.{IsShown};
ghost use Rattle.dc_clauses.specs.Hyps.{atoms_of};
ghost use Rattle.dc_clauses.specs.Steps.{counted, first_failure};
ghost use Rattle.dc_clauses.specs.Lent.{IsCase};
ghost use Rattle.dc_clauses.specs.Sides.{case_tests, numbered_case};

use crate::hyps::Hyps;
use crate::lines::line_test;
use crate::shape::line_is_below;
use crate::step::{Step, failure};
use dc_affine::Atom;
use dc_cert::Liveness;
use sqlite_items::Items;

/// Atoms without a guard.
pub fn alone(atoms: &[Atom]) -> Hyps
    ensures { atoms_of result ≡ atoms.now }
{
    Hyps { atoms, guard: &[] }
}

/// Whether a case and its line are there, and the line shows the case dead or live.
fn case_test(params: usize, cases: &[Items<Atom>], when: &[Liveness], number: usize) -> Option<bool>
    requires few { params ≤ 10 }
    requires cases { AllByRecursion (IsCase params) cases.now }
    requires when { AllByRecursion IsShown when.now }
    ensures { result ≡ numbered_case params cases.now when.now number }
{
    let Some(case) = cases.get(number) else {
        return Some(false);
    };
    let Some(line) = when.get(number) else {
        return Some(false);
    };
    if !line_is_below(line, case.len(), params) {
        return Some(false);
    }
    line_test(&alone(case.as_slice()), params, line)
}

/// The first case of which clause 2 does not hold.
#[tactic(auto, using(crate::proofs::Walks::numbering))]
pub fn case_failure(params: usize, cases: &[Items<Atom>], when: &[Liveness]) -> Option<Step>
    requires few { params ≤ 10 }
    requires cases { AllByRecursion (IsCase params) cases.now }
    requires when { AllByRecursion IsShown when.now }
    ensures { result ≡ first_failure (counted 2 0 (case_tests params cases.now when.now)) }
{
    for number in 0..cases.len().max(when.len()) {
        let test = case_test(params, cases, when, number);
        if let Some(step) = failure(2, number, test) {
            return Some(step);
        }
    }
    None
}
