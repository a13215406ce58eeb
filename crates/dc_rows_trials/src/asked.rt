//! The candidates of a source and a condition in one case.
ghost use Rattle.std.specs.List.{AllByRecursion};
ghost use Rattle.dc_affine.specs.Atoms.{AllCases, IsAtom, IsFullAtom};

use dc_affine::Atom;
use dc_parse::{parse_proc, parse_when};
use dc_rows::{Candidates, RowFault, candidates};
use dc_system::build;
use sqlite_items::Items;
use std::alloc::Global;
use std::test::Fail;

// The atoms of the first case.
fn first(cases: &[Items<Atom>], places: usize) -> &[Atom]
    requires { AllCases (IsFullAtom places) cases.now }
    ensures { AllByRecursion (IsAtom places) result.now }
{
    match cases {
        [] => &[],
        [case, ..] => case.as_slice(),
    }
}

/// The candidates of the system that a source builds and of the first case of a condition.
pub(crate) fn ask(
    alloc: Global,
    source: &str,
    when: &str,
    pairs: bool,
) -> Result<Result<Candidates, RowFault>, Fail> {
    let p = parse_proc(alloc, source.as_bytes())?;
    let system = build(alloc, &p)?;
    let cases = parse_when(alloc, when.as_bytes(), &p)?;
    Ok(candidates(
        alloc,
        &system,
        first(cases.as_slice(), system.params),
        pairs,
    ))
}
