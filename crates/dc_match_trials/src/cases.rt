//! Pairs of programs that do nothing over ten parameters, with many cases: the limit of equations.
ghost use Rattle.std.specs.Prelude.{◌≡◌, ◌≤◌, [], replicate, IfOk, true};

use crate::idle::idle;
use dc_affine::Atom;
use dc_lp::Problem;
use dc_match::{MatchFault, SidePlan, problem_of};
use dc_syntax::Count;
use sqlite_items::Items;
use std::alloc::{AllocError, Global};
use std::test::Fail;

// Cases without atoms.
fn empty_cases(alloc: Global, count: usize) -> Result<Vec<Items<Atom>>, AllocError>
    ensures { IfOk result (λ v. v.items ≡ replicate count []) }
{
    let mut cases = Vec::new(alloc);
    for _case in 0..count {
        cases.push(Items::new(alloc))?;
    }
    Ok(cases)
}

fn all_live(alloc: Global, count: usize) -> Result<Vec<bool>, AllocError>
    ensures { IfOk result (λ v. v.items ≡ replicate count true) }
{
    let mut live = Vec::new(alloc);
    for _case in 0..count {
        live.push(true)?;
    }
    Ok(live)
}

#[tactic(auto, using(crate::proofs::Fits::many_fit))]
fn ask(alloc: Global, count: usize) -> Result<Problem, MatchFault>
    requires some { 1 ≤ count }
    requires few { count ≤ 64 }
{
    let system = idle(alloc, 10, 10);
    let families = [Items::new(alloc)];
    let cases = empty_cases(alloc, count)?;
    let live = all_live(alloc, count)?;
    let none: [bool; 0] = [];
    let plan = SidePlan {
        system: &system,
        families: &families,
        live: &none,
        exit_live: true,
    };
    problem_of(alloc, &plan, &plan, cases.as_slice(), live.as_slice(), 3, 1)
}

// C(13, 3) = 286 monomials of degree at most 3 over ten places, at two exits and for each case:
// seven times these are 2,002 equations, eight times 2,288
#[test]
fn too_many_equations(rt: HostRuntime) -> Result<(), Fail> {
    let p = ask(rt.alloc(), 5)?;
    assert_eq!(rt; p.rows, 2002);
    assert!(rt;
        matches!(
            ask(rt.alloc(), 6),
            Err(MatchFault::TooLarge {
                what: Count::Equations,
                count: 2288,
            })
        )
    );
    Ok(())
}
