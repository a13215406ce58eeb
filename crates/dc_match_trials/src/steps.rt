//! A pair of programs of one step: from the entry to the exit where n is at least 0, at cost n, n
//! becomes n + 1.
ghost use Rattle.std.specs.Prelude.{◌≡◌, length, IfOk};
ghost use Rattle.dc_system.specs.Shapes.{IsEdge, IsWellFormed, IsWithin};

use crate::shown::assert_is;
use dc_affine::Atom;
use dc_lp::Problem;
use dc_match::{MatchFault, SidePlan, problem_of};
use dc_poly::Poly;
use dc_system::{Edge, System};
use sqlite_items::Items;
use std::alloc::{AllocError, Global};
use std::test::Fail;

fn step(alloc: Global) -> Result<Edge, AllocError>
    ensures kind { IfOk result (IsEdge 1) }
    ensures ends { IfOk result (IsWithin 2) }
{
    let n = Poly::variable(alloc, 0, 2)?;
    let one = Poly::constant(alloc, 1, 2)?;
    let mut update = Vec::new(alloc);
    update.push(n.add(alloc, &one)?)?;
    let mut guard = Vec::new(alloc);
    guard.push(Atom {
        c0: 0,
        coefs: Items::from_slice(alloc, &[1, 0])?,
    })?;
    Ok(Edge {
        from: 0,
        to: 1,
        guard: Items::from_vec(guard),
        update: Items::from_vec(update),
        any: false,
        cost: n,
    })
}

fn system(alloc: Global) -> Result<System, AllocError>
    ensures formed { IfOk result IsWellFormed }
    ensures locations { IfOk result (λ s. s.locs ≡ 2) }
    ensures edges { IfOk result (λ s. length s.edges ≡ 1) }
{
    let mut edges = Vec::new(alloc);
    edges.push(step(alloc)?)?;
    Ok(System {
        vars: 1,
        params: 1,
        locs: 2,
        edges: Items::from_vec(edges),
        literals: Items::new(alloc),
    })
}

fn ask(alloc: Global) -> Result<Problem, MatchFault> {
    let system = system(alloc)?;
    let families = [Items::new(alloc), Items::new(alloc)];
    let cases = [Items::new(alloc)];
    let live = [true];
    let plan = SidePlan {
        system: &system,
        families: &families,
        live: &live,
        exit_live: true,
    };
    problem_of(alloc, &plan, &plan, &cases, &live, 1, 1)
}

// new's step: a0 + a1*n - b0 - b1*(n + 1) - n = l0 + l1*n; its exit: b0 + b1*n = l2;
// old's step: d0 + d1*(n + 1) + n - c0 - c1*n = l3 + l4*n; its exit: -d0 - d1*n = l5;
// the entries: t - a0 - a1*n + c0 + c1*n = l6
#[test]
fn one_step(rt: HostRuntime) -> Result<(), Fail> {
    let p = ask(rt.alloc())?;
    assert_is(
        &rt,
        &p,
        &[
            &[(8, 1)],
            &[(0, 1), (8, -1)],
            &[(1, 1), (9, -1)],
            &[(0, -1), (2, 1)],
            &[(0, -1), (1, -1), (3, 1)],
            &[(4, -1), (8, 1)],
            &[(5, -1), (9, 1)],
            &[(4, 1), (6, -1)],
            &[(4, 1), (5, 1), (7, -1)],
        ],
        &[
            &[(0, -1)],
            &[(1, -1)],
            &[(2, -1)],
            &[(4, -1)],
            &[(5, -1)],
            &[(6, -1)],
            &[(8, -1)],
        ],
        &[0, 1, 0, 0, 0, -1, 0, 0, 0, 0],
    );
    Ok(())
}
