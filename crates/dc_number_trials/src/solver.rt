//! Small problems over the dense tableau. Expected answers were worked out by hand or, for the
//! longer runs, by a table of fractions kept apart from this program.
use crate::tables::{at, problem};
use dc_frac::Frac;
use dc_lp::{Entry, Problem};
use dc_simplex::{Dense, Outcome, SolveFault, solve};
use std::alloc::Global;
use std::process::Abort;
use std::test::Fail;

fn solve_problem(
    rt: &impl Abort,
    alloc: Global,
    p: &Problem,
    budget: u64,
) -> Result<Outcome, SolveFault> {
    assert!(rt; p.is_well_formed());
    let mut tableau = Dense::new(alloc);
    solve(alloc, p, &mut tableau, budget)
}

fn is_optimal(
    found: &Result<Outcome, SolveFault>,
    x: &[Frac],
    y: &[Frac],
    value: Frac,
    pivots: u64,
) -> bool {
    match found {
        Ok(
            Outcome::Optimal {
                x: a,
                y: b,
                value: v,
                pivots: n,
            },
        ) => a.as_slice() == x && b.as_slice() == y && *v == value && *n == pivots,
        _ => false,
    }
}

fn is_infeasible(found: &Result<Outcome, SolveFault>, y: &[Frac], pivots: u64) -> bool {
    match found {
        Ok(Outcome::Infeasible { y: a, pivots: n }) => a.as_slice() == y && *n == pivots,
        _ => false,
    }
}

fn is_unbounded(
    found: &Result<Outcome, SolveFault>,
    x: &[Frac],
    ray: &[Frac],
    pivots: u64,
) -> bool {
    match found {
        Ok(
            Outcome::Unbounded {
                x: a,
                ray: b,
                pivots: n,
            },
        ) => a.as_slice() == x && b.as_slice() == ray && *n == pivots,
        _ => false,
    }
}

// 3 * x0 + 5 * x1 = 1 with costs 7 and 0 takes two pivots: a budget at, above and below that, and none
#[test]
fn budgets(rt: HostRuntime) -> Result<(), Fail> {
    let p = problem(rt.alloc(), &[&[at(0, 3)], &[at(0, 5)]], &[1], &[7, 0])?;
    let [zero, fifth] = [Frac::whole(0), Frac::new(1, 5)];
    for budget in [2, 3, 1_000_000] {
        let found = solve_problem(&rt, rt.alloc(), &p, budget);
        assert!(rt; is_optimal(&found, &[zero, fifth], &[zero], zero, 2));
    }
    for budget in [0, 1] {
        assert!(rt;
            matches!(solve_problem(&rt, rt.alloc(), &p, budget), Err(SolveFault::Budget { pivots }) if pivots == budget)
        );
    }
    Ok(())
}

// (2^100 + 1) * x0 + (2^100 + 3) * x1 = 1 with costs 2^100 + 5 and 0: the values of the first pivot
// pass 128 bits, which is seen where the budget lets it be made
#[test]
fn too_wide(rt: HostRuntime) -> Result<(), Fail> {
    let wide = 1_267_650_600_228_229_401_496_703_205_376;
    let p = problem(
        rt.alloc(),
        &[&[at(0, wide + 1)], &[at(0, wide + 3)]],
        &[1],
        &[wide + 5, 0],
    )?;
    assert!(rt;
        matches!(
            solve_problem(&rt, rt.alloc(), &p, 100),
            Err(SolveFault::Past128 { pivot: 1 })
        )
    );
    assert!(rt;
        matches!(
            solve_problem(&rt, rt.alloc(), &p, 1),
            Err(SolveFault::Past128 { pivot: 1 })
        )
    );
    assert!(rt;
        matches!(
            solve_problem(&rt, rt.alloc(), &p, 0),
            Err(SolveFault::Budget { pivots: 0 })
        )
    );
    Ok(())
}

// x0 - x1 = 0 with costs -1 and 0; x0 = -1 with cost 0
#[test]
fn without_an_optimum(rt: HostRuntime) -> Result<(), Fail> {
    let falling = problem(rt.alloc(), &[&[at(0, 1)], &[at(0, -1)]], &[0], &[-1, 0])?;
    let [zero, one, less] = [Frac::whole(0), Frac::whole(1), Frac::whole(-1)];
    assert!(rt;
        is_unbounded(
            &solve_problem(&rt, rt.alloc(), &falling, 10),
            &[zero, zero],
            &[one, one],
            1
        )
    );
    let empty = problem(rt.alloc(), &[&[at(0, 1)]], &[-1], &[0])?;
    assert!(rt; is_infeasible(&solve_problem(&rt, rt.alloc(), &empty, 10), &[less], 0));
    Ok(())
}

// x0 = 1 and 2 * x0 = 2, where the rows tie and a row of zeros is left; -x0 = 0, which drive-out
// alone brings into the basis; three equations of which the third is the sum of the others
#[test]
fn redundant_equations(rt: HostRuntime) -> Result<(), Fail> {
    let [zero, one, two, less] = [
        Frac::whole(0),
        Frac::whole(1),
        Frac::whole(2),
        Frac::whole(-5),
    ];
    let twice = problem(rt.alloc(), &[&[at(0, 1), at(1, 2)]], &[1, 2], &[1])?;
    assert!(rt;
        is_optimal(
            &solve_problem(&rt, rt.alloc(), &twice, 10),
            &[one],
            &[one, zero],
            one,
            1
        )
    );
    let driven = problem(rt.alloc(), &[&[at(0, -1)]], &[0], &[5])?;
    assert!(rt;
        is_optimal(
            &solve_problem(&rt, rt.alloc(), &driven, 10),
            &[zero],
            &[less],
            zero,
            1
        )
    );
    assert!(rt;
        matches!(
            solve_problem(&rt, rt.alloc(), &driven, 0),
            Err(SolveFault::Budget { pivots: 0 })
        )
    );
    let columns: [&[Entry]; 3] = [
        &[at(0, 1), at(2, 1)],
        &[at(0, 1), at(1, 1), at(2, 2)],
        &[at(1, 1), at(2, 1)],
    ];
    let sums = problem(rt.alloc(), &columns, &[2, 1, 3], &[1, 2, 0])?;
    assert!(rt;
        is_optimal(
            &solve_problem(&rt, rt.alloc(), &sums, 10),
            &[two, zero, one],
            &[one, zero, zero],
            two,
            3
        )
    );
    Ok(())
}

// Beale's problem in whole numbers, which goes round in a circle where the most negative column
// enters (E. M. L. Beale, Cycling in the dual simplex algorithm, 1955)
#[test]
fn circles(rt: HostRuntime) -> Result<(), Fail> {
    let columns: [&[Entry]; 7] = [
        &[at(0, 4)],
        &[at(1, 2)],
        &[at(2, 1)],
        &[at(0, 1), at(1, 1)],
        &[at(0, -32), at(1, -24)],
        &[at(0, -4), at(1, -1), at(2, 1)],
        &[at(0, 36), at(1, 6)],
    ];
    let p = problem(rt.alloc(), &columns, &[0, 0, 1], &[0, 0, 0, -3, 80, -2, 24])?;
    let [zero, one, less, least] = [
        Frac::whole(0),
        Frac::whole(1),
        Frac::whole(-3),
        Frac::whole(-5),
    ];
    let x = [Frac::new(3, 4), zero, zero, one, zero, one, zero];
    assert!(rt;
        is_optimal(
            &solve_problem(&rt, rt.alloc(), &p, 100),
            &x,
            &[zero, less, least],
            least,
            9
        )
    );
    Ok(())
}
