//! Whole runs on both tableaux, with equal ends.
use crate::tables::{at, circle, empty_pair, problem, small, sums, twice, wide};
use dc_frac::Frac;
use dc_lp::{Problem, Tableau};
use dc_simplex::{Dense, Outcome, SolveFault, solve};
use dc_sparse::Cross;
use std::alloc::{AllocError, Global};
use std::process::Abort;
use std::test::Fail;

/// How a run ends: the solution, the multipliers or the ray, and the value, with the number of pivots.
#[derive(Drop)]
pub(crate) enum End<'a> {
    Best(&'a [Frac], &'a [Frac], Frac, u64),
    None(&'a [Frac], u64),
    NoBound(&'a [Frac], &'a [Frac], u64),
    Past(u64),
    Spent(u64),
}

fn is_end(found: &Result<Outcome, SolveFault>, end: &End) -> bool {
    match (found, end) {
        (
            Ok(
                Outcome::Optimal {
                    x,
                    y,
                    value,
                    pivots,
                },
            ),
            End::Best(a, b, v, n),
        ) => { x.as_slice() == *a && y.as_slice() == *b && value == v && pivots == n }
        (Ok(Outcome::Infeasible { y, pivots }), End::None(b, n)) => {
            y.as_slice() == *b && pivots == n
        }
        (Ok(Outcome::Unbounded { x, ray, pivots }), End::NoBound(a, b, n)) => {
            x.as_slice() == *a && ray.as_slice() == *b && pivots == n
        }
        (Err(SolveFault::Past128 { pivot }), End::Past(n)) => pivot == n,
        (Err(SolveFault::Budget { pivots }), End::Spent(n)) => pivots == n,
        _ => false,
    }
}

/// Whether the run ends so on each of the two.
pub(crate) fn ends(rt: &impl Abort, alloc: Global, p: &Problem, budget: u64, end: &End) -> bool {
    assert!(rt; p.is_well_formed());
    let dense = solve(alloc, p, &mut Dense::new(alloc), budget);
    let cross = solve(alloc, p, &mut Cross::new(alloc), budget);
    is_end(&dense, end) && is_end(&cross, end)
}

#[test]
fn optima(rt: HostRuntime) -> Result<(), Fail> {
    let alloc = rt.alloc();
    let [zero, one, two] = [Frac::whole(0), Frac::whole(1), Frac::whole(2)];
    let fifth = [zero, Frac::new(1, 5)];
    assert!(rt;
        ends(
            &rt,
            alloc,
            &small(alloc)?,
            2,
            &End::Best(&fifth, &[zero], zero, 2)
        )
    );
    let twice = twice(alloc)?;
    assert!(rt;
        ends(
            &rt,
            alloc,
            &twice,
            10,
            &End::Best(&[one], &[one, zero], one, 1)
        )
    );
    let sums = sums(alloc)?;
    assert!(rt;
        ends(
            &rt,
            alloc,
            &sums,
            10,
            &End::Best(&[two, zero, one], &[one, zero, zero], two, 3)
        )
    );
    Ok(())
}

// Row 0 is tied in the second problem, and the third has an equation that is the sum of the others;
// drive-out alone makes the pivot of the fourth; the fifth goes through degenerate tables; the
// sixth is a main problem whose numbers are all 0.
#[test]
fn longer_runs(rt: HostRuntime) -> Result<(), Fail> {
    let alloc = rt.alloc();
    let [zero, one, less, least] = [
        Frac::whole(0),
        Frac::whole(1),
        Frac::whole(-3),
        Frac::whole(-5),
    ];
    let driven = problem(alloc, &[&[at(0, -1)]], &[0], &[5])?;
    assert!(rt;
        ends(
            &rt,
            alloc,
            &driven,
            10,
            &End::Best(&[zero], &[least], zero, 1)
        )
    );
    let x = [Frac::new(3, 4), zero, zero, one, zero, one, zero];
    let y = [zero, less, least];
    assert!(rt; ends(&rt, alloc, &circle(alloc)?, 9, &End::Best(&x, &y, least, 9)));
    let zeros = [zero; 9];
    let pair = empty_pair(alloc)?;
    assert!(rt;
        ends(
            &rt,
            alloc,
            &pair,
            3,
            &End::Best(&zeros, &[one, one, one], zero, 3)
        )
    );
    Ok(())
}

// x0 - x1 = 0 with costs -1 and 0; x0 = -1
#[test]
fn without_an_optimum(rt: HostRuntime) -> Result<(), Fail> {
    let alloc = rt.alloc();
    let [zero, one, less] = [Frac::whole(0), Frac::whole(1), Frac::whole(-1)];
    let falling = problem(alloc, &[&[at(0, 1)], &[at(0, -1)]], &[0], &[-1, 0])?;
    assert!(rt;
        ends(
            &rt,
            alloc,
            &falling,
            10,
            &End::NoBound(&[zero, zero], &[one, one], 1)
        )
    );
    let none = problem(alloc, &[&[at(0, 1)]], &[-1], &[0])?;
    assert!(rt; ends(&rt, alloc, &none, 10, &End::None(&[less], 0)));
    Ok(())
}

#[test]
fn refusals(rt: HostRuntime) -> Result<(), Fail> {
    let alloc = rt.alloc();
    let wide = wide(alloc)?;
    assert!(rt; ends(&rt, alloc, &wide, 100, &End::Past(1)));
    assert!(rt; ends(&rt, alloc, &wide, 1, &End::Past(1)));
    assert!(rt; ends(&rt, alloc, &wide, 0, &End::Spent(0)));
    let small = small(alloc)?;
    assert!(rt; ends(&rt, alloc, &small, 1, &End::Spent(1)));
    assert!(rt; ends(&rt, alloc, &small, 0, &End::Spent(0)));
    assert!(rt; ends(&rt, alloc, &circle(alloc)?, 8, &End::Spent(8)));
    Ok(())
}
