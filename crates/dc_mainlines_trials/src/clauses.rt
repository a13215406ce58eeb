//! Clauses 7 to 13: the first test that isn't true, with its clause and its index.
ghost use Rattle.std.specs.Prelude.{IfOk};
ghost use Rattle.dc_cert.specs.Ranges.{IsBody};
ghost use Rattle.dc_cert.specs.Vectors.{IsVector};

use dc_cert::{Body, Sparse, sparse_of};
use dc_frac::{Frac, MAX};
use dc_lp::{Entry, Problem};
use dc_mainlines::main_failure;
use std::alloc::{AllocError, Global};
use std::process::Abort;
use std::test::Fail;

fn column(alloc: Global, entries: &[(usize, i128)]) -> Result<Vec<Entry>, AllocError> {
    let mut column = Vec::new(alloc);
    for (row, value) in entries {
        column.push(Entry {
            row: *row,
            value: *value,
        })?;
    }
    Ok(column)
}

fn problem(
    alloc: Global,
    columns: &[&[(usize, i128)]],
    b: &[i128],
    cost: &[i128],
) -> Result<Problem, AllocError> {
    let mut list = Vec::new(alloc);
    for entries in columns {
        list.push(column(alloc, entries)?)?;
    }
    Ok(Problem {
        rows: b.len(),
        columns: list,
        b: Vec::from_slice(alloc, b)?,
        cost: Vec::from_slice(alloc, cost)?,
    })
}

// t - a - m = 1 and a - n = 2 for the unknowns t and a and the multipliers m and n. The least t is 3.
fn two_unknowns(alloc: Global) -> Result<Problem, AllocError> {
    problem(
        alloc,
        &[
            &[(0, 1)],
            &[(0, -1)],
            &[(0, -1), (1, 1)],
            &[(0, 1), (1, -1)],
            &[(0, -1)],
            &[(1, -1)],
        ],
        &[1, 2],
        &[1, -1, 0, 0, 0, 0],
    )
}

// t - m = 1 and n = 2. The least t is 1.
fn one_unknown(alloc: Global) -> Result<Problem, AllocError> {
    problem(
        alloc,
        &[&[(0, 1)], &[(0, -1)], &[(0, -1)], &[(1, 1)]],
        &[1, 2],
        &[1, -1, 0, 0],
    )
}

// -m = 5, which no m of at least 0 solves.
fn no_solution(alloc: Global) -> Result<Problem, AllocError> {
    problem(alloc, &[&[], &[], &[(0, -1)]], &[5], &[1, -1, 0])
}

// t + m = 0, where t has no least value.
fn no_bound(alloc: Global) -> Result<Problem, AllocError> {
    problem(
        alloc,
        &[&[(0, 1)], &[(0, -1)], &[(0, 1)]],
        &[0],
        &[1, -1, 0],
    )
}

type Told = Option<(u8, u64, Option<bool>)>;

// The first step that doesn't hold: clause, index and test.
fn first(
    rt: &impl Abort,
    alloc: Global,
    p: &Problem,
    unknowns: usize,
    body: &Body,
) -> Result<Told, AllocError>
    requires { IsBody body.now }
{
    assert!(rt; p.is_well_formed());
    assert!(rt; unknowns <= 2);
    assert!(rt; unknowns * 2 <= p.columns.len());
    match main_failure(alloc, p, unknowns, body)? {
        Some(step) => Ok(Some((step.clause, step.index, step.test))),
        None => Ok(None),
    }
}

fn sparse(rt: &impl Abort, alloc: Global, v: &[Frac]) -> Result<Sparse, AllocError>
    ensures { IfOk result IsVector }
{
    assert!(rt; v.len() <= 8192);
    sparse_of(alloc, v)
}

// What a certificate of a threshold has of the main problem.
fn threshold_body(t: Frac, unknown: Sparse, lambda: Sparse, dual: Sparse) -> Body
    requires unknown { IsVector unknown }
    requires lambda { IsVector lambda }
    requires dual { IsVector dual }
    ensures { IsBody result }
{
    Body::Threshold {
        t,
        unknown,
        lambda,
        dual,
    }
}

#[derive(Clone, Copy)]
struct Threshold<'a> {
    t: Frac,
    unknown: &'a [Frac],
    lambda: &'a [Frac],
    dual: &'a [Frac],
    told: Told,
}

fn check_thresholds(
    rt: &impl Abort,
    alloc: Global,
    p: &Problem,
    unknowns: usize,
    rows: &[Threshold],
) -> Result<(), AllocError> {
    for row in rows {
        let unknown = sparse(rt, alloc, row.unknown)?;
        let lambda = sparse(rt, alloc, row.lambda)?;
        let dual = sparse(rt, alloc, row.dual)?;
        let body = threshold_body(row.t, unknown, lambda, dual);
        assert_eq!(rt; first(rt, alloc, p, unknowns, &body)?, row.told);
    }
    Ok(())
}

#[test]
fn thresholds_of_two_unknowns(rt: HostRuntime) -> Result<(), Fail> {
    let alloc = rt.alloc();
    let p = two_unknowns(alloc)?;
    let [zero, one, two, three, four] = [
        Frac::whole(0),
        Frac::whole(1),
        Frac::whole(2),
        Frac::whole(3),
        Frac::whole(4),
    ];
    let less = Frac::whole(-1);
    let tiny = Frac::new(1, MAX);
    let rows = [
        Threshold {
            t: three,
            unknown: &[three, two],
            lambda: &[],
            dual: &[one, one],
            told: None,
        },
        // items out of range
        Threshold {
            t: three,
            unknown: &[three, two, one],
            lambda: &[],
            dual: &[one, one],
            told: Some((7, 0, Some(false))),
        },
        Threshold {
            t: three,
            unknown: &[three, two],
            lambda: &[zero, zero, one],
            dual: &[one, one, one],
            told: Some((7, 1, Some(false))),
        },
        Threshold {
            t: three,
            unknown: &[three, two],
            lambda: &[],
            dual: &[one, one, one],
            told: Some((7, 4, Some(false))),
        },
        // both equations hold with m = -1, and with n = -1
        Threshold {
            t: two,
            unknown: &[two, two],
            lambda: &[less],
            dual: &[one, one],
            told: Some((8, 0, Some(false))),
        },
        Threshold {
            t: two,
            unknown: &[two, one],
            lambda: &[zero, less],
            dual: &[one, one],
            told: Some((8, 1, Some(false))),
        },
        // an equation is false, and one passes 128 bits: with m or n at 1 / MAX it comes to 2 - 1 / MAX
        Threshold {
            t: three,
            unknown: &[three],
            lambda: &[],
            dual: &[one, one],
            told: Some((9, 0, Some(false))),
        },
        Threshold {
            t: four,
            unknown: &[four, three],
            lambda: &[],
            dual: &[one, one],
            told: Some((9, 1, Some(false))),
        },
        Threshold {
            t: four,
            unknown: &[four, two],
            lambda: &[tiny],
            dual: &[one, one],
            told: Some((9, 0, None)),
        },
        Threshold {
            t: three,
            unknown: &[three, two],
            lambda: &[zero, tiny],
            dual: &[one, one],
            told: Some((9, 1, None)),
        },
        Threshold {
            t: four,
            unknown: &[four, two],
            lambda: &[zero, tiny],
            dual: &[one, one],
            told: Some((9, 0, Some(false))),
        },
        // the price of t, and that of a, which passes 128 bits at -1 - MAX
        Threshold {
            t: three,
            unknown: &[three, two],
            lambda: &[],
            dual: &[two, two],
            told: Some((10, 0, Some(false))),
        },
        Threshold {
            t: three,
            unknown: &[three, two],
            lambda: &[],
            dual: &[one],
            told: Some((10, 1, Some(false))),
        },
        Threshold {
            t: three,
            unknown: &[three, two],
            lambda: &[],
            dual: &[one, Frac::whole(-MAX)],
            told: Some((10, 1, None)),
        },
        // with m = 1 a solution costs 4, which is unknown 0 and not the product of the dual with
        // the right sides
        Threshold {
            t: four,
            unknown: &[four, two],
            lambda: &[one],
            dual: &[one, one],
            told: Some((11, 0, Some(false))),
        },
        Threshold {
            t: three,
            unknown: &[four, two],
            lambda: &[one],
            dual: &[one, one],
            told: Some((11, 0, Some(false))),
        },
    ];
    check_thresholds(&rt, alloc, &p, 2, &rows)?;
    Ok(())
}

// Multipliers are counted on behind the unknowns: that of n has number 2.
#[test]
fn thresholds_of_one_unknown(rt: HostRuntime) -> Result<(), Fail> {
    let alloc = rt.alloc();
    let p = one_unknown(alloc)?;
    let [zero, one, two, less] = [
        Frac::whole(0),
        Frac::whole(1),
        Frac::whole(2),
        Frac::whole(-1),
    ];
    let rows = [
        Threshold {
            t: one,
            unknown: &[one],
            lambda: &[zero, two],
            dual: &[one],
            told: None,
        },
        Threshold {
            t: one,
            unknown: &[one],
            lambda: &[zero, two],
            dual: &[one, one],
            told: Some((10, 2, Some(false))),
        },
        Threshold {
            t: one,
            unknown: &[one],
            lambda: &[zero, two],
            dual: &[one, less],
            told: Some((11, 0, Some(false))),
        },
        Threshold {
            t: one,
            unknown: &[one],
            lambda: &[zero, two],
            dual: &[one, Frac::whole(-MAX)],
            told: Some((11, 0, None)),
        },
        Threshold {
            t: two,
            unknown: &[one],
            lambda: &[zero, two],
            dual: &[one, Frac::whole(-MAX)],
            told: Some((11, 0, Some(false))),
        },
    ];
    check_thresholds(&rt, alloc, &p, 1, &rows)?;
    Ok(())
}

#[test]
fn refutations(rt: HostRuntime) -> Result<(), Fail> {
    let alloc = rt.alloc();
    let p = no_solution(alloc)?;
    let [zero, one, less] = [Frac::whole(0), Frac::whole(1), Frac::whole(-1)];
    for (dual, told) in [
        ([one, zero], None),
        ([zero, one], Some((7, 4, Some(false)))),
        ([less, zero], Some((10, 1, Some(false)))),
        ([zero, zero], Some((11, 0, Some(false)))),
        ([Frac::whole(MAX), zero], Some((11, 0, None))),
    ] {
        let body = Body::Nothing {
            dual: sparse(&rt, alloc, &dual)?,
        };
        assert_eq!(rt; first(&rt, alloc, &p, 1, &body)?, told);
    }
    // costs count as 0: the dual of a threshold prices t at 1
    let q = one_unknown(alloc)?;
    let body = Body::Nothing {
        dual: sparse(&rt, alloc, &[one])?,
    };
    assert_eq!(rt;
        first(&rt, alloc, &q, 1, &body)?,
        Some((10, 0, Some(false)))
    );
    Ok(())
}

#[derive(Clone, Copy)]
struct Vacuous<'a> {
    unknown: &'a [Frac],
    lambda: &'a [Frac],
    ray_unknown: &'a [Frac],
    ray_lambda: &'a [Frac],
    told: Told,
}

#[test]
fn rays(rt: HostRuntime) -> Result<(), Fail> {
    let alloc = rt.alloc();
    let p = no_bound(alloc)?;
    let [zero, one, less] = [Frac::whole(0), Frac::whole(1), Frac::whole(-1)];
    let tiny = Frac::new(1, MAX);
    for row in [
        Vacuous {
            unknown: &[],
            lambda: &[],
            ray_unknown: &[less],
            ray_lambda: &[one],
            told: None,
        },
        Vacuous {
            unknown: &[],
            lambda: &[],
            ray_unknown: &[less, one],
            ray_lambda: &[one, one],
            told: Some((7, 2, Some(false))),
        },
        Vacuous {
            unknown: &[],
            lambda: &[],
            ray_unknown: &[less],
            ray_lambda: &[one, one],
            told: Some((7, 3, Some(false))),
        },
        Vacuous {
            unknown: &[one],
            lambda: &[less],
            ray_unknown: &[less],
            ray_lambda: &[one],
            told: Some((8, 0, Some(false))),
        },
        Vacuous {
            unknown: &[],
            lambda: &[],
            ray_unknown: &[one],
            ray_lambda: &[less],
            told: Some((8, 0, Some(false))),
        },
        Vacuous {
            unknown: &[one],
            lambda: &[],
            ray_unknown: &[less],
            ray_lambda: &[one],
            told: Some((9, 0, Some(false))),
        },
        Vacuous {
            unknown: &[],
            lambda: &[],
            ray_unknown: &[less],
            ray_lambda: &[],
            told: Some((12, 0, Some(false))),
        },
        Vacuous {
            unknown: &[],
            lambda: &[],
            ray_unknown: &[Frac::whole(-2)],
            ray_lambda: &[tiny],
            told: Some((12, 0, None)),
        },
        Vacuous {
            unknown: &[],
            lambda: &[],
            ray_unknown: &[zero],
            ray_lambda: &[],
            told: Some((13, 0, Some(false))),
        },
    ] {
        let body = Body::Vacuous {
            unknown: sparse(&rt, alloc, row.unknown)?,
            lambda: sparse(&rt, alloc, row.lambda)?,
            ray_unknown: sparse(&rt, alloc, row.ray_unknown)?,
            ray_lambda: sparse(&rt, alloc, row.ray_lambda)?,
        };
        assert_eq!(rt; first(&rt, alloc, &p, 1, &body)?, row.told);
    }
    Ok(())
}
