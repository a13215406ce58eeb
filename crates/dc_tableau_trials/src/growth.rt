//! Runs whose numbers lie around 2^41, 2^63 and 2^127 or pass them. The sparse tableau may hold a row as whole numbers over one
//! denominator while all are below 2^41 in size, and else as fractions; none of that is seen. The cells, numbers of nodes and ends were
//! worked out by a table of fractions kept apart from this program.
use crate::runs::{End, ends};
use crate::steps::walk;
use crate::tables::{MOST, at, problem};
use dc_frac::Frac;
use dc_lp::{Entry, Problem};
use dc_simplex::Dense;
use std::alloc::Global;
use std::process::Abort;
use std::test::Fail;

// 2^41 - 1, 2^41, 2^41 + 1 and 2^63
const EDGES: [i128; 4] = [
    2_199_023_255_551,
    2_199_023_255_552,
    2_199_023_255_553,
    9_223_372_036_854_775_808,
];

// The pivots of a problem on both tableaux, and its end after as many.
fn trial(
    rt: &impl Abort,
    alloc: Global,
    p: &Problem,
    cells: &[(usize, usize, usize)],
    end: &End,
) -> Result<(), Fail> {
    walk(rt, alloc, &mut Dense::new(alloc), p, cells)?;
    assert!(rt; ends(rt, alloc, p, cells.len() as u64, end));
    Ok(())
}

// v * x0 + x1 = 1 and x1 + 2 * x2 = 1 with costs v, 1 and -2: column 0 enters, leaves and enters again.
fn coefficient(rt: &impl Abort, alloc: Global, v: i128) -> Result<(), Fail> {
    assert!(rt; v > 1);
    let columns: [&[Entry]; 3] = [&[at(0, v)], &[at(0, 1), at(1, 1)], &[at(1, 2)]];
    let p = problem(alloc, &columns, &[1, 1], &[v, 1, -2])?;
    let [zero, one, less] = [Frac::whole(0), Frac::whole(1), Frac::whole(-1)];
    let cells = [(0, 0, 15), (0, 1, 15), (1, 2, 12), (0, 0, 11)];
    let x = [Frac::new(1, v), zero, Frac::new(1, 2)];
    trial(rt, alloc, &p, &cells, &End::Best(&x, &[one, less], zero, 4))
}

#[test]
fn coefficients(rt: HostRuntime) -> Result<(), Fail> {
    for v in &EDGES {
        coefficient(&rt, rt.alloc(), *v)?;
    }
    coefficient(&rt, rt.alloc(), MOST)
}

// x0 = v - 1 and x1 - x2 = 1 with costs -1, 1 and 0: the right sides' sum is v.
fn right_side(rt: &impl Abort, alloc: Global, v: i128) -> Result<(), Fail> {
    assert!(rt; v > 1);
    let columns: [&[Entry]; 3] = [&[at(0, 1)], &[at(1, 1)], &[at(1, -1)]];
    let p = problem(alloc, &columns, &[v - 1, 1], &[-1, 1, 0])?;
    let [zero, one, less] = [Frac::whole(0), Frac::whole(1), Frac::whole(-1)];
    let x = [Frac::whole(v - 1), one, zero];
    let end = End::Best(&x, &[less, one], Frac::whole(2 - v), 2);
    trial(rt, alloc, &p, &[(0, 0, 14), (1, 1, 11)], &end)
}

#[test]
fn right_sides(rt: HostRuntime) -> Result<(), Fail> {
    for v in &EDGES {
        right_side(&rt, rt.alloc(), *v)?;
    }
    right_side(&rt, rt.alloc(), MOST)
}

// (1 - v) * x0 - x2 = 0 and x0 + 3 * x1 + x2 = 1 with costs 0, 1 and 0: drive-out makes a pivot at 1 - v.
fn drive_out(rt: &impl Abort, alloc: Global, v: i128) -> Result<(), Fail> {
    assert!(rt; v > 1);
    let columns: [&[Entry]; 3] = [
        &[at(0, 1 - v), at(1, 1)],
        &[at(1, 3)],
        &[at(0, -1), at(1, 1)],
    ];
    let p = problem(alloc, &columns, &[0, 1], &[0, 1, 0])?;
    let [zero, third] = [Frac::whole(0), Frac::new(1, 3)];
    let cells = [(1, 1, 15), (0, 0, 12), (0, 2, 12)];
    let end = End::Best(&[zero, third, zero], &[third, third], third, 3);
    trial(rt, alloc, &p, &cells, &end)
}

#[test]
fn negative_pivots(rt: HostRuntime) -> Result<(), Fail> {
    for v in &EDGES {
        drive_out(&rt, rt.alloc(), *v)?;
    }
    Ok(())
}

// Rows pass 2^41 in phase one and come back, then again in drive-out, whose two pivots are negative: the first in a row of small whole
// numbers, the second in one that has passed.
#[test]
fn grows_and_shrinks(rt: HostRuntime) -> Result<(), Fail> {
    let columns: [&[Entry]; 3] = [
        &[at(0, -1), at(1, -2), at(2, 1_048_583)],
        &[at(1, -1_073_741_827)],
        &[at(0, 3), at(2, 2)],
    ];
    let p = problem(rt.alloc(), &columns, &[0, 0, 0], &[-1, 0, 2])?;
    let cells = [(2, 0, 17), (2, 2, 16), (0, 0, 16), (1, 1, 12)];
    let x = [Frac::whole(0), Frac::whole(0), Frac::whole(0)];
    let y = [
        Frac::new(2_097_168, 3_145_751),
        Frac::whole(0),
        Frac::new(-1, 3_145_751),
    ];
    let end = End::Best(&x, &y, Frac::whole(0), 4);
    trial(&rt, rt.alloc(), &p, &cells, &end)
}

// The first pivot of drive-out is negative, in a row that has passed 2^41; phase two follows.
#[test]
fn driven_among_fractions(rt: HostRuntime) -> Result<(), Fail> {
    let columns: [&[Entry]; 4] = [
        &[at(0, 3), at(1, -1)],
        &[at(1, -1_048_583)],
        &[at(0, 1)],
        &[at(0, 549_755_813_889), at(1, 1)],
    ];
    let p = problem(rt.alloc(), &columns, &[0, 0], &[2, 0, -1, 0])?;
    let cells = [
        (0, 0, 17),
        (0, 2, 15),
        (0, 3, 16),
        (1, 0, 14),
        (1, 1, 11),
        (1, 2, 13),
    ];
    let x = [
        Frac::whole(0),
        Frac::whole(0),
        Frac::whole(0),
        Frac::whole(0),
    ];
    let y = [Frac::whole(-1), Frac::whole(549_755_813_889)];
    let end = End::Best(&x, &y, Frac::whole(0), 6);
    trial(&rt, rt.alloc(), &p, &cells, &end)
}

// Equation 0 passes 2^41 at pivot 1 and comes back at pivot 2, and so does the cost row of phase one. The cost row of phase two stays
// long to the end.
#[test]
fn optimum_after_growth(rt: HostRuntime) -> Result<(), Fail> {
    let columns: [&[Entry]; 4] = [
        &[at(0, 2), at(1, 1_073_741_824)],
        &[at(0, 1), at(1, 4)],
        &[at(0, 3), at(2, 3)],
        &[at(0, 1)],
    ];
    let p = problem(
        rt.alloc(),
        &columns,
        &[1_000_003, 7, 5],
        &[1, -1_000_003, -3, 1],
    )?;
    let cells = [(1, 0, 25), (1, 1, 25), (2, 2, 24), (0, 3, 18)];
    let x = [
        Frac::whole(0),
        Frac::new(7, 4),
        Frac::new(5, 3),
        Frac::new(3_999_985, 4),
    ];
    let y = [Frac::whole(1), Frac::whole(-250_001), Frac::whole(-2)];
    let end = End::Best(&x, &y, Frac::whole(-750_014), 4);
    trial(&rt, rt.alloc(), &p, &cells, &end)
}

// Equation 1 and the cost row of phase two pass 2^41 in phase one and come back at the pivot of phase two.
#[test]
fn optimum_of_costs(rt: HostRuntime) -> Result<(), Fail> {
    let columns: [&[Entry]; 5] = [
        &[at(1, 2)],
        &[at(2, 3)],
        &[at(0, 2), at(2, 1_000_003)],
        &[at(1, 1_073_741_824), at(2, 4)],
        &[at(0, 1), at(1, -1)],
    ];
    let p = problem(rt.alloc(), &columns, &[2, 5, 1], &[-1, -1, 2, -1, -3])?;
    let cells = [(1, 0, 27), (2, 1, 24), (2, 2, 28), (0, 4, 24), (2, 1, 21)];
    let x = [
        Frac::new(7, 2),
        Frac::new(1, 3),
        Frac::whole(0),
        Frac::whole(0),
        Frac::whole(2),
    ];
    let y = [Frac::new(-7, 2), Frac::new(-1, 2), Frac::new(-1, 3)];
    let end = End::Best(&x, &y, Frac::new(-59, 6), 5);
    trial(&rt, rt.alloc(), &p, &cells, &end)
}

// Rows pass 2^41 at pivots 1 and 3 and come back at pivots 2 and 4.
#[test]
fn no_bound_after_growth(rt: HostRuntime) -> Result<(), Fail> {
    let columns: [&[Entry]; 5] = [
        &[at(1, -1), at(2, 1_073_741_827)],
        &[at(1, -2_097_152), at(2, 1_099_511_627_776)],
        &[at(2, 2_097_152)],
        &[at(2, -1_073_741_827)],
        &[at(2, -2)],
    ];
    let p = problem(rt.alloc(), &columns, &[0, 0, 0], &[2, 1, -1, 1, 2])?;
    let cells = [(2, 0, 25), (2, 2, 19), (1, 0, 16), (1, 1, 16)];
    let x = [
        Frac::whole(0),
        Frac::whole(0),
        Frac::whole(0),
        Frac::whole(0),
        Frac::whole(0),
    ];
    let ray = [
        Frac::whole(0),
        Frac::whole(0),
        Frac::new(1_073_741_827, 2_097_152),
        Frac::whole(1),
        Frac::whole(0),
    ];
    let end = End::NoBound(&x, &ray, 4);
    trial(&rt, rt.alloc(), &p, &cells, &end)
}

// Rows pass 2^41 at pivots 1 and 3 and come back at pivot 2.
#[test]
fn no_solution_after_growth(rt: HostRuntime) -> Result<(), Fail> {
    let columns: [&[Entry]; 3] = [
        &[at(0, 2_199_023_255_551), at(1, -1)],
        &[at(0, 1)],
        &[at(0, 3), at(1, 3)],
    ];
    let p = problem(rt.alloc(), &columns, &[0, 1], &[1, 1, 1])?;
    let cells = [(0, 0, 17), (0, 1, 15), (0, 2, 17)];
    let y = [Frac::whole(-1), Frac::whole(1)];
    let end = End::None(&y, 3);
    trial(&rt, rt.alloc(), &p, &cells, &end)
}
