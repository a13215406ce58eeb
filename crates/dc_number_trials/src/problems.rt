//! Small problems written out by hand, with a vector for each verdict.
use crate::tables::{at, problem};
use dc_frac::{Frac, MAX};
use dc_lp::{
    Entry, Problem, Verdict, add_term, check_dual, check_primal, check_ray, check_refutation, dot,
};
use std::process::Abort;
use std::test::Fail;

fn primal(rt: &impl Abort, p: &Problem, x: &[Frac]) -> Verdict {
    assert!(rt; p.is_well_formed());
    assert!(rt; x.len() == p.columns.len());
    check_primal(p, x)
}

fn dual(rt: &impl Abort, p: &Problem, x: &[Frac], y: &[Frac]) -> Verdict {
    assert!(rt; p.is_well_formed());
    assert!(rt; x.len() == p.columns.len());
    assert!(rt; y.len() == p.rows);
    check_dual(p, x, y)
}

fn refutation(rt: &impl Abort, p: &Problem, y: &[Frac]) -> Verdict {
    assert!(rt; p.is_well_formed());
    assert!(rt; y.len() == p.rows);
    check_refutation(p, y)
}

fn ray(rt: &impl Abort, p: &Problem, r: &[Frac]) -> Verdict {
    assert!(rt; p.is_well_formed());
    assert!(rt; r.len() == p.columns.len());
    check_ray(p, r)
}

// x0 - x1 = 0 with costs -1 and 0
#[test]
fn rays(rt: HostRuntime) -> Result<(), Fail> {
    let p = problem(rt.alloc(), &[&[at(0, 1)], &[at(0, -1)]], &[0], &[-1, 0])?;
    let [zero, one, less] = [Frac::whole(0), Frac::whole(1), Frac::whole(-1)];
    for (r, verdict) in [
        ([one, one], Verdict::Holds),
        ([less, less], Verdict::Fails { index: 0 }),
        ([one, less], Verdict::Fails { index: 1 }),
        ([one, zero], Verdict::Fails { index: 2 }),
        ([zero, zero], Verdict::Fails { index: 3 }),
    ] {
        assert_eq!(rt; ray(&rt, &p, &r), verdict);
    }
    Ok(())
}

// x0 = -1
#[test]
fn refutations(rt: HostRuntime) -> Result<(), Fail> {
    let p = problem(rt.alloc(), &[&[at(0, 1)]], &[-1], &[0])?;
    for (y, verdict) in [
        (Frac::whole(-1), Verdict::Holds),
        (Frac::whole(1), Verdict::Fails { index: 0 }),
        (Frac::whole(0), Verdict::Fails { index: 1 }),
    ] {
        assert_eq!(rt; refutation(&rt, &p, &[y]), verdict);
    }
    Ok(())
}

// x0 = 1 and 2 * x0 = 2 with cost 1
#[test]
fn duals(rt: HostRuntime) -> Result<(), Fail> {
    let p = problem(rt.alloc(), &[&[at(0, 1), at(1, 2)]], &[1, 2], &[1])?;
    let [zero, one, half] = [Frac::whole(0), Frac::whole(1), Frac::new(1, 2)];
    for (x, verdict) in [
        (one, Verdict::Holds),
        (Frac::whole(-1), Verdict::Fails { index: 0 }),
        (Frac::whole(2), Verdict::Fails { index: 1 }),
    ] {
        assert_eq!(rt; primal(&rt, &p, &[x]), verdict);
    }
    for (y, verdict) in [
        ([one, zero], Verdict::Holds),
        ([zero, half], Verdict::Holds),
        ([zero, one], Verdict::Fails { index: 0 }),
        ([half, zero], Verdict::Fails { index: 1 }),
    ] {
        assert_eq!(rt; dual(&rt, &p, &[one], &y), verdict);
    }
    Ok(())
}

// x0 + x1 - x2 = MAX, whose left side passes 128 bits on the way and comes back
#[test]
fn sums_that_pass_128_bits(rt: HostRuntime) -> Result<(), Fail> {
    let [zero, one, most] = [Frac::whole(0), Frac::whole(1), Frac::whole(MAX)];
    let row: [&[Entry]; 3] = [&[at(0, 1)], &[at(0, 1)], &[at(0, -1)]];
    let p = problem(rt.alloc(), &row, &[MAX], &[0, 0, 0])?;
    for (x, verdict) in [
        ([most, one, one], Verdict::Past128 { index: 3 }),
        ([one, most, one], Verdict::Past128 { index: 3 }),
        ([most, zero, zero], Verdict::Holds),
    ] {
        assert_eq!(rt; primal(&rt, &p, &x), verdict);
    }
    let column: [&[Entry]; 1] = [&[at(0, 1), at(1, 1), at(2, -1)]];
    let p = problem(rt.alloc(), &column, &[0, 0, 0], &[MAX])?;
    for (y, verdict) in [
        ([most, one, one], Verdict::Past128 { index: 0 }),
        ([most, zero, zero], Verdict::Holds),
    ] {
        assert_eq!(rt; dual(&rt, &p, &[zero], &y), verdict);
    }
    Ok(())
}

// 3 * 1/2 - 5 * 1/3 = -1/6; a partial sum that passes 128 bits is refused though the whole sum is small
#[test]
fn folds(rt: HostRuntime) -> Result<(), Fail> {
    let [half, third, most] = [Frac::new(1, 2), Frac::new(1, 3), Frac::whole(MAX)];
    let result = Some(Frac::new(-1, 6));
    assert_eq!(rt; dot(&[3, 0, -5], &[half, most, third]), result);
    assert_eq!(rt; add_term(Frac::new(3, 2), -5, third), result);
    assert_eq!(rt;
        dot(&[1, 1, -1], &[most, Frac::whole(1), Frac::whole(1)]),
        None
    );
    assert_eq!(rt; add_term(half, 2, most), None);
    Ok(())
}

// of a product that passes 128 bits and a test that is false, the first decides
#[test]
fn the_first_decides(rt: HostRuntime) -> Result<(), Fail> {
    for (a0, a1, verdict) in [
        (2, 1, Verdict::Past128 { index: 1 }),
        (1, 2, Verdict::Fails { index: 1 }),
    ] {
        let p = problem(rt.alloc(), &[&[at(0, a0), at(1, a1)]], &[0, 0], &[0])?;
        assert_eq!(rt; primal(&rt, &p, &[Frac::whole(MAX)]), verdict);
    }
    Ok(())
}

#[test]
fn well_formed(rt: HostRuntime) -> Result<(), Fail> {
    let good: [&[Entry]; 2] = [&[at(0, 1), at(1, -2)], &[]];
    let p = problem(rt.alloc(), &good, &[0, MAX], &[MAX, -MAX])?;
    assert!(rt; p.is_well_formed());
    for (first, second, b, cost) in [
        (at(1, 1), at(0, 1), 0, 0),
        (at(0, 1), at(0, 1), 0, 0),
        (at(0, 1), at(2, 1), 0, 0),
        (at(0, 1), at(1, 0), 0, 0),
        (at(0, MAX), at(1, -1), 0, 0),
        (at(0, 1), at(1, 1), MAX, 0),
        (at(0, 1), at(1, 1), 0, i128::MIN),
    ] {
        let p = problem(rt.alloc(), &[&[first, second]], &[1, b], &[cost])?;
        assert!(rt; !p.is_well_formed());
    }
    Ok(())
}
