//! Counts worked out by hand, and small problems over the dense tableau.
use crate::tables::{at, problem};
use dc_cycle::{EndFault, bases, solve_ended};
use dc_lp::Problem;
use dc_simplex::{Dense, Outcome};
use std::alloc::Global;
use std::process::Abort;
use std::test::Fail;

fn run_to_end(rt: &impl Abort, alloc: Global, p: &Problem) -> Result<Outcome, EndFault> {
    assert!(rt; p.is_well_formed());
    assert!(rt; p.rows <= 2048);
    assert!(rt; p.columns.len() <= 8192);
    match bases(p.rows, p.columns.len()) {
        Some(budget) => solve_ended(alloc, p, &mut Dense::new(alloc), budget),
        None => Err(EndFault::NoMemory),
    }
}

// C(3, 1), C(3, 2), C(20, 10), the only set of no columns, and C(140, 40), which is about 10^35
#[test]
fn counts(rt: HostRuntime) {
    assert_eq!(rt; bases(1, 2), Some(3));
    assert_eq!(rt; bases(2, 1), Some(3));
    assert_eq!(rt; bases(10, 10), Some(184_756));
    assert_eq!(rt; bases(0, 8192), Some(1));
    assert_eq!(rt; bases(40, 100), None);
}

// 3 * x0 + 5 * x1 = 1 with costs 7 and 0; x0 = 1 and 2 * x0 = 2 with cost 1; and a problem whose
// first pivot doesn't fit
#[test]
fn ends(rt: HostRuntime) -> Result<(), Fail> {
    let two = problem(rt.alloc(), &[&[at(0, 3)], &[at(0, 5)]], &[1], &[7, 0])?;
    assert!(rt;
        matches!(
            run_to_end(&rt, rt.alloc(), &two),
            Ok(Outcome::Optimal { pivots: 2, .. })
        )
    );
    let one = problem(rt.alloc(), &[&[at(0, 1), at(1, 2)]], &[1, 2], &[1])?;
    assert!(rt;
        matches!(
            run_to_end(&rt, rt.alloc(), &one),
            Ok(Outcome::Optimal { pivots: 1, .. })
        )
    );
    let wide = 1_267_650_600_228_229_401_496_703_205_376;
    let past = problem(
        rt.alloc(),
        &[&[at(0, wide + 1)], &[at(0, wide + 3)]],
        &[1],
        &[wide + 5, 0],
    )?;
    assert!(rt;
        matches!(
            run_to_end(&rt, rt.alloc(), &past),
            Err(EndFault::Past128 { pivot: 1 })
        )
    );
    Ok(())
}
