//! Runs without a limit on pivots over the sparse tableau.
use crate::tables::{small, twice, wide};
use dc_cycle::{EndFault, bases, solve_ended};
use dc_lp::Problem;
use dc_simplex::Outcome;
use dc_sparse::Cross;
use std::alloc::Global;
use std::process::Abort;
use std::test::Fail;

fn run_to_end(rt: &impl Abort, alloc: Global, p: &Problem) -> Result<Outcome, EndFault> {
    assert!(rt; p.is_well_formed());
    assert!(rt; p.rows <= 2048);
    assert!(rt; p.columns.len() <= 8192);
    match bases(p.rows, p.columns.len()) {
        Some(budget) => solve_ended(alloc, p, &mut Cross::new(alloc), budget),
        None => Err(EndFault::NoMemory),
    }
}

#[test]
fn ends(rt: HostRuntime) -> Result<(), Fail> {
    let alloc = rt.alloc();
    assert!(rt;
        matches!(
            run_to_end(&rt, alloc, &small(alloc)?),
            Ok(Outcome::Optimal { pivots: 2, .. })
        )
    );
    assert!(rt;
        matches!(
            run_to_end(&rt, alloc, &twice(alloc)?),
            Ok(Outcome::Optimal { pivots: 1, .. })
        )
    );
    assert!(rt;
        matches!(
            run_to_end(&rt, alloc, &wide(alloc)?),
            Err(EndFault::Past128 { pivot: 1 })
        )
    );
    Ok(())
}
