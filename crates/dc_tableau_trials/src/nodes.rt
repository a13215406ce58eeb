//! How many nodes a sparse tableau has, linked and free.
use crate::steps::{load, make_pivot, make_room};
use crate::tables::{small, sums};
use dc_sparse::Cross;
use std::process::Abort;
use std::test::Fail;

fn has(cross: &Cross, live: usize, spare: usize) -> bool {
    cross.live() == live && cross.spare() == spare
}

// 3 * x0 + 5 * x1 = 1 with costs 7 and 0: rows of 4, 4 and 1 entries. The pivot at the first cell
// leaves none in the first cost row and makes three in the second, so that five nodes are free.
#[test]
fn nodes_of_a_pivot(rt: HostRuntime) -> Result<(), Fail> {
    let p = small(rt.alloc())?;
    let [rows, columns] = [p.rows, p.columns.len()];
    assert!(rt; p.is_well_formed());
    let mut cross = Cross::new(rt.alloc());
    assert!(rt; has(&cross, 0, 0));
    load(&mut cross, &p)?;
    assert!(rt; has(&cross, 9, 0));
    make_room(&rt, &mut cross, rows, columns, 0, 0)?;
    assert!(rt; has(&cross, 9, 3));
    make_pivot(&rt, &mut cross, rows, columns, 0, 0);
    assert!(rt; has(&cross, 7, 5));
    load(&mut cross, &p)?;
    assert!(rt; has(&cross, 9, 3));
    Ok(())
}

// A refused growth leaves all as it was, and the call may be made again.
#[test]
fn refused_nodes(rt: HostRuntime) -> Result<(), Fail> {
    let p = sums(rt.alloc())?;
    assert!(rt; p.is_well_formed());
    let mut cross = Cross::new(rt.alloc());
    load(&mut cross, &p)?;
    assert!(rt; has(&cross, 22, 0));
    assert!(rt; cross.reserve(usize::MAX).is_err());
    assert!(rt; has(&cross, 22, 0));
    cross.reserve(5)?;
    assert!(rt; has(&cross, 22, 5));
    cross.reserve(4)?;
    assert!(rt; has(&cross, 22, 5));
    Ok(())
}
