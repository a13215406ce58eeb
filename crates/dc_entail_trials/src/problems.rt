//! The two problems, by their numbers.
use crate::tables::atom;
use dc_entail::{empty_problem, sup_problem};
use dc_lp::Problem;
use std::test::Fail;

fn is_problem(
    p: &Problem,
    rows: usize,
    columns: &[&[(usize, i128)]],
    b: &[i128],
    cost: &[i128],
) -> bool {
    p.rows == rows
        && p.b.as_slice() == b
        && p.cost.as_slice() == cost
        && p.columns.len() == columns.len()
        && p.columns.as_slice().iter().zip(columns).all(|(column, row)| {
            column.len() == row.len()
                && column
                    .as_slice()
                    .iter()
                    .zip(*row)
                    .all(|(entry, at)| entry.row == at.0 && entry.value == at.1)
        })
}

// n - 1 and -n
#[test]
fn of_emptiness(rt: HostRuntime) -> Result<(), Fail> {
    let alloc = rt.alloc();
    let hyps = [atom(alloc, &-1, &[1], 1)?, atom(alloc, &0, &[-1], 1)?];
    let p = empty_problem(alloc, &hyps, 1)?;
    assert!(rt; is_problem(&p, 2, &[&[(0, 1), (1, -1)], &[(0, -1)]], &[0, -1], &[0, 0]));
    Ok(())
}

// the form n over n and 10 - n, and over n - 1 and -n, which are dead
#[test]
fn of_a_form(rt: HostRuntime) -> Result<(), Fail> {
    let alloc = rt.alloc();
    let hyps = [atom(alloc, &0, &[1], 1)?, atom(alloc, &10, &[-1], 1)?];
    let p = sup_problem(alloc, &hyps, &[1])?;
    assert!(rt; is_problem(&p, 1, &[&[(0, 1)], &[(0, -1)]], &[1], &[0, 10]));
    let hyps = [atom(alloc, &-1, &[1], 1)?, atom(alloc, &0, &[-1], 1)?];
    let p = sup_problem(alloc, &hyps, &[1])?;
    assert!(rt; is_problem(&p, 1, &[&[(0, 1)], &[(0, -1)]], &[1], &[-1, 0]));
    Ok(())
}
