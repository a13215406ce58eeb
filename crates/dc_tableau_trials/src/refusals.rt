//! Refusals: pivots of which a quotient, a product or a difference doesn't fit 128 bits, in rows of small whole numbers and in rows of
//! longer ones. The sparse tableau may hold the first as whole numbers over one denominator and holds the others as fractions; none of
//! that is seen. Which pivot doesn't fit, and by which value, was worked out by a table of fractions kept apart from this program.
use crate::runs::{End, ends};
use crate::steps::{break_at, stop_at};
use crate::tables::{HALF, LONG, MOST, at, problem};
use dc_lp::{Entry, Problem};
use dc_simplex::Dense;
use std::alloc::Global;
use std::process::Abort;
use std::test::Fail;

// Whether the pivot after so many is named as the first that doesn't fit, and not looked at where the budget is spent before.
fn is_past(rt: &impl Abort, alloc: Global, p: &Problem, made: usize) -> bool {
    assert!(rt; made < 100);
    let spent = made as u64;
    let past = spent + 1;
    ends(rt, alloc, p, spent, &End::Spent(spent)) && ends(rt, alloc, p, past, &End::Past(past))
}

// After these pivots the one at a cell is due, and a value of it doesn't fit.
fn breaks(
    rt: &impl Abort,
    alloc: Global,
    p: &Problem,
    cells: &[(usize, usize, usize)],
    row: usize,
    col: usize,
) -> Result<(), Fail> {
    break_at(rt, alloc, &mut Dense::new(alloc), p, cells, row, col)?;
    assert!(rt; is_past(rt, alloc, p, cells.len()));
    Ok(())
}

// After these pivots a column is to enter where a quotient of right side by entry doesn't fit.
fn stops(
    rt: &impl Abort,
    alloc: Global,
    p: &Problem,
    cells: &[(usize, usize, usize)],
    col: usize,
) -> Result<(), Fail> {
    stop_at(rt, alloc, &mut Dense::new(alloc), p, cells, col)?;
    assert!(rt; is_past(rt, alloc, p, cells.len()));
    Ok(())
}

// Pivot 2: a quotient by 2^126, which is judged after that of a whole row.
#[test]
fn quotient_behind_whole_rows(rt: HostRuntime) -> Result<(), Fail> {
    let columns: [&[Entry]; 3] = [
        &[at(1, -1)],
        &[at(2, -2), at(3, 5)],
        &[at(0, 1), at(2, HALF)],
    ];
    let p = problem(rt.alloc(), &columns, &[2, 0, 0, 1], &[2, 0, 1])?;
    stops(&rt, rt.alloc(), &p, &[(3, 1, 21)], 2)
}

// Pivot 2: a quotient whose right side has a size of 2^127 - 1 is judged before that of a whole row.
#[test]
fn quotient_before_whole_rows(rt: HostRuntime) -> Result<(), Fail> {
    let columns: [&[Entry]; 3] = [
        &[at(0, -2), at(1, 5)],
        &[at(0, 2), at(2, 2)],
        &[at(0, -2), at(1, 1)],
    ];
    let p = problem(rt.alloc(), &columns, &[-MOST, 0, 0], &[-1, 0, 1])?;
    stops(&rt, rt.alloc(), &p, &[(1, 0, 17)], 2)
}

// Pivot 3: a quotient of phase two, where the denominators are products.
#[test]
fn quotient_of_phase_two(rt: HostRuntime) -> Result<(), Fail> {
    let columns: [&[Entry]; 4] = [
        &[at(0, 1), at(1, 3)],
        &[at(1, 1_208_925_819_614_629_174_706_177)],
        &[at(0, LONG), at(1, LONG + 1)],
        &[at(0, LONG)],
    ];
    let p = problem(rt.alloc(), &columns, &[1, 2], &[1, 0, 2, -1])?;
    stops(&rt, rt.alloc(), &p, &[(1, 0, 22), (0, 2, 17)], 1)
}

// Pivot 5: every row is of small whole numbers at the start.
#[test]
fn quotient_of_grown_rows(rt: HostRuntime) -> Result<(), Fail> {
    let columns: [&[Entry]; 5] = [
        &[at(0, 1)],
        &[at(0, 3), at(2, 4_194_304), at(3, 5)],
        &[
            at(0, -1),
            at(1, 1_099_511_627_775),
            at(3, -1_099_511_627_775),
        ],
        &[at(0, 1_099_511_627_775), at(1, 2)],
        &[at(2, 1), at(3, 2)],
    ];
    let p = problem(
        rt.alloc(),
        &columns,
        &[0, 1, 0, 1_099_511_627_776],
        &[1, 1, 1, 1, 5],
    )?;
    stops(
        &rt,
        rt.alloc(),
        &p,
        &[(0, 0, 29), (0, 1, 36), (2, 2, 34), (1, 3, 37)],
        4,
    )
}

// Pivot 2: an entry of the row that leaves, divided by 2^126.
#[test]
fn division_of_phase_one(rt: HostRuntime) -> Result<(), Fail> {
    let columns: [&[Entry]; 3] = [&[at(1, 5), at(2, 1)], &[at(1, -1)], &[at(2, HALF)]];
    let p = problem(rt.alloc(), &columns, &[0, 0, 2], &[-1, 0, 1])?;
    breaks(&rt, rt.alloc(), &p, &[(1, 0, 18)], 2, 1)
}

// Pivot 3: the same in drive-out.
#[test]
fn division_of_drive_out(rt: HostRuntime) -> Result<(), Fail> {
    let columns: [&[Entry]; 2] = [&[at(0, HALF), at(1, 3)], &[at(0, LONG), at(1, 5)]];
    let p = problem(rt.alloc(), &columns, &[0, 0], &[2, 0])?;
    breaks(&rt, rt.alloc(), &p, &[(0, 0, 11), (0, 1, 10)], 1, 0)
}

// Pivot 3: the same in phase two, after a negative pivot of drive-out in a row of fractions.
#[test]
fn division_of_phase_two(rt: HostRuntime) -> Result<(), Fail> {
    let columns: [&[Entry]; 3] = [
        &[at(0, -1_208_925_819_614_629_174_706_177), at(1, -1)],
        &[at(1, 4_194_304)],
        &[at(1, LONG + 1)],
    ];
    let p = problem(rt.alloc(), &columns, &[0, 1], &[0, 1, -1])?;
    breaks(&rt, rt.alloc(), &p, &[(1, 1, 13), (0, 0, 11)], 1, 2)
}

// Pivot 2: a product of a whole row with the row of fractions that leaves.
#[test]
fn product_of_whole_row(rt: HostRuntime) -> Result<(), Fail> {
    let columns: [&[Entry]; 2] = [
        &[at(0, 1_048_583), at(1, -2)],
        &[at(0, 3), at(1, 1_237_940_039_285_380_274_899_124_225)],
    ];
    let p = problem(rt.alloc(), &columns, &[1, 0], &[1, 2])?;
    breaks(&rt, rt.alloc(), &p, &[(0, 0, 15)], 1, 1)
}

// Pivot 2: the same in drive-out.
#[test]
fn product_of_whole_row_driven(rt: HostRuntime) -> Result<(), Fail> {
    let columns: [&[Entry]; 2] = [&[at(0, 5), at(1, HALF)], &[at(0, 1), at(1, -1)]];
    let p = problem(rt.alloc(), &columns, &[0, 0], &[5, -1])?;
    breaks(&rt, rt.alloc(), &p, &[(0, 0, 11)], 1, 1)
}

// Pivot 2: a product of a row of fractions with the whole row that is driven out.
#[test]
fn product_by_whole_row(rt: HostRuntime) -> Result<(), Fail> {
    let columns: [&[Entry]; 2] = [&[at(0, 1), at(1, -2)], &[at(0, MOST)]];
    let p = problem(rt.alloc(), &columns, &[0, 0], &[0, 1])?;
    breaks(&rt, rt.alloc(), &p, &[(0, 1, 9)], 1, 0)
}

// Pivot 5: the same for the cost row of phase two, whose costs are too long for a whole row; a negative pivot comes before.
#[test]
fn product_of_costs(rt: HostRuntime) -> Result<(), Fail> {
    let columns: [&[Entry]; 5] = [
        &[at(1, -1)],
        &[at(0, 3), at(1, 1)],
        &[at(0, 1)],
        &[at(0, 1), at(1, 1_073_741_827)],
        &[at(0, 5), at(1, 5)],
    ];
    let p = problem(
        rt.alloc(),
        &columns,
        &[0, 0],
        &[2, 0, -1_237_940_039_285_380_274_899_124_225, -1, -1],
    )?;
    breaks(
        &rt,
        rt.alloc(),
        &p,
        &[(0, 1, 21), (0, 3, 22), (1, 0, 16), (1, 1, 17)],
        1,
        2,
    )
}

// Pivot 3: a product of two rows of fractions.
#[test]
fn product_of_fractions(rt: HostRuntime) -> Result<(), Fail> {
    let columns: [&[Entry]; 3] = [
        &[at(1, -1)],
        &[at(0, 3), at(1, -1)],
        &[at(0, 1), at(1, LONG)],
    ];
    let p = problem(rt.alloc(), &columns, &[1, 0], &[-1, 0, -1])?;
    breaks(&rt, rt.alloc(), &p, &[(0, 1, 16), (1, 2, 14)], 0, 0)
}

// Pivot 2: products fit, and a difference of a whole row with a row of fractions doesn't.
#[test]
fn difference_of_whole_row(rt: HostRuntime) -> Result<(), Fail> {
    let columns: [&[Entry]; 3] = [&[at(0, 2)], &[at(0, MOST)], &[at(0, 1)]];
    let p = problem(rt.alloc(), &columns, &[1], &[0, 2, -1])?;
    breaks(&rt, rt.alloc(), &p, &[(0, 0, 7)], 0, 2)
}

// Pivot 3: the same for a row of fractions with a whole row.
#[test]
fn difference_by_whole_row(rt: HostRuntime) -> Result<(), Fail> {
    let columns: [&[Entry]; 3] = [&[at(0, 3), at(1, -HALF)], &[at(0, 1)], &[at(1, 2)]];
    let p = problem(rt.alloc(), &columns, &[2, 1], &[0, 2, 0])?;
    breaks(&rt, rt.alloc(), &p, &[(0, 1, 15), (1, 2, 11)], 0, 0)
}

// Pivot 3: the same for two rows of fractions.
#[test]
fn difference_of_fractions(rt: HostRuntime) -> Result<(), Fail> {
    let columns: [&[Entry]; 3] = [
        &[at(0, -1), at(1, 2)],
        &[at(0, -2), at(1, LONG), at(3, -2)],
        &[at(1, 1), at(2, -1), at(3, 3)],
    ];
    let p = problem(rt.alloc(), &columns, &[1, 2, 0, 2], &[5, 1, 1])?;
    breaks(&rt, rt.alloc(), &p, &[(1, 0, 27), (1, 1, 28)], 3, 2)
}

// Pivot 2: every row is of small whole numbers at the start.
#[test]
fn difference_of_grown_rows(rt: HostRuntime) -> Result<(), Fail> {
    let columns: [&[Entry]; 2] = [
        &[at(0, 1_099_511_627_775), at(1, -1)],
        &[at(0, -2), at(1, 1_099_511_627_776), at(2, -1)],
    ];
    let p = problem(rt.alloc(), &columns, &[1, 0, 2_097_152, 0], &[0, -1])?;
    breaks(&rt, rt.alloc(), &p, &[(0, 0, 19)], 1, 1)
}

// Pivot 2: a negative pivot of drive-out, at 2 - 2^127, of which a product with a whole row doesn't fit.
#[test]
fn negative_pivot_past_product(rt: HostRuntime) -> Result<(), Fail> {
    let columns: [&[Entry]; 3] = [
        &[at(0, 1 - MOST), at(1, 1)],
        &[at(1, 3)],
        &[at(0, -1), at(1, 1)],
    ];
    let p = problem(rt.alloc(), &columns, &[0, 1], &[0, 1, 0])?;
    breaks(&rt, rt.alloc(), &p, &[(1, 1, 15)], 0, 0)
}

// Pivot 2: the same at 1 - 2^127, where a difference in the whole cost row of phase two doesn't fit.
#[test]
fn negative_pivot_past_difference(rt: HostRuntime) -> Result<(), Fail> {
    let columns: [&[Entry]; 3] = [&[at(0, -MOST)], &[at(0, -2), at(1, 2)], &[at(1, 3)]];
    let p = problem(rt.alloc(), &columns, &[0, 1], &[1, 0, -1])?;
    breaks(&rt, rt.alloc(), &p, &[(1, 2, 14)], 0, 0)
}
