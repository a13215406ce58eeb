//! Sources with their rows and bounds.
use crate::asked::ask;
use dc_parse::parse_proc;
use dc_rows::{Candidates, candidates};
use dc_system::{build, fold};
use std::test::Fail;

struct Row {
    source: &'static str,
    when: &'static str,
    pairs: bool,
    rows: &'static [&'static [i64]],
    bounds: &'static [i64],
}

const LOOP: &str = "proc f(n) { var i; while (i < n) { tick 2; i = i + 1; } }";

// The papers' worked rows and, by hand, what they leave out: the rows of intervals alone, which end
// with those of the guards.
const LOOPS: &[Row] = &[
    Row {
        source: LOOP,
        when: "0 <= n && n <= 100",
        pairs: true,
        rows: &[
            &[1, 0],
            &[-1, 0],
            &[0, 1],
            &[0, -1],
            &[1, -1],
            &[-1, 1],
            &[1, 1],
            &[-1, -1],
        ],
        bounds: &[-101, -100, -99, -3, -2, -1, 0, 1, 2, 3, 99, 100, 101],
    },
    Row {
        source: LOOP,
        when: "0 <= n && n <= 100",
        pairs: false,
        rows: &[&[1, 0], &[-1, 0], &[0, 1], &[0, -1], &[1, -1], &[-1, 1]],
        bounds: &[-101, -100, -99, -3, -2, -1, 0, 1, 2, 3, 99, 100, 101],
    },
];

const SHAPES: &[Row] = &[
    // Pairs go by the first variable and then by the second one.
    Row {
        source: "proc f(a, b, c) { }",
        when: "true",
        pairs: true,
        rows: &[
            &[1, 0, 0],
            &[-1, 0, 0],
            &[0, 1, 0],
            &[0, -1, 0],
            &[0, 0, 1],
            &[0, 0, -1],
            &[1, -1, 0],
            &[-1, 1, 0],
            &[1, 1, 0],
            &[-1, -1, 0],
            &[1, 0, -1],
            &[-1, 0, 1],
            &[1, 0, 1],
            &[-1, 0, -1],
            &[0, 1, -1],
            &[0, -1, 1],
            &[0, 1, 1],
            &[0, -1, -1],
        ],
        bounds: &[-1, 0, 1],
    },
    // The condition's rows come before the guards', each at its first place; the condition says
    // nothing of the local.
    Row {
        source: "proc f(n) { var x; assume (3*n <= x); assume (2*n <= 1); }",
        when: "2*n <= 7",
        pairs: false,
        rows: &[&[1, 0], &[-1, 0], &[0, 1], &[0, -1], &[-2, 0], &[-3, 1]],
        bounds: &[-8, -7, -6, -4, -3, -2, -1, 0, 1, 2, 3, 4, 6, 7, 8],
    },
    // The guard 2n <= z <= 3n of the chosen value z gives no row.
    Row {
        source: "proc f(n) { var x; x = any(2*n, 3*n); assume (2*x - n <= 5); }",
        when: "true",
        pairs: false,
        rows: &[&[1, 0], &[-1, 0], &[0, 1], &[0, -1], &[1, -2]],
        bounds: &[-6, -5, -4, -3, -2, -1, 0, 1, 2, 3, 4, 5, 6],
    },
    // A comparison of numbers gives no row.
    Row {
        source: "proc f(n) { assume (4 <= 9); }",
        when: "0 <= 1",
        pairs: true,
        rows: &[&[1], &[-1]],
        bounds: &[-10, -9, -8, -5, -4, -3, -2, -1, 0, 1, 2, 3, 4, 5, 8, 9, 10],
    },
    // Without variables there are no rows.
    Row {
        source: "proc f() { assume (1 <= 0); tick 1; }",
        when: "true",
        pairs: true,
        rows: &[],
        bounds: &[-2, -1, 0, 1, 2],
    },
];

const SIZES: &[Row] = &[
    // All neighbours of the largest literal are within the size.
    Row {
        source: "proc f() { tick 2147483647; }",
        when: "true",
        pairs: false,
        rows: &[],
        bounds: &[
            -2147483648,
            -2147483647,
            -2147483646,
            -1,
            0,
            1,
            2147483646,
            2147483647,
            2147483648,
        ],
    },
    // The condition's constant is -2147483648, one neighbour of which is too large on each side.
    Row {
        source: "proc f(n) { }",
        when: "2147483647 < n",
        pairs: false,
        rows: &[&[1], &[-1]],
        bounds: &[-2147483648, -2147483647, -1, 0, 1, 2147483647, 2147483648],
    },
];

fn has_rows(found: &Candidates, rows: &[&[i64]]) -> bool {
    let mut same = found.rows.len() == rows.len();
    for (row, expected) in found.rows.as_slice().iter().zip(rows) {
        same = same && row.as_slice() == *expected;
    }
    same
}

#[test]
fn rows_and_bounds_by_example(rt: HostRuntime) -> Result<(), Fail> {
    let alloc = rt.alloc();
    for table in [LOOPS, SHAPES, SIZES] {
        for row in table {
            let found = ask(alloc, row.source, row.when, row.pairs)??;
            assert!(rt; has_rows(&found, row.rows), "rows of {}", row.source);
            assert!(rt;
                found.bounds.as_slice() == row.bounds,
                "bounds of {}",
                row.source
            );
        }
    }
    Ok(())
}

// Folding turns the guard y <= n into one over n alone: rows are taken from the system that isn't
// folded.
#[test]
fn folding_changes_the_rows(rt: HostRuntime) -> Result<(), Fail> {
    let alloc = rt.alloc();
    let source = "proc f(n) { var x, y; x = n + 1; y = 2*x; x = x - y; tick x; assume (y <= n); }";
    let p = parse_proc(alloc, source.as_bytes())?;
    let built = build(alloc, &p)?;
    let folded = fold(alloc, &built)?;
    let singles: [&[i64]; 6] = [
        &[1, 0, 0],
        &[-1, 0, 0],
        &[0, 1, 0],
        &[0, -1, 0],
        &[0, 0, 1],
        &[0, 0, -1],
    ];
    assert!(rt; has_rows(&candidates(alloc, &folded, &[], false)?, &singles));
    let with_guard: [&[i64]; 7] = [
        &[1, 0, 0],
        &[-1, 0, 0],
        &[0, 1, 0],
        &[0, -1, 0],
        &[0, 0, 1],
        &[0, 0, -1],
        &[1, 0, -1],
    ];
    assert!(rt; has_rows(&candidates(alloc, &built, &[], false)?, &with_guard));
    Ok(())
}
