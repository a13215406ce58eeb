//! Replays: their costs, and each fault with its turn.
use dc_parse::parse_proc;
use dc_trace::{Trace, TraceFault, replay};
use sqlite_items::Items;
use std::alloc::{AllocError, Global};
use std::test::Fail;

// A source, its input, the choices, the number of turns, and what the replay answers.
type Row = (
    &'static str,
    &'static [i64],
    &'static [i64],
    u64,
    Result<i128, TraceFault>,
);

const ENOUGH: u64 = 1000000;

const MAX: i128 = 170141183460469231731687303715884105727;

const TWICE: &str = "proc f(n) { var i; while (i < n) { tick 2; i = i + 1; } }";

const ONCE: &str = "proc f(n) { var i; while (i < n) { tick 1; i = i + 1; } }";

const EITHER: &str = "proc f(n) { if (*) { tick 5; } else { tick 1; } }";

const RANGE: &str = "proc f(n) { var x; x = any(0, n); tick x; }";

const ANY: &str = "proc f() { var x; skip; x = any; tick x; }";

const ENDLESS: &str = "proc f(n) { while (true) { skip; } }";

const NESTED: &str = "proc f() { while (*) { tick 1; while (*) { tick 10; } } }";

const TRIANGLE: &str =
    "proc f(n) { var i, j; while (i < n) { j = 0; while (j < i) { tick 1; j = j + 1; } i = i + 1; } }";

// The pairs whose thresholds are worked out in the language's examples.
const COSTS: [Row; 22] = [
    (TWICE, &[100], &[], ENOUGH, Ok(200)),
    (ONCE, &[100], &[], ENOUGH, Ok(100)),
    (ONCE, &[0], &[], 1, Ok(0)),
    (EITHER, &[0], &[1], ENOUGH, Ok(5)),
    (EITHER, &[0], &[0], ENOUGH, Ok(1)),
    ("proc f(n) { tick 2; }", &[0], &[], ENOUGH, Ok(2)),
    (RANGE, &[7], &[7], 2, Ok(7)),
    (RANGE, &[7], &[0], 2, Ok(0)),
    (RANGE, &[7], &[3], 2, Ok(3)),
    (ANY, &[], &[-5], 3, Ok(-5)),
    (NESTED, &[], &[1, 1, 1, 0, 1, 0, 0], 11, Ok(22)),
    (NESTED, &[], &[0], 1, Ok(0)),
    (TRIANGLE, &[10], &[], ENOUGH, Ok(45)),
    (ONCE, &[100], &[], 301, Ok(100)),
    ("proc f(n) { }", &[5], &[], 0, Ok(0)),
    (
        "proc f(n) { var i; n = n + 1; tick n + i; }",
        &[3],
        &[],
        2,
        Ok(4),
    ),
    (
        "proc f(n) { if (n > 0) { tick 1; } else { tick 2; } tick 4; }",
        &[1],
        &[],
        3,
        Ok(5),
    ),
    (
        "proc f(n) { if (n > 0) { tick 1; } else { tick 2; } tick 4; }",
        &[0],
        &[],
        3,
        Ok(6),
    ),
    (
        "proc f(n) { skip; assume (n >= 0 && n != 4 || n < -9); tick n; }",
        &[3],
        &[],
        3,
        Ok(3),
    ),
    (
        "proc f(a, b) { tick a - 2 * b; tick -b; }",
        &[7, 5],
        &[],
        2,
        Ok(-8),
    ),
    (
        "proc f(n) { tick 4 * n * n + (4 * n * n - 1); }",
        &[4611686018427387904],
        &[],
        1,
        Ok(MAX),
    ),
    (
        "proc f(n) { tick 1 - 4 * n * n - 4 * n * n; }",
        &[4611686018427387904],
        &[],
        1,
        Ok(-MAX),
    ),
];

// The input of the rows below: 4 * n * n is 2^126.
const HUGE: &[i64] = &[4611686018427387904];

const FAULTS: [Row; 31] = [
    (
        RANGE,
        &[7],
        &[8],
        ENOUGH,
        Err(TraceFault::Blocked { turn: 1 }),
    ),
    (
        RANGE,
        &[7],
        &[-1],
        ENOUGH,
        Err(TraceFault::Blocked { turn: 1 }),
    ),
    (
        RANGE,
        &[7],
        &[],
        ENOUGH,
        Err(TraceFault::NoChoice { turn: 1 }),
    ),
    (
        RANGE,
        &[-1],
        &[0],
        ENOUGH,
        Err(TraceFault::Blocked { turn: 1 }),
    ),
    (
        ENDLESS,
        &[0],
        &[],
        ENOUGH,
        Err(TraceFault::Unfinished { turn: 1000001 }),
    ),
    (
        ENDLESS,
        &[0],
        &[],
        0,
        Err(TraceFault::Unfinished { turn: 1 }),
    ),
    (
        EITHER,
        &[0],
        &[1, 2],
        ENOUGH,
        Err(TraceFault::LeftOver { used: 1 }),
    ),
    (
        EITHER,
        &[0],
        &[],
        ENOUGH,
        Err(TraceFault::NoChoice { turn: 1 }),
    ),
    (
        EITHER,
        &[0],
        &[2],
        ENOUGH,
        Err(TraceFault::BadChoice { turn: 1 }),
    ),
    (
        EITHER,
        &[0],
        &[-1],
        ENOUGH,
        Err(TraceFault::BadChoice { turn: 1 }),
    ),
    (
        EITHER,
        &[0],
        &[1],
        1,
        Err(TraceFault::Unfinished { turn: 2 }),
    ),
    (
        "proc f(n) { }",
        &[5],
        &[1],
        0,
        Err(TraceFault::LeftOver { used: 0 }),
    ),
    (ANY, &[], &[], ENOUGH, Err(TraceFault::NoChoice { turn: 2 })),
    (
        NESTED,
        &[],
        &[1, 1, 1, 0, 1, 0],
        ENOUGH,
        Err(TraceFault::NoChoice { turn: 11 }),
    ),
    (
        NESTED,
        &[],
        &[1, 1, 2],
        ENOUGH,
        Err(TraceFault::BadChoice { turn: 5 }),
    ),
    (
        NESTED,
        &[],
        &[2],
        ENOUGH,
        Err(TraceFault::BadChoice { turn: 1 }),
    ),
    (
        NESTED,
        &[],
        &[1, 1, 1, 0, 1, 0, 0, 0],
        ENOUGH,
        Err(TraceFault::LeftOver { used: 7 }),
    ),
    (
        NESTED,
        &[],
        &[1, 1, 1, 0, 1, 0, 0],
        10,
        Err(TraceFault::Unfinished { turn: 11 }),
    ),
    (
        ONCE,
        &[100],
        &[],
        300,
        Err(TraceFault::Unfinished { turn: 301 }),
    ),
    (
        "proc f(n) { skip; assume (n >= 0); tick n; }",
        &[-1],
        &[],
        ENOUGH,
        Err(TraceFault::Blocked { turn: 2 }),
    ),
    (
        "proc f(n) { if (n > 0) { assume (false); } }",
        &[1],
        &[],
        ENOUGH,
        Err(TraceFault::Blocked { turn: 2 }),
    ),
    // a value of -2^127, one of 2^127, a subexpression past the bound in an expression that isn't
    (
        "proc f(n) { tick -4 * n * n - 4 * n * n; }",
        HUGE,
        &[],
        ENOUGH,
        Err(TraceFault::Past128 { turn: 1 }),
    ),
    (
        "proc f(n) { skip; tick 4 * n * n + 4 * n * n; }",
        HUGE,
        &[],
        ENOUGH,
        Err(TraceFault::Past128 { turn: 2 }),
    ),
    (
        "proc f(n) { tick 8 * n * n - 8 * n * n; }",
        HUGE,
        &[],
        ENOUGH,
        Err(TraceFault::Past128 { turn: 1 }),
    ),
    (
        "proc f(n) { var x; x = 8 * n * n - 1; }",
        HUGE,
        &[],
        ENOUGH,
        Err(TraceFault::Past128 { turn: 1 }),
    ),
    // a cost of 2^127 and one of -2^127
    (
        "proc f(n) { tick 4 * n * n; tick 4 * n * n; }",
        HUGE,
        &[],
        ENOUGH,
        Err(TraceFault::Past128 { turn: 2 }),
    ),
    (
        "proc f(n) { tick -4 * n * n; tick -4 * n * n; }",
        HUGE,
        &[],
        ENOUGH,
        Err(TraceFault::Past128 { turn: 2 }),
    ),
    // of two faults in one turn
    (
        "proc f(n) { var x; x = 4 * n * n; assume (false && x + x > 0); }",
        HUGE,
        &[],
        ENOUGH,
        Err(TraceFault::Past128 { turn: 2 }),
    ),
    (
        "proc f(n) { var x; x = 4 * n * n; if (true || x + x > 0) { skip; } }",
        HUGE,
        &[],
        ENOUGH,
        Err(TraceFault::Past128 { turn: 2 }),
    ),
    (
        "proc f(n) { var x, y; x = 4 * n * n; y = any(1, x + x); }",
        HUGE,
        &[0],
        ENOUGH,
        Err(TraceFault::Past128 { turn: 2 }),
    ),
    (
        "proc f(n) { var x, y; x = 4 * n * n; y = any(1, x + x); }",
        HUGE,
        &[],
        ENOUGH,
        Err(TraceFault::NoChoice { turn: 2 }),
    ),
];

// Whether the replay of a row answers as it says.
fn answers(alloc: Global, row: &Row) -> Result<bool, AllocError> {
    let (source, input, choices, turns, expected) = row;
    let Ok(p) = parse_proc(alloc, source.as_bytes()) else {
        return Ok(false);
    };
    let t = Trace {
        input: Items::from_slice(alloc, input)?,
        choices: Items::from_slice(alloc, choices)?,
    };
    if t.input.len() != p.params || *turns > ENOUGH {
        return Ok(false);
    }
    Ok(replay(alloc, &p, &t, *turns) == *expected)
}

#[test]
fn costs(rt: HostRuntime) -> Result<(), Fail> {
    for row in &COSTS {
        assert!(rt;
            answers(rt.alloc(), row)?,
            "{:?} {:?} {:?}",
            row.0,
            row.1,
            row.2
        );
    }
    Ok(())
}

#[test]
fn faults(rt: HostRuntime) -> Result<(), Fail> {
    for row in &FAULTS {
        assert!(rt;
            answers(rt.alloc(), row)?,
            "{:?} {:?} {:?}",
            row.0,
            row.1,
            row.2
        );
    }
    Ok(())
}
