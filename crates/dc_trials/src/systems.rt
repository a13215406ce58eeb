//! Sources, and the systems of them.
use crate::text::system_text;
use dc_parse::parse_proc;
use dc_syntax::Count;
use dc_system::{SystemFault, build, fold};
use std::alloc::{AllocError, Global};
use std::test::Fail;

/// A source, the text of its system, and that of its folded system.
#[derive(Clone, Copy)]
struct Row {
    source: &'static str,
    built: &'static str,
    folded: &'static str,
}

const LOOP: Row = Row {
    source: "proc f(n) { var i; while (i < n) { tick 1; i = i + 1; } }",
    built: "2 variables, 1 parameters, 4 locations, literals 1
0 to 1, where -1 1n -1i, n = 1n, i = 1i, cost
0 to 3, where 0 -1n 1i, n = 1n, i = 1i, cost
1 to 2, n = 1n, i = 1i, cost 1
2 to 0, n = 1n, i = 1 1i, cost
",
    folded: "2 variables, 1 parameters, 2 locations, literals 1
0 to 0, where -1 1n -1i, n = 1n, i = 1 1i, cost 1
0 to 1, where 0 -1n 1i, n = 1n, i = 1i, cost
",
};

const EMPTY: Row = Row {
    source: "proc f(n) { }",
    built: "1 variables, 1 parameters, 1 locations, literals\n",
    folded: "1 variables, 1 parameters, 1 locations, literals\n",
};

const NESTED: Row = Row {
    source: "proc f(n) {
  if (n < 0) { while (n < 5) { skip; } } else { if (*) { tick n; } }
  tick 2;
}",
    built: "1 variables, 1 parameters, 7 locations, literals 0 2 5
0 to 1, where -1 -1n, n = 1n, cost
0 to 3, where 0 1n, n = 1n, cost
1 to 2, where 4 -1n, n = 1n, cost
1 to 5, where -5 1n, n = 1n, cost
2 to 1, n = 1n, cost
3 to 4, n = 1n, cost
3 to 5, n = 1n, cost
4 to 5, n = 1n, cost 1n
5 to 6, n = 1n, cost 2
",
    folded: "1 variables, 1 parameters, 5 locations, literals 0 2 5
0 to 1, where -1 -1n, n = 1n, cost
0 to 2, where 0 1n, n = 1n, cost
1 to 1, where 4 -1n, n = 1n, cost
1 to 3, where -5 1n, n = 1n, cost
2 to 3, n = 1n, cost 1n
2 to 3, n = 1n, cost
3 to 4, n = 1n, cost 2
",
};

const NO_ELSE: Row = Row {
    source: "proc f(n) { if (n == 0) { tick 3; } }",
    built: "1 variables, 1 parameters, 3 locations, literals 0 3
0 to 1, where 0 -1n, where 0 1n, n = 1n, cost
0 to 2, where -1 -1n, n = 1n, cost
0 to 2, where -1 1n, n = 1n, cost
1 to 2, n = 1n, cost 3
",
    folded: "1 variables, 1 parameters, 2 locations, literals 0 3
0 to 1, where 0 -1n, where 0 1n, n = 1n, cost 3
0 to 1, where -1 -1n, n = 1n, cost
0 to 1, where -1 1n, n = 1n, cost
",
};

const FREE_LOOPS: Row = Row {
    source: "proc f() { skip; while (*) { } while (*) { tick 1; } }",
    built: "0 variables, 0 parameters, 5 locations, literals 1
0 to 1, cost
1 to 1, cost
1 to 2, cost
2 to 3, cost
2 to 4, cost
3 to 2, cost 1
",
    folded: "0 variables, 0 parameters, 4 locations, literals 1
0 to 1, cost
1 to 1, cost
1 to 2, cost
2 to 2, cost 1
2 to 3, cost
",
};

const CHOSEN: Row = Row {
    source: "proc f(n) { var x; x = any(0, n); tick 2*x; x = any; }",
    built: "2 variables, 1 parameters, 4 locations, literals 0 2
0 to 1, where 0 1z, where 0 1n -1z, n = 1n, x = 1z, cost, any
1 to 2, n = 1n, x = 1x, cost 2x
2 to 3, n = 1n, x = 1z, cost, any
",
    folded: "2 variables, 1 parameters, 3 locations, literals 0 2
0 to 1, where 0 1z, where 0 1n -1z, n = 1n, x = 1z, cost 2z, any
1 to 2, n = 1n, x = 1z, cost, any
",
};

const CHAIN: Row = Row {
    source: "proc f(n) { var x, y; x = n + 1; y = 2*x; x = x - y; tick x; assume (y <= n); }",
    built: "3 variables, 1 parameters, 6 locations, literals 1 2
0 to 1, n = 1n, x = 1 1n, y = 1y, cost
1 to 2, n = 1n, x = 1x, y = 2x, cost
2 to 3, n = 1n, x = 1x -1y, y = 1y, cost
3 to 4, n = 1n, x = 1x, y = 1y, cost 1x
4 to 5, where 0 1n -1y, n = 1n, x = 1x, y = 1y, cost
",
    folded: "3 variables, 1 parameters, 2 locations, literals 1 2
0 to 1, where -2 -1n, n = 1n, x = -1 -1n, y = 2 2n, cost -1 -1n
",
};

const SQUARES: Row = Row {
    source: "proc f(n) { var x; x = n + 1; tick x*x; x = n*n; tick x; }",
    built: "2 variables, 1 parameters, 5 locations, literals 1
0 to 1, n = 1n, x = 1 1n, cost
1 to 2, n = 1n, x = 1x, cost 1xx
2 to 3, n = 1n, x = 1nn, cost
3 to 4, n = 1n, x = 1x, cost 1x
",
    folded: "2 variables, 1 parameters, 3 locations, literals 1
0 to 1, n = 1n, x = 1nn, cost 1 2n 1nn
1 to 2, n = 1n, x = 1x, cost 1x
",
};

// What each location would be folded into has a coefficient past its range.
const WIDE_FORMS: Row = Row {
    source: "proc f(n) { var x, y; x = 2147483647*n; y = 2147483647*x; tick 2147483647*y*y; }",
    built: "3 variables, 1 parameters, 4 locations, literals 2147483647
0 to 1, n = 1n, x = 2147483647n, y = 1y, cost
1 to 2, n = 1n, x = 1x, y = 2147483647x, cost
2 to 3, n = 1n, x = 1x, y = 1y, cost 2147483647yy
",
    folded: "3 variables, 1 parameters, 4 locations, literals 2147483647
0 to 1, n = 1n, x = 2147483647n, y = 1y, cost
1 to 2, n = 1n, x = 1x, y = 2147483647x, cost
2 to 3, n = 1n, x = 1x, y = 1y, cost 2147483647yy
",
};

// The atom after the update would have a coefficient past its size.
const WIDE_ATOM: Row = Row {
    source: "proc f(n) { var x; x = 2147483647*n; assume (2*x <= 0); }",
    built: "2 variables, 1 parameters, 3 locations, literals 0 2 2147483647
0 to 1, n = 1n, x = 2147483647n, cost
1 to 2, where 0 -2x, n = 1n, x = 1x, cost
",
    folded: "2 variables, 1 parameters, 3 locations, literals 0 2 2147483647
0 to 1, n = 1n, x = 2147483647n, cost
1 to 2, where 0 -2x, n = 1n, x = 1x, cost
",
};

#[test]
fn builds_and_folds(rt: HostRuntime) -> Result<(), Fail> {
    let alloc = rt.alloc();
    for row in [
        LOOP, EMPTY, NESTED, NO_ELSE, FREE_LOOPS, CHOSEN, CHAIN, SQUARES, WIDE_FORMS, WIDE_ATOM,
    ] {
        let p = parse_proc(alloc, row.source.as_bytes())?;
        let names = p.names.as_slice();
        let system = build(alloc, &p)?;
        let text = system_text(alloc, names, &system)?;
        assert_eq!(rt; text.as_str(), row.built);
        let folded = fold(alloc, &system)?;
        let text = system_text(alloc, names, &folded)?;
        assert_eq!(rt; text.as_str(), row.folded);
    }
    Ok(())
}

// A source with a part of its body repeated.
fn repeat_part(alloc: Global, part: &str, times: usize, end: &str) -> Result<String, AllocError> {
    let mut text = String::from_str(alloc, "proc f(n) { ")?;
    for _turn in 0..times {
        text.push_str(part)?;
    }
    text.push_str(end)?;
    text.push_str(" }")?;
    Ok(text)
}

// An assumption of so many equal comparisons, joined by `||`.
fn wide(alloc: Global, comparisons: usize) -> Result<String, AllocError> {
    let mut text = String::from_str(alloc, "assume (n < 0")?;
    for _turn in 1..comparisons {
        text.push_str(" || n < 0")?;
    }
    text.push_str("); ")?;
    Ok(text)
}

// What is too large in the system of a source, and how many of it there are; where nothing is, the
// number of edges.
fn size(alloc: Global, source: &str) -> Result<(Option<Count>, u64), Fail> {
    let p = parse_proc(alloc, source.as_bytes())?;
    match build(alloc, &p) {
        Ok(system) => Ok((None, system.edges.len() as u64)),
        Err(SystemFault::TooLarge { what, count }) => Ok((Some(what), count)),
        Err(SystemFault::NoMemory) => Err(Fail::from("out of memory")),
    }
}

#[test]
fn keeps_the_limits(rt: HostRuntime) -> Result<(), Fail> {
    let alloc = rt.alloc();
    let wide = wide(alloc, 64)?;
    for (part, times, end, expected) in [
        ("skip; ", 127, "", (None, 127)),
        ("skip; ", 128, "", (Some(Count::Locations), 129)),
        (wide.as_str(), 8, "", (None, 512)),
        (wide.as_str(), 8, "skip;", (Some(Count::Edges), 513)),
    ] {
        let source = repeat_part(alloc, part, times, end)?;
        assert!(rt;
            size(alloc, source.as_str())? == expected,
            "{times} times {part}{end}"
        );
    }
    Ok(())
}

// An assumption of so many equations, joined by `&&`: two atoms each.
fn narrow(alloc: Global, equations: usize) -> Result<String, AllocError> {
    let mut text = String::from_str(alloc, "assume (n == 0")?;
    for _turn in 1..equations {
        text.push_str(" && n == 0")?;
    }
    text.push_str("); ")?;
    Ok(text)
}

#[test]
fn folds_guards_of_at_most_256_atoms(rt: HostRuntime) -> Result<(), Fail> {
    let alloc = rt.alloc();
    for (equations, locations) in [(64, 2), (65, 3)] {
        let part = narrow(alloc, equations)?;
        let source = repeat_part(alloc, part.as_str(), 2, "")?;
        let p = parse_proc(alloc, source.as_bytes())?;
        let folded = fold(alloc, &build(alloc, &p)?)?;
        assert_eq!(rt; folded.locs, locations);
    }
    Ok(())
}
