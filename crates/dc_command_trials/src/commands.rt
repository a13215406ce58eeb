//! The commands over sources and sinks in memory.
use crate::runs::{run, sources, words_of};
use dc_cli::top;
use dc_host::{MemSink, MemStore};
use dc_sparse::Cross;
use std::alloc::{AllocError, Global};

const USAGE: &str =
    "usage: diffcost analyse NEW OLD [--when TEXT] [--degree 0..3] [--products 1..3] [--rows intervals|pairs] [--pivots 1..1000000]\nusage: diffcost check NEW OLD CERT [--when TEXT]\nusage: diffcost sample SEED COUNT\n";

const LOOP_1: &str = "proc f(n) {\nvar i;\nwhile (i < n) {\ntick 1;\ni = i + 1;\n}\n}\n";

const LOOP_2: &str = "proc f(n) {\nvar i;\nwhile (i < n) {\ntick 2;\ni = i + 1;\n}\n}\n";

const LOOP_SQUARE: &str =
    "proc f(n) {\n  var i;\n  while (i*i < n) {\n    tick 1;\n    i = i + 1;\n  }\n}\n";

const EMPTY: &str = "proc f(n) { }";

const SKIP: &str = "proc f(n) { skip; }";

const CHOICE: &str = "proc f(n) { if (*) { tick 5; } else { tick 1; } }";

const HALF: &str = "proc f(n) { var x; x = any(0, n); assume (2*x <= n); tick x; }";

const LOOP_I: &str = "proc f(n) {\nvar i;\nwhile (i < n) {\ntick i;\ni = i + 1;\n}\n}\n";

const CHOSEN: &str = "proc f(n) { var x; x = any(0, n); tick x; }";

const FOREVER: &str = "proc f(n) { while (true) { skip; } }";

const SQUARE: &str =
    "proc f(n) { var i, j; while (i < n) { j = 0; while (j < n) { tick 1; j = j + 1; } i = i + 1; } }";

const TRIANGLE: &str =
    "proc f(n) { var i, j; while (i < n) { j = 0; while (j < i) { tick 1; j = j + 1; } i = i + 1; } }";

const TEN: &str = "0 <= n && n <= 10";

const HUNDRED: &str = "0 <= n && n <= 100";

/// The words of an analysis of both files under a condition, with the degree and the products.
fn analyse<'a>(when: &'a str, degree: &'a str, products: &'a str) -> [&'a str; 9] {
    [
        "analyse",
        "new.dc",
        "old.dc",
        "--when",
        when,
        "--degree",
        degree,
        "--products",
        products,
    ]
}

fn begins(bytes: &[u8], text: &str) -> bool {
    bytes.starts_with(text.as_bytes())
}

/// Two sources, a condition, degree and products, and then the status and the lines with which the
/// output begins.
type Claim = (
    &'static str,
    &'static str,
    &'static str,
    &'static str,
    &'static str,
    u8,
    &'static str,
);

const CLAIMS: [Claim; 15] = [
    (
        LOOP_2,
        LOOP_1,
        HUNDRED,
        "1",
        "1",
        0,
        "threshold 100\nwhole 100\ndiffcost 2\n",
    ),
    (LOOP_2, LOOP_1, "n >= 0", "1", "1", 1, "none\ndiffcost 2\n"),
    (LOOP_2, LOOP_2, "n >= 0", "1", "1", 0, "threshold 0\n"),
    (
        LOOP_1,
        LOOP_2,
        "5 <= n && n <= 100",
        "1",
        "1",
        0,
        "threshold -5\nwhole -5\n",
    ),
    (
        CHOICE,
        "proc f(n) { tick 2; }",
        "true",
        "2",
        "2",
        0,
        "threshold 3\n",
    ),
    (
        "proc f(n) { tick 2; }",
        CHOICE,
        "true",
        "2",
        "2",
        0,
        "threshold 1\n",
    ),
    (LOOP_I, LOOP_1, TEN, "2", "2", 0, "threshold 35\n"),
    (LOOP_I, LOOP_1, TEN, "1", "2", 0, "threshold 80\n"),
    (
        FOREVER,
        "proc f(n) { tick 1; }",
        "true",
        "2",
        "2",
        2,
        "vacuous\n",
    ),
    (LOOP_2, LOOP_1, "n >= 1 && n <= 0", "1", "1", 2, "vacuous\n"),
    (
        CHOSEN,
        SKIP,
        "0 <= n && n <= 7",
        "1",
        "1",
        0,
        "threshold 7\n",
    ),
    (
        HALF,
        SKIP,
        "0 <= n && n <= 7",
        "1",
        "1",
        0,
        "threshold 7/2\nwhole 3\n",
    ),
    (SQUARE, TRIANGLE, TEN, "2", "2", 0, "threshold 55\n"),
    (LOOP_2, LOOP_1, "n != 3", "1", "1", 1, "none\n"),
    (
        LOOP_2,
        LOOP_1,
        "0 <= n && n <= 3 || n == 7",
        "1",
        "1",
        0,
        "threshold 7\n",
    ),
];

#[test]
fn analyses_begin_with_their_claim(rt: HostRuntime) -> Result<(), AllocError> {
    let alloc = rt.alloc();
    for (new, old, when, degree, products, status, first) in CLAIMS.iter() {
        let mut store = sources(alloc, new, old)?;
        let ended = run(alloc, &analyse(when, degree, products), &mut store)?;
        assert_eq!(rt; ended.status, *status, "at {first}");
        assert!(rt; begins(ended.out.bytes(), first));
        assert!(rt; ended.err.bytes().is_empty());
    }
    Ok(())
}

const CERTIFICATE: &str =
    "threshold 0\nwhole 0\ndiffcost 2\ndegree 0 products 1\ncases 1\nwhen live 0:1 1:-1\nside new\nlocation 0\nentry 0\nexit live 0:1 1:-1\nside old\nlocation 0\nentry 0\nexit live 0:1 1:-1\nmain\nunknown\nlambda\ndual 0:1 1:1 2:1\nend\n";

const SMALL: [&str; 7] = [
    "analyse",
    "new.dc",
    "old.dc",
    "--degree",
    "0",
    "--products",
    "1",
];

#[test]
fn a_whole_certificate_is_printed(rt: HostRuntime) -> Result<(), AllocError> {
    let alloc = rt.alloc();
    let mut store = sources(alloc, EMPTY, EMPTY)?;
    let ended = run(alloc, &SMALL, &mut store)?;
    assert_eq!(rt; ended.status, 0);
    assert!(rt; ended.out.bytes() == CERTIFICATE.as_bytes());
    Ok(())
}

#[test]
fn refusals_have_their_lines(rt: HostRuntime) -> Result<(), AllocError> {
    let alloc = rt.alloc();
    for (new, old, words, status, line) in [
        (
            LOOP_SQUARE,
            LOOP_1,
            analyse(HUNDRED, "1", "1"),
            4,
            "source fault: new 3:3 NotAffine\n",
        ),
        (
            "proc f(n) { tick 2147483648; }",
            SKIP,
            analyse("true", "1", "1"),
            4,
            "source fault: new 1:18 LiteralTooWide\n",
        ),
        (
            EMPTY,
            "proc f(n) { tick 2; ",
            analyse("true", "1", "1"),
            4,
            "source fault: old 1:21 Unclosed\n",
        ),
        (
            EMPTY,
            "proc f(m) { }",
            analyse("true", "1", "1"),
            4,
            "source fault: old 1:1 ParametersDiffer\n",
        ),
        (
            LOOP_2,
            LOOP_1,
            analyse("i < 3", "1", "1"),
            4,
            "source fault: when 1:1 UnknownName\n",
        ),
        (
            "proc f(n) { n = ; }",
            "proc f(m) { ",
            analyse("i < 3", "1", "1"),
            4,
            "source fault: new 1:17 Unexpected\n",
        ),
    ] {
        let mut store = sources(alloc, new, old)?;
        let ended = run(alloc, &words, &mut store)?;
        assert_eq!(rt; ended.status, status, "at {line}");
        assert!(rt; ended.out.bytes().is_empty());
        assert!(rt; ended.err.bytes() == line.as_bytes());
    }
    Ok(())
}

/// A source with so many statements.
fn long_source(alloc: Global, statements: usize) -> Result<String, AllocError> {
    let mut text = String::from_str(alloc, "proc f(n) { ")?;
    for _ in 0..statements {
        text.push_str("skip; ")?;
    }
    text.push('}')?;
    Ok(text)
}

#[test]
fn limits_have_their_lines(rt: HostRuntime) -> Result<(), AllocError> {
    let alloc = rt.alloc();
    let long = long_source(alloc, 128)?;
    let mut store = sources(alloc, long.as_str(), SKIP)?;
    let ended = run(alloc, &SMALL, &mut store)?;
    assert_eq!(rt; ended.status, 5);
    assert!(rt; ended.err.bytes() == b"too large: new locations 129\n".as_slice());
    let mut store = sources(alloc, LOOP_2, LOOP_1)?;
    let one_pivot = [
        "analyse",
        "new.dc",
        "old.dc",
        "--when",
        HUNDRED,
        "--degree",
        "1",
        "--products",
        "1",
        "--pivots",
        "1",
    ];
    let ended = run(alloc, &one_pivot, &mut store)?;
    assert_eq!(rt; ended.status, 7);
    assert!(rt; ended.err.bytes() == b"pivots spent: new edge 0\n".as_slice());
    let wide = "proc f(n) { var x, y; x = 2147483647*n; y = 2147483647*x; tick 2147483647*y*y; }";
    let mut store = sources(alloc, wide, SKIP)?;
    let ended = run(alloc, &analyse("n == 2147483647", "2", "2"), &mut store)?;
    assert_eq!(rt; ended.status, 6);
    assert!(rt; begins(ended.err.bytes(), "past 128 bits: "));
    Ok(())
}

#[test]
fn words_and_names_are_refused(rt: HostRuntime) -> Result<(), AllocError> {
    let alloc = rt.alloc();
    let table: [(&[&str], u8, &str); 9] = [
        (&[], 3, USAGE),
        (&["prove", "new.dc", "old.dc"], 3, USAGE),
        (&["analyse", "new.dc", "old.dc", "--degree", "4"], 3, USAGE),
        (&["analyse", "new.dc", "old.dc", "--pivots", "0"], 3, USAGE),
        (&["check", "new.dc", "old.dc"], 3, USAGE),
        (&["sample", "1", "9"], 3, USAGE),
        (
            &["analyse", "missing.dc", "old.dc"],
            8,
            "read fault: missing.dc\n",
        ),
        (
            &["analyse", "none.dc", "missing.dc"],
            8,
            "read fault: none.dc\n",
        ),
        (
            &["check", "new.dc", "old.dc", "cert.dc"],
            8,
            "read fault: cert.dc\n",
        ),
    ];
    for (words, status, said) in table {
        let mut store = sources(alloc, EMPTY, EMPTY)?;
        let ended = run(alloc, words, &mut store)?;
        assert_eq!(rt; ended.status, status, "at {said}");
        assert!(rt; ended.out.bytes().is_empty());
        assert!(rt; ended.err.bytes() == said.as_bytes());
    }
    Ok(())
}

const CHECK: [&str; 4] = ["check", "new.dc", "old.dc", "cert.dc"];

const VERSION_1: &str =
    "threshold 0\nwhole 0\ndiffcost 1\ndegree 0 products 1\nwhen live 0:1 1:-1\nside new\nlocation 0\nentry\nexit live 0:1 1:-1\nside old\nlocation 0\nentry\nexit live 0:1 1:-1\nmain\nunknown\nlambda\ndual 0:1 1:1 2:1\nend\n";

const NOT_REDUCED: &str =
    "threshold 0\nwhole 0\ndiffcost 1\ndegree 0 products 1\nwhen live 0:1 1:-1\nside new\nlocation 0\nentry\nexit live 0:1 1:-1\nside old\nlocation 0\nentry\nexit live 0:1 1:-1\nmain\nunknown\nlambda\ndual 0:2/4 1:1 2:1\nend\n";

const NOT_ENDED: &str =
    "threshold 0\nwhole 0\ndiffcost 1\ndegree 0 products 1\nwhen live 0:1 1:-1\nside new\nlocation 0\nentry\nexit live 0:1 1:-1\nside old\nlocation 0\nentry\nexit live 0:1 1:-1\nmain\nunknown\nlambda\ndual 0:1 1:1 2:1\n";

/// The second number of the dual is that of another certificate.
const ANOTHER_DUAL: &str =
    "threshold 0\nwhole 0\ndiffcost 1\ndegree 0 products 1\nwhen live 0:1 1:-1\nside new\nlocation 0\nentry\nexit live 0:1 1:-1\nside old\nlocation 0\nentry\nexit live 0:1 1:-1\nmain\nunknown\nlambda\ndual 0:1 1:2 2:1\nend\n";

#[test]
fn certificates_are_checked(rt: HostRuntime) -> Result<(), AllocError> {
    let alloc = rt.alloc();
    for (cert, status, output, line) in [
        (CERTIFICATE, 0, "accepted threshold 0\n", ""),
        (VERSION_1, 0, "accepted threshold 0\n", ""),
        (NOT_REDUCED, 12, "", "bad certificate: line 17\n"),
        (NOT_ENDED, 12, "", "bad certificate: line 18\n"),
        ("thr", 12, "", "bad certificate: line 1\n"),
        (ANOTHER_DUAL, 11, "", "rejected: clause 10 index 2\n"),
    ] {
        let mut store = sources(alloc, EMPTY, EMPTY)?;
        store.add("cert.dc", cert.as_bytes())?;
        let ended = run(alloc, &CHECK, &mut store)?;
        assert_eq!(rt; ended.status, status, "at {line}");
        assert!(rt; ended.out.bytes() == output.as_bytes());
        assert!(rt; ended.err.bytes() == line.as_bytes());
    }
    Ok(())
}

/// What an analysis prints, a check of the same sources accepts.
#[test]
fn what_is_printed_is_accepted(rt: HostRuntime) -> Result<(), AllocError> {
    let alloc = rt.alloc();
    for (when, output) in [
        (HUNDRED, "accepted threshold 100\n"),
        ("n >= 0", "accepted none\n"),
        ("n >= 1 && n <= 0", "accepted vacuous\n"),
    ] {
        let mut store = sources(alloc, LOOP_2, LOOP_1)?;
        let printed = run(alloc, &analyse(when, "1", "1"), &mut store)?;
        store.add("cert.dc", printed.out.bytes())?;
        let words = ["check", "new.dc", "old.dc", "cert.dc", "--when", when];
        let ended = run(alloc, &words, &mut store)?;
        assert_eq!(rt; ended.status, 0, "at {when}");
        assert!(rt; ended.out.bytes() == output.as_bytes());
    }
    Ok(())
}

#[test]
fn samples_print_four_lines(rt: HostRuntime) -> Result<(), AllocError> {
    let alloc = rt.alloc();
    for (count, seed, output) in [
        (
            "2",
            "1",
            "sample 1 2\nnew bytes 109\nold bytes 109\nthreshold 300\n",
        ),
        (
            "1",
            "0",
            "sample 0 1\nnew bytes 65\nold bytes 65\nthreshold 0\n",
        ),
    ] {
        let mut store = MemStore::new(alloc);
        let ended = run(alloc, &["sample", seed, count], &mut store)?;
        assert_eq!(rt; ended.status, 0, "at {seed}");
        assert!(rt; ended.out.bytes() == output.as_bytes());
    }
    Ok(())
}

#[test]
fn faults_of_the_outside_are_reported(rt: HostRuntime) -> Result<(), AllocError> {
    let alloc = rt.alloc();
    let words = words_of(alloc, &SMALL)?;
    // The call of `fetch`, of `put` on the output and of `put` on the errors that fails; 0 is none.
    for (fetch, put, put_line, status, output, line) in [
        (0, 2, 0, 9, "thre", "write fault\n"),
        (1, 0, 0, 8, "", "read fault: new.dc\n"),
        (2, 0, 0, 8, "", "read fault: old.dc\n"),
        (2, 0, 3, 8, "", "read fau"),
        (0, 1, 1, 9, "", ""),
    ] {
        let mut store = sources(alloc, EMPTY, EMPTY)?;
        let mut out = MemSink::new(alloc, 400, 4)?;
        let mut err = MemSink::new(alloc, 100, 4)?;
        let mut tableau = Cross::new(alloc);
        store.fail_at(fetch)?;
        out.fail_at(put)?;
        err.fail_at(put_line)?;
        let found = top(alloc, &words, &mut store, &mut out, &mut err, &mut tableau);
        assert_eq!(rt; found, status, "at {line}");
        assert!(rt; out.bytes() == output.as_bytes());
        assert!(rt; err.bytes() == line.as_bytes());
    }
    Ok(())
}
