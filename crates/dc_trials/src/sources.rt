//! Small texts with what is wrong in them, and where, worked out by hand from the language's page.
use dc_affine::Atom;
use dc_parse::laws::{one_outcome, texts_say_their_trees};
use dc_parse::{Kind, parse_proc, parse_when};
use dc_syntax::{Expr, Stmt};
use sqlite_items::Items;
use std::alloc::{AllocError, Global};
use std::test::Fail;

/// What is wrong with a source, and where.
fn refusal(alloc: Global, text: &[u8]) -> Option<(u32, u32, Kind)> {
    match parse_proc(alloc, text) {
        Ok(_) => None,
        Err(fault) => Some((fault.line, fault.col, fault.kind)),
    }
}

/// Whether a case has one atom, of this constant and these coefficients.
fn is_one_atom(case: Option<&Items<Atom>>, c0: i64, coefs: &[i64]) -> bool {
    let Some(case) = case else {
        return false;
    };
    match case.get(0) {
        Some(atom) => case.len() == 1 && atom.c0 == c0 && atom.coefs.as_slice() == coefs,
        None => false,
    }
}

/// A text with a part repeated in its middle.
fn repeat_part(
    alloc: Global,
    front: &[u8],
    part: &[u8],
    times: usize,
    end: &[u8],
) -> Result<Vec<u8>, AllocError> {
    let mut text = Vec::from_slice(alloc, front)?;
    for _turn in 0..times {
        text.extend_from_slice(part)?;
    }
    text.extend_from_slice(end)?;
    Ok(text)
}

const BYTES: &[(&[u8], u32, u32, Kind)] = &[
    (b"proc f() { # }", 1, 12, Kind::BadCharacter),
    (b"proc f() { tick 1 / 2; }", 1, 19, Kind::BadCharacter),
    (b"proc f() {\n  tick 1 & 2;\n}", 2, 10, Kind::BadCharacter),
    (b"proc f() { x = 1 | 2; }", 1, 18, Kind::BadCharacter),
    (b"proc f()\r\n\t{ ~ }", 2, 4, Kind::BadCharacter),
    (b"\0proc f(n) { }", 1, 1, Kind::BadCharacter),
    (
        b"# proc f() { tick 99999999999; }",
        1,
        1,
        Kind::BadCharacter,
    ),
    (
        b"proc f() { tick 99999999999; } #",
        1,
        17,
        Kind::LiteralTooWide,
    ),
    (
        b"proc f(n) { tick 2147483648; }",
        1,
        18,
        Kind::LiteralTooWide,
    ),
    (b"proc f() { // \x80\n }", 1, 15, Kind::NotAscii),
    (b"proc f(n) { } //\xc8", 1, 17, Kind::NotAscii),
    (b"proc f() } \xff", 1, 12, Kind::NotAscii),
];

const GRAMMAR: &[(&[u8], u32, u32, Kind)] = &[
    (b"f() { }", 1, 1, Kind::Unexpected),
    (b"proc { }", 1, 6, Kind::Unexpected),
    (b"proc skip() { }", 1, 6, Kind::Unexpected),
    (b"proc f { }", 1, 8, Kind::Unexpected),
    (b"proc f(1) { }", 1, 8, Kind::Unexpected),
    (b"proc f(n,) { }", 1, 10, Kind::Unexpected),
    (b"proc f(n m) { }", 1, 10, Kind::Unexpected),
    (b"proc f() { } }", 1, 14, Kind::Unexpected),
    (b"proc f() { skip }", 1, 17, Kind::Unexpected),
    (b"proc f() { tick; }", 1, 16, Kind::Unexpected),
    (b"proc f() { tick 1 2; }", 1, 19, Kind::Unexpected),
    (b"proc f() { tick 1 + * 2; }", 1, 21, Kind::Unexpected),
    (b"proc f() { x == 1; }", 1, 14, Kind::Unexpected),
    (b"proc f() { x = true; }", 1, 16, Kind::Unexpected),
    (b"proc f() { x = any 3; }", 1, 20, Kind::Unexpected),
    (b"proc f() { var x; x = any(1); }", 1, 28, Kind::Unexpected),
    (b"proc f() { if x < 1 { } }", 1, 15, Kind::Unexpected),
    (b"proc f() { if (1) { } }", 1, 17, Kind::Unexpected),
    (b"proc f() { if (1 < 2 < 3) { } }", 1, 22, Kind::Unexpected),
    (b"proc f() { if ((1 < 2)) { } }", 1, 19, Kind::Unexpected),
    (b"proc f() { if ([1 < 2) { } }", 1, 22, Kind::Unexpected),
    (
        b"proc f() { if (! 1 < 2 && || true) { } }",
        1,
        27,
        Kind::Unexpected,
    ),
    (b"proc f() { else { } }", 1, 12, Kind::Unexpected),
    (b"proc f() { while (*) skip; }", 1, 22, Kind::Unexpected),
    (b"proc f() { skip; var x; }", 1, 18, Kind::Unexpected),
    (b"proc f() { assume 1 < 2; }", 1, 19, Kind::Unexpected),
    (b"", 1, 1, Kind::Unclosed),
    (b"proc", 1, 5, Kind::Unclosed),
    (b"proc f(", 1, 8, Kind::Unclosed),
    (b"proc f() {\n", 2, 1, Kind::Unclosed),
    (b"proc f() { tick 1", 1, 18, Kind::Unclosed),
    (b"proc f() { // }", 1, 16, Kind::Unclosed),
    (b"// only a comment\n\n", 3, 1, Kind::Unclosed),
    (b"proc f() { if (true) { }", 1, 25, Kind::Unclosed),
    (b"proc f(n) { skip;", 1, 18, Kind::Unclosed),
];

const NAMES: &[(&[u8], u32, u32, Kind)] = &[
    (b"proc f(n) { x = 1; }", 1, 13, Kind::UnknownName),
    (b"proc f() { tick n; }", 1, 17, Kind::UnknownName),
    (b"proc f(n) { tick f; }", 1, 18, Kind::UnknownName),
    (
        b"proc f(n) { n = m; tick k*k*k; }",
        1,
        17,
        Kind::UnknownName,
    ),
    (
        b"proc f(n) { if (n < 1) { x = 1; } }",
        1,
        26,
        Kind::UnknownName,
    ),
    (b"proc f(n, n) { }", 1, 11, Kind::NameTwice),
    (b"proc f(n) { var n; }", 1, 17, Kind::NameTwice),
    (b"proc f() { var a, b, a; x = 1; }", 1, 22, Kind::NameTwice),
    (
        b"proc f(a,b,c,d,e,f,g,h,i,j,k) { }",
        1,
        28,
        Kind::TooManyNames,
    ),
    (
        b"proc f(a,b,c,d,e,f,g,h,i,j,a) { }",
        1,
        28,
        Kind::TooManyNames,
    ),
    (
        b"proc f(a,b,c,d,e,f,g,h) { var i, j, k; }",
        1,
        37,
        Kind::TooManyNames,
    ),
];

const FORMS: &[(&[u8], u32, u32, Kind)] = &[
    (b"proc f(n) { tick n*n*n; }", 1, 13, Kind::DegreeTooHigh),
    (
        b"proc f(n) { assume (n*n*n < 1); }",
        1,
        13,
        Kind::DegreeTooHigh,
    ),
    (
        b"proc f(n) { while (n < 1) { tick n*n*n; } }",
        1,
        29,
        Kind::DegreeTooHigh,
    ),
    (
        b"proc f(n) { if (n < 1) { } else { n = n*n*n; } tick n*n*n; }",
        1,
        35,
        Kind::DegreeTooHigh,
    ),
    (
        b"proc f(n) { tick 2147483647*n + n; }",
        1,
        13,
        Kind::CoefficientRange,
    ),
    (
        b"proc f(n) { tick 2147483647 + 1; }",
        1,
        13,
        Kind::CoefficientRange,
    ),
    (
        b"proc f(n) { tick 65536*65536*n*n*n; }",
        1,
        13,
        Kind::CoefficientRange,
    ),
    (
        b"proc f(n) { n = any(2147483647*n + n, n*n); }",
        1,
        13,
        Kind::CoefficientRange,
    ),
    (
        b"proc f(n) { assume (2147483647*n < 0 - n); }",
        1,
        13,
        Kind::CoefficientRange,
    ),
    (
        b"proc f(n) { skip; n = any(n*n, 1); }",
        1,
        19,
        Kind::NotAffine,
    ),
    (
        b"proc f(n) { while (n*n < 1) { tick n*n*n; } }",
        1,
        13,
        Kind::NotAffine,
    ),
    (
        b"proc f(n) {\n  var i;\n  while (i*i < n) {\n    tick 1;\n    i = i + 1;\n  }\n}\n",
        3,
        3,
        Kind::NotAffine,
    ),
];

const ACCEPTED: &[&[u8]] = &[
    b"proc f(n) { }",
    b"proc f(m) { }",
    b"proc procs(_any, any_) { var if0; } // end",
    b"proc f() { tick 0002147483647; }",
    b"proc f(n) { if (n*n < n*n) { } }",
    b"proc f(n) { var x; x = any; x = any(0, n); assume (2*x <= n); tick x; }",
    b"proc f(n) { if (*) { tick 5; } else { tick 1; } while (*) { skip; } while ([n < 1 || true] && ! false) { } }",
];

#[test]
fn tells_what_is_wrong_first(rt: HostRuntime) {
    one_outcome(b"");
    texts_say_their_trees(b"");
    for table in [BYTES, GRAMMAR, NAMES, FORMS] {
        for (text, line, col, kind) in table {
            assert!(rt; refusal(rt.alloc(), text) == Some((*line, *col, *kind)));
        }
    }
    for text in ACCEPTED {
        assert!(rt; refusal(rt.alloc(), text).is_none());
    }
}

#[test]
fn keeps_the_limits(rt: HostRuntime) -> Result<(), Fail> {
    let alloc = rt.alloc();
    let filled = repeat_part(alloc, b"proc f(n) { }", b" ", 65523, b"")?;
    assert!(rt; refusal(alloc, filled.as_slice()).is_none());
    let longer = repeat_part(alloc, b"proc f(n) { }", b" ", 65524, b"")?;
    assert!(rt; refusal(alloc, longer.as_slice()) == Some((1, 1, Kind::TooLong)));
    let brackets = repeat_part(alloc, b"proc f(n) { tick ", b"(", 63, b"n")?;
    let closed = repeat_part(alloc, brackets.as_slice(), b")", 63, b"; }")?;
    assert!(rt; refusal(alloc, closed.as_slice()).is_none());
    let deeper = repeat_part(alloc, b"proc f(n) { tick ", b"(", 64, b"n")?;
    assert!(rt; refusal(alloc, deeper.as_slice()) == Some((1, 81, Kind::TooDeep)));
    let sum = repeat_part(alloc, b"proc f(n) { tick 1", b"+1", 64, b"; }")?;
    assert!(rt; refusal(alloc, sum.as_slice()).is_none());
    let longer = repeat_part(alloc, b"proc f(n) { tick 1", b"+1", 65, b"; }")?;
    assert!(rt; refusal(alloc, longer.as_slice()) == Some((1, 147, Kind::TooDeep)));
    let wrong = repeat_part(alloc, b"proc f() { tick 1", b"+1", 63, b"++ 1; }")?;
    assert!(rt; refusal(alloc, wrong.as_slice()) == Some((1, 145, Kind::Unexpected)));
    let signs = repeat_part(alloc, b"proc f() { tick ", b"-", 65, b"1; }")?;
    assert!(rt; refusal(alloc, signs.as_slice()) == Some((1, 81, Kind::TooDeep)));
    let bangs = repeat_part(alloc, b"proc f() { if (", b"!", 65, b"true) { } }")?;
    assert!(rt; refusal(alloc, bangs.as_slice()) == Some((1, 80, Kind::TooDeep)));
    let squares = repeat_part(alloc, b"proc f() { if (", b"[", 63, b"true")?;
    assert!(rt; refusal(alloc, squares.as_slice()) == Some((1, 78, Kind::TooDeep)));
    let low = repeat_part(alloc, b"proc f(n) { n = any(0", b"+1", 64, b", 0")?;
    let range = repeat_part(alloc, low.as_slice(), b"+1", 64, b"); }")?;
    assert!(rt; refusal(alloc, range.as_slice()).is_none());
    let seven = repeat_part(alloc, b"", b" || n == 0", 6, b"); ")?;
    let wide = repeat_part(
        alloc,
        b"proc f(n) { assume (n == 0",
        seven.as_slice(),
        1,
        b"if (n == 0",
    )?;
    let wide = repeat_part(alloc, wide.as_slice(), b" || n == 0", 6, b") { } }")?;
    assert!(rt; refusal(alloc, wide.as_slice()) == Some((1, 90, Kind::ConditionTooWide)));
    Ok(())
}

#[test]
fn reads_trees(rt: HostRuntime) -> Result<(), Fail> {
    let found = parse_proc(rt.alloc(), b"proc f(n){tick -(n+1)*2;}")?;
    assert_eq!(rt; found.name.as_str(), "f");
    assert_eq!(rt; found.params, 1);
    let Some(Stmt::Tick(Expr::Mul(a, b))) = found.body.as_slice().first() else {
        return Err(Fail::from("no product"));
    };
    assert!(rt; matches!(b.get(), Expr::Num(2)));
    let Expr::Neg(a) = a.get() else {
        return Err(Fail::from("no negation"));
    };
    assert!(rt; matches!(a.get(), Expr::Add(_, _)));
    let found = parse_proc(rt.alloc(), b"proc f(n, m) { var i; i = 7 - 2*m - n; }")?;
    assert_eq!(rt; found.names.len(), 3);
    let Some(Stmt::Assign(2, Expr::Sub(a, b))) = found.body.as_slice().first() else {
        return Err(Fail::from("no difference"));
    };
    assert!(rt; matches!(b.get(), Expr::Var(0)));
    assert!(rt; matches!(a.get(), Expr::Sub(_, _)));
    let found = parse_proc(
        rt.alloc(),
        b"proc f() { if (*) { if (*) { } else { tick 1; } } }",
    )?;
    let Some(Stmt::IfAny(yes, no)) = found.body.as_slice().first() else {
        return Err(Fail::from("no branch"));
    };
    assert_eq!(rt; no.len(), 0);
    let Some(Stmt::IfAny(yes, no)) = yes.as_slice().first() else {
        return Err(Fail::from("no branch inside"));
    };
    assert_eq!(rt; yes.len(), 0);
    assert_eq!(rt; no.len(), 1);
    Ok(())
}

#[test]
fn reads_conditions(rt: HostRuntime) -> Result<(), Fail> {
    let alloc = rt.alloc();
    let p = parse_proc(alloc, b"proc f(n, m) { var i; }")?;
    let cases = parse_when(alloc, b"n != 3", &p)?;
    assert_eq!(rt; cases.len(), 2);
    assert!(rt; is_one_atom(cases.get(0), 2, &[-1, 0]));
    assert!(rt; is_one_atom(cases.get(1), -4, &[1, 0]));
    let most = repeat_part(alloc, b"n < 0", b"||n < 0", 63, b"")?;
    assert_eq!(rt; parse_when(alloc, most.as_slice(), &p)?.len(), 64);
    let more = repeat_part(alloc, b"n < 0", b"||n < 0", 64, b"")?;
    let deeper = repeat_part(alloc, b"n < 0", b"||n < 0", 65, b"")?;
    let table: [(&[u8], u32, u32, Kind); 13] = [
        (more.as_slice(), 1, 1, Kind::ConditionTooWide),
        (deeper.as_slice(), 1, 454, Kind::TooDeep),
        (b"", 1, 1, Kind::Unclosed),
        (b"n <", 1, 4, Kind::Unclosed),
        (b"[n < 1", 1, 7, Kind::Unclosed),
        (b"n < 1 )", 1, 7, Kind::Unexpected),
        (b"(n < 1)", 1, 4, Kind::Unexpected),
        (b"n # 1", 1, 3, Kind::BadCharacter),
        (b"i < 3", 1, 1, Kind::UnknownName),
        (b"n < 1 && i < 2", 1, 10, Kind::UnknownName),
        (b" n*n < 1", 1, 2, Kind::NotAffine),
        (b"\n  n*n*n < 1", 2, 3, Kind::DegreeTooHigh),
        (b"2147483647*n < 0 - n", 1, 1, Kind::CoefficientRange),
    ];
    for (text, line, col, kind) in table {
        match parse_when(alloc, text, &p) {
            Ok(_) => return Err(Fail::from("accepted")),
            Err(fault) => {
                assert_eq!(rt; fault.line, line);
                assert_eq!(rt; fault.col, col);
                assert_eq!(rt; fault.kind, kind);
            }
        }
    }
    Ok(())
}
