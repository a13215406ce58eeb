//! Conditions as conjunctions of atoms, and the first fault of an expression or a condition.
ghost use Rattle.std.specs.Prelude.{◌≡◌};
ghost use Rattle.dc_affine.specs.Forms.{is_below};
ghost use Rattle.dc_affine.specs.Atoms.{cond_is_below};

use crate::text::form_text;
use dc_affine::{Atom, FormFault, affine, dnf, normal};
use dc_syntax::{Cond, Expr, Rel};
use sqlite_items::Boxed;
use std::alloc::{AllocError, Global};
use std::process::Abort;
use std::test::Fail;

// Whether each variable is below a number of places.
fn below(e: &Expr, places: usize) -> bool
    ensures { result ≡ is_below places e.now }
{
    match e {
        Expr::Num(_) => true,
        Expr::Var(index) => *index < places,
        Expr::Neg(a) => below(a.get(), places),
        Expr::Add(a, b) => below(a.get(), places) && below(b.get(), places),
        Expr::Sub(a, b) => below(a.get(), places) && below(b.get(), places),
        Expr::Mul(a, b) => below(a.get(), places) && below(b.get(), places),
    }
}

fn all_below(c: &Cond, places: usize) -> bool
    ensures { result ≡ cond_is_below places c.now }
{
    match c {
        Cond::True => true,
        Cond::False => true,
        Cond::Cmp(a, _, b) => below(a, places) && below(b, places),
        Cond::Not(c) => all_below(c.get(), places),
        Cond::And(c, d) => all_below(c.get(), places) && all_below(d.get(), places),
        Cond::Or(c, d) => all_below(c.get(), places) && all_below(d.get(), places),
    }
}

// Reads a symbol of an expression that is written operands first: `m` is 2147483647.
fn read_operand(alloc: Global, stack: &mut Vec<Expr>, symbol: u8) -> Result<(), Fail> {
    match symbol {
        b'x' => stack.push(Expr::Var(0))?,
        b'y' => stack.push(Expr::Var(1))?,
        b'm' => stack.push(Expr::Num(2147483647))?,
        b'0'..=b'9' => stack.push(Expr::Num(u32::from(symbol - b'0')))?,
        _ => {
            let b = Boxed::new(alloc, stack.pop().ok_or("no operand")?)?;
            let whole = match symbol {
                b'~' => Expr::Neg(b),
                _ => {
                    let a = Boxed::new(alloc, stack.pop().ok_or("no operand")?)?;
                    match symbol {
                        b'+' => Expr::Add(a, b),
                        b'-' => Expr::Sub(a, b),
                        _ => Expr::Mul(a, b),
                    }
                }
            };
            stack.push(whole)?;
        }
    }
    Ok(())
}

fn expression(alloc: Global, text: &str) -> Result<Expr, Fail> {
    let mut stack = Vec::new(alloc);
    for symbol in text.as_bytes() {
        read_operand(alloc, &mut stack, *symbol)?;
    }
    Ok(stack.pop().ok_or("no expression")?)
}

fn relation(symbol: u8) -> Option<Rel> {
    match symbol {
        b'<' => Some(Rel::Lt),
        b'l' => Some(Rel::Le),
        b'>' => Some(Rel::Gt),
        b'g' => Some(Rel::Ge),
        b'=' => Some(Rel::Eq),
        b'n' => Some(Rel::Ne),
        _ => None,
    }
}

// Reads an operator of a condition that is written operands first.
fn read_operator(alloc: Global, stack: &mut Vec<Cond>, symbol: u8) -> Result<(), Fail> {
    let d = Boxed::new(alloc, stack.pop().ok_or("no condition")?)?;
    let whole = match symbol {
        b'!' => Cond::Not(d),
        _ => {
            let c = Boxed::new(alloc, stack.pop().ok_or("no condition")?)?;
            match symbol {
                b'&' => Cond::And(c, d),
                _ => Cond::Or(c, d),
            }
        }
    };
    Ok(stack.push(whole)?)
}

fn condition(alloc: Global, text: &str) -> Result<Cond, Fail> {
    let mut operands = Vec::new(alloc);
    let mut stack = Vec::new(alloc);
    for symbol in text.as_bytes() {
        match *symbol {
            b'T' => stack.push(Cond::True)?,
            b'F' => stack.push(Cond::False)?,
            b'!' | b'&' | b'|' => read_operator(alloc, &mut stack, *symbol)?,
            _ => match relation(*symbol) {
                Some(rel) => {
                    let b = operands.pop().ok_or("no operand")?;
                    let a = operands.pop().ok_or("no operand")?;
                    stack.push(Cond::Cmp(a, rel, b))?;
                }
                None => read_operand(alloc, &mut operands, *symbol)?,
            },
        }
    }
    Ok(stack.pop().ok_or("no condition")?)
}

fn cases(
    rt: &impl Abort,
    alloc: Global,
    text: &str,
    negated: bool,
    places: usize,
) -> Result<Result<Vec<Vec<Atom>>, FormFault>, Fail> {
    let c = condition(alloc, text)?;
    assert!(rt; places <= 11);
    assert!(rt; all_below(&c, places));
    Ok(dnf(alloc, &c, negated, places))
}

// The constant and the coefficients of each atom, one after the other.
fn numbers(alloc: Global, case: &[Atom]) -> Result<Vec<i64>, AllocError> {
    let mut all = Vec::new(alloc);
    for atom in case {
        all.push(atom.c0)?;
        for coef in atom.coefs.as_slice() {
            all.push(*coef)?;
        }
    }
    Ok(all)
}

fn are(alloc: Global, cases: &[Vec<Atom>], expected: &[&[i64]]) -> Result<bool, AllocError> {
    let mut same = cases.len() == expected.len();
    for k in 0..cases.len().min(expected.len()) {
        let all = numbers(alloc, cases[k].as_slice())?;
        same = same && all.as_slice() == expected[k];
    }
    Ok(same)
}

fn name(fault: &FormFault) -> &'static str {
    match fault {
        FormFault::DegreeTooHigh => "degree",
        FormFault::CoefficientRange => "range",
        FormFault::NotAffine => "bent",
        FormFault::ConditionTooWide => "wide",
        FormFault::NoMemory => "memory",
    }
}

#[test]
fn the_table_by_example(rt: HostRuntime) -> Result<(), Fail> {
    let alloc = rt.alloc();
    let rows: [(&str, bool, &[&[i64]]); 22] = [
        ("T", false, &[&[]]),
        ("T", true, &[&[-1, 0, 0]]),
        ("F", false, &[&[-1, 0, 0]]),
        ("F", true, &[&[]]),
        ("xyl", false, &[&[0, -1, 1]]),
        ("xyl", true, &[&[-1, 1, -1]]),
        ("xy<", false, &[&[-1, -1, 1]]),
        ("xy<", true, &[&[0, 1, -1]]),
        ("xyg", false, &[&[0, 1, -1]]),
        ("xyg", true, &[&[-1, -1, 1]]),
        ("xy>", false, &[&[-1, 1, -1]]),
        ("xy>", true, &[&[0, -1, 1]]),
        ("xy=", false, &[&[0, -1, 1, 0, 1, -1]]),
        ("xy=", true, &[&[-1, -1, 1], &[-1, 1, -1]]),
        ("xyn", false, &[&[-1, -1, 1], &[-1, 1, -1]]),
        ("xyn", true, &[&[0, -1, 1, 0, 1, -1]]),
        (
            "x0ny0n&",
            false,
            &[
                &[-1, -1, 0, -1, 0, -1],
                &[-1, -1, 0, -1, 0, 1],
                &[-1, 1, 0, -1, 0, -1],
                &[-1, 1, 0, -1, 0, 1],
            ],
        ),
        (
            "x0ny0n&",
            true,
            &[&[0, -1, 0, 0, 1, 0], &[0, 0, -1, 0, 0, 1]],
        ),
        (
            "x0ny0n|",
            false,
            &[&[-1, -1, 0], &[-1, 1, 0], &[-1, 0, -1], &[-1, 0, 1]],
        ),
        ("x0ny0n|", true, &[&[0, -1, 0, 0, 1, 0, 0, 0, -1, 0, 0, 1]]),
        ("x0n!", false, &[&[0, -1, 0, 0, 1, 0]]),
        ("x0n!", true, &[&[-1, -1, 0], &[-1, 1, 0]]),
    ];
    for (text, negated, expected) in rows {
        match cases(&rt, alloc, text, negated, 2)? {
            Ok(cases) => {
                assert!(rt; are(alloc, cases.as_slice(), expected)?, "{text} {negated}");
            }
            Err(fault) => assert_eq!(rt; name(&fault), "no fault", "{text} {negated}"),
        }
    }
    Ok(())
}

#[test]
fn conditions_of_one_variable(rt: HostRuntime) -> Result<(), Fail> {
    let alloc = rt.alloc();
    let rows: [(&str, &[&[i64]]); 4] = [
        ("x3<x5=|!", &[&[-3, 1, 4, -1], &[-3, 1, -6, 1]]),
        ("F", &[&[-1, 0]]),
        ("xm~<", &[&[-2147483648, -1]]),
        ("xx*xx*x+l", &[&[0, 1]]),
    ];
    for (text, expected) in rows {
        match cases(&rt, alloc, text, false, 1)? {
            Ok(cases) => assert!(rt; are(alloc, cases.as_slice(), expected)?, "{text}"),
            Err(fault) => assert_eq!(rt; name(&fault), "no fault", "{text}"),
        }
    }
    Ok(())
}

#[test]
fn the_number_of_conjunctions(rt: HostRuntime) -> Result<(), Fail> {
    let alloc = rt.alloc();
    let six = "x0nx0n&x0n&x0n&x0n&x0n&";
    let forty = "x0n".repeat(alloc, 40)?;
    let ands = "&".repeat(alloc, 39)?;
    let rows = [
        (String::from_str(alloc, six)?, false, Some(64)),
        (format!(in alloc; "{six}x0<|")?, false, None),
        (format!(in alloc; "{six}x0<|")?, true, Some(6)),
        (format!(in alloc; "{six}x0<|!")?, true, None),
        (format!(in alloc; "{forty}{ands}")?, false, None),
        (format!(in alloc; "{forty}{ands}")?, true, Some(40)),
    ];
    for (text, negated, expected) in &rows {
        match cases(&rt, alloc, text.as_str(), *negated, 1)? {
            Ok(cases) => assert!(rt; Some(cases.len()) == *expected, "{text} {negated}"),
            Err(fault) => {
                assert_eq!(rt; name(&fault), "wide", "{text} {negated}");
                assert!(rt; expected.is_none(), "{text} {negated}");
            }
        }
    }
    Ok(())
}

#[test]
fn the_normal_form_by_example(rt: HostRuntime) -> Result<(), Fail> {
    let alloc = rt.alloc();
    let names = vec![in alloc;
        String::from_str(alloc, "x")?,
        String::from_str(alloc, "y")?,
    ]?;
    for (text, terms, is_affine) in [
        ("mx*y-", " 2147483647x -1y", true),
        ("xx*xx*-", "", true),
        ("3x2*-~", " -3 2x", true),
        ("x1+x1-*", " -1 1xx", false),
        ("xy+xy+*", " 1xx 2xy 1yy", false),
    ] {
        let e = expression(alloc, text)?;
        assert!(rt; below(&e, 2));
        let form = normal(alloc, &e, 2)?;
        let written = form_text(alloc, names.as_slice(), &form)?;
        assert_eq!(rt; written.as_str(), terms, "{text}");
        if is_affine {
            let form = affine(alloc, &e, 2)?;
            let written = form_text(alloc, names.as_slice(), &form)?;
            assert_eq!(rt; written.as_str(), terms, "{text}");
        }
    }
    Ok(())
}

#[test]
fn the_first_fault_of_an_expression(rt: HostRuntime) -> Result<(), Fail> {
    let alloc = rt.alloc();
    let rows = [
        ("mx*y-", "none", "none"),
        ("xx*", "none", "bent"),
        ("xx*xx*-", "none", "none"),
        ("xx*x*", "degree", "degree"),
        ("xx*x*xx*x*-", "degree", "degree"),
        ("mx*x+", "range", "range"),
        ("mx*x+~", "range", "range"),
        ("xx*x*mx*x++", "degree", "degree"),
        ("mx*x+xx*x*+", "range", "range"),
        ("mx*xx*+mx**", "degree", "degree"),
        ("mm*", "range", "range"),
    ];
    for (text, plain, flat) in rows {
        let e = expression(alloc, text)?;
        assert!(rt; below(&e, 2));
        match normal(alloc, &e, 2) {
            Ok(_) => assert_eq!(rt; plain, "none", "{text}"),
            Err(fault) => assert_eq!(rt; name(&fault), plain, "{text}"),
        }
        match affine(alloc, &e, 2) {
            Ok(_) => assert_eq!(rt; flat, "none", "{text}"),
            Err(fault) => assert_eq!(rt; name(&fault), flat, "{text}"),
        }
    }
    Ok(())
}

#[test]
fn the_first_fault_of_a_condition(rt: HostRuntime) -> Result<(), Fail> {
    let alloc = rt.alloc();
    let rows = [
        ("xx*x*mx*x+<", "degree"),
        ("mx*x+xx*x*<", "range"),
        ("xx*y<", "bent"),
        ("mx*x~>", "range"),
        ("xx*mx*+x~>", "bent"),
        ("xx*y<xx*x*y<&", "bent"),
        ("xx*x*y<xx*y<|", "degree"),
        ("x0nx0n&x0n&x0n&x0n&x0n&x0<|xx*y<&", "bent"),
    ];
    for (text, expected) in rows {
        for negated in [false, true] {
            match cases(&rt, alloc, text, negated, 2)? {
                Ok(_) => assert_eq!(rt; expected, "none", "{text}"),
                Err(fault) => assert_eq!(rt; name(&fault), expected, "{text}"),
            }
        }
    }
    Ok(())
}
