//! Too many rows, and too many bounds.
use crate::asked::ask;
use dc_rows::RowFault;
use dc_syntax::Count;
use std::alloc::{AllocError, Global};
use std::test::Fail;

/// What there is too much of, and how many; where nothing is, the rows and the bounds.
#[derive(Clone, Copy, Debug, PartialEq)]
enum Outcome {
    Found(usize, usize),
    TooLarge(Count, u64),
}

fn judge(alloc: Global, source: &str) -> Result<Outcome, Fail> {
    match ask(alloc, source, "true", false)? {
        Ok(found) => Ok(Outcome::Found(found.rows.len(), found.bounds.len())),
        Err(RowFault::TooLarge { what, count }) => Ok(Outcome::TooLarge(what, count)),
        Err(RowFault::NoMemory) => Err(Fail::from("out of memory")),
    }
}

// So many statements `tick 10;`, `tick 20;` and so on.
fn tens(alloc: Global, statements: u32) -> Result<String, AllocError> {
    let mut text = String::from_str(alloc, "proc f() { ")?;
    for k in 1..statements.min(1000) + 1 {
        write!(text, "tick {}; ", k * 10)?;
    }
    text.push_str("}")?;
    Ok(text)
}

// So many different comparisons a*n <= b*m + c*k, by turns of the numbers 1 to 11, twelve in a
// statement.
fn turns(alloc: Global, comparisons: u32) -> Result<String, AllocError> {
    let mut text = String::from_str(alloc, "proc f(n, m, k) { assume (true")?;
    for at in 0..comparisons {
        if at % 12 == 11 {
            text.push_str("); assume (true")?;
        }
        let a = at % 11 + 1;
        let b = at / 11 % 11 + 1;
        let c = at / 121 + 1;
        write!(text, " && {a}*n <= {b}*m + {c}*k")?;
    }
    text.push_str("); }")?;
    Ok(text)
}

// So many different comparisons c*n <= m, each with a literal of its own.
fn rising(alloc: Global, comparisons: u32) -> Result<String, AllocError> {
    let mut text = String::from_str(alloc, "proc f(n, m) { assume (true")?;
    for at in 0..comparisons.min(2000) {
        if at % 30 == 29 {
            text.push_str("); assume (true")?;
        }
        write!(text, " && {}*n <= m", at + 1)?;
    }
    text.push_str("); }")?;
    Ok(text)
}

// With 42 literals, each of which has six neighbours of its own, and 0 with three there are 255
// bounds, with one more 261.
#[test]
fn at_most_256_bounds(rt: HostRuntime) -> Result<(), Fail> {
    let alloc = rt.alloc();
    let source = tens(alloc, 42)?;
    assert_eq!(rt; judge(alloc, source.as_str())?, Outcome::Found(0, 255));
    let source = tens(alloc, 43)?;
    assert_eq!(rt;
        judge(alloc, source.as_str())?,
        Outcome::TooLarge(Count::Bounds, 261)
    );
    Ok(())
}

// Six rows are those of the three variables. The literals are 1 to 11.
#[test]
fn at_most_1024_rows(rt: HostRuntime) -> Result<(), Fail> {
    let alloc = rt.alloc();
    for (comparisons, expected) in [
        (1018, Outcome::Found(1024, 25)),
        (1019, Outcome::TooLarge(Count::Rows, 1025)),
        (1100, Outcome::TooLarge(Count::Rows, 1106)),
    ] {
        let source = turns(alloc, comparisons)?;
        assert_eq!(rt; judge(alloc, source.as_str())?, expected);
    }
    Ok(())
}

// Four rows are those of the two variables; with the literals from 1 to c all numbers from -c - 1
// to c + 1 are bounds.
#[test]
fn rows_are_counted_first(rt: HostRuntime) -> Result<(), Fail> {
    let alloc = rt.alloc();
    for (comparisons, expected) in [
        (1020, Outcome::TooLarge(Count::Bounds, 2043)),
        (1021, Outcome::TooLarge(Count::Rows, 1025)),
    ] {
        let source = rising(alloc, comparisons)?;
        assert_eq!(rt; judge(alloc, source.as_str())?, expected);
    }
    Ok(())
}
