//! Texts of traces: what is read from them, and what is written again.
ghost use Rattle.std.specs.Prelude.{IfOk};
ghost use Rattle.dc_tracetext.specs.Text.{IsTrace};

use dc_tracetext::{Trace, TraceTextFault, TraceWriteFault, read_trace, write_trace};
use sqlite_items::Items;
use std::alloc::{AllocError, Global};
use std::test::Fail;

// Texts, with the inputs and the choices that they say.
const READ: [(&str, &[i64], &[i64]); 5] = [
    ("input 100\nchoices\nend\n", &[100], &[]),
    ("input\nchoices\nend\n", &[], &[]),
    (
        "input -1 0 2\nchoices 1 0 1\nend\n",
        &[-1, 0, 2],
        &[1, 0, 1],
    ),
    (
        "input 9223372036854775807\nchoices -9223372036854775807\nend\n",
        &[9223372036854775807],
        &[-9223372036854775807],
    ),
    ("input 10 9\nchoices 8\nend\n", &[10, 9], &[8]),
];

// Texts that are no trace's, with the line that is told.
const BAD: [(&str, u64); 24] = [
    ("", 1),
    ("\n", 1),
    ("end\n", 1),
    ("input 1", 1),
    ("inputs 1\nchoices\nend\n", 1),
    ("input1\nchoices\nend\n", 1),
    ("input  1\nchoices\nend\n", 1),
    ("input 1 \nchoices\nend\n", 1),
    ("input\t1\nchoices\nend\n", 1),
    ("input 01\nchoices\nend\n", 1),
    ("input -0\nchoices\nend\n", 1),
    ("input +1\nchoices\nend\n", 1),
    ("input 9223372036854775808\nchoices\nend\n", 1),
    ("input -9223372036854775808\nchoices\nend\n", 1),
    ("input 1\r\nchoices\nend\n", 1),
    ("input 1\n", 2),
    ("input 1\nchoices", 2),
    ("input 1\nend\n", 2),
    ("input 1\ninput 1\nend\n", 2),
    ("input 1\nchoices x\nend\n", 2),
    ("input 1\nchoices\nend", 3),
    ("input 1\nchoices\nend \n", 3),
    ("input 1\nchoices\nend\n\n", 4),
    ("input 1\nchoices\nend\nend", 4),
];

fn is_read(alloc: Global, text: &str, input: &[i64], choices: &[i64]) -> bool {
    match read_trace(alloc, text.as_bytes()) {
        Ok(t) => t.input.as_slice() == input && t.choices.as_slice() == choices,
        Err(_) => false,
    }
}

fn is_bad(alloc: Global, text: &[u8], told: u64) -> bool {
    match read_trace(alloc, text) {
        Err(TraceTextFault::BadTrace { line }) => line == told,
        _ => false,
    }
}

// Whether what is read is written as it was.
fn comes_back(alloc: Global, text: &str) -> bool {
    match read_trace(alloc, text.as_bytes()) {
        Ok(t) => match write_trace(alloc, &t) {
            Ok(bytes) => bytes.as_slice() == text.as_bytes(),
            Err(_) => false,
        },
        Err(_) => false,
    }
}

// The same trace with a choice more, 0.
fn with_zero(mut t: Trace) -> Result<Trace, AllocError>
    requires { IsTrace t }
    ensures { IfOk result (λ r. IsTrace r) }
{
    t.choices.push(0)?;
    Ok(t)
}

fn is_too_long(alloc: Global, t: &Trace, told: u64) -> bool
    requires { IsTrace t.now }
{
    match write_trace(alloc, t) {
        Err(TraceWriteFault::TooLong { count }) => count == told,
        _ => false,
    }
}

#[test]
fn texts_both_ways(rt: HostRuntime) -> Result<(), Fail> {
    let alloc = rt.alloc();
    for (text, input, choices) in &READ {
        assert!(rt; is_read(alloc, text, input, choices), "{text:?}");
        assert!(rt; comes_back(alloc, text), "{text:?}");
    }
    for (text, line) in &BAD {
        assert!(rt; is_bad(alloc, text.as_bytes(), *line), "{text:?}");
    }
    Ok(())
}

#[test]
fn three_lines(rt: HostRuntime) -> Result<(), Fail> {
    let alloc = rt.alloc();
    let mut input = Items::new(alloc);
    input.push(100)?;
    let t = Trace {
        input,
        choices: Items::new(alloc),
    };
    let text = write_trace(alloc, &t)?;
    assert!(rt; text.len() == 22);
    assert!(rt; text.as_slice() == b"input 100\nchoices\nend\n".as_slice());
    Ok(())
}

// A text with so many numbers of 14 bytes each, with the space.
fn long_text(
    alloc: Global,
    before: &str,
    count: usize,
    behind: &str,
) -> Result<String, AllocError> {
    let mut text = String::new(alloc);
    text.push_str(before)?;
    for _ in 0..count {
        text.push_str(" 1000000000000")?;
    }
    text.push_str(behind)?;
    Ok(text)
}

// The longest text has 5 + 1 + 8 + 4 bytes beside its 74,897 inputs; a choice more, ` 0`, makes it
// too long.
#[test]
fn longest_text(rt: HostRuntime) -> Result<(), Fail> {
    let alloc = rt.alloc();
    let text = long_text(alloc, "input", 74897, "\nchoices\nend\n")?;
    assert!(rt; text.len() == 1048576);
    let t = read_trace(alloc, text.as_bytes())?;
    assert!(rt; t.input.as_slice().len() == 74897);
    let bytes = write_trace(alloc, &t)?;
    assert!(rt; bytes.as_slice() == text.as_bytes());
    let t = with_zero(t)?;
    assert!(rt; is_too_long(alloc, &t, 1048578));
    Ok(())
}

// In a text that is too long the line of byte 1,048,577 is told where no line before it is wrong.
#[test]
fn too_long_texts(rt: HostRuntime) -> Result<(), Fail> {
    let alloc = rt.alloc();
    let table = [
        ("input", 74898, "\nchoices\nend\n", 1),
        ("input", 74897, "\nchoices 10000000000\nend\n", 2),
        ("input", 74897, "\nchoices 10\nend\n", 3),
        ("input 1\nchoices", 74898, "\nend\n", 2),
        ("input 1\nchoices", 74897, "\nend\n", 3),
        ("inputs\nchoices", 74898, "\nend\n", 1),
        ("input 1\nchoices\nend", 74898, "\n", 3),
        ("input 1\nchoices\nend\n", 74898, "\n", 4),
    ];
    for (before, count, behind, line) in &table {
        let text = long_text(alloc, before, *count, behind)?;
        assert!(rt; text.len() > 1048576);
        assert!(rt; is_bad(alloc, text.as_bytes(), *line), "{before:?} {count}");
    }
    Ok(())
}
