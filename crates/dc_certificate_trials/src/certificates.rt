//! Texts of certificates: what is read from them, and what is written again.
ghost use Rattle.std.specs.Prelude.{IfOk};
ghost use Rattle.dc_cert.specs.Ranges.{IsCertificate};
ghost use Rattle.dc_cert.specs.Vectors.{IsVector};

use dc_cert::{Body, Certificate, Claim, Item, Liveness, Sparse, sparse_of};
use dc_certtext::{
    ReadFault, WriteFault, read_cert, read_items, write_cert, write_claim, write_claim_line,
    write_fraction, write_items,
};
use dc_frac::Frac;
use sqlite_items::Items;
use std::alloc::{AllocError, Global};
use std::process::Abort;
use std::test::Fail;

// Two empty programs in one parameter, without a condition.
const SMALL: [&str; 18] = [
    "threshold 0",
    "whole 0",
    "diffcost 1",
    "degree 0 products 1",
    "when live 0:1 1:-1",
    "side new",
    "location 0",
    "entry",
    "exit live 0:1 1:-1",
    "side old",
    "location 0",
    "entry",
    "exit live 0:1 1:-1",
    "main",
    "unknown",
    "lambda",
    "dual 0:1 1:1 2:1",
    "end",
];

// The same with its cases numbered.
const NUMBERED: [&str; 19] = [
    "threshold 0",
    "whole 0",
    "diffcost 2",
    "degree 0 products 1",
    "cases 1",
    "when live 0:1 1:-1",
    "side new",
    "location 0",
    "entry 0",
    "exit live 0:1 1:-1",
    "side old",
    "location 0",
    "entry 0",
    "exit live 0:1 1:-1",
    "main",
    "unknown",
    "lambda",
    "dual 0:1 1:1 2:1",
    "end",
];

// The floor of -1/2 is -1.
const NEGATIVE: [&str; 20] = [
    "threshold -1/2",
    "whole -1",
    "diffcost 1",
    "degree 3 products 3",
    "when live",
    "side new",
    "location 0",
    "atom 2147483648",
    "entry",
    "keep 0:170141183460469231731687303715884105727",
    "exit live",
    "side old",
    "location 0",
    "entry",
    "exit live",
    "main",
    "unknown 0:-1/170141183460469231731687303715884105727",
    "lambda",
    "dual 8191:1",
    "end",
];

const NOTHING: [&str; 15] = [
    "none",
    "diffcost 1",
    "degree 1 products 1",
    "when dead 0:1",
    "side new",
    "location 0",
    "entry",
    "exit live",
    "side old",
    "location 0",
    "entry",
    "exit dead",
    "main",
    "dual 0:1 7:-2/3",
    "end",
];

const TWO_CASES: [&str; 32] = [
    "vacuous",
    "diffcost 2",
    "degree 1 products 2",
    "cases 2",
    "when live 0:1 1:-1/2",
    "when dead 8191:-7",
    "side new",
    "location 0",
    "atom -2147483648",
    "atom 5 -1 0 2147483647",
    "location 1",
    "atom 0 0 0 0 0 0 0 0 0 0 0",
    "entry 0",
    "keep 0:1",
    "keep",
    "entry 1",
    "edge 0 live 3:1",
    "keep 1:2 2:-3/4",
    "edge 1 dead",
    "exit dead 0:1",
    "side old",
    "location 0",
    "entry 0",
    "entry 1",
    "keep",
    "exit live",
    "main",
    "unknown 0:1",
    "lambda",
    "ray unknown 1:-1",
    "ray lambda 2:5",
    "end",
];

fn put_lines(out: &mut String, lines: &[&str]) -> Result<(), AllocError> {
    for line in lines {
        out.push_str(line)?;
        out.push('\n')?;
    }
    Ok(())
}

fn text_of(alloc: Global, lines: &[&str]) -> Result<String, AllocError> {
    let mut out = String::new(alloc);
    put_lines(&mut out, lines)?;
    Ok(out)
}

// The lines with some of them, from an index on, turned into others.
fn change_lines(
    alloc: Global,
    lines: &[&str],
    from: usize,
    to: usize,
    others: &[&str],
) -> Result<String, AllocError> {
    let mut out = String::new(alloc);
    put_lines(&mut out, lines.get(..from).unwrap_or(&[]))?;
    put_lines(&mut out, others)?;
    put_lines(&mut out, lines.get(to..).unwrap_or(&[]))?;
    Ok(out)
}

// The line at which a text is refused, 0 where it is read.
fn refused_at(alloc: Global, text: &str) -> Result<u64, Fail> {
    match read_cert(alloc, text.as_bytes()) {
        Ok(_) => Ok(0),
        Err(ReadFault::BadText { line }) => Ok(line),
        Err(ReadFault::NoMemory) => Err(Fail::from("out of memory")),
    }
}

#[test]
fn texts_both_ways(rt: HostRuntime) -> Result<(), Fail> {
    let alloc = rt.alloc();
    for lines in [
        SMALL.as_slice(),
        NUMBERED.as_slice(),
        NEGATIVE.as_slice(),
        NOTHING.as_slice(),
        TWO_CASES.as_slice(),
    ] {
        let text = text_of(alloc, lines)?;
        let c = read_cert(alloc, text.as_bytes())?;
        let written = write_cert(alloc, &c)?;
        assert!(rt; written.as_slice() == text.as_bytes(), "{text}");
    }
    Ok(())
}

// What a table says of a line, and where it says nothing the other line.
fn answer_for(table: &[(usize, u64)], line: usize, other: u64) -> u64 {
    for row in table {
        if row.0 == line {
            return row.1;
        }
    }
    other
}

// Each line, by its index from 0 on, left out: the text is refused at the line behind it, unless
// the table says otherwise.
fn left_out(
    alloc: Global,
    rt: &impl Abort,
    lines: &[&str],
    table: &[(usize, u64)],
) -> Result<(), Fail> {
    for k in 0..lines.len() {
        let text = change_lines(alloc, lines, k, k + 1, &[])?;
        let line = lines[k];
        assert!(rt;
            refused_at(alloc, text.as_str())? == answer_for(table, k, k as u64 + 1),
            "without {line}"
        );
    }
    Ok(())
}

// Each line put twice: the second one is refused, unless the table says otherwise.
fn double_lines(
    alloc: Global,
    rt: &impl Abort,
    lines: &[&str],
    table: &[(usize, u64)],
) -> Result<(), Fail> {
    for k in 0..lines.len() {
        let line = lines[k];
        let text = change_lines(alloc, lines, k, k + 1, &[line, line])?;
        assert!(rt;
            refused_at(alloc, text.as_str())? == answer_for(table, k, k as u64 + 2),
            "twice {line}"
        );
    }
    Ok(())
}

// Each line put behind the next one, which is refused, unless the table says otherwise.
fn move_lines(
    alloc: Global,
    rt: &impl Abort,
    lines: &[&str],
    table: &[(usize, u64)],
) -> Result<(), Fail> {
    for k in 1..lines.len() {
        let line = lines[k];
        let text = change_lines(alloc, lines, k - 1, k + 1, &[line, lines[k - 1]])?;
        assert!(rt;
            refused_at(alloc, text.as_str())? == answer_for(table, k - 1, k as u64),
            "{line} moved up"
        );
    }
    Ok(())
}

// Lines that may be missing or stand twice are those of atoms, keeps and edges; where the count is
// wrong, a later line tells.
#[test]
fn lines_left_out(rt: HostRuntime) -> Result<(), Fail> {
    left_out(rt.alloc(), &rt, &SMALL, &[])?;
    left_out(rt.alloc(), &rt, &NUMBERED, &[])?;
    left_out(rt.alloc(), &rt, &NEGATIVE, &[(7, 0), (9, 0)])?;
    left_out(rt.alloc(), &rt, &NOTHING, &[])?;
    let table = [
        (4, 6),
        (8, 0),
        (9, 0),
        (10, 0),
        (11, 0),
        (13, 0),
        (14, 0),
        (16, 18),
        (17, 0),
        (18, 0),
        (23, 25),
        (24, 0),
    ];
    left_out(rt.alloc(), &rt, &TWO_CASES, &table)?;
    Ok(())
}

#[test]
fn lines_put_twice(rt: HostRuntime) -> Result<(), Fail> {
    double_lines(rt.alloc(), &rt, &SMALL, &[])?;
    double_lines(rt.alloc(), &rt, &NUMBERED, &[])?;
    double_lines(rt.alloc(), &rt, &NEGATIVE, &[(7, 0), (9, 0)])?;
    double_lines(rt.alloc(), &rt, &NOTHING, &[])?;
    let table = [
        (4, 7),
        (8, 0),
        (9, 0),
        (11, 0),
        (13, 0),
        (14, 0),
        (17, 0),
        (24, 0),
    ];
    double_lines(rt.alloc(), &rt, &TWO_CASES, &table)?;
    Ok(())
}

#[test]
fn lines_moved_behind_the_next(rt: HostRuntime) -> Result<(), Fail> {
    move_lines(rt.alloc(), &rt, &SMALL, &[])?;
    move_lines(rt.alloc(), &rt, &NUMBERED, &[])?;
    move_lines(rt.alloc(), &rt, &NEGATIVE, &[(7, 9), (9, 11)])?;
    move_lines(rt.alloc(), &rt, &NOTHING, &[])?;
    let table = [
        (4, 0),
        (8, 0),
        (9, 0),
        (10, 0),
        (11, 13),
        (13, 0),
        (14, 0),
        (16, 0),
        (17, 0),
        (18, 20),
        (23, 0),
        (24, 26),
    ];
    move_lines(rt.alloc(), &rt, &TWO_CASES, &table)?;
    Ok(())
}

// The kinds of the cases, the atoms, and which ray is which.
#[test]
fn parts_of_a_certificate(rt: HostRuntime) -> Result<(), Fail> {
    let alloc = rt.alloc();
    let text = text_of(alloc, &TWO_CASES)?;
    let c = read_cert(alloc, text.as_bytes())?;
    let when = c.when.as_slice();
    assert!(rt; when.len() == 2);
    assert!(rt; when[0].is_live() && !when[1].is_live());
    let families = c.new_side.families.as_slice();
    assert!(rt; families.len() == 2);
    let atoms = families[0].as_slice();
    assert!(rt; atoms.len() == 2);
    assert!(rt; atoms[0].c0 == -2147483648 && atoms[0].coefs.len() == 0);
    assert!(rt; atoms[1].c0 == 5);
    assert!(rt; atoms[1].coefs.as_slice() == [-1, 0, 2147483647].as_slice());
    let Body::Vacuous {
        ray_unknown,
        ray_lambda,
        ..
    } = &c.body
    else {
        return Err(Fail::from("not vacuous"));
    };
    let unknown = write_items(alloc, ray_unknown)?;
    assert!(rt; unknown.as_slice() == b" 1:-1".as_slice());
    let lambda = write_items(alloc, ray_lambda)?;
    assert!(rt; lambda.as_slice() == b" 2:5".as_slice());
    Ok(())
}

// The certificate with copies of both sides instead of them.
fn with_copies(alloc: Global, c: Certificate) -> Result<Certificate, AllocError>
    requires { IsCertificate c }
    ensures { IfOk result IsCertificate }
{
    let new_side = c.new_side.copy(alloc)?;
    let old_side = c.old_side.copy(alloc)?;
    let mut other = c;
    other.new_side = new_side;
    other.old_side = old_side;
    Ok(other)
}

// Whether this is the one item of a vector: an index and a whole number.
fn is_item(s: &Sparse, index: usize, value: i128) -> bool {
    match s.items.as_slice() {
        [item] => item.index == index && item.value.num == value && item.value.den == 1,
        _ => false,
    }
}

// Copies are equal to what they copy: the sides by the text, lines and vectors by their items.
#[test]
fn copies_of_the_parts(rt: HostRuntime) -> Result<(), Fail> {
    let alloc = rt.alloc();
    let text = text_of(alloc, &TWO_CASES)?;
    let c = read_cert(alloc, text.as_bytes())?;
    let when = c.when.as_slice();
    assert!(rt; when.len() == 2);
    let Liveness::Live(point) = &when[0].copy(alloc)? else {
        return Err(Fail::from("not live"));
    };
    let expected = [
        Item {
            index: 0,
            value: Frac::whole(1),
        },
        Item {
            index: 1,
            value: Frac::new(-1, 2),
        },
    ];
    assert!(rt; point.items.as_slice() == expected.as_slice());
    let Liveness::Dead(shown) = &when[1].copy(alloc)? else {
        return Err(Fail::from("not dead"));
    };
    assert!(rt; is_item(shown, 8191, -7));
    assert!(rt; is_item(&shown.copy(alloc)?, 8191, -7));
    let copied = with_copies(alloc, c)?;
    let written = write_cert(alloc, &copied)?;
    assert!(rt; written.as_slice() == text.as_bytes());
    Ok(())
}

// The lines that a claim begins its certificate with.
#[test]
fn lines_of_claims(rt: HostRuntime) -> Result<(), Fail> {
    let alloc = rt.alloc();
    for (claim, first, text) in [
        (
            Claim::Threshold(Frac::new(-1, 2)),
            "threshold -1/2",
            "threshold -1/2\nwhole -1\n",
        ),
        (
            Claim::Threshold(Frac::whole(7)),
            "threshold 7",
            "threshold 7\nwhole 7\n",
        ),
        (Claim::Nothing, "none", "none\n"),
        (Claim::Vacuous, "vacuous", "vacuous\n"),
    ] {
        let line = write_claim_line(alloc, &claim)?;
        assert!(rt; line.as_slice() == first.as_bytes(), "{first}");
        let lines = write_claim(alloc, &claim)?;
        assert!(rt; lines.as_slice() == text.as_bytes(), "{text}");
    }
    let half = write_fraction(alloc, &Frac::new(-1, 2))?;
    assert!(rt; half.as_slice() == b"-1/2".as_slice());
    Ok(())
}

// How many lines stand before those that are turned into others, how many with them, the others,
// and the line that is refused, 0 where none is.
const CHANGES: [(usize, usize, &str, u64); 30] = [
    (0, 1, "threshold 1/2", 0),
    (0, 1, "threshold -1/2", 2),
    (0, 2, "threshold 1/2\nwhole 1", 2),
    (0, 2, "threshold 1\nwhole 1", 0),
    (0, 1, "threshold -0", 1),
    (0, 1, "threshold 00", 1),
    (0, 1, " threshold 0", 1),
    (1, 2, "whole 0 ", 2),
    (2, 3, "diffcost 3", 3),
    (2, 3, "diffcost 2", 5),
    (3, 4, "degree 4 products 1", 4),
    (3, 4, "degree 0 products 0", 4),
    (3, 4, "degree 0  products 1", 4),
    (4, 5, "when live 1:-1 0:1", 5),
    (4, 5, "when live 8192:1", 5),
    (4, 5, "when live 0:1/0", 5),
    (
        4,
        5,
        "when live 0:170141183460469231731687303715884105728",
        5,
    ),
    (4, 5, "when live 5:1", 0),
    (6, 7, "location 1", 7),
    (7, 8, "entry 0", 8),
    (8, 9, "exit live 5:1", 0),
    (8, 9, "edge 1 live", 9),
    (15, 16, "lambda 0:-1", 0),
    (15, 16, "lambda 3:1", 0),
    (14, 16, "unknown 0:1\nlambda 2:1", 0),
    (15, 17, "dual 0:1 1:1 2:1\nlambda", 16),
    (16, 17, "dual 0:2/4 1:1 2:1", 17),
    (16, 17, "dual 0:1 1:1 2:2", 0),
    (
        16,
        17,
        "dual 0:-170141183460469231731687303715884105727 2:1",
        0,
    ),
    (17, 18, "End", 18),
];

#[test]
fn changed_lines(rt: HostRuntime) -> Result<(), Fail> {
    let alloc = rt.alloc();
    for (before, with, others, expected) in CHANGES {
        let text = change_lines(alloc, &SMALL, before, with, &[others])?;
        assert!(rt; refused_at(alloc, text.as_str())? == expected, "{others}");
    }
    Ok(())
}

#[test]
fn texts_that_end_wrongly(rt: HostRuntime) -> Result<(), Fail> {
    let alloc = rt.alloc();
    let whole = text_of(alloc, &SMALL)?;
    let cut = text_of(alloc, &SMALL[..17])?;
    for (front, end, expected) in [
        ("", "", 1),
        ("", "\n", 1),
        ("", "threshold 0", 1),
        (cut.as_str(), "", 18),
        (cut.as_str(), "end", 18),
        (whole.as_str(), "\n", 19),
        (whole.as_str(), "x", 19),
        (whole.as_str(), "end\n", 19),
    ] {
        let mut text = String::from_str(alloc, front)?;
        text.push_str(end)?;
        assert!(rt; refused_at(alloc, text.as_str())? == expected, "{end}");
    }
    Ok(())
}

// A line of items that are 45 bytes each, from index 1000 on.
fn put_long_line(out: &mut String, items: usize) -> Result<(), AllocError> {
    out.push_str("keep")?;
    for index in 1000..1000 + items.min(7000) {
        write!(out, " {index}:170141183460469231731687303715884105727")?;
    }
    Ok(())
}

// The first 8 lines, 96 bytes, and 53 lines of 315,005 bytes.
fn long_text(alloc: Global) -> Result<String, AllocError> {
    let mut line = String::new(alloc);
    put_long_line(&mut line, 7000)?;
    line.push('\n')?;
    let mut text = text_of(alloc, &SMALL[..8])?;
    for _line in 0..53 {
        text.push_str(line.as_str())?;
    }
    Ok(text)
}

// Byte 16,777,217 stands on the next line; with the line behind it no text goes on.
#[test]
fn a_text_that_is_too_long(rt: HostRuntime) -> Result<(), Fail> {
    let mut text = long_text(rt.alloc())?;
    put_long_line(&mut text, 7000)?;
    text.push_str("\nend\n")?;
    assert_eq!(rt; text.len(), 17010370);
    assert_eq!(rt; refused_at(rt.alloc(), text.as_str())?, 62);
    Ok(())
}

// The next line has 81,725 bytes and one item more, whose digits fill the text up; behind it are 10
// lines of 105 bytes.
fn filled_text(alloc: Global, item: &str) -> Result<String, AllocError> {
    let mut text = long_text(alloc)?;
    put_long_line(&mut text, 1816)?;
    text.push_str(item)?;
    text.push('\n')?;
    put_lines(&mut text, &SMALL[8..])?;
    Ok(text)
}

// With 16,777,216 bytes a text is read and written again; with one more its last line is refused.
#[test]
fn a_text_of_the_greatest_length(rt: HostRuntime) -> Result<(), Fail> {
    let alloc = rt.alloc();
    let text = filled_text(alloc, " 2816:1000000000000000000")?;
    assert_eq!(rt; text.len(), 16777216);
    let c = read_cert(alloc, text.as_bytes())?;
    let written = write_cert(alloc, &c)?;
    assert!(rt; written.as_slice() == text.as_bytes());
    let longer = filled_text(alloc, " 2816:10000000000000000000")?;
    assert_eq!(rt; longer.len(), 16777217);
    assert_eq!(rt; refused_at(alloc, longer.as_str())?, 72);
    Ok(())
}

// The certificate with another claim: every threshold, with this ray.
fn vacuous(alloc: Global, c: Certificate, ray: Sparse) -> Certificate
    requires c { IsCertificate c }
    requires ray { IsVector ray }
    ensures { IsCertificate result }
{
    let mut other = c;
    other.body = Body::Vacuous {
        unknown: Sparse {
            items: Items::new(alloc),
        },
        lambda: Sparse {
            items: Items::new(alloc),
        },
        ray_unknown: ray,
        ray_lambda: Sparse {
            items: Items::new(alloc),
        },
    };
    other
}

// Of the text of the greatest length the lines `threshold 0`, `whole 0` and `dual 0:1 1:1 2:1` go, 37 bytes, and `vacuous`, `ray unknown 0:1000` and
// `ray lambda` come, 38 bytes.
#[test]
fn a_certificate_whose_text_is_too_long(rt: HostRuntime) -> Result<(), Fail> {
    let alloc = rt.alloc();
    let text = filled_text(alloc, " 2816:1000000000000000000")?;
    let c = read_cert(alloc, text.as_bytes())?;
    let Some(ray) = read_items(alloc, b" 0:1000")? else {
        return Err(Fail::from("refused"));
    };
    let longer = vacuous(alloc, c, ray);
    match write_cert(alloc, &longer) {
        Ok(_) => Err(Fail::from("written")),
        Err(WriteFault::TooLarge { count }) => {
            assert_eq!(rt; count, 16777217);
            Ok(())
        }
        Err(WriteFault::NoMemory) => Err(Fail::from("out of memory")),
    }
}

// The items 0:1 and 2:-1/2, both ways.
#[test]
fn items_both_ways(rt: HostRuntime) -> Result<(), Fail> {
    let alloc = rt.alloc();
    let Some(s) = read_items(alloc, b" 0:1 2:-1/2")? else {
        return Err(Fail::from("refused"));
    };
    let items = s.items.as_slice();
    let table = [(0, 1, 1), (2, -1, 2)];
    assert!(rt; items.len() == 2);
    assert!(rt;
        items.iter().zip(&table).all(|(item, row)| item.index == row.0
            && item.value.num == row.1
            && item.value.den == row.2)
    );
    let text = write_items(alloc, &s)?;
    assert!(rt; text.as_slice() == b" 0:1 2:-1/2".as_slice());
    let zero = Frac::whole(0);
    let whole = sparse_of(alloc, &[zero, Frac::new(1, 3), zero, Frac::whole(-2)])?;
    let written = write_items(alloc, &whole)?;
    assert!(rt; written.as_slice() == b" 1:1/3 3:-2".as_slice());
    Ok(())
}

#[test]
fn texts_of_vectors_and_of_none(rt: HostRuntime) -> Result<(), Fail> {
    let alloc = rt.alloc();
    for (text, is_vector) in [
        ("", true),
        (" 8191:1", true),
        (
            " 0:-170141183460469231731687303715884105727/170141183460469231731687303715884105726",
            true,
        ),
        (" 0:1/2 1:-3 10:7", true),
        (" 0:2/4", false),
        ("0:1", false),
        (" ", false),
        (" 0:1 ", false),
        ("  0:1", false),
        (" 1:1 0:1", false),
        (" 0:1 0:1", false),
        (" 0:0", false),
        (" 0:-0", false),
        (" 0:1/1", false),
        (" 0:1/0", false),
        (" 0:01", false),
        (" 00:1", false),
        (" 0:+1", false),
        (" 8192:1", false),
        (" 0:170141183460469231731687303715884105728", false),
        (" 0:1/170141183460469231731687303715884105728", false),
        (" 0:1\n", false),
    ] {
        let read = read_items(alloc, text.as_bytes())?;
        assert!(rt; read.is_some() == is_vector, "{text}");
    }
    Ok(())
}
