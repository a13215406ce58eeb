//! What `check` answers: the first step that does not hold, or the claim.
use crate::texts::{APART, CASES, DEAD, FOLDED, IDLE, LOCAL, NONE};
use dc_cert::Claim;
use dc_certtext::read_cert;
use dc_check::{CheckFault, check};
use dc_frac::Frac;
use dc_parse::{parse_proc, parse_when};
use dc_syntax::{Count, Side, same_params};
use std::alloc::{AllocError, Global};
use std::test::Fail;

/// An answer of `check`.
#[derive(Clone, Copy, Debug, PartialEq)]
enum Answer {
    Threshold(i128),
    Nothing,
    Vacuous,
    Rejected(u8, u64),
    Past128(u8, u64),
    TooLarge(Option<Side>, Count, u64),
}

const EMPTY: &str = "proc f(n) { }";

/// Two sources, a condition, and a certificate with some lines turned into others, counted from 1.
#[derive(Clone, Copy)]
struct Row {
    new: &'static str,
    old: &'static str,
    when: &'static str,
    text: &'static str,
    changes: &'static [(usize, &'static str)],
    answer: Answer,
}

/// A text with some lines turned into others.
fn change_lines(
    alloc: Global,
    text: &str,
    changes: &[(usize, &str)],
) -> Result<String, AllocError> {
    let mut out = String::new(alloc);
    let mut number = 0u64;
    for line in text.lines() {
        number = number.saturating_add(1);
        let mut own = line;
        for change in changes {
            if change.0 as u64 == number {
                own = change.1;
            }
        }
        out.push_str(own)?;
        out.push('\n')?;
    }
    Ok(out)
}

fn claim_answer(claim: Claim) -> Answer {
    match claim {
        Claim::Threshold(t) => Answer::Threshold(t.floor()),
        Claim::Nothing => Answer::Nothing,
        Claim::Vacuous => Answer::Vacuous,
    }
}

fn outcome(alloc: Global, row: &Row) -> Result<Answer, Fail> {
    let text = change_lines(alloc, row.text, row.changes)?;
    judge(alloc, row.new, row.old, row.when, text.as_str())
}

fn judge(alloc: Global, new: &str, old: &str, when: &str, text: &str) -> Result<Answer, Fail> {
    let Ok(new) = parse_proc(alloc, new.as_bytes()) else {
        return Err(Fail::from("new"));
    };
    let Ok(old) = parse_proc(alloc, old.as_bytes()) else {
        return Err(Fail::from("old"));
    };
    if !same_params(&new, &old) {
        return Err(Fail::from("parameters"));
    }
    let Ok(cases) = parse_when(alloc, when.as_bytes(), &new) else {
        return Err(Fail::from("when"));
    };
    let Ok(c) = read_cert(alloc, text.as_bytes()) else {
        return Err(Fail::from("text"));
    };
    match check(alloc, &new, &old, cases.as_slice(), &c) {
        Ok(found) => Ok(claim_answer(found)),
        Err(CheckFault::Rejected { clause, index }) => Ok(Answer::Rejected(clause, index)),
        Err(CheckFault::Past128 { clause, index }) => Ok(Answer::Past128(clause, index)),
        Err(CheckFault::TooLarge { side, what, count }) => {
            Ok(Answer::TooLarge(side, what, count))
        }
        Err(CheckFault::NoMemory) => Err(Fail::from("memory")),
    }
}

/// The certificate of two empty programs with lines changed.
const fn idle(changes: &'static [(usize, &'static str)], answer: Answer) -> Row {
    Row {
        new: EMPTY,
        old: EMPTY,
        when: "true",
        text: IDLE,
        changes,
        answer,
    }
}

#[test]
fn answers_the_first_step_that_does_not_hold(rt: HostRuntime) -> Result<(), Fail> {
    let alloc = rt.alloc();
    let table = [
        idle(&[], Answer::Threshold(0)),
        idle(&[(5, "when live 5:1")], Answer::Rejected(2, 0)),
        idle(&[(9, "exit live 5:1")], Answer::Rejected(1, 0)),
        idle(&[(13, "exit live 5:1")], Answer::Rejected(1, 1)),
        idle(&[(9, "exit live")], Answer::Rejected(6, 0)),
        idle(&[(13, "exit dead")], Answer::Rejected(6, 1)),
        idle(&[(16, "lambda 0:-1")], Answer::Rejected(8, 0)),
        idle(&[(16, "lambda 3:1")], Answer::Rejected(7, 1)),
        idle(&[(15, "unknown 3:1")], Answer::Rejected(7, 0)),
        idle(&[(17, "dual 3:1")], Answer::Rejected(7, 4)),
        idle(
            &[(1, "threshold 1"), (2, "whole 1")],
            Answer::Rejected(11, 0),
        ),
        idle(
            &[(1, "threshold 1"), (2, "whole 1"), (15, "unknown 0:1")],
            Answer::Rejected(9, 2),
        ),
        idle(
            &[
                (1, "threshold 1"),
                (2, "whole 1"),
                (15, "unknown 0:1"),
                (16, "lambda 2:1"),
            ],
            Answer::Rejected(11, 0),
        ),
        idle(&[(17, "dual 0:1 1:1 2:2")], Answer::Rejected(10, 0)),
        idle(&[(17, "dual 0:2 1:1 2:1")], Answer::Rejected(10, 1)),
        idle(
            &[(17, "dual 0:-170141183460469231731687303715884105727 2:1")],
            Answer::Past128(10, 1),
        ),
    ];
    for row in table {
        assert_eq!(rt; outcome(alloc, &row)?, row.answer);
    }
    Ok(())
}

const APART_NEW: &str = "proc f(n) { tick n; tick -n; }";

const APART_OLD: &str = "proc f(n) { skip; }";

const TEN: &str = "0 <= n && n <= 10";

const fn case(
    new: &'static str,
    old: &'static str,
    when: &'static str,
    text: &'static str,
    changes: &'static [(usize, &'static str)],
    answer: Answer,
) -> Row {
    Row {
        new,
        old,
        when,
        text,
        changes,
        answer,
    }
}

/// The systems are those of the certificate's version: statement by statement, or folded.
#[test]
fn checks_over_the_systems_of_the_version(rt: HostRuntime) -> Result<(), Fail> {
    let alloc = rt.alloc();
    let table = [
        case(APART_NEW, APART_OLD, TEN, APART, &[], Answer::Threshold(10)),
        case(APART_NEW, APART_OLD, TEN, FOLDED, &[], Answer::Threshold(0)),
        // a version 1 certificate has one case
        case(
            EMPTY,
            EMPTY,
            "n >= 0 || n == 7",
            IDLE,
            &[(5, "when live 1:-1")],
            Answer::Rejected(2, 1),
        ),
    ];
    for row in table {
        assert_eq!(rt; outcome(alloc, &row)?, row.answer);
    }
    Ok(())
}

/// Each case has its line and its keeps.
#[test]
fn judges_each_case(rt: HostRuntime) -> Result<(), Fail> {
    let alloc = rt.alloc();
    let two = "n >= 0 || n == 7";
    let table = [
        case(EMPTY, EMPTY, two, CASES, &[], Answer::Threshold(0)),
        case(
            EMPTY,
            EMPTY,
            two,
            CASES,
            &[(7, "when live 1:-1")],
            Answer::Rejected(2, 1),
        ),
        case(
            EMPTY,
            EMPTY,
            two,
            CASES,
            &[(7, "when dead 0:1")],
            Answer::Rejected(2, 1),
        ),
        // the atom follows from the first case by itself, and from the second by none of its atoms
        case(
            EMPTY,
            EMPTY,
            two,
            CASES,
            &[
                (9, "location 0\natom 0 1"),
                (10, "entry 0\nkeep 0:1"),
                (11, "entry 1\nkeep"),
            ],
            Answer::Rejected(3, 1),
        ),
        // fewer cases than lines, and more
        case(EMPTY, EMPTY, "n >= 0", CASES, &[], Answer::Rejected(2, 1)),
        case(
            EMPTY,
            EMPTY,
            "n >= 0 || n == 7 || n == 9",
            CASES,
            &[],
            Answer::Rejected(2, 2),
        ),
    ];
    for row in table {
        assert_eq!(rt; outcome(alloc, &row)?, row.answer);
    }
    Ok(())
}

/// Keeps, and the lines of edges, with their numbers counted on.
#[test]
fn judges_keeps_and_edges(rt: HostRuntime) -> Result<(), Fail> {
    let alloc = rt.alloc();
    let table = [
        // a keep of the entry with a multiplier that is negative, with another coefficient, and
        // with a constant that is too great
        case(
            APART_NEW,
            APART_OLD,
            TEN,
            APART,
            &[(15, "keep 0:-1")],
            Answer::Rejected(3, 0),
        ),
        case(
            APART_NEW,
            APART_OLD,
            TEN,
            APART,
            &[(16, "keep 0:1")],
            Answer::Rejected(3, 1),
        ),
        case(
            APART_NEW,
            APART_OLD,
            TEN,
            APART,
            &[(9, "atom 9 -1")],
            Answer::Rejected(3, 1),
        ),
        // a keep of an edge whose target's atom is stronger than it shows
        case(
            APART_NEW,
            APART_OLD,
            TEN,
            APART,
            &[(12, "atom 9 -1")],
            Answer::Rejected(5, 1),
        ),
        case(
            APART_NEW,
            APART_OLD,
            TEN,
            APART,
            &[(18, "keep 0:2")],
            Answer::Rejected(5, 0),
        ),
        case(
            APART_NEW,
            APART_OLD,
            TEN,
            APART,
            &[(9, "atom 11 -1")],
            Answer::Rejected(5, 1),
        ),
        // a weaker atom is shown as well, and changes nothing here
        case(
            APART_NEW,
            APART_OLD,
            TEN,
            APART,
            &[(12, "atom 11 -1")],
            Answer::Threshold(10),
        ),
        // lines of edges: of new, and of old counted on
        case(
            APART_NEW,
            APART_OLD,
            TEN,
            APART,
            &[(17, "edge 0 live 0:1 1:-1")],
            Answer::Rejected(4, 0),
        ),
        case(
            APART_NEW,
            APART_OLD,
            TEN,
            APART,
            &[(20, "edge 1 live")],
            Answer::Rejected(4, 1),
        ),
        case(
            APART_NEW,
            APART_OLD,
            TEN,
            APART,
            &[(26, "edge 0 dead")],
            Answer::Rejected(4, 2),
        ),
        // a keep with an item out of range
        case(
            APART_NEW,
            APART_OLD,
            TEN,
            APART,
            &[(19, "keep 2:1")],
            Answer::Rejected(1, 0),
        ),
        // with its locals 0 an atom of the entry holds, or does not
        case(
            "proc f(n) { var i; }",
            EMPTY,
            "true",
            LOCAL,
            &[],
            Answer::Threshold(0),
        ),
        case(
            "proc f(n) { var i; }",
            EMPTY,
            "true",
            LOCAL,
            &[(8, "atom -1 0 1")],
            Answer::Rejected(3, 0),
        ),
    ];
    for row in table {
        assert_eq!(rt; outcome(alloc, &row)?, row.answer);
    }
    Ok(())
}

/// None and vacuous, with their own clauses.
#[test]
fn judges_refutations_and_rays(rt: HostRuntime) -> Result<(), Fail> {
    let alloc = rt.alloc();
    let free = "proc f(n) { tick n; }";
    let dead = "n >= 1 && n <= 0";
    let table = [
        case(free, EMPTY, "true", NONE, &[], Answer::Nothing),
        case(
            free,
            EMPTY,
            "true",
            NONE,
            &[(16, "dual 1:-1")],
            Answer::Rejected(11, 0),
        ),
        case(
            free,
            EMPTY,
            "true",
            NONE,
            &[(16, "dual 0:1 1:1")],
            Answer::Rejected(10, 1),
        ),
        case(EMPTY, EMPTY, dead, DEAD, &[], Answer::Vacuous),
        case(
            EMPTY,
            EMPTY,
            dead,
            DEAD,
            &[(4, "when dead 0:1")],
            Answer::Rejected(2, 0),
        ),
        case(
            EMPTY,
            EMPTY,
            dead,
            DEAD,
            &[(16, "ray unknown 0:1")],
            Answer::Rejected(13, 0),
        ),
        case(
            EMPTY,
            EMPTY,
            dead,
            DEAD,
            &[(16, "ray unknown 0:-1 1:1")],
            Answer::Rejected(12, 0),
        ),
        case(
            EMPTY,
            EMPTY,
            dead,
            DEAD,
            &[(17, "ray lambda 0:-1")],
            Answer::Rejected(8, 0),
        ),
        case(
            EMPTY,
            EMPTY,
            dead,
            DEAD,
            &[(14, "unknown 1:1")],
            Answer::Rejected(9, 0),
        ),
    ];
    for row in table {
        assert_eq!(rt; outcome(alloc, &row)?, row.answer);
    }
    Ok(())
}

/// A certificate for another pair of programs.
#[test]
fn refuses_the_certificate_of_another_pair(rt: HostRuntime) -> Result<(), Fail> {
    let alloc = rt.alloc();
    let other = "proc f(n) { tick 1; }";
    let table = [
        case(other, EMPTY, "true", IDLE, &[], Answer::Rejected(1, 0)),
        case(EMPTY, other, "true", IDLE, &[], Answer::Rejected(1, 1)),
        case(EMPTY, EMPTY, "n >= 1", IDLE, &[], Answer::Rejected(2, 0)),
        case(
            APART_OLD,
            APART_OLD,
            TEN,
            APART,
            &[],
            Answer::Rejected(1, 0),
        ),
    ];
    for row in table {
        assert_eq!(rt; outcome(alloc, &row)?, row.answer);
    }
    Ok(())
}

/// A program of so many statements.
fn skips(alloc: Global, count: usize) -> Result<String, AllocError> {
    let mut source = String::new(alloc);
    source.push_str("proc f(n) {")?;
    for _statement in 0..count {
        source.push_str(" skip;")?;
    }
    source.push_str(" }")?;
    Ok(source)
}

/// The sizes of systems come before every clause, new before old.
#[test]
fn tells_what_is_too_large(rt: HostRuntime) -> Result<(), Fail> {
    let alloc = rt.alloc();
    let wide = skips(alloc, 128)?;
    let within = skips(alloc, 127)?;
    let large = |side| Answer::TooLarge(Some(side), Count::Locations, 129);
    assert_eq!(rt;
        judge(alloc, wide.as_str(), EMPTY, "true", IDLE)?,
        large(Side::New)
    );
    assert_eq!(rt;
        judge(alloc, EMPTY, wide.as_str(), "true", IDLE)?,
        large(Side::Old)
    );
    assert_eq!(rt;
        judge(alloc, wide.as_str(), wide.as_str(), "true", IDLE)?,
        large(Side::New)
    );
    assert_eq!(rt;
        judge(alloc, EMPTY, within.as_str(), "true", IDLE)?,
        Answer::Rejected(1, 1)
    );
    Ok(())
}
