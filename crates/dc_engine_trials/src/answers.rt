//! What an analysis answers: a claim, or the first refusal.
use crate::rows::{EMPTY, LOOP_1, LOOP_2, LOOP_I, Row, SKIP, analyse_row, row_of};
use dc_cert::Claim;
use dc_entail::Site;
use dc_frac::Frac;
use dc_session::{AnalyseFault, PastAt};
use dc_syntax::{Count, Side};
use std::alloc::Global;
use std::test::Fail;

/// An answer. Of a number past 128 bits it says only whether a pivot or the checker wanted it.
#[derive(Clone, Copy, Debug, PartialEq)]
enum Answer {
    Threshold(i128, i128),
    Nothing,
    Vacuous,
    TooLarge(Option<Side>, Count, u64),
    PastPivot,
    PastFold,
    Budget(Site),
}

fn claim_answer(claim: Claim) -> Answer {
    match claim {
        Claim::Threshold(t) => Answer::Threshold(t.num, t.den),
        Claim::Nothing => Answer::Nothing,
        Claim::Vacuous => Answer::Vacuous,
    }
}

fn outcome(alloc: Global, row: &Row) -> Result<Answer, Fail> {
    match analyse_row(alloc, row)? {
        Ok(certificate) => Ok(claim_answer(certificate.body.claim())),
        Err(AnalyseFault::TooLarge { side, what, count }) => {
            Ok(Answer::TooLarge(side, what, count))
        }
        Err(AnalyseFault::Past128(PastAt::Pivot { .. })) => Ok(Answer::PastPivot),
        Err(AnalyseFault::Past128(PastAt::Fold { .. })) => Ok(Answer::PastFold),
        Err(AnalyseFault::Budget { site }) => Ok(Answer::Budget(site)),
        Err(AnalyseFault::NoMemory) => Err(Fail::from("memory")),
    }
}

const HUNDRED: &str = "0 <= n && n <= 100";

/// A loop that costs twice as much a turn costs one more for each of at most 100 turns, and without
/// a bound there is none. A second version that costs less saves at least 5 from 5 turns on.
#[test]
fn loops_are_told_apart(rt: HostRuntime) -> Result<(), Fail> {
    let alloc = rt.alloc();
    let table = [
        (
            row_of(LOOP_2, LOOP_1, HUNDRED, 1, 1),
            Answer::Threshold(100, 1),
        ),
        (row_of(LOOP_2, LOOP_1, "n >= 0", 1, 1), Answer::Nothing),
        (
            row_of(LOOP_2, LOOP_2, "n >= 0", 1, 1),
            Answer::Threshold(0, 1),
        ),
        (
            row_of(LOOP_1, LOOP_2, "5 <= n && n <= 100", 1, 1),
            Answer::Threshold(-5, 1),
        ),
        (row_of(EMPTY, EMPTY, "true", 0, 1), Answer::Threshold(0, 1)),
    ];
    for (row, answer) in table {
        assert_eq!(rt; outcome(alloc, &row)?, answer);
    }
    Ok(())
}

const CHOICE: &str = "proc f(n) { if (*) { tick 5; } else { tick 1; } }";

const CHOSEN: &str = "proc f(n) { var x; x = any(0, n); tick x; }";

/// A chosen value of which at most half is allowed.
const HALF: &str = "proc f(n) { var x; x = any(0, n); assume (2*x <= n); tick x; }";

/// Each choice counts for new, and each choice against old. A threshold need not be whole. Two
/// statements that cost `n` and `-n` are one edge that costs 0.
#[test]
fn choices_are_worst_cases(rt: HostRuntime) -> Result<(), Fail> {
    let alloc = rt.alloc();
    let apart = "proc f(n) { tick n; tick -n; }";
    let long = "proc f(n) { tick 2147483647; }";
    let table = [
        (
            row_of(CHOICE, "proc f(n) { tick 2; }", "true", 2, 2),
            Answer::Threshold(3, 1),
        ),
        (
            row_of("proc f(n) { tick 2; }", CHOICE, "true", 2, 2),
            Answer::Threshold(1, 1),
        ),
        (
            row_of(CHOSEN, SKIP, "0 <= n && n <= 7", 1, 1),
            Answer::Threshold(7, 1),
        ),
        (
            row_of(HALF, SKIP, "0 <= n && n <= 7", 1, 1),
            Answer::Threshold(7, 2),
        ),
        (
            row_of(long, SKIP, "true", 2, 2),
            Answer::Threshold(2147483647, 1),
        ),
        (
            row_of(apart, SKIP, "0 <= n && n <= 10", 0, 1),
            Answer::Threshold(0, 1),
        ),
    ];
    for (row, answer) in table {
        assert_eq!(rt; outcome(alloc, &row)?, answer);
    }
    Ok(())
}

/// A loop whose turns cost more and more: with squares the run to 10 decides, without them each
/// turn is charged the dearest one.
#[test]
fn degrees_decide(rt: HostRuntime) -> Result<(), Fail> {
    let alloc = rt.alloc();
    let table = [
        (
            row_of(LOOP_I, LOOP_1, "0 <= n && n <= 10", 2, 2),
            Answer::Threshold(35, 1),
        ),
        (
            row_of(LOOP_I, LOOP_1, "0 <= n && n <= 10", 1, 2),
            Answer::Threshold(80, 1),
        ),
    ];
    for (row, answer) in table {
        assert_eq!(rt; outcome(alloc, &row)?, answer);
    }
    Ok(())
}

const TRIANGLE_NEW: &str =
    "proc f(n) { var i, j; while (i < n) { j = 0; while (j < n) { tick 1; j = j + 1; } i = i + 1; } }";

const TRIANGLE_OLD: &str =
    "proc f(n) { var i, j; while (i < n) { j = 0; while (j < i) { tick 1; j = j + 1; } i = i + 1; } }";

/// A square of turns against a triangle of them: 100 against 45 at 10.
#[test]
fn a_square_costs_more_than_a_triangle(rt: HostRuntime) -> Result<(), Fail> {
    let found = outcome(
        rt.alloc(),
        &row_of(TRIANGLE_NEW, TRIANGLE_OLD, "0 <= n && n <= 10", 2, 2),
    )?;
    assert_eq!(rt; found, Answer::Threshold(55, 1));
    Ok(())
}

/// Where no input is allowed, or new never ends, every threshold is certified. Of several cases the
/// live ones count.
#[test]
fn cases_count_where_they_are_live(rt: HostRuntime) -> Result<(), Fail> {
    let alloc = rt.alloc();
    let forever = "proc f(n) { while (true) { skip; } }";
    let tick = "proc f(n) { tick 1; }";
    let table = [
        (row_of(forever, tick, "true", 2, 2), Answer::Vacuous),
        (
            row_of(LOOP_2, LOOP_1, "n >= 1 && n <= 0", 1, 1),
            Answer::Vacuous,
        ),
        (
            row_of(LOOP_2, LOOP_1, "n >= 1 && n <= 0 || false", 1, 1),
            Answer::Vacuous,
        ),
        (
            row_of(LOOP_2, LOOP_1, "0 <= n && n <= 3 || n == 7", 1, 1),
            Answer::Threshold(7, 1),
        ),
        (
            row_of(LOOP_2, LOOP_1, "n >= 1 && n <= 0 || n == 4", 1, 1),
            Answer::Threshold(4, 1),
        ),
        (row_of(LOOP_2, LOOP_1, "n != 3", 1, 1), Answer::Nothing),
    ];
    for (row, answer) in table {
        assert_eq!(rt; outcome(alloc, &row)?, answer);
    }
    Ok(())
}

/// The row of two loops with at most so many pivots for each problem.
const fn within(pivots: u64) -> Row {
    Row {
        new: LOOP_2,
        old: LOOP_1,
        when: HUNDRED,
        degree: 1,
        products: 1,
        pivots,
    }
}

/// 128 times `skip;` and the exit.
const LOCATIONS: &str = "proc f(n) {
skip; skip; skip; skip; skip; skip; skip; skip; skip; skip; skip; skip; skip; skip; skip; skip;
skip; skip; skip; skip; skip; skip; skip; skip; skip; skip; skip; skip; skip; skip; skip; skip;
skip; skip; skip; skip; skip; skip; skip; skip; skip; skip; skip; skip; skip; skip; skip; skip;
skip; skip; skip; skip; skip; skip; skip; skip; skip; skip; skip; skip; skip; skip; skip; skip;
skip; skip; skip; skip; skip; skip; skip; skip; skip; skip; skip; skip; skip; skip; skip; skip;
skip; skip; skip; skip; skip; skip; skip; skip; skip; skip; skip; skip; skip; skip; skip; skip;
skip; skip; skip; skip; skip; skip; skip; skip; skip; skip; skip; skip; skip; skip; skip; skip;
skip; skip; skip; skip; skip; skip; skip; skip; skip; skip; skip; skip; skip; skip; skip; skip;
}";

/// The problems of the condition and of the entry take one pivot each, and that of the first edge
/// two; the main problem takes 24, and no other one so many. Counts of both sides come before all
/// problems, new's first.
#[test]
fn the_first_refusal_is_told(rt: HostRuntime) -> Result<(), Fail> {
    let alloc = rt.alloc();
    let edge = Site::Edge {
        side: Side::New,
        edge: 0,
    };
    let huge = "proc f(n) { var x, y; x = 2147483647*n; y = 2147483647*x; tick 2147483647*y*y; }";
    let table = [
        (within(1), Answer::Budget(edge)),
        (within(23), Answer::Budget(Site::Main)),
        (within(24), Answer::Threshold(100, 1)),
        (
            row_of(huge, SKIP, "n == 2147483647", 2, 2),
            Answer::PastPivot,
        ),
        (
            row_of(LOCATIONS, SKIP, "true", 2, 2),
            Answer::TooLarge(Some(Side::New), Count::Locations, 129),
        ),
        (
            row_of(SKIP, LOCATIONS, "true", 2, 2),
            Answer::TooLarge(Some(Side::Old), Count::Locations, 129),
        ),
    ];
    for (row, answer) in table {
        assert_eq!(rt; outcome(alloc, &row)?, answer);
    }
    Ok(())
}
