//! Fractions at the edges of their sizes.
use dc_frac::{Frac, MAX, gcd128};
use std::cmp::Ordering;
use std::process::Abort;

// 2^62, 2^63 and 2^64, and the neighbours of the last two
const QUARTER: i128 = 0x4000_0000_0000_0000;

const HALF_LESS: i128 = 0x7fff_ffff_ffff_ffff;

const HALF: i128 = 0x8000_0000_0000_0000;

const HALF_MORE: i128 = 0x8000_0000_0000_0001;

const WORD_LESS: i128 = 0xffff_ffff_ffff_ffff;

const WORD: i128 = 0x1_0000_0000_0000_0000;

const WORD_MORE: i128 = 0x1_0000_0000_0000_0001;

// 2^126, MAX - 1 and -MAX
const TOP_HALF: i128 = 0x4000_0000_0000_0000_0000_0000_0000_0000;

const NEXT: i128 = 0x7fff_ffff_ffff_ffff_ffff_ffff_ffff_fffe;

const LEAST: i128 = -0x7fff_ffff_ffff_ffff_ffff_ffff_ffff_ffff;

#[derive(Clone, Copy)]
enum Op {
    Add,
    Sub,
    Mul,
    Div,
}

fn frac_of(rt: &impl Abort, pair: (i128, i128)) -> Frac {
    assert!(rt; pair.0 != i128::MIN && pair.1 != i128::MIN && pair.1 != 0);
    Frac::new(pair.0, pair.1)
}

fn answer(
    rt: &impl Abort,
    op: Op,
    left: (i128, i128),
    right: (i128, i128),
) -> Option<(i128, i128)> {
    let x = frac_of(rt, left);
    let y = frac_of(rt, right);
    let z = match op {
        Op::Add => x.add(y)?,
        Op::Sub => x.sub(y)?,
        Op::Mul => x.mul(y)?,
        Op::Div => {
            assert!(rt; !y.is_zero());
            x.div(y)?
        }
    };
    Some((z.num, z.den))
}

// 2/15, whose sum rule needs 5 * 2^126
const THIRD: (i128, i128) = (TOP_HALF, 3);

const FIFTH: (i128, i128) = (-141784319550391026443072753096570088106, 5);

#[test]
fn sums_and_products(rt: HostRuntime) {
    for (op, left, right, expected) in [
        (Op::Add, (1, 6), (1, 10), Some((4, 15))),
        (Op::Add, (MAX, 1), (1, 1), None),
        (Op::Mul, (MAX, 2), (2, MAX), Some((1, 1))),
        (Op::Div, (1, MAX), (2, 1), None),
        (Op::Add, THIRD, FIFTH, None),
        (Op::Add, (-1, 2), (1, 2), Some((0, 1))),
    ] {
        assert_eq!(rt; answer(&rt, op, left, right), expected);
    }
}

// zero, units, the greatest sizes, neighbours of 2^63 and 2^64, equal and opposite operands
#[test]
fn edges_of_sums(rt: HostRuntime) {
    for (op, left, right, expected) in [
        (Op::Add, (0, 1), (0, 1), Some((0, 1))),
        (Op::Add, (MAX, 1), (0, 1), Some((MAX, 1))),
        (Op::Add, (MAX, 1), (LEAST, 1), Some((0, 1))),
        (Op::Add, (MAX, 1), (-1, 1), Some((NEXT, 1))),
        (Op::Add, (LEAST, 1), (-1, 1), None),
        (Op::Add, (1, MAX), (1, MAX), Some((2, MAX))),
        (Op::Add, (1, MAX), (-1, MAX), Some((0, 1))),
        (Op::Add, (1, MAX), (1, 1), None),
        (Op::Add, (-1, MAX), (1, 1), Some((NEXT, MAX))),
        (Op::Add, (MAX, 3), (1, 3), None),
        (Op::Add, (HALF_LESS, 1), (1, 1), Some((HALF, 1))),
        (Op::Add, (HALF, 1), (HALF, 1), Some((WORD, 1))),
        (Op::Add, (WORD_LESS, 1), (1, 1), Some((WORD, 1))),
        (Op::Add, (1, HALF), (1, HALF), Some((1, QUARTER))),
        (Op::Add, (1, HALF), (1, WORD), Some((3, WORD))),
        (Op::Add, (1, WORD), (1, WORD_LESS), None),
        (
            Op::Add,
            (1, HALF),
            (1, HALF_LESS),
            Some((WORD_LESS, 0x3fff_ffff_ffff_ffff_8000_0000_0000_0000)),
        ),
        (Op::Add, (5, 6), (1, 6), Some((1, 1))),
        (Op::Add, (7, 1), (1, 2), Some((15, 2))),
        (Op::Sub, (MAX, 1), (MAX, 1), Some((0, 1))),
        (Op::Sub, (LEAST, 1), (1, 1), None),
        (Op::Sub, (0, 1), (LEAST, 1), Some((MAX, 1))),
        (Op::Sub, (0, 1), (MAX, 1), Some((LEAST, 1))),
        (Op::Sub, (1, 1), (1, MAX), Some((NEXT, MAX))),
        (Op::Sub, (HALF, 1), (HALF_MORE, 1), Some((-1, 1))),
        (Op::Sub, (-1, 1), (1, 1), Some((-2, 1))),
    ] {
        assert_eq!(rt; answer(&rt, op, left, right), expected);
    }
}

#[test]
fn edges_of_products(rt: HostRuntime) {
    for (op, left, right, expected) in [
        (Op::Mul, (0, 1), (LEAST, 1), Some((0, 1))),
        (Op::Mul, (0, 1), (1, MAX), Some((0, 1))),
        (Op::Mul, (-1, 1), (MAX, 1), Some((LEAST, 1))),
        (Op::Mul, (MAX, 1), (MAX, 1), None),
        (Op::Mul, (MAX, 1), (1, MAX), Some((1, 1))),
        (Op::Mul, (LEAST, 1), (1, MAX), Some((-1, 1))),
        (Op::Mul, (HALF, 1), (HALF, 1), Some((TOP_HALF, 1))),
        (Op::Mul, (WORD, 1), (HALF, 1), None),
        (Op::Mul, (-WORD, 1), (HALF, 1), None),
        (
            Op::Mul,
            (WORD, 1),
            (HALF_LESS, 1),
            Some((0x7fff_ffff_ffff_ffff_0000_0000_0000_0000, 1)),
        ),
        (
            Op::Mul,
            (WORD_MORE, 1),
            (HALF_LESS, 1),
            Some((0x7fff_ffff_ffff_ffff_7fff_ffff_ffff_ffff, 1)),
        ),
        (Op::Mul, (1, WORD), (1, HALF), None),
        (Op::Mul, (WORD, 3), (3, WORD), Some((1, 1))),
        (Op::Mul, (-2, 3), (-3, 4), Some((1, 2))),
        (Op::Div, (0, 1), (MAX, 1), Some((0, 1))),
        (Op::Div, (MAX, 1), (MAX, 1), Some((1, 1))),
        (Op::Div, (LEAST, 1), (MAX, 1), Some((-1, 1))),
        (Op::Div, (1, 1), (LEAST, 1), Some((-1, MAX))),
        (Op::Div, (MAX, 1), (-1, 1), Some((LEAST, 1))),
        (Op::Div, (1, MAX), (1, MAX), Some((1, 1))),
        (Op::Div, (WORD, 1), (HALF, 1), Some((2, 1))),
        (Op::Div, (1, WORD), (HALF, 1), None),
        (Op::Div, (HALF, 1), (1, WORD), None),
        (Op::Div, (2, 3), (-4, 9), Some((-3, 2))),
    ] {
        assert_eq!(rt; answer(&rt, op, left, right), expected);
    }
}

#[test]
fn orders(rt: HostRuntime) {
    for (left, right, expected) in [
        ((NEXT, MAX), (MAX, NEXT), Ordering::Less),
        ((0, 1), (0, 1), Ordering::Equal),
        ((0, 1), (-1, 1), Ordering::Greater),
        ((-1, 1), (1, 1), Ordering::Less),
        ((MAX, 1), (MAX, 1), Ordering::Equal),
        ((LEAST, 1), (MAX, 1), Ordering::Less),
        ((1, 2), (MAX, 1), Ordering::Less),
        ((1, MAX), (1, NEXT), Ordering::Less),
        ((-1, MAX), (-1, NEXT), Ordering::Greater),
        ((-1, 2), (-1, 3), Ordering::Less),
        ((2, 3), (1, 2), Ordering::Greater),
        ((WORD, 1), (WORD_LESS, 1), Ordering::Greater),
        ((WORD_LESS, WORD), (WORD, WORD_MORE), Ordering::Less),
        ((HALF_MORE, HALF), (HALF, HALF_LESS), Ordering::Less),
        ((MAX, 2), (MAX, 3), Ordering::Greater),
        ((MAX, WORD), (HALF, 1), Ordering::Less),
        ((0, 1), (1, MAX), Ordering::Less),
    ] {
        let x = frac_of(&rt, left);
        let y = frac_of(&rt, right);
        assert!(rt; x.cmp(&y) == expected);
        assert!(rt; y.cmp(&x) == expected.reverse());
    }
}

#[test]
fn floors_signs_and_lowest_terms(rt: HostRuntime) {
    // a pair, its lowest terms, its floor
    for (pair, lowest, floor) in [
        ((-1, 2), (-1, 2), -1),
        ((1, 2), (1, 2), 0),
        ((0, -5), (0, 1), 0),
        ((6, -4), (-3, 2), -2),
        ((MAX, -1), (LEAST, 1), LEAST),
        ((MAX, 1), (MAX, 1), MAX),
        ((LEAST, LEAST), (1, 1), 1),
        ((-1, MAX), (-1, MAX), -1),
        ((1, MAX), (1, MAX), 0),
        ((NEXT, MAX), (NEXT, MAX), 0),
        ((LEAST, 2), (LEAST, 2), -TOP_HALF),
        ((WORD, HALF), (2, 1), 2),
        ((WORD, 3), (WORD, 3), 6148914691236517205),
        ((WORD, -3), (-WORD, 3), -6148914691236517206),
        ((HALF_LESS, HALF), (HALF_LESS, HALF), 0),
    ] {
        let x = frac_of(&rt, pair);
        assert!(rt; (x.num, x.den) == lowest);
        assert!(rt; x.floor() == floor);
        assert!(rt; x.is_zero() == (lowest.0 == 0));
        assert!(rt; x.is_negative() == (lowest.0 < 0));
        assert!(rt; x.is_positive() == (lowest.0 > 0));
        let y = x.neg();
        assert!(rt; y.den == lowest.1 && y.neg() == x);
    }
    assert!(rt; Frac::whole(-7) == frac_of(&rt, (14, -2)));
}

#[test]
fn common_divisors(rt: HostRuntime) {
    for (a, b, expected) in [
        (0, 0, 0),
        (0, LEAST, MAX),
        (12, -18, 6),
        (WORD, HALF, HALF),
        (WORD_MORE, WORD, 1),
        (WORD_LESS, 0x1_0000_0001, 0x1_0000_0001),
        (LEAST, MAX, MAX),
        (TOP_HALF, WORD, WORD),
    ] {
        assert!(rt; a != i128::MIN && b != i128::MIN);
        assert!(rt; gcd128(a, b) == expected);
        assert!(rt; gcd128(b, a) == expected);
    }
}
