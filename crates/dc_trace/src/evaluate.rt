//! The value of an expression and the truth of a condition in 128 bits.
ghost use Rattle.std.specs.Prelude.{◌≡◌, ◌&&◌, ◌||◌, ◌+ℤ◌, ◌-ℤ◌, ◌*ℤ◌, int_le, neg_ℤ, pos, slice_index_or};
ghost use Rattle.dc_syntax.specs.Value.{compared};
ghost use Rattle.dc_trace.specs.Replay.{is_small};
ghost use Rattle.dc_trace.specs.Tests.{Evaluates, Gives, IsWithin, Judges};

use dc_syntax::{Cond, Expr, Rel};

// The number, where its size is at most 2^127 - 1.
pub(crate) fn small(z: &i128) -> Option<i128>
    ensures { Gives result (is_small z.now) z.now }
{
    if *z == i128::MIN { None } else { Some(*z) }
}

pub(crate) fn sum(a: &i128, b: &i128) -> Option<i128>
    ensures { Gives result (is_small (a.now +ℤ b.now)) (a.now +ℤ b.now) }
{
    let z = a.checked_add(*b)?;
    small(&z)
}

fn difference(a: &i128, b: &i128) -> Option<i128>
    ensures { Gives result (is_small (a.now -ℤ b.now)) (a.now -ℤ b.now) }
{
    let z = a.checked_sub(*b)?;
    small(&z)
}

fn product(a: &i128, b: &i128) -> Option<i128>
    ensures { Gives result (is_small (a.now *ℤ b.now)) (a.now *ℤ b.now) }
{
    let z = a.checked_mul(*b)?;
    small(&z)
}

fn opposite(a: &i128) -> Option<i128>
    ensures { Gives result (is_small (neg_ℤ a.now)) (neg_ℤ a.now) }
{
    let z = a.checked_neg()?;
    small(&z)
}

// The number at a place, 0 past the end.
fn number_at(state: &[i128], place: usize) -> i128
    ensures { result ≡ slice_index_or state.now place (pos 0) }
{
    match state.get(place) {
        Some(z) => *z,
        None => 0,
    }
}

/// The value of an expression, where the value of each subexpression has a size of at most 2^127 - 1.
pub(crate) fn evaluate(e: &Expr, state: &[i128]) -> Option<i128>
    ensures { Evaluates result state.now e.now }
{
    match e {
        Expr::Num(n) => Some(*n as i128),
        Expr::Var(place) => {
            let z = number_at(state, *place);
            small(&z)
        }
        Expr::Neg(a) => {
            let z = evaluate(a.get(), state)?;
            opposite(&z)
        }
        Expr::Add(a, b) => {
            let left = evaluate(a.get(), state)?;
            let right = evaluate(b.get(), state)?;
            sum(&left, &right)
        }
        Expr::Sub(a, b) => {
            let left = evaluate(a.get(), state)?;
            let right = evaluate(b.get(), state)?;
            difference(&left, &right)
        }
        Expr::Mul(a, b) => {
            let left = evaluate(a.get(), state)?;
            let right = evaluate(b.get(), state)?;
            product(&left, &right)
        }
    }
}

// Whether a comparison holds.
fn compare(rel: Rel, a: &i128, b: &i128) -> bool
    ensures { result ≡ compared rel a.now b.now }
{
    match rel {
        Rel::Lt => a < b,
        Rel::Le => a <= b,
        Rel::Gt => b < a,
        Rel::Ge => b <= a,
        Rel::Eq => a <= b && b <= a,
        Rel::Ne => !(a <= b && b <= a),
    }
}

fn both(left: bool, right: bool) -> bool
    ensures { result ≡ (left && right) }
{
    left && right
}

fn either(left: bool, right: bool) -> bool
    ensures { result ≡ (left || right) }
{
    left || right
}

/// The truth of a condition, where the value of each subexpression of every comparison has a size
/// of at most 2^127 - 1.
pub(crate) fn judge(c: &Cond, state: &[i128]) -> Option<bool>
    ensures { Judges result state.now c.now }
{
    match c {
        Cond::True => Some(true),
        Cond::False => Some(false),
        Cond::Cmp(a, rel, b) => {
            let left = evaluate(a, state)?;
            let right = evaluate(b, state)?;
            Some(compare(*rel, &left, &right))
        }
        Cond::Not(c) => {
            let holds = judge(c.get(), state)?;
            Some(!holds)
        }
        Cond::And(c, d) => {
            let left = judge(c.get(), state)?;
            let right = judge(d.get(), state)?;
            Some(both(left, right))
        }
        Cond::Or(c, d) => {
            let left = judge(c.get(), state)?;
            let right = judge(d.get(), state)?;
            Some(either(left, right))
        }
    }
}

// Whether a number is in a range.
fn is_between(low: &i128, z: &i128, high: &i128) -> bool
    ensures { result ≡ (int_le low.now z.now && int_le z.now high.now) }
{
    low <= z && z <= high
}

/// Whether a number is at least the value of one expression and at most that of another, where the
/// value of each subexpression has a size of at most 2^127 - 1.
pub(crate) fn is_within(a: &Expr, z: &i128, b: &Expr, state: &[i128]) -> Option<bool>
    ensures { IsWithin result state.now a.now z.now b.now }
{
    let low = evaluate(a, state)?;
    let high = evaluate(b, state)?;
    Some(is_between(&low, z, &high))
}
