//! What the lines of a certificate show of atoms.
ghost use Rattle.std.specs.Prelude.{◌≡◌, ◌+◌, ◌<◌, ◌≤◌, ℕ, List, length, Some, true, pos};
ghost use Rattle.std.specs.List.{list_all};
ghost use Rattle.dc_frac.specs.Fits.{IsSmall};
ghost use Rattle.dc_frac.specs.Value.{value};
ghost use Rattle.dc_math.specs.Rational.{of_ℤ, le_ℚ};
ghost use Rattle.dc_math.specs.Tests.{is_positive};
ghost use Rattle.dc_lp.specs.Problems.{whole_at};
ghost use Rattle.dc_cert.specs.Vectors.{IsVector, entry_of, in_range};
ghost use Rattle.dc_cert.specs.Ranges.{IsShown};
ghost use Rattle.dc_clauses.specs.Hyps.{atoms_of};
ghost use Rattle.dc_clauses.specs.Steps.{Test, all_of};
ghost use Rattle.dc_clauses.specs.Lines.{coefficient_parts, column_sum as column_sum_of, dead_parts, is, is_at_most, keep_parts, line_in_range, line_parts, live_parts, part_sum as part_sum_of};

use crate::hyps::{Hyps, column_sum, part_sum};
use crate::step::passes;
use dc_affine::Atom;
use dc_cert::{Item, Liveness, Sparse};
use dc_frac::Frac;
use std::cmp::Ordering;

/// Whether each item is positive.
fn are_positive(items: &[Item]) -> bool
    ensures { result ≡ list_all (λ i. is_positive (value i.value)) items.now }
{
    items.iter().all(|item| item.value.is_positive())
}

/// The value at an index, 0 where there is no item.
fn entry(items: &[Item], index: usize) -> Frac
    ensures { value result ≡ entry_of items.now index }
{
    let mut found = Frac::whole(0);
    for item in items {
        if item.index == index {
            found = item.value;
        }
    }
    found
}

/// Whether a part of the sum is a whole number; `None` where it doesn't fit.
fn part_is(hyps: &Hyps, places: usize, v: &Sparse, place: usize, number: &i128) -> Option<bool>
    requires vector { IsVector v.now }
    requires range { in_range (length (atoms_of hyps.now)) v.now ≡ true }
    requires small { IsSmall number.now }
    ensures { result ≡ is (part_sum_of (atoms_of hyps.now) places v.now place) number.now }
{
    let sum = part_sum(hyps, places, v.items.as_slice(), place)?;
    Some(sum == Frac::whole(*number))
}

/// Whether it is at most a whole number.
fn part_is_at_most(
    hyps: &Hyps,
    places: usize,
    v: &Sparse,
    place: usize,
    number: &i128,
) -> Option<bool>
    requires vector { IsVector v.now }
    requires range { in_range (length (atoms_of hyps.now)) v.now ≡ true }
    requires small { IsSmall number.now }
    ensures { result ≡ is_at_most (part_sum_of (atoms_of hyps.now) places v.now place) number.now }
{
    let sum = part_sum(hyps, places, v.items.as_slice(), place)?;
    Some(is_within(&sum, number))
}

fn is_within(sum: &Frac, number: &i128) -> bool
    requires { IsSmall number.now }
    ensures { result ≡ le_ℚ (value sum.now) (of_ℤ number.now) }
{
    match sum.cmp(&Frac::whole(*number)) {
        Ordering::Less | Ordering::Equal => true,
        Ordering::Greater => false,
    }
}

/// The number at an index, 0 where there is none.
pub fn number_at(numbers: &[i128], index: usize) -> i128
    ensures { result ≡ whole_at numbers.now index }
{
    match numbers.get(index) {
        Some(number) => *number,
        None => 0,
    }
}

/// Whether the sum has these coefficients, by place; the first that is another, or doesn't fit,
/// decides.
fn coefficients_are(hyps: &Hyps, places: usize, v: &Sparse, coefs: &[i128]) -> Option<bool>
    requires vector { IsVector v.now }
    requires range { in_range (length (atoms_of hyps.now)) v.now ≡ true }
    requires small { (k : ℕ) → k < length coefs.now → IsSmall (whole_at coefs.now k) }
    ensures { result ≡ all_of
        (coefficient_parts (atoms_of hyps.now) places v.now (whole_at coefs.now)) }
{
    for place in 0..places {
        let coef = number_at(coefs, place);
        let test = part_is(hyps, places, v, place, &coef);
        if !passes(test) {
            return test;
        }
    }
    Some(true)
}

/// Whether multipliers show atoms dead.
fn is_dead(hyps: &Hyps, places: usize, v: &Sparse) -> Option<bool>
    requires vector { IsVector v.now }
    requires range { in_range (length (atoms_of hyps.now)) v.now ≡ true }
    ensures { result ≡ all_of (dead_parts (atoms_of hyps.now) places v.now) }
{
    if !are_positive(v.items.as_slice()) {
        return Some(false);
    }
    let test = coefficients_are(hyps, places, v, &[]);
    if !passes(test) {
        return test;
    }
    part_is(hyps, places, v, places, &-1)
}

/// Whether an atom's column times a vector is at most 0.
fn column_is_low(hyps: &Hyps, places: usize, y: &Sparse, number: usize) -> Option<bool>
    requires vector { IsVector y.now }
    requires range { in_range (places + 1) y.now ≡ true }
    requires within { number < length (atoms_of hyps.now) }
    ensures { result ≡ is_at_most (column_sum_of (atoms_of hyps.now) places y.now number) (pos 0) }
{
    let sum = column_sum(hyps.get(number), places, y.items.as_slice())?;
    Some(is_within(&sum, &0))
}

/// Whether a vector shows atoms live.
fn is_live(hyps: &Hyps, places: usize, y: &Sparse) -> Option<bool>
    requires vector { IsVector y.now }
    requires range { in_range (places + 1) y.now ≡ true }
    requires few { length (atoms_of hyps.now) ≤ 2000 }
    ensures { result ≡ all_of (live_parts (atoms_of hyps.now) places y.now) }
{
    for number in 0..hyps.len() {
        let test = column_is_low(hyps, places, y, number);
        if !passes(test) {
            return test;
        }
    }
    Some(entry(y.items.as_slice(), places).is_negative())
}

/// Whether a line shows what it says.
pub fn line_test(hyps: &Hyps, places: usize, line: &Liveness) -> Option<bool>
    requires shown { IsShown line.now }
    requires range { line_in_range (length (atoms_of hyps.now)) places line.now ≡ true }
    requires few { length (atoms_of hyps.now) ≤ 2000 }
    ensures { result ≡ all_of (line_parts (atoms_of hyps.now) places line.now) }
{
    match line {
        Liveness::Dead(v) => is_dead(hyps, places, v),
        Liveness::Live(y) => is_live(hyps, places, y),
    }
}

/// Whether a keep shows the atom with these coefficients and this constant. Between the signs and
/// the coefficients stands whether the atom is affine.
pub fn keep_test(
    hyps: &Hyps,
    places: usize,
    coefs: &[i128],
    constant: &i128,
    affine: bool,
    v: &Sparse,
) -> Option<bool>
    requires vector { IsVector v.now }
    requires range { in_range (length (atoms_of hyps.now)) v.now ≡ true }
    requires small { (k : ℕ) → k < length coefs.now → IsSmall (whole_at coefs.now k) }
    requires constant_small { IsSmall constant.now }
    ensures { (more : List Test) → all_of more ≡ Some affine
        → result ≡ all_of (keep_parts (atoms_of hyps.now) places
        (record { c0 = constant.now; coefs = coefs.now }) more v.now) }
{
    if !are_positive(v.items.as_slice()) {
        return Some(false);
    }
    if !affine {
        return Some(false);
    }
    let test = coefficients_are(hyps, places, v, coefs);
    if !passes(test) {
        return test;
    }
    part_is_at_most(hyps, places, v, places, constant)
}
