//! Problems by their numbers.
use dc_lp::{Entry, Problem};
use std::alloc::{AllocError, Global};

/// 2^127 - 1, the most that fits.
pub(crate) const MOST: i128 = 170_141_183_460_469_231_731_687_303_715_884_105_727;

/// 2^126.
pub(crate) const HALF: i128 = 85_070_591_730_234_615_865_843_651_857_942_052_864;

/// 2^63.
pub(crate) const LONG: i128 = 9_223_372_036_854_775_808;

/// A number in a row.
pub(crate) const fn at(row: usize, value: i128) -> Entry {
    Entry { row, value }
}

/// A problem by its columns, right sides and costs.
pub(crate) fn problem(
    alloc: Global,
    columns: &[&[Entry]],
    b: &[i128],
    cost: &[i128],
) -> Result<Problem, AllocError> {
    let mut all = Vec::new(alloc);
    for column in columns {
        all.push(Vec::from_slice(alloc, column)?)?;
    }
    Ok(Problem {
        rows: b.len(),
        columns: all,
        b: Vec::from_slice(alloc, b)?,
        cost: Vec::from_slice(alloc, cost)?,
    })
}

/// 3 * x0 + 5 * x1 = 1 with costs 7 and 0.
pub(crate) fn small(alloc: Global) -> Result<Problem, AllocError> {
    problem(alloc, &[&[at(0, 3)], &[at(0, 5)]], &[1], &[7, 0])
}

/// x0 = 1 and 2 * x0 = 2 with cost 1.
pub(crate) fn twice(alloc: Global) -> Result<Problem, AllocError> {
    problem(alloc, &[&[at(0, 1), at(1, 2)]], &[1, 2], &[1])
}

/// (2^100 + 1) * x0 + (2^100 + 3) * x1 = 1 with costs 2^100 + 5 and 0: a value of the first pivot
/// passes 128 bits.
pub(crate) fn wide(alloc: Global) -> Result<Problem, AllocError> {
    let power = 1_267_650_600_228_229_401_496_703_205_376;
    problem(
        alloc,
        &[&[at(0, power + 1)], &[at(0, power + 3)]],
        &[1],
        &[power + 5, 0],
    )
}

/// Three equations of which the third is the sum of the others.
pub(crate) fn sums(alloc: Global) -> Result<Problem, AllocError> {
    let columns: [&[Entry]; 3] = [
        &[at(0, 1), at(2, 1)],
        &[at(0, 1), at(1, 1), at(2, 2)],
        &[at(1, 1), at(2, 1)],
    ];
    problem(alloc, &columns, &[2, 1, 3], &[1, 2, 0])
}

/// Beale's problem in whole numbers, which goes round in a circle where the most negative column
/// enters (E. M. L. Beale, Cycling in the dual simplex algorithm, 1955).
pub(crate) fn circle(alloc: Global) -> Result<Problem, AllocError> {
    let columns: [&[Entry]; 7] = [
        &[at(0, 4)],
        &[at(1, 2)],
        &[at(2, 1)],
        &[at(0, 1), at(1, 1)],
        &[at(0, -32), at(1, -24)],
        &[at(0, -4), at(1, -1), at(2, 1)],
        &[at(0, 36), at(1, 6)],
    ];
    problem(alloc, &columns, &[0, 0, 1], &[0, 0, 0, -3, 80, -2, 24])
}

/// The main problem of two empty procedures of one parameter, of degree 0 and with products of one
/// factor: the unknowns t, φ and χ, each by a plus and a minus column, and a multiplier for each of
/// φ - λ0 = 0, -χ - λ1 = 0 and t - φ + χ - λ2 = 0.
pub(crate) fn empty_pair(alloc: Global) -> Result<Problem, AllocError> {
    let columns: [&[Entry]; 9] = [
        &[at(2, 1)],
        &[at(2, -1)],
        &[at(0, 1), at(2, -1)],
        &[at(0, -1), at(2, 1)],
        &[at(1, -1), at(2, 1)],
        &[at(1, 1), at(2, -1)],
        &[at(0, -1)],
        &[at(1, -1)],
        &[at(2, -1)],
    ];
    problem(alloc, &columns, &[0, 0, 0], &[1, -1, 0, 0, 0, 0, 0, 0, 0])
}
