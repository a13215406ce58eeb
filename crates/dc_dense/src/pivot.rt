//! The pivot on a table in one slice, row after row.
#![tactic(auto, using(crate::proofs::Flats::flats, crate::proofs::Indices::indices))]

ghost use Rattle.std.specs.Prelude.{◌≡◌, ◌≢◌, ℕ, ◌+◌, ◌*◌, ◌<◌, ◌≤◌, ◌⊎◌, length, IsTrue, false};
ghost use Rattle.dc_math.specs.Tests.{is_zero};
ghost use Rattle.dc_frac.specs.Value.{value};
ghost use Rattle.dc_dense.specs.Flat.{item, ChangesWithin, IsDivided, divisions_fit, IsReduced, reductions_fit, row_fits, rows_fit, reduced_item, AreReduced, items_fit, ArePivoted};

use dc_frac::Frac;
use dc_start::{quotient, step};

/// Makes the pivot at a cell with an entry. Whether it fits; where it doesn't, the items are left
/// half done.
pub fn pivot_items(items: &mut [Frac], height: usize, width: usize, row: usize, col: usize) -> bool
    requires shape { length items.old ≡ height * width }
    requires row { row < height }
    requires column { col < width }
    requires nonzero { is_zero (item items.old (row * width + col)) ≡ false }
    ensures fits { result ≡ items_fit items.old width height row col }
    ensures pivoted { IsTrue result → ArePivoted items.old items.new width height row col }
{
    let by = items[row * width + col];
    divide(items, row * width, width, by) && reduce_rows(items, height, width, row, col)
}

/// Divides `width` items from `from` on.
fn divide(items: &mut [Frac], from: usize, width: usize, by: Frac) -> bool
    requires within { from + width ≤ length items.old }
    requires nonzero { is_zero (value by) ≡ false }
    ensures fits { result ≡ divisions_fit items.old from (value by) width }
    ensures divided { IsTrue result → IsDivided items.old items.new from width (value by) }
    ensures others { ChangesWithin items.old items.new from width }
{
    for k in 0..width {
        match quotient(items[from + k], by) {
            Some(quotient) => items[from + k] = quotient,
            None => return false,
        }
    }
    true
}

/// Reduces every row but `row`.
fn reduce_rows(items: &mut [Frac], height: usize, width: usize, row: usize, col: usize) -> bool
    requires shape { length items.old ≡ height * width }
    requires row { row < height }
    requires column { col < width }
    ensures fits { result ≡ rows_fit items.old width row col height }
    ensures reduced { IsTrue result → AreReduced items.old items.new width row col height }
{
    for i in 0..height {
        if i != row {
            if !reduce_row(items, i, height, width, row, col) {
                return false;
            }
        }
    }
    true
}

/// Reduces row `i`, which stays where it has 0 in the column.
fn reduce_row(
    items: &mut [Frac],
    i: usize,
    height: usize,
    width: usize,
    row: usize,
    col: usize,
) -> bool
    requires shape { length items.old ≡ height * width }
    requires row { row < height }
    requires column { col < width }
    requires other { i ≢ row }
    requires here { i < height }
    ensures fits { result ≡ row_fits items.old width row col i }
    ensures reduced { IsTrue result → (k : ℕ) → k < width
        → item items.new (i * width + k) ≡ reduced_item items.old width row col i k }
    ensures others { ChangesWithin items.old items.new (i * width) width }
{
    let from = i * width;
    let factor = items[from + col];
    factor.is_zero() || reduce(items, from, row * width, width, col, factor)
}

/// Takes `factor` times the items from `pivot` on from those from `from` on. Column `col` becomes 0.
fn reduce(
    items: &mut [Frac],
    from: usize,
    pivot: usize,
    width: usize,
    col: usize,
    factor: Frac,
) -> bool
    requires within { from + width ≤ length items.old }
    requires pivot { pivot + width ≤ length items.old }
    requires apart { (from + width ≤ pivot) ⊎ (pivot + width ≤ from) }
    requires column { col < width }
    ensures fits { result ≡ reductions_fit items.old from pivot col (value factor) width }
    ensures reduced { IsTrue result
        → IsReduced items.old items.new from pivot col (value factor) width }
    ensures others { ChangesWithin items.old items.new from width }
{
    for k in 0..width {
        if k == col {
            items[from + k] = Frac::whole(0);
        } else {
            match step(items[from + k], factor, items[pivot + k]) {
                Some(next) => items[from + k] = next,
                None => return false,
            }
        }
    }
    true
}
