//! Problems as the tests write them.
use dc_lp::{Entry, Problem};
use std::process::Abort;

// Whether a column has these entries.
fn is_column(column: &[Entry], entries: &[(usize, i128)]) -> bool {
    column.len() == entries.len()
        && column.iter().zip(entries).all(|(entry, pair)| entry.row == pair.0
            && entry.value == pair.1)
}

// Whether it has the opposites of these entries.
fn is_opposite(column: &[Entry], entries: &[(usize, i128)]) -> bool {
    column.len() == entries.len()
        && column.iter().zip(entries).all(|(entry, pair)| entry.row == pair.0
            && entry.value == pair.1.wrapping_neg())
}

/// Asserts what a problem is: the plus columns of its unknowns, which the minus columns oppose, the
/// columns of its multipliers, and its right side; the first unknown costs itself.
pub fn assert_is(
    rt: &impl Abort,
    p: &Problem,
    unknowns: &[&[(usize, i128)]],
    multipliers: &[&[(usize, i128)]],
    b: &[i128],
) {
    assert_eq!(rt; p.rows, b.len());
    assert!(rt; p.b.as_slice() == b);
    let columns = p.columns.as_slice();
    assert!(rt; unknowns.len() <= 100 && multipliers.len() <= 100);
    assert_eq!(rt; columns.len(), 2 * unknowns.len() + multipliers.len());
    for (k, entries) in unknowns.iter().enumerate() {
        assert!(rt; 2 * k + 1 < columns.len());
        assert!(rt; is_column(columns[2 * k].as_slice(), entries));
        assert!(rt; is_opposite(columns[2 * k + 1].as_slice(), entries));
    }
    for (k, entries) in multipliers.iter().enumerate() {
        assert!(rt; 2 * unknowns.len() + k < columns.len());
        assert!(rt; is_column(columns[2 * unknowns.len() + k].as_slice(), entries));
    }
    let cost = p.cost.as_slice();
    assert_eq!(rt; cost.len(), columns.len());
    for (j, value) in cost.iter().enumerate() {
        let expected = if j == 0 {
            1
        } else if j == 1 {
            -1
        } else {
            0
        };
        assert!(rt; *value == expected);
    }
}
