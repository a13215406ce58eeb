//! Problems and polynomials by their numbers.
use dc_lp::{Entry, Problem};
use dc_poly::Poly;
use std::alloc::{AllocError, Global};

/// A number in a row.
pub(crate) const fn at(row: usize, value: i128) -> Entry {
    Entry { row, value }
}

/// A problem by its columns, right sides and costs.
pub(crate) fn problem(
    alloc: Global,
    columns: &[&[Entry]],
    b: &[i128],
    cost: &[i128],
) -> Result<Problem, AllocError> {
    let mut all = Vec::new(alloc);
    for column in columns {
        all.push(Vec::from_slice(alloc, column)?)?;
    }
    Ok(Problem {
        rows: b.len(),
        columns: all,
        b: Vec::from_slice(alloc, b)?,
        cost: Vec::from_slice(alloc, cost)?,
    })
}

/// Whether the terms are these coefficients and exponents, in this order.
pub(crate) fn has_terms(p: &Poly, table: &[(i128, &[u8])]) -> bool {
    let terms = p.terms();
    terms.len() == table.len()
        && terms.iter().zip(table).all(|(term, row)| term.coef == row.0
            && term.mono.exponents() == row.1)
}
