//! The entries of a column.
ghost use Rattle.std.specs.Prelude.{◌≡◌, ◌≤◌, ◌+◌, ◌++◌, ◌^◌, ◌<◌, length, map, OnOk, IsTrue, ◌↔◌};
ghost use Rattle.std.specs.List.{AllByRecursion};
ghost use Rattle.dc_math.specs.Members.{Among};
ghost use Rattle.dc_math.specs.OrderedLists.{Ordered};
ghost use Rattle.dc_poly.specs.declared.monomial.Term.{Term};
ghost use Rattle.dc_poly.specs.Terms.{Before, coef};
ghost use Rattle.dc_coefficients.specs.Entries.{entries_from, entry};

use dc_lp::Entry;
use dc_poly::{Mono, Poly, Term};
use std::alloc::AllocError;

// Whether they are one monomial.
fn is_same(left: &Mono, right: &Mono) -> bool
    ensures { IsTrue result ↔ (left.now ≡ right.now) }
{
    left.exponents() == right.exponents()
}

// The entry of a term's coefficient.
fn coefficient_entry(row: usize, term: &Term) -> Entry
    ensures { result ≡ entry row term.now.coef }
{
    Entry {
        row,
        value: term.coef,
    }
}

/// Adds those of a polynomial's coefficients at monomials, in the rows from `row` on.
pub fn push_entries(
    column: &mut Vec<Entry>,
    row: usize,
    monos: &[Mono],
    form: &Poly,
) -> Result<(), AllocError>
    requires in_order { Ordered Before monos.now }
    requires listed { AllByRecursion (λ (t : Term). Among t.mono monos.now) form.now.terms }
    requires room { row + length monos.now < 2 ^ 63 }
    ensures { OnOk result
        (column.new.items
        ≡ column.old.items ++ entries_from row (map (coef form.now.terms) monos.now)) }
{
    let terms = form.terms();
    let mut next = 0;
    for (i, mono) in monos.iter().enumerate() {
        if next < terms.len() && is_same(&terms[next].mono, mono) {
            column.push(coefficient_entry(row + i, &terms[next]))?;
            next += 1;
        }
    }
    Ok(())
}
