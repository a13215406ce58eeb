//! The columns of the two problems.
ghost use Rattle.std.specs.Prelude.{◌≡◌, ◌+◌, ◌≤◌, IfOk, OnOk, pos, replicate, unsigned_abs};
ghost use Rattle.dc_affine.specs.Atoms.{IsAtom, most_constant};
ghost use Rattle.dc_entail.specs.Columns.{IsColumnOf, with_entry, place_numbers, column_numbers};

use dc_affine::Atom;
use dc_lp::Entry;
use std::alloc::{AllocError, Global};

/// Adds an entry, where its value isn't 0.
fn push_entry(entries: &mut Vec<Entry>, row: usize, value: &i64) -> Result<(), AllocError>
    requires small { unsigned_abs value.now ≤ most_constant }
    ensures { OnOk result (entries.new.items ≡ with_entry row value.now entries.old.items) }
{
    if *value != 0 {
        let value = *value as i128;
        entries.push(Entry { row, value })?;
    }
    Ok(())
}

/// The entries of an atom's coefficients, by their places.
pub fn place_entries(alloc: Global, atom: &Atom, places: usize) -> Result<Vec<Entry>, AllocError>
    requires atom { IsAtom places atom.now }
    ensures { IfOk result (λ v. IsColumnOf places (place_numbers places atom.now) v.items) }
{
    let mut entries = Vec::new(alloc);
    for (row, coef) in atom.coefs.as_slice().iter().enumerate() {
        push_entry(&mut entries, row, coef)?;
    }
    Ok(entries)
}

/// The same, with its constant in the row behind the places.
pub fn column_entries(alloc: Global, atom: &Atom, places: usize) -> Result<Vec<Entry>, AllocError>
    requires atom { IsAtom places atom.now }
    ensures { IfOk result (λ v. IsColumnOf (places + 1) (column_numbers places atom.now) v.items) }
{
    let mut entries = place_entries(alloc, atom, places)?;
    push_entry(&mut entries, places, &atom.c0)?;
    Ok(entries)
}

/// So many zeros.
pub fn zeros(alloc: Global, count: usize) -> Result<Vec<i128>, AllocError>
    ensures { IfOk result (λ v. v.items ≡ replicate count (pos 0)) }
{
    vec![in alloc; 0; count]
}
