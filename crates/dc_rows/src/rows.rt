//! The rows of a system and of the atoms of its condition.
ghost use Rattle.std.specs.Prelude.{◌≡◌, ◌<◌, [], ◌∷◌, IfOk, OnOk, filter, pos, slice_index_or};
ghost use Rattle.std.specs.List.{list_all};
ghost use Rattle.std.specs.Ordering.{int_eq};
ghost use Rattle.dc_rows.specs.Rows.{alone, together, rows_of_one, rows_of_two, single_rows, later_rows, pair_rows, linear_part, linear_parts, is_unchosen, guard_atoms, with_rows, candidate_rows};

use crate::row_set::RowSet;
use dc_affine::Atom;
use dc_system::{Edge, System};
use std::alloc::{AllocError, Global};

// A number times one variable.
fn alone(alloc: Global, vars: usize, k: usize, c: i64) -> Result<Vec<i64>, AllocError>
    ensures { IfOk result (λ row. row.items ≡ alone vars k c) }
{
    (0..vars).map(|i| if i == k { c } else { 0 }).collect(alloc)
}

// A number times one variable and a number times another one.
fn together(
    alloc: Global,
    vars: usize,
    j: usize,
    c: i64,
    k: usize,
    d: i64,
) -> Result<Vec<i64>, AllocError>
    ensures { IfOk result (λ row. row.items ≡ together vars j c k d) }
{
    (0..vars)
        .map(|i| if i == j {
            c
        } else if i == k {
            d
        } else {
            0
        })
        .collect(alloc)
}

// The rows of one variable.
fn add_one(alloc: Global, rows: &mut RowSet, vars: usize, k: usize) -> Result<(), AllocError>
    ensures { OnOk result (rows.new ≡ with_rows rows.old (rows_of_one vars k)) }
{
    rows.insert(alone(alloc, vars, k, 1)?)?;
    rows.insert(alone(alloc, vars, k, -1)?)
}

fn add_singles(alloc: Global, rows: &mut RowSet, vars: usize) -> Result<(), AllocError>
    ensures { OnOk result (rows.new ≡ with_rows rows.old (single_rows vars)) }
{
    for k in 0..vars {
        add_one(alloc, rows, vars, k)?;
    }
    Ok(())
}

// The rows of two variables.
fn add_two(
    alloc: Global,
    rows: &mut RowSet,
    vars: usize,
    j: usize,
    k: usize,
) -> Result<(), AllocError>
    ensures { OnOk result (rows.new ≡ with_rows rows.old (rows_of_two vars j k)) }
{
    rows.insert(together(alloc, vars, j, 1, k, -1)?)?;
    rows.insert(together(alloc, vars, j, -1, k, 1)?)?;
    rows.insert(together(alloc, vars, j, 1, k, 1)?)?;
    rows.insert(together(alloc, vars, j, -1, k, -1)?)
}

// The rows of a variable and each later one.
fn add_later(alloc: Global, rows: &mut RowSet, vars: usize, j: usize) -> Result<(), AllocError>
    requires { j < vars }
    ensures { OnOk result (rows.new ≡ with_rows rows.old (later_rows vars j)) }
{
    for k in j + 1..vars {
        add_two(alloc, rows, vars, j, k)?;
    }
    Ok(())
}

fn add_pairs(alloc: Global, rows: &mut RowSet, vars: usize) -> Result<(), AllocError>
    ensures { OnOk result (rows.new ≡ with_rows rows.old (pair_rows vars)) }
{
    for j in 0..vars {
        add_later(alloc, rows, vars, j)?;
    }
    Ok(())
}

// The coefficient at a place; a missing one is 0.
fn coef(atom: &Atom, place: usize) -> i64
    ensures { result ≡ slice_index_or atom.now.coefs place (pos 0) }
{
    atom.coefs.as_slice().get(place).copied().unwrap_or(0)
}

fn linear_part(alloc: Global, vars: usize, atom: &Atom) -> Result<Vec<i64>, AllocError>
    ensures { IfOk result (λ row. row.items ≡ linear_part vars atom.now) }
{
    (0..vars).map(|k| coef(atom, k)).collect(alloc)
}

fn is_zero(row: &[i64]) -> bool
    ensures { result ≡ list_all (λ c. int_eq c (pos 0)) row.now }
{
    row.iter().all(|c| *c == 0)
}

// The linear part of an atom, unless it is zero.
fn add_atom(alloc: Global, rows: &mut RowSet, vars: usize, atom: &Atom) -> Result<(), AllocError>
    ensures { OnOk result (rows.new ≡ with_rows rows.old (linear_parts vars (atom.now ∷ []))) }
{
    let row = linear_part(alloc, vars, atom)?;
    if is_zero(row.as_slice()) {
        return Ok(());
    }
    rows.insert(row)
}

fn add_condition(
    alloc: Global,
    rows: &mut RowSet,
    vars: usize,
    when: &[Atom],
) -> Result<(), AllocError>
    ensures { OnOk result (rows.new ≡ with_rows rows.old (linear_parts vars when.now)) }
{
    for atom in when {
        add_atom(alloc, rows, vars, atom)?;
    }
    Ok(())
}

// The linear parts of the atoms that do not mention the chosen value.
fn add_guard(
    alloc: Global,
    rows: &mut RowSet,
    vars: usize,
    guard: &[Atom],
) -> Result<(), AllocError>
    ensures { OnOk result
        (rows.new ≡ with_rows rows.old (linear_parts vars (filter (is_unchosen vars) guard.now))) }
{
    for atom in guard {
        if coef(atom, vars) == 0 {
            add_atom(alloc, rows, vars, atom)?;
        }
    }
    Ok(())
}

fn add_guards(
    alloc: Global,
    rows: &mut RowSet,
    vars: usize,
    edges: &[Edge],
) -> Result<(), AllocError>
    ensures { OnOk result
        (rows.new ≡ with_rows rows.old
        (linear_parts vars (filter (is_unchosen vars) (guard_atoms edges.now)))) }
{
    for edge in edges {
        add_guard(alloc, rows, vars, edge.guard.as_slice())?;
    }
    Ok(())
}

/// All rows, each once.
pub(crate) fn gather(
    alloc: Global,
    s: &System,
    when: &[Atom],
    pairs: bool,
) -> Result<RowSet, AllocError>
    ensures { IfOk result (λ rows. rows ≡ candidate_rows s.now when.now pairs) }
{
    let mut rows = RowSet::new(alloc);
    add_singles(alloc, &mut rows, s.vars)?;
    if pairs {
        add_pairs(alloc, &mut rows, s.vars)?;
    }
    add_condition(alloc, &mut rows, s.vars, when)?;
    add_guards(alloc, &mut rows, s.vars, s.edges.as_slice())?;
    Ok(rows)
}
