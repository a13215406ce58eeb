//! Runs pivot by pivot: both tableaux are alike at each step, and the sparse one has a node for
//! each entry that isn't 0.
#![tactic(auto, using(crate::proofs::Sizes::sizes))]

ghost use Rattle.std.specs.Prelude.{◌≡◌, ◌+◌, ◌<◌, ◌^◌, OnOk};
ghost use Rattle.dc_lp.specs.Problems.{IsWellFormed, columns as columns_of};
ghost use Rattle.dc_sparse.specs.Meanings.{cross_meaning};
ghost use Rattle.dc_tableau_trials.specs.Sizes.{IsOver, IsReadyAt};

use crate::tables::{circle, empty_pair, small, sums};
use dc_lp::{Problem, Tableau};
use dc_simplex::Dense;
use dc_sparse::Cross;
use std::alloc::{AllocError, Global};
use std::process::Abort;
use std::test::Fail;

/// Loads a problem.
pub(crate) fn load<T: Tableau>(tableau: &mut T, p: &Problem) -> Result<(), AllocError>
    requires { IsWellFormed p.now }
    ensures { OnOk result (IsOver (T.meaning tableau.new) p.now.rows (columns_of p.now)) }
{
    tableau.load(p)
}

/// Makes room for the pivot at a cell, which is an equation's row and a real column with an entry
/// there.
pub(crate) fn make_room<T: Tableau>(
    rt: &impl Abort,
    tableau: &mut T,
    rows: usize,
    columns: usize,
    row: usize,
    col: usize,
) -> Result<(), Fail>
    requires { IsOver (T.meaning tableau.old) rows columns }
    ensures { OnOk result (IsReadyAt (T.meaning tableau.new) rows columns row col) }
{
    assert!(rt; row < rows);
    assert!(rt; col < columns);
    assert!(rt; !tableau.entry(row, col).is_zero());
    tableau.room(row, col)?;
    Ok(())
}

/// Makes the pivot for which there is room.
pub(crate) fn make_pivot<T: Tableau>(
    rt: &impl Abort,
    tableau: &mut T,
    rows: usize,
    columns: usize,
    row: usize,
    col: usize,
)
    requires { IsReadyAt (T.meaning tableau.old) rows columns row col }
    ensures { IsOver (T.meaning tableau.new) rows columns }
{
    assert!(rt; tableau.pivot(row, col).is_ok());
}

// Whether the two have the same entries and the same basic columns.
fn agree<S: Tableau, T: Tableau>(a: &S, b: &T, rows: usize, columns: usize) -> bool
    requires first { IsOver (S.meaning a.now) rows columns }
    requires second { IsOver (T.meaning b.now) rows columns }
    requires small { rows + columns + 2 < 2 ^ 64 }
{
    for row in 0..rows {
        if a.basic(row) != b.basic(row) {
            return false;
        }
    }
    for row in 0..rows + 2 {
        for col in 0..rows + columns + 1 {
            if a.entry(row, col) != b.entry(row, col) {
                return false;
            }
        }
    }
    true
}

// The pivot at a cell on both tableaux, which are alike after it; the sparse one has so many nodes
// linked, and none lost.
fn step<S: Tableau>(
    rt: &impl Abort,
    dense: &mut S,
    cross: &mut Cross,
    rows: usize,
    columns: usize,
    cell: &(usize, usize, usize),
) -> Result<(), Fail>
    requires first { IsOver (S.meaning dense.old) rows columns }
    requires second { IsOver (cross_meaning cross.old) rows columns }
    requires small { rows + columns + 2 < 2 ^ 64 }
    ensures first { OnOk result (IsOver (S.meaning dense.new) rows columns) }
    ensures second { OnOk result (IsOver (cross_meaning cross.new) rows columns) }
{
    let (row, col, live) = *cell;
    make_room(rt, dense, rows, columns, row, col)?;
    make_pivot(rt, dense, rows, columns, row, col);
    make_room(rt, cross, rows, columns, row, col)?;
    let nodes = nodes_of(cross);
    make_pivot(rt, cross, rows, columns, row, col);
    assert!(rt; agree(dense, cross, rows, columns));
    assert!(rt; cross.live() == live);
    assert!(rt; nodes_of(cross) == nodes);
    Ok(())
}

/// Loads a problem into both tableaux and makes pivots: for each by Bland's rule its cell and how many nodes are linked after it.
pub(crate) fn go<S: Tableau>(
    rt: &impl Abort,
    dense: &mut S,
    cross: &mut Cross,
    p: &Problem,
    cells: &[(usize, usize, usize)],
) -> Result<(), Fail>
    requires well_formed { IsWellFormed p.now }
    requires small { p.now.rows + columns_of p.now + 2 < 2 ^ 64 }
    ensures first { OnOk result (IsOver (S.meaning dense.new) p.now.rows (columns_of p.now)) }
    ensures second { OnOk result (IsOver (cross_meaning cross.new) p.now.rows (columns_of p.now)) }
{
    let [rows, columns] = [p.rows, p.columns.len()];
    load(dense, p)?;
    load(cross, p)?;
    assert!(rt; agree(dense, cross, rows, columns));
    for cell in cells {
        step(rt, dense, cross, rows, columns, cell)?;
    }
    Ok(())
}

/// The same on two new tableaux.
pub(crate) fn walk<S: Tableau>(
    rt: &impl Abort,
    alloc: Global,
    dense: &mut S,
    p: &Problem,
    cells: &[(usize, usize, usize)],
) -> Result<(), Fail> {
    assert!(rt; p.is_well_formed());
    assert!(rt; p.rows < 1000);
    assert!(rt; p.columns.len() < 1000);
    let mut cross = Cross::new(alloc);
    go(rt, dense, &mut cross, p, cells)
}

// Whether a value of the pivot at a cell doesn't fit.
fn breaks<T: Tableau>(
    rt: &impl Abort,
    tableau: &mut T,
    rows: usize,
    columns: usize,
    row: usize,
    col: usize,
) -> Result<bool, Fail>
    requires { IsOver (T.meaning tableau.old) rows columns }
{
    make_room(rt, tableau, rows, columns, row, col)?;
    Ok(tableau.pivot(row, col).is_err())
}

// Whether a quotient of right side by entry in a column doesn't fit.
fn has_no_ratio<T: Tableau>(
    rt: &impl Abort,
    tableau: &T,
    rows: usize,
    columns: usize,
    col: usize,
) -> bool
    requires over { IsOver (T.meaning tableau.now) rows columns }
    requires small { rows + columns + 2 < 2 ^ 64 }
{
    assert!(rt; col < columns);
    tableau.ratio_row(col).is_err()
}

/// Pivots are made up to one at a cell, which breaks both tableaux; then both are loaded again.
pub(crate) fn break_at<S: Tableau>(
    rt: &impl Abort,
    alloc: Global,
    dense: &mut S,
    p: &Problem,
    cells: &[(usize, usize, usize)],
    row: usize,
    col: usize,
) -> Result<(), Fail> {
    let [rows, columns] = [p.rows, p.columns.len()];
    assert!(rt; p.is_well_formed());
    assert!(rt; rows < 1000);
    assert!(rt; columns < 1000);
    let mut cross = Cross::new(alloc);
    go(rt, dense, &mut cross, p, cells)?;
    assert!(rt; breaks(rt, dense, rows, columns, row, col)?);
    assert!(rt; breaks(rt, &mut cross, rows, columns, row, col)?);
    go(rt, dense, &mut cross, p, cells)
}

/// Pivots are made until a column is to enter where both tableaux have no ratio row, since a quotient doesn't fit.
pub(crate) fn stop_at<S: Tableau>(
    rt: &impl Abort,
    alloc: Global,
    dense: &mut S,
    p: &Problem,
    cells: &[(usize, usize, usize)],
    col: usize,
) -> Result<(), Fail> {
    let [rows, columns] = [p.rows, p.columns.len()];
    assert!(rt; p.is_well_formed());
    assert!(rt; rows < 1000);
    assert!(rt; columns < 1000);
    let mut cross = Cross::new(alloc);
    go(rt, dense, &mut cross, p, cells)?;
    assert!(rt; has_no_ratio(rt, dense, rows, columns, col));
    assert!(rt; has_no_ratio(rt, &cross, rows, columns, col));
    Ok(())
}

// All nodes, linked and free.
fn nodes_of(cross: &Cross) -> u64 {
    cross.live() as u64 + cross.spare() as u64
}

// The numbers of entries are those of the same tables in fractions, kept apart from this program.
#[test]
fn pivots_of_small_problems(rt: HostRuntime) -> Result<(), Fail> {
    let alloc = rt.alloc();
    walk(
        &rt,
        alloc,
        &mut Dense::new(alloc),
        &small(alloc)?,
        &[(0, 0, 7), (0, 1, 5)],
    )?;
    walk(
        &rt,
        alloc,
        &mut Dense::new(alloc),
        &sums(alloc)?,
        &[(0, 0, 22), (1, 1, 19), (1, 2, 17)],
    )?;
    walk(
        &rt,
        alloc,
        &mut Dense::new(alloc),
        &empty_pair(alloc)?,
        &[(2, 0, 30), (0, 2, 26), (1, 5, 22)],
    )
}

#[test]
fn pivots_of_degenerate_tables(rt: HostRuntime) -> Result<(), Fail> {
    let alloc = rt.alloc();
    let cells = [
        (0, 0, 28),
        (1, 1, 24),
        (2, 2, 20),
        (0, 3, 22),
        (1, 4, 24),
        (0, 5, 29),
        (1, 0, 26),
        (2, 1, 26),
        (2, 3, 28),
    ];
    walk(&rt, alloc, &mut Dense::new(alloc), &circle(alloc)?, &cells)
}
