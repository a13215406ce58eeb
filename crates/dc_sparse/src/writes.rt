//! Entries that come, change and go.
#![tactic(auto)]

ghost use Rattle.std.specs.Prelude.{◌≡◌, ℕ, ◌+◌, ◌<◌, ◌≤◌, length, OnOk, OnErr, None, true, false};
ghost use Rattle.dc_math.specs.Tests.{is_zero};
ghost use Rattle.dc_frac.specs.Value.{value};
ghost use Rattle.dc_sparse.specs.Lines.{IsLast};
ghost use Rattle.dc_sparse.specs.Nodes.{row_at, col_at, is_live, IsIn, IsLink, IsRelinkedRight, IsRelinkedDown, AreReheaded};
ghost use Rattle.dc_sparse.specs.Webs.{IsVacant, IsSeated, IsCleared};
ghost use Rattle.dc_sparse.specs.Entries.{entry_at, StandsAt, IsNodeAt, IsPut, takes};
ghost use Rattle.dc_sparse.specs.Sizes.{HasGrown};
ghost use Rattle.dc_sparse.specs.Held.{nodes_of, node_count, height_of, width_of, rows_of, columns_of};

use crate::web::{Node, Web};
use dc_frac::Frac;
use std::alloc::AllocError;

impl Web {
    /// Holds an entry at a cell that has none, nor any before it in its row.
    pub(crate) fn hold(&mut self, row: usize, col: usize, entry: Frac) -> Result<(), AllocError>
        requires row { row < height_of self.old }
        requires col { col < width_of self.old }
        requires left { IsLast (rows_of self.old) row col None }
        requires vacant { IsVacant (nodes_of self.old) row col }
        ensures ok { OnOk result (IsPut (nodes_of self.old) (nodes_of self.new) row col (value entry)) }
        ensures err { OnErr result (nodes_of self.new ≡ nodes_of self.old) }
        ensures arena { (n : ℕ) → HasGrown n (node_count self.old) self.old.spare
            → HasGrown n (node_count self.new) self.new.spare }
        ensures height { height_of self.new ≡ height_of self.old }
        ensures width { width_of self.new ≡ width_of self.old }
    {
        if !entry.is_zero() {
            self.reserve(1)?;
        }
        self.put(row, col, entry, None, None);
        Ok(())
    }

    /// Makes `entry` the entry at a cell, whose node is `found` and which stands behind `left` in
    /// its row. The column's stop moves there.
    pub(crate) fn put(
        &mut self,
        row: usize,
        col: usize,
        entry: Frac,
        left: Option<usize>,
        found: Option<usize>,
    )
        requires row { row < height_of self.old }
        requires col { col < width_of self.old }
        requires left { IsLast (rows_of self.old) row col left }
        requires found { IsNodeAt (nodes_of self.old) row col found }
        requires spare { takes (entry_at (nodes_of self.old) row col) (value entry) ≤ self.old.spare }
        ensures entry { IsPut (nodes_of self.old) (nodes_of self.new) row col (value entry) }
        ensures spare { self.new.spare + takes (entry_at (nodes_of self.old) row col) (value entry)
            ≡ self.old.spare + takes (value entry) (entry_at (nodes_of self.old) row col) }
        ensures arena { node_count self.new ≡ node_count self.old }
        ensures height { height_of self.new ≡ height_of self.old }
        ensures width { width_of self.new ≡ width_of self.old }
    {
        let stop = self.write(row, col, entry, left, found);
        self.stops[col] = stop;
    }

    /// The same. Gives the node there, and the one above it where there is none any more.
    fn write(
        &mut self,
        row: usize,
        col: usize,
        entry: Frac,
        left: Option<usize>,
        found: Option<usize>,
    ) -> Option<usize>
        requires row { row < height_of self.old }
        requires col { col < width_of self.old }
        requires left { IsLast (rows_of self.old) row col left }
        requires found { IsNodeAt (nodes_of self.old) row col found }
        requires spare { takes (entry_at (nodes_of self.old) row col) (value entry) ≤ self.old.spare }
        ensures entry { IsPut (nodes_of self.old) (nodes_of self.new) row col (value entry) }
        ensures spare { self.new.spare + takes (entry_at (nodes_of self.old) row col) (value entry)
            ≡ self.old.spare + takes (value entry) (entry_at (nodes_of self.old) row col) }
        ensures arena { node_count self.new ≡ node_count self.old }
        ensures height { height_of self.new ≡ height_of self.old }
        ensures width { width_of self.new ≡ width_of self.old }
    {
        match found {
            Some(node) => {
                if entry.is_zero() {
                    let above = self.above_of(col, row, self.stop_before(col, row));
                    self.remove(node, left, above);
                    above
                } else {
                    self.set(node, entry);
                    Some(node)
                }
            }
            None => {
                if entry.is_zero() {
                    return None;
                }
                let above = self.above_of(col, row, self.stop_before(col, row));
                Some(self.insert(row, col, entry, left, above))
            }
        }
    }

    /// Takes a free node to hold a value at a cell without a node, behind `left` in its row and
    /// behind `above` in its column.
    pub(crate) fn insert(
        &mut self,
        row: usize,
        col: usize,
        entry: Frac,
        left: Option<usize>,
        above: Option<usize>,
    ) -> usize
        requires row { row < height_of self.old }
        requires col { col < width_of self.old }
        requires spare { 0 < self.old.spare }
        requires nonzero { is_zero (value entry) ≡ false }
        requires vacant { IsVacant (nodes_of self.old) row col }
        requires left { IsLast (rows_of self.old) row col left }
        requires above { IsLast (columns_of self.old) col row above }
        ensures seated { IsSeated (nodes_of self.old) (nodes_of self.new)
            result row col (value entry) }
        ensures spare { self.new.spare + 1 ≡ self.old.spare }
        ensures arena { node_count self.new ≡ node_count self.old }
        ensures height { height_of self.new ≡ height_of self.old }
        ensures width { width_of self.new ≡ width_of self.old }
    {
        let Some(node) = self.free else {
            unreachable!();
        };
        let right = self.right_of(row, left);
        let down = self.down_of(col, above);
        self.free = self.nodes[node].right();
        self.spare -= 1;
        self.nodes[node] = Node::new(row, col, entry, right, down);
        link_right(&mut self.nodes, &mut self.row_heads, row, left, Some(node));
        link_down(&mut self.nodes, &mut self.col_heads, col, above, Some(node));
        node
    }

    /// Frees a node, which stands behind `left` in its row and behind `above` in its column.
    pub(crate) fn remove(&mut self, node: usize, left: Option<usize>, above: Option<usize>)
        requires node { is_live (nodes_of self.old) node ≡ true }
        requires left { IsLast (rows_of self.old) (row_at (nodes_of self.old) node)
            (col_at (nodes_of self.old) node) left }
        requires above { IsLast (columns_of self.old) (col_at (nodes_of self.old) node)
            (row_at (nodes_of self.old) node) above }
        ensures cleared { IsCleared (nodes_of self.old) (nodes_of self.new) node }
        ensures spare { self.new.spare ≡ self.old.spare + 1 }
        ensures arena { node_count self.new ≡ node_count self.old }
        ensures height { height_of self.new ≡ height_of self.old }
        ensures width { width_of self.new ≡ width_of self.old }
    {
        let gone = self.nodes[node];
        self.nodes[node] = Node::new(self.spare, 0, Frac::whole(0), self.free, None);
        link_right(
            &mut self.nodes,
            &mut self.row_heads,
            gone.row(),
            left,
            gone.right(),
        );
        link_down(
            &mut self.nodes,
            &mut self.col_heads,
            gone.col(),
            above,
            gone.down(),
        );
        self.free = Some(node);
        self.spare += 1;
    }

    /// Gives a linked node another value.
    pub(crate) fn set(&mut self, node: usize, entry: Frac)
        requires node { is_live (nodes_of self.old) node ≡ true }
        requires nonzero { is_zero (value entry) ≡ false }
        ensures entry { (i k : ℕ) → StandsAt (nodes_of self.old) node i k
            → IsPut (nodes_of self.old) (nodes_of self.new) i k (value entry) }
        ensures stays { (n i k : ℕ) → StandsAt (nodes_of self.old) n i k
            → StandsAt (nodes_of self.new) n i k }
        ensures spare { self.new.spare ≡ self.old.spare }
        ensures arena { node_count self.new ≡ node_count self.old }
        ensures height { height_of self.new ≡ height_of self.old }
        ensures width { width_of self.new ≡ width_of self.old }
    {
        self.nodes[node].value = entry;
    }
}

/// Makes `to` what follows `before` in a row, and what the row begins with where `before` is `None`.
fn link_right(
    nodes: &mut Vec<Node>,
    heads: &mut Vec<Option<usize>>,
    row: usize,
    before: Option<usize>,
    to: Option<usize>,
)
    requires row { row < length heads.old.items }
    requires before { IsIn nodes.old.items before }
    requires to { IsLink to }
    ensures nodes { IsRelinkedRight nodes.old.items nodes.new.items before to }
    ensures heads { AreReheaded heads.old.items heads.new.items before row to }
{
    match before {
        None => heads[row] = to,
        Some(left) => nodes[left].set_right(to),
    }
}

/// The same in a column.
fn link_down(
    nodes: &mut Vec<Node>,
    heads: &mut Vec<Option<usize>>,
    col: usize,
    before: Option<usize>,
    to: Option<usize>,
)
    requires col { col < length heads.old.items }
    requires before { IsIn nodes.old.items before }
    requires to { IsLink to }
    ensures nodes { IsRelinkedDown nodes.old.items nodes.new.items before to }
    ensures heads { AreReheaded heads.old.items heads.new.items before col to }
{
    match before {
        None => heads[col] = to,
        Some(above) => nodes[above].set_down(to),
    }
}
