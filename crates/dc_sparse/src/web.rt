//! Nodes of an arena, linked in rows and in columns. Those that hold nothing stand in a list of
//! their own.
#![tactic(auto)]

ghost use Rattle.std.specs.Prelude.{◌≡◌, ℕ, ◌<◌, ◌≤◌, length, [], None, IsTrue};
ghost use Rattle.dc_frac.specs.Value.{value};
ghost use Rattle.dc_sparse.specs.Lines.{IsBefore, IsFirst, IsLast, IsStop, StandsBefore, index_after};
ghost use Rattle.dc_sparse.specs.Nodes.{most, link, IsLink};
ghost use Rattle.dc_sparse.specs.Webs.{free_count, IsSmall, IsWoven};
ghost use Rattle.dc_sparse.specs.Entries.{entry_at, IsNodeAt};
ghost use Rattle.dc_sparse.specs.Sizes.{held_count, live_count};
ghost use Rattle.dc_sparse.specs.Props.{IsWoven_prop};

use dc_frac::Frac;
use std::alloc::Global;

/// How many nodes, rows and columns there may be: 2^32 - 1.
pub(crate) const MOST: usize = 0xFFFF_FFFF;

/// A node at a row and a column, with a value and the nodes that follow it in its row and in its
/// column. Where it is free its value is 0, `row` is how many free nodes stand behind it in the
/// list of these, and `right` is the next of them. A node that follows is kept as its index and 1
/// more, and none as 0.
#[derive(Clone, Copy, Drop)]
pub(crate) struct Node {
    row: u32,
    col: u32,
    right: u32,
    down: u32,
    pub value: Frac,
}

impl Node {
    /// A node of these parts.
    pub(crate) fn new(
        row: usize,
        col: usize,
        value: Frac,
        right: Option<usize>,
        down: Option<usize>,
    ) -> Node
        requires row { row ≤ most }
        requires col { col ≤ most }
        requires right { IsLink right }
        requires down { IsLink down }
        ensures row { result.row ≡ row }
        ensures col { result.col ≡ col }
        ensures value { result.value ≡ value }
        ensures right { link result.right ≡ right }
        ensures down { link result.down ≡ down }
    {
        Node {
            row: row as u32,
            col: col as u32,
            right: packed(right),
            down: packed(down),
            value,
        }
    }

    /// The row in which it stands, or how many free nodes stand behind it.
    pub(crate) fn row(&self) -> usize
        ensures { result ≡ self.now.row }
    {
        self.row as usize
    }

    /// The column in which it stands.
    pub(crate) fn col(&self) -> usize
        ensures { result ≡ self.now.col }
    {
        self.col as usize
    }

    /// The node that follows in the row.
    pub(crate) fn right(&self) -> Option<usize>
        ensures is { result ≡ link self.now.right }
        ensures small { IsLink result }
    {
        unpacked(self.right)
    }

    /// The node that follows in the column.
    pub(crate) fn down(&self) -> Option<usize>
        ensures is { result ≡ link self.now.down }
        ensures small { IsLink result }
    {
        unpacked(self.down)
    }

    /// Makes `to` the node that follows in the row.
    pub(crate) fn set_right(&mut self, to: Option<usize>)
        requires { IsLink to }
        ensures row { self.new.row ≡ self.old.row }
        ensures col { self.new.col ≡ self.old.col }
        ensures value { self.new.value ≡ self.old.value }
        ensures right { link self.new.right ≡ to }
        ensures down { self.new.down ≡ self.old.down }
    {
        self.right = packed(to);
    }

    /// Makes `to` the node that follows in the column.
    pub(crate) fn set_down(&mut self, to: Option<usize>)
        requires { IsLink to }
        ensures row { self.new.row ≡ self.old.row }
        ensures col { self.new.col ≡ self.old.col }
        ensures value { self.new.value ≡ self.old.value }
        ensures right { self.new.right ≡ self.old.right }
        ensures down { link self.new.down ≡ to }
    {
        self.down = packed(to);
    }
}

/// An index and 1 more, and 0 for none.
fn packed(to: Option<usize>) -> u32
    requires { IsLink to }
    ensures { link result ≡ to }
{
    match to {
        None => 0,
        Some(node) => (node + 1) as u32,
    }
}

/// What a number stands for.
fn unpacked(number: u32) -> Option<usize>
    ensures is { result ≡ link number }
    ensures small { IsLink result }
{
    if number == 0 {
        None
    } else {
        Some((number - 1) as usize)
    }
}

/// Nodes, and which of them begin the rows, the columns and the list of free nodes. `spare` counts
/// the free ones. Each column has a stop, from which a node is sought if it stands before it there.
/// Of nodes, rows and columns there are few enough for numbers of 32 bits.
#[derive(Drop)]
pub(crate) struct Web {
    pub nodes: Vec<Node>,
    pub row_heads: Vec<Option<usize>>,
    pub col_heads: Vec<Option<usize>>,
    pub stops: Vec<Option<usize>>,
    pub free: Option<usize>,
    pub spare: usize,
    pub ghost stopped: { length stops.items ≡ length col_heads.items },
    pub ghost small: { IsSmall (length nodes.items) (length row_heads.items) (length col_heads.items) },
    pub ghost woven: { IsWoven nodes.items row_heads.items col_heads.items
        free spare } by { IsWoven_prop nodes.items row_heads.items col_heads.items
            free spare },
}

impl Web {
    ghost use Rattle.dc_sparse.specs.Held.{nodes_of, node_count, height_of, width_of, rows_of, columns_of};

    /// A web without nodes, rows and columns. It takes no memory.
    pub(crate) fn new(alloc: Global) -> Web
        ensures nodes { result.nodes.items ≡ [] }
        ensures rows { result.row_heads.items ≡ [] }
        ensures columns { result.col_heads.items ≡ [] }
        ensures spare { result.spare ≡ 0 }
    {
        Web {
            nodes: Vec::new(alloc),
            row_heads: Vec::new(alloc),
            col_heads: Vec::new(alloc),
            stops: Vec::new(alloc),
            free: None,
            spare: 0,
        }
    }

    /// How many nodes are free.
    pub(crate) fn spare(&self) -> usize
        ensures { result ≡ free_count (nodes_of self.now) }
    {
        self.spare
    }

    /// How many nodes are linked.
    pub(crate) fn live(&self) -> usize
        ensures nodes { result ≡ live_count (nodes_of self.now) }
        ensures entries { result
            ≡ held_count (nodes_of self.now) (height_of self.now) (width_of self.now) }
    {
        self.nodes.len() - self.spare
    }

    /// What follows `left` in a row, and what begins the row where `left` is `None`.
    pub(crate) fn right_of(&self, row: usize, left: Option<usize>) -> Option<usize>
        requires row { row < height_of self.now }
        requires left { IsStop (rows_of self.now) row left }
        ensures { IsFirst (rows_of self.now) row (index_after (rows_of self.now) left) result }
    {
        match left {
            None => self.row_heads[row],
            Some(left) => self.nodes[left].right(),
        }
    }

    /// The same in a column.
    pub(crate) fn down_of(&self, col: usize, above: Option<usize>) -> Option<usize>
        requires col { col < width_of self.now }
        requires above { IsStop (columns_of self.now) col above }
        ensures { IsFirst (columns_of self.now) col (index_after (columns_of self.now) above) result }
    {
        match above {
            None => self.col_heads[col],
            Some(above) => self.nodes[above].down(),
        }
    }

    /// The last node of a row before a column, sought from `from` on.
    pub(crate) fn left_of(&self, row: usize, col: usize, from: Option<usize>) -> Option<usize>
        requires row { row < height_of self.now }
        requires from { StandsBefore (rows_of self.now) row col from }
        ensures { IsLast (rows_of self.now) row col result }
    {
        let mut left = from;
        let mut next = self.right_of(row, from);
        while let Some(node) = next {
            if self.nodes[node].col() >= col {
                return left;
            }
            left = next;
            next = self.nodes[node].right();
        }
        left
    }

    /// The last node of a column before a row, sought from `from` on.
    pub(crate) fn above_of(&self, col: usize, row: usize, from: Option<usize>) -> Option<usize>
        requires col { col < width_of self.now }
        requires from { StandsBefore (columns_of self.now) col row from }
        ensures { IsLast (columns_of self.now) col row result }
    {
        let mut above = from;
        let mut next = self.down_of(col, from);
        while let Some(node) = next {
            if self.nodes[node].row() >= row {
                return above;
            }
            above = next;
            next = self.nodes[node].down();
        }
        above
    }

    /// The stop of a column, where it stands there before a row.
    pub(crate) fn stop_before(&self, col: usize, row: usize) -> Option<usize>
        requires col { col < width_of self.now }
        ensures { StandsBefore (columns_of self.now) col row result }
    {
        let stop = self.stops[col]?;
        if stop >= self.nodes.len() {
            return None;
        }
        if self.stands_before(stop, col, row) {
            Some(stop)
        } else {
            None
        }
    }

    /// Whether a node of the arena stands in a column before a row.
    fn stands_before(&self, node: usize, col: usize, row: usize) -> bool
        requires { node < node_count self.now }
        ensures { IsTrue result → IsBefore (columns_of self.now) col row node }
    {
        let node = &self.nodes[node];
        if node.col() != col {
            return false;
        }
        if node.row() >= row {
            return false;
        }
        !node.value.is_zero()
    }

    /// The node at a cell, which stands behind `left` in its row.
    pub(crate) fn node_at(&self, row: usize, col: usize, left: Option<usize>) -> Option<usize>
        requires row { row < height_of self.now }
        requires left { IsLast (rows_of self.now) row col left }
        ensures { IsNodeAt (nodes_of self.now) row col result }
    {
        let node = self.right_of(row, left)?;
        if self.nodes[node].col() == col {
            Some(node)
        } else {
            None
        }
    }

    /// The entry at a cell.
    pub(crate) fn entry(&self, row: usize, col: usize) -> Frac
        requires row { row < height_of self.now }
        ensures { value result ≡ entry_at (nodes_of self.now) row col }
    {
        let left = self.left_of(row, col, None);
        match self.node_at(row, col, left) {
            Some(node) => self.nodes[node].value,
            None => Frac::whole(0),
        }
    }
}
