//! The arena's memory: nodes that come, and nodes that are freed at once.
#![tactic(auto)]

ghost use Rattle.std.specs.Prelude.{◌≡◌, ◌+◌, ◌<◌, ◌≤◌, max, length, vec_len, vec_capacity, OnOk, OnErr, IfOk};
ghost use Rattle.dc_sparse.specs.Nodes.{most, IsLink};
ghost use Rattle.dc_sparse.specs.Webs.{IsBlank, AreEmpty, AreFreed, top_of};
ghost use Rattle.dc_sparse.specs.Entries.{KeepsAll};
ghost use Rattle.dc_sparse.specs.Held.{nodes_of, node_count, height_of, width_of};

use crate::web::{MOST, Node, Web};
use dc_frac::Frac;
use std::alloc::{AllocError, Global};

impl Web {
    /// Makes at least `count` nodes free, in an arena that grows by those that are missing. Past
    /// 2^32 - 1 nodes it refuses. After a refusal all is as before.
    pub(crate) fn reserve(&mut self, count: usize) -> Result<(), AllocError>
        ensures ok { OnOk result (self.new.spare ≡ max self.old.spare count) }
        ensures err { OnErr result (nodes_of self.new ≡ nodes_of self.old) }
        ensures kept { KeepsAll (nodes_of self.old) (nodes_of self.new) }
        ensures live { node_count self.new + self.old.spare ≡ node_count self.old + self.new.spare }
        ensures spare { self.old.spare ≤ self.new.spare }
        ensures rows { self.new.row_heads.items ≡ self.old.row_heads.items }
        ensures columns { self.new.col_heads.items ≡ self.old.col_heads.items }
    {
        if count <= self.spare {
            return Ok(());
        }
        let more = count - self.spare;
        if more > MOST - self.nodes.len() {
            return Err(AllocError);
        }
        self.nodes.reserve(more)?;
        for _ in 0..more {
            self.grow();
        }
        Ok(())
    }

    /// Adds a free node, for which the arena has room.
    fn grow(&mut self)
        requires room { vec_len self.old.nodes < vec_capacity self.old.nodes }
        requires small { node_count self.old < most }
        ensures kept { KeepsAll (nodes_of self.old) (nodes_of self.new) }
        ensures spare { self.new.spare ≡ self.old.spare + 1 }
        ensures arena { node_count self.new ≡ node_count self.old + 1 }
        ensures long { vec_len self.new.nodes ≡ vec_len self.old.nodes + 1 }
        ensures capacity { vec_capacity self.old.nodes ≤ vec_capacity self.new.nodes }
        ensures rows { self.new.row_heads.items ≡ self.old.row_heads.items }
        ensures columns { self.new.col_heads.items ≡ self.old.col_heads.items }
    {
        let node = self.nodes.len();
        let added = Node::new(self.spare, 0, Frac::whole(0), self.free, None);
        let Ok(()) = self.nodes.push(added) else {
            unreachable!();
        };
        self.free = Some(node);
        self.spare += 1;
    }

    /// Frees all nodes, for a table of so many rows and columns. Past 2^32 - 1 of either it
    /// refuses. After a refusal nothing has changed.
    pub(crate) fn reset(
        &mut self,
        alloc: Global,
        height: usize,
        width: usize,
    ) -> Result<(), AllocError>
        ensures arena { node_count self.new ≡ node_count self.old }
        ensures blank { OnOk result (IsBlank (nodes_of self.new)) }
        ensures spare { OnOk result (self.new.spare ≡ node_count self.new) }
        ensures height { OnOk result (height_of self.new ≡ height) }
        ensures width { OnOk result (width_of self.new ≡ width) }
        ensures err { OnErr result (self.new ≡ self.old) }
    {
        if height > MOST || width > MOST {
            return Err(AllocError);
        }
        let row_heads = no_heads(alloc, height)?;
        let col_heads = no_heads(alloc, width)?;
        let stops = no_heads(alloc, width)?;
        free_all(&mut self.nodes);
        self.row_heads = row_heads;
        self.col_heads = col_heads;
        self.stops = stops;
        self.spare = self.nodes.len();
        self.free = top(self.nodes.len());
        Ok(())
    }
}

/// `count` lines without nodes.
fn no_heads(alloc: Global, count: usize) -> Result<Vec<Option<usize>>, AllocError>
    ensures { IfOk result (λ v. AreEmpty v.items count) }
{
    let mut heads = Vec::with_capacity(alloc, count)?;
    for _ in 0..count {
        heads.push(None)?;
    }
    Ok(heads)
}

/// The last of so many nodes.
fn top(count: usize) -> Option<usize>
    ensures is { result ≡ top_of count }
    ensures small { count ≤ most → IsLink result }
{
    if count == 0 { None } else { Some(count - 1) }
}

/// Makes all nodes free, each followed by the one before it.
fn free_all(nodes: &mut Vec<Node>)
    requires { length nodes.old.items ≤ most }
    ensures { AreFreed nodes.new.items (length nodes.old.items) (length nodes.old.items) }
{
    for node in 0..nodes.len() {
        nodes[node] = Node::new(node, 0, Frac::whole(0), top(node), None);
    }
}
