//! The list: a slot for each edge, with links where the edge is on it.
ghost use Rattle.std.specs.Prelude.{◌≡◌, ◌<◌, ◌≤◌, ◌∷◌, not, true, [], length, replicate, Some, None, IfOk, IfSome};
ghost use Rattle.dc_worklist.specs.Listed.{Listed, is_listed, with_number, IsPopped};
ghost use Rattle.dc_worklist.specs.Links.{slot_at, is_linked, linked_from, IsNext, IsLast, AreLinked, behind, with_after, with_before};

use std::alloc::{AllocError, Global};
use std::marker::Model;

/// The neighbours of an edge on the list.
#[derive(Clone, Copy, Debug)]
struct Links {
    before: Option<usize>,
    after: Option<usize>,
}

/// A rising list of edge numbers below a bound, each at most once.
///
/// It is doubly linked by number, with one slot for each edge: an edge on the list names its
/// neighbours both ways, every other has no links.
#[derive(Debug, Drop)]
pub struct WorkList {
    slots: Vec<Option<Links>>,
    first: Option<usize>,
}

impl Model for WorkList {
    ghost use Rattle.std.specs.Prelude.{length};
    ghost use Rattle.dc_worklist.specs.Listed.{Listed};

    ghost Value = { Listed };

    ghost use Rattle.dc_worklist.specs.Links.{linked_from, AreLinked};

    ghost view = { λ w. record {
      edges = length w.slots.items;
      numbers = linked_from 0 w.slots.items;
    } };

    ghost invariant = { λ w. AreLinked w.slots.items w.first };
}

impl WorkList {
    /// The empty list over the numbers below `edges`.
    pub fn new(alloc: Global, edges: usize) -> Result<WorkList, AllocError>
        ensures { IfOk result (λ w. w ≡ record { edges = edges; numbers = [] }) }
    {
        Ok(WorkList {
            slots: no_links(alloc, edges)?,
            first: None,
        })
    }

    /// Puts an edge on the list, and says whether it is new there. It takes no memory.
    ///
    /// The neighbour is looked for from the edge down: as many steps as there are edges between the
    /// two, at most `edge`.
    pub fn insert(&mut self, edge: usize) -> bool
        requires { edge < self.old.edges }
        ensures told { result ≡ not (is_listed edge self.old.numbers) }
        ensures list { self.new
            ≡ record { edges = self.old.edges; numbers = with_number edge self.old.numbers } }
    {
        if self.slots[edge].is_some() {
            return false;
        }
        link(&mut self.slots, &mut self.first, edge);
        true
    }

    /// The least edge, which is taken out; none where the list is empty. It takes no memory, and
    /// looks at two slots at most.
    pub fn pop_first(&mut self) -> Option<usize>
        ensures { IsPopped self.old self.new result }
    {
        let edge = self.first?;
        self.first = unlink(&mut self.slots, edge);
        Some(edge)
    }

    /// Whether an edge is on the list. It takes no memory.
    pub fn holds(&self, edge: usize) -> bool
        requires { edge < self.now.edges }
        ensures { result ≡ is_listed edge self.now.numbers }
    {
        self.slots[edge].is_some()
    }
}

/// So many slots without links.
fn no_links(alloc: Global, edges: usize) -> Result<Vec<Option<Links>>, AllocError>
    ensures { IfOk result (λ v. v.items ≡ replicate edges None) }
{
    vec![in alloc; None; edges]
}

/// Puts an edge between its neighbours.
fn link(slots: &mut [Option<Links>], first: &mut Option<usize>, edge: usize)
    requires range { edge < length slots.old }
    requires free { slot_at slots.old edge ≡ None }
    requires linked { AreLinked slots.old first.old }
    ensures linked { AreLinked slots.new first.new }
    ensures list { linked_from 0 slots.new ≡ with_number edge (linked_from 0 slots.old) }
{
    let before = last_below(slots, edge);
    let after = next_behind(slots, *first, before);
    slots[edge] = Some(Links { before, after });
    set_after(slots, before, edge);
    set_before(slots, after, Some(edge));
    if before.is_none() {
        *first = Some(edge);
    }
}

/// Takes the first edge out, and gives the one behind it.
fn unlink(slots: &mut [Option<Links>], edge: usize) -> Option<usize>
    requires linked { AreLinked slots.old (Some edge) }
    ensures linked { AreLinked slots.new result }
    ensures list { linked_from 0 slots.old ≡ edge ∷ linked_from 0 slots.new }
{
    let after = next_behind(slots, Some(edge), Some(edge));
    slots[edge] = None;
    set_before(slots, after, None);
    after
}

/// The greatest edge on the list below one.
fn last_below(slots: &[Option<Links>], edge: usize) -> Option<usize>
    requires { edge ≤ length slots.now }
    ensures { IsLast (is_linked slots.now) edge result }
{
    let mut k = edge;
    while k > 0 {
        k -= 1;
        if slots[k].is_some() {
            return Some(k);
        }
    }
    None
}

/// The edge behind one on the list, or the first.
fn next_behind(
    slots: &[Option<Links>],
    first: Option<usize>,
    before: Option<usize>,
) -> Option<usize>
    requires linked { AreLinked slots.now first }
    requires there { IfSome before (λ k. is_linked slots.now k ≡ true) }
    ensures { IsNext (is_linked slots.now) (behind before) result }
{
    match before {
        Some(before) => slots[before]?.after,
        None => first,
    }
}

/// Names what follows an edge, if there is one.
fn set_after(slots: &mut [Option<Links>], edge: Option<usize>, after: usize)
    requires { IfSome edge (λ k. k < length slots.old) }
    ensures { slots.new ≡ with_after edge (Some after) slots.old }
{
    let Some(edge) = edge else {
        return;
    };
    if let Some(links) = slots[edge] {
        slots[edge] = Some(Links {
            before: links.before,
            after: Some(after),
        });
    }
}

/// Names what stands before an edge, if there is one.
fn set_before(slots: &mut [Option<Links>], edge: Option<usize>, before: Option<usize>)
    requires { IfSome edge (λ k. k < length slots.old) }
    ensures { slots.new ≡ with_before edge before slots.old }
{
    let Some(edge) = edge else {
        return;
    };
    if let Some(links) = slots[edge] {
        slots[edge] = Some(Links {
            before,
            after: links.after,
        });
    }
}

#[cfg(test)]
mod tests {
    use super::*;
    use std::test::Fail;

    #[test]
    fn edges_come_back_in_order(rt: HostRuntime) -> Result<(), Fail> {
        let mut work = WorkList::new(rt.alloc(), 10)?;
        let told = [
            work.insert(5),
            work.insert(2),
            work.insert(9),
            work.insert(2),
        ];
        assert_eq!(rt; told, [true, true, true, false]);
        assert_eq!(rt; [work.holds(9), work.holds(3)], [true, false]);
        let popped = [
            work.pop_first(),
            work.pop_first(),
            work.pop_first(),
            work.pop_first(),
        ];
        assert_eq!(rt; popped, [Some(2), Some(5), Some(9), None]);
        Ok(())
    }
}
