//! Sparse vectors of fractions.
ghost use Rattle.std.specs.Prelude.{ℕ, ◌≡◌, ◌≤◌, ◌<◌, ◌↔◌, length, slice_index_or, All, IfOk, IsTrue};
ghost use Rattle.dc_frac.specs.declared.Frac.{Frac as Fraction};
ghost use Rattle.dc_frac.specs.Fits.{IsSmall};
ghost use Rattle.dc_frac.specs.Value.{value};
ghost use Rattle.dc_cert.specs.Vectors.{IsBelow, IsDense, IsVector, entry_of, in_range, nonzero_from};

use dc_frac::Frac;
use sqlite_items::Items;
use std::alloc::{AllocError, Global};

/// One entry of a vector: its index and its value.
#[derive(Clone, Copy, Debug, PartialEq, Eq)]
pub struct Item {
    pub index: usize,
    pub value: Frac,
}

/// The entries of a vector that are not 0, by rising index.
#[derive(Debug, Drop)]
pub struct Sparse {
    pub items: Items<Item>,
}

impl Sparse {
    /// Whether each index is below a number.
    pub fn is_below(&self, len: usize) -> bool
        ensures each { IsTrue result ↔ All (IsBelow len) self.now.items }
        ensures test { result ≡ in_range len self.now }
    {
        self.items.as_slice().iter().all(|item| item.index < len)
    }

    /// A copy.
    pub fn copy(&self, alloc: Global) -> Result<Sparse, AllocError>
        ensures { IfOk result (λ s. s ≡ self.now) }
    {
        let items = Vec::from_slice(alloc, self.items.as_slice())?;
        Ok(Sparse {
            items: Items::from_vec(items),
        })
    }
}

// An item, whose parts have the sizes of their types.
fn entry(index: usize, value: &Frac) -> Item
    ensures item { result ≡ record { index = index; value = value.now } }
    ensures small { IsSmall value.now.den }
{
    let _den = value.den;
    Item {
        index,
        value: *value,
    }
}

/// The values of a vector that are not 0, each with its index.
pub fn sparse_of(alloc: Global, v: &[Frac]) -> Result<Sparse, AllocError>
    ensures items { IfOk result (λ s. s.items ≡ nonzero_from 0 v.now) }
    ensures vector { IfOk result (λ s. length v.now ≤ 8192 → IsVector s) }
{
    let mut items = Items::new(alloc);
    for (index, value) in v.iter().enumerate() {
        if !value.is_zero() {
            items.push(entry(index, value))?;
        }
    }
    Ok(Sparse { items })
}

/// The whole vector of a sparse one, whose indices are below its length: 0 where there is no item.
pub fn dense_of(alloc: Global, s: &Sparse, len: usize) -> Result<Vec<Frac>, AllocError>
    requires { All (IsBelow len) s.now.items }
    ensures { IfOk result (λ v. IsDense len s.now v.items) }
{
    let mut list = Vec::new(alloc);
    for _k in 0..len {
        list.push(Frac::whole(0))?;
    }
    for item in s.items.as_slice() {
        list[item.index] = item.value;
    }
    Ok(list)
}
