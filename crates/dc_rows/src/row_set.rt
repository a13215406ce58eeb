//! Rows without repeats.
ghost use Rattle.std.specs.Prelude.{◌≡◌, [], length, map, IfOk, OnOk};
ghost use Rattle.dc_rows.specs.Rows.{with_row};

use indexmap::IndexSet;
use sqlite_items::Items;
use std::alloc::{AllocError, Global};
use std::marker::Model;

/// Different rows in the order of their insertion, which contracts see as the list of their
/// coefficients.
pub(crate) struct RowSet {
    set: IndexSet<Vec<i64>>,
}

impl Model for RowSet {
    ghost use Rattle.std.specs.Prelude.{List, ℤ, map};

    ghost Value = { List (List ℤ) };

    ghost view = { λ s. map (λ v. v.items) s.set.keys };
}

impl Drop for RowSet {
    fn drop(self) {
        let RowSet { set: _set } = self;
    }
}

impl RowSet {
    pub(crate) fn new(alloc: Global) -> RowSet
        ensures { result ≡ [] }
    {
        RowSet {
            set: IndexSet::new(alloc),
        }
    }

    pub(crate) fn len(&self) -> usize
        ensures { result ≡ length self.now }
    {
        self.set.len()
    }

    /// Puts a new row last.
    pub(crate) fn insert(&mut self, row: Vec<i64>) -> Result<(), AllocError>
        ensures { OnOk result (self.new ≡ with_row self.old row.items) }
    {
        let _ = self.set.insert(row)?;
        Ok(())
    }

    pub(crate) fn into_items(self, alloc: Global) -> Result<Items<Items<i64>>, AllocError>
        ensures { IfOk result (λ rows. rows ≡ self) }
    {
        let RowSet { set } = self;
        let rows: Vec<Items<i64>> = set
            .into_iter()
            .map(|row| Items::from_vec(row))
            .collect(alloc)?;
        Ok(Items::from_vec(rows))
    }
}
