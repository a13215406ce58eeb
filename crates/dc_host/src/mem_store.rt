//! A store in memory, with faults on demand.
ghost use Rattle.std.specs.Prelude.{◌≡◌, ℕ, ◌+◌, ◌-◌, ◌^◌, ◌<◌, ◌≤◌, [], ◌∷◌, ◌++◌, Some, IfOk, OnOk, OnErr, IsErrOf};
ghost use Rattle.dc_host.specs.Outside.{Rose, IsTextOf, IsAbsent, counted, is_listed, faults_after};
ghost use Rattle.dc_host.specs.Shelf.{shelf_of, IsEmptyShelf, Sets, IsSame, IsFetched};

use crate::{Store, StoreFault};
use std::alloc::{AllocError, Global};
use std::collections::BTreeMap;

/// Files in memory.
///
/// The calls of `fetch` are counted from 1, whatever they answer. The counts of calls and of
/// faults stay at 2^64 - 1 once they are there.
#[derive(Drop)]
pub struct MemStore {
    alloc: Global,
    files: BTreeMap<String, Vec<u8>>,
    failing: Vec<u64>,
    calls: u64,
    faults: u64,
}

impl MemStore {
    /// A store without files that fails at no call.
    pub fn new(alloc: Global) -> MemStore
        ensures { IsEmptyShelf (shelf_of result) }
    {
        MemStore {
            alloc,
            files: BTreeMap::new(alloc),
            failing: Vec::new(alloc),
            calls: 0,
            faults: 0,
        }
    }

    /// Sets the bytes of one file. The other files stay.
    ///
    /// # Errors
    ///
    /// `AllocError` where memory ran out. The store is as before.
    pub fn add(&mut self, name: &str, bytes: &[u8]) -> Result<(), AllocError>
        ensures set { OnOk result (Sets (shelf_of self.old) (shelf_of self.new) name.now bytes.now) }
        ensures kept { OnErr result (IsSame (shelf_of self.old) (shelf_of self.new)) }
    {
        let key = String::from_str(self.alloc, name)?;
        let bytes = Vec::from_slice(self.alloc, bytes)?;
        self.files.insert(key, bytes)?;
        Ok(())
    }

    /// Lets the call of `fetch` with this number fail, whatever it asks for.
    ///
    /// # Errors
    ///
    /// `AllocError` where memory ran out. The store is as before.
    pub fn fail_at(&mut self, call: u64) -> Result<(), AllocError>
        ensures added { OnOk result
            (shelf_of self.new ≡ record
            (shelf_of self.old) { failing = (shelf_of self.old).failing ++ call ∷ [] }) }
        ensures kept { OnErr result (shelf_of self.new ≡ shelf_of self.old) }
    {
        self.failing.push(call)?;
        Ok(())
    }

    /// How many calls were answered `Failed`.
    pub fn faults(&self) -> u64
        ensures { result ≡ (shelf_of self.now).faults }
    {
        self.faults
    }
}

impl Store for MemStore {
    ghost files = { λ s. Some (shelf_of s).files };

    ghost faults = { λ s. (shelf_of s).faults };

    ghost call = { λ before name limit answer after. IsFetched (shelf_of before) name limit answer };

    fn fetch(&mut self, alloc: Global, name: &str, limit: usize) -> Result<Vec<u8>, StoreFault>
        requires { limit < 2 ^ 64 - 1 }
        // A listed call fails. Another one hands out the file, or says that it is missing.
        ensures answer { IsFetched (shelf_of self.old) name.now limit result }
        // The call and its fault were counted, and all else stays.
        ensures counts { shelf_of self.new
            ≡ record (shelf_of self.old) {
              calls = counted (shelf_of self.old).calls;
              faults = faults_after result (shelf_of self.old).faults;
            } }
        ensures later { (shelf_of self.old).faults ≤ (shelf_of self.new).faults }
    {
        self.calls = self.calls.saturating_add(1);
        if self.failing.contains(&self.calls) {
            self.faults = self.faults.saturating_add(1);
            return Err(StoreFault::Failed);
        }
        let Some(text) = self.files.get(name) else {
            return Err(StoreFault::Missing);
        };
        let end = text.len().min(limit + 1);
        match Vec::from_slice(alloc, &text[..end]) {
            Ok(part) => Ok(part),
            Err(_) => Err(StoreFault::NoMemory),
        }
    }
}
