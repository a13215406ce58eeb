//! A store and a sink that never fail.
ghost use Rattle.std.specs.Prelude.{◌≡◌, ℕ, ◌+◌, ◌-◌, ◌^◌, ◌<◌, length, take, None, IfOk, IsOkAnd, MatchResult};

use crate::{Sink, SinkFailed, Store, StoreFault};
use std::alloc::{AllocError, Global};
use std::marker::Model;

/// One text, which is handed out under every name. Which files there are is not told.
#[derive(Drop)]
pub struct SureStore {
    text: Vec<u8>,
}

impl Model for SureStore {
    ghost use Rattle.std.specs.Prelude.{ℕ, List};

    ghost Value = { List ℕ };

    ghost view = { λ s. s.text.items };
}

impl SureStore {
    /// A store of this text.
    ///
    /// # Errors
    ///
    /// `AllocError` where memory ran out.
    pub fn new(alloc: Global, text: &[u8]) -> Result<SureStore, AllocError>
        ensures { IfOk result (λ s. s ≡ text.now) }
    {
        Ok(SureStore {
            text: Vec::from_slice(alloc, text)?,
        })
    }
}

impl Store for SureStore {
    ghost use Rattle.dc_host.specs.declared.store.StoreFault.{StoreFault};

    ghost files = { λ _. None };

    ghost faults = { λ _. 0 };

    ghost call = { λ before name limit answer after. MatchResult answer
        (λ v. v.items ≡ take (limit + 1) before) (λ e. e ≡ StoreFault.NoMemory) };

    /// Hands out the first `limit + 1` bytes of the text, whatever the name is.
    fn fetch(&mut self, alloc: Global, name: &str, limit: usize) -> Result<Vec<u8>, StoreFault>
        requires { limit < 2 ^ 64 - 1 }
        ensures answer { MatchResult result (λ v. v.items ≡ take (limit + 1) self.old)
            (λ e. e ≡ StoreFault.NoMemory) }
        ensures stays { self.new ≡ self.old }
    {
        let end = self.text.len().min(limit + 1);
        match Vec::from_slice(alloc, &self.text[..end]) {
            Ok(part) => Ok(part),
            Err(_) => Err(StoreFault::NoMemory),
        }
    }
}

/// A sink that takes every piece whole and keeps nothing.
#[derive(Debug, Drop)]
pub struct SureSink;

impl SureSink {
    /// A sink. It takes no memory.
    pub fn new() -> SureSink {
        SureSink
    }
}

impl Sink for SureSink {
    ghost written = { λ _. None };

    ghost faults = { λ _. 0 };

    fn put(&mut self, bytes: &[u8]) -> Result<usize, SinkFailed>
        ensures all { IsOkAnd result (λ k. k ≡ length bytes.now) }
    {
        Ok(bytes.len())
    }
}
