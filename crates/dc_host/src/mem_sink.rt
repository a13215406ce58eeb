//! A sink of limited room that takes pieces, with faults on demand.
ghost use Rattle.std.specs.Prelude.{◌≡◌, ℕ, ◌+◌, ◌-◌, ◌<◌, ◌≤◌, [], ◌∷◌, ◌++◌, length, take, Some, true, false, IfOk, IsOkAnd, OnOk, OnErr, IsErr};
ghost use Rattle.dc_host.specs.Outside.{Rose, appended, counted};
ghost use Rattle.dc_host.specs.Held.{Held, share, refuses};

use crate::{Sink, SinkFailed};
use std::alloc::{AllocError, Global};
use std::marker::Model;

/// A sink in memory.
///
/// The calls of `put` are counted from 1, whatever they answer. The counts of calls and of faults
/// stay at 2^64 - 1 once they are there.
#[derive(Drop)]
pub struct MemSink {
    bytes: Vec<u8>,
    room: usize,
    piece: usize,
    failing: Vec<u64>,
    calls: u64,
    faults: u64,
}

impl Model for MemSink {
    ghost use Rattle.std.specs.Prelude.{◌≤◌, ◌<◌, length, vec_capacity};
    ghost use Rattle.dc_host.specs.Held.{Held};

    ghost Value = { Held };

    ghost view = { λ s. record {
      bytes = s.bytes.items;
      room = s.room;
      piece = s.piece;
      failing = s.failing.items;
      calls = s.calls;
      faults = s.faults;
    } };

    ghost invariant = { λ s. (length s.bytes.items ≤ s.room) × (s.room ≤ vec_capacity s.bytes)
        × (0 < s.piece) };
}

impl MemSink {
    /// An empty sink that takes at most `room` bytes, and at most `piece` of them a call. It takes
    /// the memory for all of them at once.
    ///
    /// # Errors
    ///
    /// `AllocError` where memory ran out.
    pub fn new(alloc: Global, room: usize, piece: usize) -> Result<MemSink, AllocError>
        requires { 0 < piece }
        ensures { IfOk result
            (λ s. s ≡ record {
              bytes = [];
              room = room;
              piece = piece;
              failing = [];
              calls = 0;
              faults = 0;
            }) }
    {
        Ok(MemSink {
            bytes: Vec::with_capacity(alloc, room)?,
            room,
            piece,
            failing: Vec::new(alloc),
            calls: 0,
            faults: 0,
        })
    }

    /// Lets the call of `put` with this number fail, unless its piece is empty.
    ///
    /// # Errors
    ///
    /// `AllocError` where memory ran out. The sink is as before.
    pub fn fail_at(&mut self, call: u64) -> Result<(), AllocError>
        ensures added { OnOk result
            (self.new ≡ record self.old { failing = self.old.failing ++ call ∷ [] }) }
        ensures kept { OnErr result (self.new ≡ self.old) }
    {
        self.failing.push(call)?;
        Ok(())
    }

    /// How many calls failed.
    pub fn faults(&self) -> u64
        ensures { result ≡ self.now.faults }
    {
        self.faults
    }

    /// The bytes written so far.
    pub fn bytes(&self) -> &[u8]
        ensures { result.now ≡ self.now.bytes }
    {
        self.bytes.as_slice()
    }

    // Whether the next call fails: no room is left, or the call is listed.
    fn refuses(&self) -> bool
        ensures { result ≡ refuses self.now }
    {
        let call = self.calls.saturating_add(1);
        self.room <= self.bytes.len() || self.failing.contains(&call)
    }
}

impl Sink for MemSink {
    ghost written = { λ s. Some s.bytes };

    ghost faults = { λ s. s.faults };

    /// Takes the least of `piece`, the room left and the length of the bytes. It takes no memory.
    fn put(&mut self, bytes: &[u8]) -> Result<usize, SinkFailed>
        // An empty piece is taken at every call, and only the call is counted.
        ensures nothing { length bytes.now ≡ 0 → IsOkAnd result (λ k. k ≡ 0)
            × (self.new ≡ record self.old { calls = counted self.old.calls }) }
        // A listed call, and one without room, takes nothing, and is a counted fault.
        ensures refused { 0 < length bytes.now → refuses self.old ≡ true → IsErr result
            × (self.new ≡ record self.old {
              calls = counted self.old.calls;
              faults = counted self.old.faults;
            }) }
        // Each other call takes its share.
        ensures shared { 0 < length bytes.now → refuses self.old ≡ false
            → IsOkAnd result (λ k. k ≡ share self.old bytes.now)
            × (self.new ≡ record self.old {
              bytes = self.old.bytes
                  ++ take (share self.old bytes.now) bytes.now;
              calls = counted self.old.calls;
            }) }
        ensures some { IfOk result (λ k. 0 < length bytes.now → 0 < k) }
        ensures later { self.old.faults ≤ self.new.faults }
    {
        let refuses = self.refuses();
        self.calls = self.calls.saturating_add(1);
        if bytes.is_empty() {
            return Ok(0);
        }
        if refuses {
            self.faults = self.faults.saturating_add(1);
            return Err(SinkFailed);
        }
        let left = self.room - self.bytes.len();
        let count = self.piece.min(left.min(bytes.len()));
        self.bytes.extend_from_slice(&bytes[..count]).unwrap();
        Ok(count)
    }
}
