ghost use Rattle.std.specs.Prelude.{◌≡◌, ℕ, ◌+◌, ◌-◌, ◌<◌, ◌≤◌, List, length, take, Option, IfOk, IsOkAnd, OnOk, OnErr};
ghost use Rattle.dc_host.specs.Outside.{Rose, appended};

use thiserror::Error;

/// A sink took nothing of a piece, and has counted a fault.
#[derive(Debug, Drop, Error)]
#[error("the bytes were not taken")]
pub struct SinkFailed;

/// Where bytes go.
///
/// A sink has two meanings that contracts can name: the bytes written so far, where it tells them,
/// and a count of faults that never falls.
pub trait Sink {
    // The bytes written so far, where they are told.
    ghost written: { Self → Option (List ℕ) };
    // The faults so far.
    ghost faults: { Self → ℕ };

    /// Takes the first bytes of a piece, and answers how many: at least one where there is one.
    ///
    /// # Errors
    ///
    /// `SinkFailed` only where a fault was counted in this call, and then nothing was taken. An
    /// empty piece never fails.
    fn put(&mut self, bytes: &[u8]) -> Result<usize, SinkFailed>
        ensures within { IfOk result (λ k. k ≤ length bytes.now) }
        ensures some { IfOk result (λ k. 0 < length bytes.now → 0 < k) }
        ensures empty { length bytes.now ≡ 0 → IsOkAnd result (λ k. k ≡ 0) }
        ensures taken { IfOk result
            (λ k. written self.new ≡ appended (written self.old) (take k bytes.now)) }
        ensures kept { OnErr result (written self.new ≡ written self.old) }
        ensures later { faults self.old ≤ faults self.new }
        ensures failed { OnErr result (Rose (faults self.old) (faults self.new)) };
}

/// Puts all the bytes, piece by piece. It takes no memory.
///
/// # Errors
///
/// `SinkFailed` only where the sink counted a fault in this call: a proper prefix was taken.
pub fn put_all<O: Sink>(sink: &mut O, bytes: &[u8]) -> Result<(), SinkFailed>
    ensures taken { OnOk result (O.written sink.new ≡ appended (O.written sink.old) bytes.now) }
    ensures part { OnErr result
        ((k : ℕ) × (k < length bytes.now)
        × (O.written sink.new ≡ appended (O.written sink.old) (take k bytes.now))) }
    ensures later { O.faults sink.old ≤ O.faults sink.new }
    ensures failed { OnErr result (Rose (O.faults sink.old) (O.faults sink.new)) }
{
    let mut at = 0;
    while at < bytes.len() {
        at += sink.put(&bytes[at..])?;
    }
    Ok(())
}
