ghost use Rattle.std.specs.Prelude.{◌≡◌, ℕ, ◌+◌, ◌-◌, ◌^◌, ◌<◌, ◌≤◌, List, Option, IfOk, IsErrOf};
ghost use Rattle.dc_host.specs.Outside.{Rose, Files, Answer, IsTextOf, IsAbsent};

use std::alloc::Global;
use thiserror::Error;

/// Why a store handed out no text.
#[derive(Debug, Drop, Error)]
pub enum StoreFault {
    /// The store tells its files, and none has the name.
    #[error("no such file")]
    Missing,
    /// The file could not be read. The store has counted a fault.
    #[error("the file could not be read")]
    Failed,
    /// Memory ran out.
    #[error("no memory")]
    NoMemory,
}

/// Where texts come from.
///
/// A store has three meanings that contracts can name: its files, where it tells them, a count of
/// faults that never falls, and which calls it answers how. Code over any store knows of the last
/// only what it called, so a contract can say which names were asked for, in which order, and what
/// was answered, also over a store that tells no files.
pub trait Store {
    // The files, where they are told.
    ghost files: { Self → Option Files };
    // The faults so far.
    ghost faults: { Self → ℕ };
    // One call of `fetch`: the store before it, the name, the limit, the answer, the store after it.
    ghost call: { Self → List ℕ → ℕ → Answer → Self → Type 0 };

    /// Hands out the first `limit + 1` bytes of a file, or all of it where it is shorter.
    ///
    /// More than `limit` bytes show that the file is too long. The files stay as they were.
    ///
    /// # Errors
    ///
    /// `Missing` only where the files are told and none has the name, and then no fault is counted.
    /// `Failed` only where a fault was counted in this call. `NoMemory` where memory ran out.
    fn fetch(&mut self, alloc: Global, name: &str, limit: usize) -> Result<Vec<u8>, StoreFault>
        requires { limit < 2 ^ 64 - 1 }
        ensures files { files self.new ≡ files self.old }
        ensures call { call self.old name.now limit result self.new }
        ensures text { IfOk result (λ v. IsTextOf (files self.old) name.now limit v.items) }
        ensures later { faults self.old ≤ faults self.new }
        ensures failed { IsErrOf result StoreFault.Failed → Rose (faults self.old) (faults self.new) }
        ensures missing { IsErrOf result StoreFault.Missing → IsAbsent (files self.old) name.now }
        ensures quiet { IsErrOf result StoreFault.Missing → faults self.new ≡ faults self.old };
}
