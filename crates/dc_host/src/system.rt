//! The real files and streams. What they hold no contract tells; what is done with the bytes that
//! they hand over and take is proved.
ghost use Rattle.std.specs.Prelude.{◌≡◌, ◌≢◌, ◌+◌, ◌-◌, ◌^◌, ◌<◌, ◌≤◌, length, take, IfOk, IfSome, IsOkAnd, IsErrOf, None, ⊤};
ghost use Rattle.dc_host.specs.Outside.{Rose, IsTextOf, faults_after, count_after};
ghost use Rattle.std.specs.Io.KnownBytes.{WriteAppends};
ghost use Rattle.std.specs.IoError.{error_kind};

use crate::{Sink, SinkFailed, Store, StoreFault};
use std::alloc::Global;
use std::io::{ErrorKind, Read, Write};
use std::rt::Files;
use std::{fs, io};

/// The files of the system. A missing file, a folder and a fault of the device are all `Failed`.
#[derive(Drop)]
pub struct FileStore<'a, R: Files> {
    rt: &'a R,
    faults: u64,
}

impl<'a, R: Files> FileStore<'a, R> {
    /// The files that this runtime opens. No fault is counted yet.
    pub fn new(rt: &'a R) -> FileStore<'a, R>
        ensures { result.faults ≡ 0 }
    {
        FileStore { rt, faults: 0 }
    }
}

impl<'a, R: Files> Store for FileStore<'a, R> {
    ghost files = { λ _. None };

    ghost faults = { λ s. s.faults };

    ghost call = { λ before name limit answer after. after.faults ≡ faults_after answer before.faults };

    fn fetch(&mut self, alloc: Global, name: &str, limit: usize) -> Result<Vec<u8>, StoreFault>
        requires { limit < 2 ^ 64 - 1 }
        ensures short { IfOk result (λ v. length v.items ≤ limit + 1) }
        ensures told { ¬ IsErrOf result StoreFault.Missing }
        ensures count { self.new.faults ≡ faults_after result self.old.faults }
        ensures text { IfOk result (λ v. IsTextOf None name.now limit v.items) }
        ensures later { self.old.faults ≤ self.new.faults }
        ensures failed { IsErrOf result StoreFault.Failed → Rose self.old.faults self.new.faults }
        ensures quiet { IsErrOf result StoreFault.Missing → self.new.faults ≡ self.old.faults }
    {
        match read_start(self.rt, alloc, name, limit) {
            Ok(text) => Ok(text),
            Err(Unread::NoMemory) => Err(StoreFault::NoMemory),
            Err(Unread::Failed) => {
                self.faults = self.faults.saturating_add(1);
                Err(StoreFault::Failed)
            }
        }
    }
}

/// Why a reader handed out no text.
#[derive(Debug, Drop)]
pub enum Unread {
    Failed,
    NoMemory,
}

// Want of memory in the system is no fault of the file.
fn cause_of(e: io::Error) -> Unread
    ensures memory { error_kind e ≡ ErrorKind.OutOfMemory → result ≡ Unread.NoMemory }
    ensures other { error_kind e ≢ ErrorKind.OutOfMemory → result ≡ Unread.Failed }
{
    if e.kind() == ErrorKind::OutOfMemory {
        Unread::NoMemory
    } else {
        Unread::Failed
    }
}

const CHUNK: usize = 4096;

// The first `limit + 1` bytes of a file, or all where it is shorter.
fn read_start<R: Files>(rt: &R, alloc: Global, name: &str, limit: usize) -> Result<Vec<u8>, Unread>
    requires { limit < 2 ^ 64 - 1 }
    ensures { IfOk result (λ v. length v.items ≤ limit + 1) }
{
    let mut file = match fs::open(rt, name) {
        Ok(file) => file,
        Err(e) => return Err(cause_of(e)),
    };
    read_from(&mut file, alloc, limit)
}

/// The first `limit + 1` bytes that a reader has, or all where they are fewer. Each turn takes at
/// least one.
pub fn read_from<F: Read>(file: &mut F, alloc: Global, limit: usize) -> Result<Vec<u8>, Unread>
    requires { limit < 2 ^ 64 - 1 }
    ensures short { IfOk result (λ v. length v.items ≤ limit + 1) }
    ensures bytes { IfOk result
        (λ v. IfSome (F.remaining file.old) (λ xs. v.items ≡ take (limit + 1) xs)) }
{
    let mut text = Vec::new(alloc);
    let mut chunk = [0u8; CHUNK];
    while text.len() <= limit {
        let want = (limit + 1 - text.len()).min(CHUNK);
        match file.read(&mut chunk[..want]) {
            Ok(0) => return Ok(text),
            Ok(n) => {
                if text.extend_from_slice(&chunk[..n]).is_err() {
                    return Err(Unread::NoMemory);
                }
            }
            Err(e) => return Err(cause_of(e)),
        }
    }
    Ok(text)
}

/// Standard output or standard error.
#[derive(Drop)]
pub struct StdSink<W: Write + Drop> {
    writer: W,
    faults: u64,
}

impl<W: Write + Drop> StdSink<W> {
    /// A sink over this stream. No fault is counted yet.
    pub fn new(writer: W) -> StdSink<W>
        ensures { result.faults ≡ 0 }
    {
        StdSink { writer, faults: 0 }
    }
}

impl<W: Write + Drop> Sink for StdSink<W> {
    ghost written = { λ _. None };

    ghost faults = { λ s. s.faults };

    /// Writes once. A write of no byte of a piece that has some is a fault.
    fn put(&mut self, bytes: &[u8]) -> Result<usize, SinkFailed>
        ensures within { IfOk result (λ k. k ≤ length bytes.now) }
        ensures some { IfOk result (λ k. 0 < length bytes.now → 0 < k) }
        ensures empty { length bytes.now ≡ 0 → IsOkAnd result (λ k. k ≡ 0) }
        ensures count { self.new.faults ≡ count_after result self.old.faults }
        ensures bytes { WriteAppends (W.contents self.old.writer)
            (W.contents self.new.writer) result bytes.now }
        ensures later { self.old.faults ≤ self.new.faults }
    {
        if bytes.is_empty() {
            return Ok(0);
        }
        match self.writer.write(bytes) {
            Ok(k) if k > 0 => Ok(k),
            _ => {
                self.faults = self.faults.saturating_add(1);
                Err(SinkFailed)
            }
        }
    }
}
