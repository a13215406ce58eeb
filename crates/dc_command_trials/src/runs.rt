//! A command over files and sinks in memory.
use dc_cli::top;
use dc_host::{MemSink, MemStore};
use dc_sparse::Cross;
use std::alloc::{AllocError, Global};

/// How a command ended: its status, and what stands in both sinks.
#[derive(Drop)]
pub struct Ended {
    pub status: u8,
    pub out: MemSink,
    pub err: MemSink,
}

/// The words of a command.
pub fn words_of(alloc: Global, words: &[&str]) -> Result<Vec<String>, AllocError> {
    let mut list = Vec::new(alloc);
    for word in words {
        list.push(String::from_str(alloc, word)?)?;
    }
    Ok(list)
}

/// Two sources as files.
pub fn sources(alloc: Global, new: &str, old: &str) -> Result<MemStore, AllocError> {
    let mut store = MemStore::new(alloc);
    store.add("new.dc", new.as_bytes())?;
    store.add("old.dc", old.as_bytes())?;
    Ok(store)
}

/// Runs a command over a store, with room for any output.
pub fn run(alloc: Global, words: &[&str], store: &mut MemStore) -> Result<Ended, AllocError> {
    let words = words_of(alloc, words)?;
    let mut out = MemSink::new(alloc, 65536, 4096)?;
    let mut err = MemSink::new(alloc, 1024, 64)?;
    let mut tableau = Cross::new(alloc);
    let status = top(alloc, &words, store, &mut out, &mut err, &mut tableau);
    Ok(Ended { status, out, err })
}
