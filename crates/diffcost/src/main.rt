//! `diffcost` bounds how much dearer the new version of a program can be than the old one.
//!
//! The program is [`dc_cli::top`] over the real files and streams. It ends with the status of that
//! call; where the words of the command line cannot be had it ends with 10, for want of memory, or
//! with 14, and writes nothing.
#![tactic(auto)]

use dc_cli::top;
use dc_host::{FileStore, StdSink};
use dc_sparse::Cross;
use std::process::ExitCode;
use std::{env, io};

const NO_MEMORY: u8 = 10;

const NO_WORDS: u8 = 14;

fn main(rt: HostRuntime) -> ExitCode {
    let words = match words(&rt) {
        Ok(words) => words,
        Err(e) if e.kind() == io::ErrorKind::OutOfMemory => return ExitCode::from(NO_MEMORY),
        Err(_) => return ExitCode::from(NO_WORDS),
    };
    let mut store = FileStore::new(&rt);
    let mut out = StdSink::new(rt.stdout());
    let mut err = StdSink::new(rt.stderr());
    let mut tableau = Cross::new(rt.alloc());
    let status = top(
        rt.alloc(),
        &words,
        &mut store,
        &mut out,
        &mut err,
        &mut tableau,
    );
    ExitCode::from(status)
}

/// The words after the program's name.
fn words(rt: &HostRuntime) -> io::Result<Vec<String>> {
    let mut words = Vec::new(rt.alloc());
    for word in env::args(rt)?.skip(1) {
        words.push(word)?;
    }
    Ok(words)
}
