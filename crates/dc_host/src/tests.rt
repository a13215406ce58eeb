use super::*;
use crate::system::{Unread, read_from};
use std::alloc::Global;
use std::io::{Read, Write};
use std::test::Fail;
use std::{fs, io};

// Whether a call handed out exactly these bytes.
fn is_text(answer: Result<Vec<u8>, StoreFault>, bytes: &[u8]) -> bool {
    match answer {
        Ok(text) => text.as_slice() == bytes,
        Err(_) => false,
    }
}

fn is_failed(answer: Result<Vec<u8>, StoreFault>) -> bool {
    matches!(answer, Err(StoreFault::Failed))
}

#[test]
fn a_store_in_memory(rt: HostRuntime) -> Result<(), Fail> {
    let alloc = rt.alloc();
    let mut store = MemStore::new(alloc);
    store.add("a", b"abc")?;
    store.add("b", b"")?;
    store.add("a", b"abcd")?;
    store.fail_at(4)?;
    assert!(rt;
        is_text(store.fetch(alloc, "a", 2), b"abc"),
        "limit 2 hands out three bytes"
    );
    assert!(rt;
        is_text(store.fetch(alloc, "a", 4), b"abcd"),
        "the whole file"
    );
    assert!(rt;
        matches!(
            store.fetch(alloc, "missing.dc", 9),
            Err(StoreFault::Missing)
        )
    );
    assert!(rt; store.faults() == 0);
    assert!(rt;
        is_failed(store.fetch(alloc, "missing.dc", 9)),
        "the fourth call is listed"
    );
    assert!(rt; store.faults() == 1);
    assert!(rt; is_text(store.fetch(alloc, "b", 0), b""));
    assert!(rt; store.faults() == 1);
    Ok(())
}

#[test]
fn a_sink_in_memory(rt: HostRuntime) -> Result<(), Fail> {
    let mut sink = MemSink::new(rt.alloc(), 10, 4)?;
    sink.fail_at(2)?;
    sink.fail_at(3)?;
    assert!(rt;
        put_all(&mut sink, b"threshold 3\n").is_err(),
        "the second call is listed"
    );
    assert!(rt; sink.bytes() == b"thre".as_slice());
    assert!(rt; sink.faults() == 1);
    assert!(rt;
        matches!(sink.put(b""), Ok(0)),
        "an empty piece is taken at a listed call"
    );
    assert!(rt; put_all(&mut sink, b"shold ").is_ok());
    assert!(rt; sink.bytes() == b"threshold ".as_slice());
    assert!(rt; sink.put(b"3").is_err(), "no room is left");
    assert!(rt; sink.faults() == 2);
    Ok(())
}

#[test]
fn the_sure_ones(rt: HostRuntime) -> Result<(), Fail> {
    let alloc = rt.alloc();
    let mut store = SureStore::new(alloc, b"proc f(n) { }")?;
    assert!(rt; is_text(store.fetch(alloc, "any", 3), b"proc"));
    assert!(rt; is_text(store.fetch(alloc, "other", 99), b"proc f(n) { }"));
    let mut sink = SureSink::new();
    assert!(rt; matches!(sink.put(b"abc"), Ok(3)));
    Ok(())
}

#[test]
fn real_files(rt: HostRuntime) -> Result<(), Fail> {
    let alloc = rt.alloc();
    let name = "dc_host_real_files.txt";
    fs::write(&rt, name, "proc f() { tick 5; }\n")?;
    let mut store = FileStore::new(&rt);
    let whole = store.fetch(alloc, name, 65536);
    let start = store.fetch(alloc, name, 3);
    fs::remove_file(&rt, name)?;
    assert!(rt; is_text(whole, b"proc f() { tick 5; }\n"));
    assert!(rt; is_text(start, b"proc"));
    assert!(rt; is_failed(store.fetch(alloc, name, 9)), "the file is gone");
    assert!(rt; is_failed(store.fetch(alloc, ".", 9)), "a folder");
    assert!(rt; is_failed(store.fetch(alloc, "", 9)), "no name");
    Ok(())
}

#[test]
fn a_real_stream(rt: HostRuntime) {
    let mut sink = StdSink::new(rt.stdout());
    assert!(rt; put_all(&mut sink, b"threshold 3\n").is_ok());
    assert!(rt; matches!(sink.put(b""), Ok(0)));
}

// Takes at most so many bytes a call, and holds them.
#[derive(Drop)]
struct Narrow {
    taken: Vec<u8>,
    most: usize,
}

impl Write for Narrow {
    fn write(&mut self, bytes: &[u8]) -> io::Result<usize> {
        let count = self.most.min(bytes.len());
        self.taken.extend_from_slice(&bytes[..count])?;
        Ok(count)
    }

    fn flush(&mut self) -> io::Result<()> {
        Ok(())
    }
}

fn stream_of(alloc: Global, most: usize) -> Narrow {
    Narrow {
        taken: Vec::new(alloc),
        most,
    }
}

#[test]
fn a_stream_of_single_bytes(rt: HostRuntime) {
    let mut stream = stream_of(rt.alloc(), 1);
    {
        let mut sink = StdSink::new(&mut stream);
        assert!(rt; matches!(sink.put(b"threshold"), Ok(1)));
        assert!(rt; put_all(&mut sink, b"hreshold 3\n").is_ok());
    }
    assert!(rt; stream.taken.as_slice() == b"threshold 3\n".as_slice());
}

#[test]
fn a_stream_that_takes_nothing(rt: HostRuntime) {
    let mut stream = stream_of(rt.alloc(), 0);
    {
        let mut sink = StdSink::new(&mut stream);
        assert!(rt; matches!(sink.put(b""), Ok(0)));
        assert!(rt; put_all(&mut sink, b"threshold 3\n").is_err());
    }
    assert!(rt; stream.taken.is_empty());
}

// Gives one byte a call, and then `end`.
#[derive(Drop)]
struct Dribbles {
    bytes: &'static [u8],
    end: Option<io::ErrorKind>,
}

impl Read for Dribbles {
    fn read(&mut self, room: &mut [u8]) -> io::Result<usize> {
        if self.bytes.is_empty() {
            return match self.end {
                Some(kind) => Err(io::Error::from(kind)),
                None => Ok(0),
            };
        }
        if room.is_empty() {
            return Ok(0);
        }
        room[0] = self.bytes[0];
        self.bytes = &self.bytes[1..];
        Ok(1)
    }
}

// Whether a reader gave exactly these bytes.
fn gives(read: Result<Vec<u8>, Unread>, bytes: &[u8]) -> bool {
    match read {
        Ok(found) => found.as_slice() == bytes,
        Err(_) => false,
    }
}

fn wants_memory(read: Result<Vec<u8>, Unread>) -> bool {
    matches!(read, Err(Unread::NoMemory))
}

fn dribble(end: Option<io::ErrorKind>) -> Dribbles {
    Dribbles {
        bytes: b"proc f() { }",
        end,
    }
}

#[test]
fn a_reader_of_single_bytes(rt: HostRuntime) {
    let alloc = rt.alloc();
    let mut reader = dribble(None);
    assert!(rt; gives(read_from(&mut reader, alloc, 4), b"proc "));
    assert!(rt;
        gives(read_from(&mut reader, alloc, 6), b"f() { }"),
        "limit + 1 are left"
    );
    assert!(rt;
        gives(read_from(&mut reader, alloc, 6), b""),
        "none is left"
    );
    let mut reader = dribble(None);
    assert!(rt; gives(read_from(&mut reader, alloc, 99), b"proc f() { }"));
}

#[test]
fn a_reader_that_fails(rt: HostRuntime) {
    let alloc = rt.alloc();
    let mut reader = dribble(Some(io::ErrorKind::OutOfMemory));
    assert!(rt; wants_memory(read_from(&mut reader, alloc, 99)));
    let mut reader = dribble(Some(io::ErrorKind::BrokenPipe));
    assert!(rt; !wants_memory(read_from(&mut reader, alloc, 99)));
}

#[test]
fn a_file_at_the_limit(rt: HostRuntime) -> Result<(), Fail> {
    let alloc = rt.alloc();
    let name = "dc_host_at_the_limit.txt";
    let bytes = [b'x'; 5000];
    fs::write(&rt, name, &bytes[..])?;
    let mut store = FileStore::new(&rt);
    let past = store.fetch(alloc, name, 4999);
    let within = store.fetch(alloc, name, 5000);
    fs::remove_file(&rt, name)?;
    assert!(rt;
        is_text(past, &bytes),
        "limit + 1 bytes show that the file is too long"
    );
    assert!(rt; is_text(within, &bytes), "limit bytes");
    Ok(())
}
