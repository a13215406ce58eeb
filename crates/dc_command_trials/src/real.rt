//! A command over real files.
use crate::runs::words_of;
use dc_cli::top;
use dc_host::{FileStore, MemSink};
use dc_sparse::Cross;
use std::fs;
use std::test::Fail;

#[test]
fn two_real_files_are_analysed(rt: HostRuntime) -> Result<(), Fail> {
    let alloc = rt.alloc();
    let (new, old) = ("dc_command_trials_new.dc", "dc_command_trials_old.dc");
    fs::write(&rt, new, "proc f() { tick 5; skip; }\n")?;
    fs::write(&rt, old, "proc f() { tick 2; }\n")?;
    let words = words_of(alloc, &["analyse", new, old])?;
    let strange = words_of(alloc, &["analyse", new, "dc_command_trials_none.dc"])?;
    let mut store = FileStore::new(&rt);
    let mut out = MemSink::new(alloc, 4096, 64)?;
    let mut err = MemSink::new(alloc, 100, 64)?;
    let mut tableau = Cross::new(alloc);
    let status = top(alloc, &words, &mut store, &mut out, &mut err, &mut tableau);
    let missing = top(
        alloc,
        &strange,
        &mut store,
        &mut out,
        &mut err,
        &mut tableau,
    );
    fs::remove_file(&rt, new)?;
    fs::remove_file(&rt, old)?;
    assert_eq!(rt; status, 0);
    assert!(rt;
        out.bytes()
            .starts_with(b"threshold 3\nwhole 3\ndiffcost 2\n".as_slice())
    );
    assert_eq!(rt; missing, 8);
    assert!(rt; err.bytes() == b"read fault: dc_command_trials_none.dc\n".as_slice());
    Ok(())
}
