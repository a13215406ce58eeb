//! The words for sites.
use dc_entail::Site;
use dc_syntax::Side;
use std::alloc::{AllocError, Global};
use std::test::Fail;

const NEW: Side = Side::New;

const OLD: Side = Side::Old;

fn reads(alloc: Global, site: Site, words: &str) -> Result<bool, AllocError> {
    let text = format!(in alloc; "{site}")?;
    Ok(text.as_str() == words)
}

#[test]
fn of_rounds(rt: HostRuntime) -> Result<(), Fail> {
    let side = NEW;
    let [row, edge] = [12, 7];
    let entry = Site::EntryRow { side, case: 0, row };
    let after = Site::EdgeRow { side, edge, row };
    let location = 2;
    let rows = [
        (Site::When { case: 3 }, "when 3"),
        (entry, "new entry case 0 row 12"),
        (Site::Edge { side: OLD, edge }, "old edge 7"),
        (after, "new edge 7 row 12"),
        (
            Site::Prune {
                side,
                location,
                row,
            },
            "new prune 2 row 12",
        ),
    ];
    for (site, words) in rows {
        assert!(rt; reads(rt.alloc(), site, words)?);
    }
    Ok(())
}

#[test]
fn of_keeps(rt: HostRuntime) -> Result<(), Fail> {
    let side = NEW;
    let [case, edge, atom] = [1, 10, 4];
    let rows = [
        (
            Site::KeptEntry { side, case, atom },
            "new kept entry case 1 atom 4",
        ),
        (Site::KeptEdge { side: OLD, edge: 0 }, "old kept edge 0"),
        (
            Site::KeptAtom { side, edge, atom },
            "new kept edge 10 atom 4",
        ),
        (Site::Exit { side: OLD }, "old exit"),
        (Site::Main, "main"),
    ];
    for (site, words) in rows {
        assert!(rt; reads(rt.alloc(), site, words)?);
    }
    Ok(())
}
