//! Pairs of a table of seeds. The costs were worked out by hand, from the numbers that follow each
//! seed.
use crate::{Pair, sample_pair};
use std::alloc::{AllocError, Global};
use std::process::Abort;
use std::test::Fail;

// A seed, a count, the costs of each version in order, and how many bytes each source has.
type Row = (u32, u32, &'static str, &'static str, usize);

const PAIRS: [Row; 5] = [
    (0, 1, "1", "4", 65),
    (1, 1, "9", "8", 65),
    (1, 2, "97", "82", 109),
    (65536, 3, "865", "693", 153),
    (2147483647, 8, "98295345", "97369258", 373),
];

const SHORT: &[u8] = b"proc s(n) {\nvar i;\ni = 0;\nwhile (i < n) {\ntick 4;\ni = i + 1;\n}\n}\n";

// The source whose loops have these digits as costs.
fn source(alloc: Global, digits: &str) -> Result<Vec<u8>, AllocError> {
    let mut text = Vec::from_slice(alloc, b"proc s(n) {\nvar i;\n")?;
    for digit in digits.as_bytes() {
        text.extend_from_slice(b"i = 0;\nwhile (i < n) {\ntick ")?;
        text.push(*digit)?;
        text.extend_from_slice(b";\ni = i + 1;\n}\n")?;
    }
    text.extend_from_slice(b"}\n")?;
    Ok(text)
}

fn make_pair(rt: &impl Abort, alloc: Global, seed: u32, count: u32) -> Result<Pair, Fail> {
    assert!(rt; seed <= 2147483647);
    assert!(rt; 1 <= count && count <= 8);
    Ok(sample_pair(alloc, seed, count)?)
}

#[test]
fn pairs_of_a_table_of_seeds(rt: HostRuntime) -> Result<(), Fail> {
    let alloc = rt.alloc();
    for (seed, count, new, old, bytes) in PAIRS.iter() {
        let pair = make_pair(&rt, alloc, *seed, *count)?;
        assert!(rt; pair.new_text == source(alloc, new)?);
        assert!(rt; pair.old_text == source(alloc, old)?);
        assert!(rt; pair.new_text.len() == *bytes);
        assert!(rt; pair.old_text.len() == *bytes);
    }
    Ok(())
}

#[test]
fn a_whole_text(rt: HostRuntime) -> Result<(), Fail> {
    let pair = make_pair(&rt, rt.alloc(), 0, 1)?;
    assert!(rt; pair.old_text.as_slice() == SHORT);
    Ok(())
}
