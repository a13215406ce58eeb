//! Words of a command line that have a reading, and words that have none.
use dc_words::{WordsFault, read_words};
use std::alloc::{AllocError, Global};
use std::test::Fail;

// Words that have a reading, and the reading.
const TAKEN: [(&[&str], &str); 18] = [
    (
        &["analyse", "a", "b"],
        "Analyse { new_name: \"a\", old_name: \"b\", when: None, settings: Settings { degree: 2, products: 2, pairs: true, pivots: 100000 } }",
    ),
    (
        &[
            "analyse",
            "--degree",
            "0",
            "a",
            "--products=1",
            "b",
            "--rows",
            "intervals",
            "--pivots",
            "1",
        ],
        "Analyse { new_name: \"a\", old_name: \"b\", when: None, settings: Settings { degree: 0, products: 1, pairs: false, pivots: 1 } }",
    ),
    (
        &[
            "analyse",
            "a",
            "b",
            "--degree=3",
            "--products",
            "3",
            "--rows=pairs",
            "--pivots",
            "1000000",
        ],
        "Analyse { new_name: \"a\", old_name: \"b\", when: None, settings: Settings { degree: 3, products: 3, pairs: true, pivots: 1000000 } }",
    ),
    (
        &["analyse", "a", "b", "--when", "0 <= n && n <= 9"],
        "Analyse { new_name: \"a\", old_name: \"b\", when: Some(\"0 <= n && n <= 9\"), settings: Settings { degree: 2, products: 2, pairs: true, pivots: 100000 } }",
    ),
    (
        &["analyse", "a", "b", "--when=-n >= 0"],
        "Analyse { new_name: \"a\", old_name: \"b\", when: Some(\"-n >= 0\"), settings: Settings { degree: 2, products: 2, pairs: true, pivots: 100000 } }",
    ),
    (
        &["analyse", "a", "b", "--when="],
        "Analyse { new_name: \"a\", old_name: \"b\", when: Some(\"\"), settings: Settings { degree: 2, products: 2, pairs: true, pivots: 100000 } }",
    ),
    (
        &["analyse", "--", "-a", "--degree"],
        "Analyse { new_name: \"-a\", old_name: \"--degree\", when: None, settings: Settings { degree: 2, products: 2, pairs: true, pivots: 100000 } }",
    ),
    (
        &["analyse", "", "b"],
        "Analyse { new_name: \"\", old_name: \"b\", when: None, settings: Settings { degree: 2, products: 2, pairs: true, pivots: 100000 } }",
    ),
    (
        &["analyse", "-", "help"],
        "Analyse { new_name: \"-\", old_name: \"help\", when: None, settings: Settings { degree: 2, products: 2, pairs: true, pivots: 100000 } }",
    ),
    (
        &["analyse", "a", "b", "--degree", "+3"],
        "Analyse { new_name: \"a\", old_name: \"b\", when: None, settings: Settings { degree: 3, products: 2, pairs: true, pivots: 100000 } }",
    ),
    (
        &["analyse", "a", "b", "--degree", "0003"],
        "Analyse { new_name: \"a\", old_name: \"b\", when: None, settings: Settings { degree: 3, products: 2, pairs: true, pivots: 100000 } }",
    ),
    (
        &["analyse", "a", "b", "--degree=-0"],
        "Analyse { new_name: \"a\", old_name: \"b\", when: None, settings: Settings { degree: 0, products: 2, pairs: true, pivots: 100000 } }",
    ),
    (
        &["analyse", "a", "b", "--pivots", "+0012"],
        "Analyse { new_name: \"a\", old_name: \"b\", when: None, settings: Settings { degree: 2, products: 2, pairs: true, pivots: 12 } }",
    ),
    (
        &["check", "a", "b", "c"],
        "Check { new_name: \"a\", old_name: \"b\", cert_name: \"c\", when: None }",
    ),
    (
        &["check", "--when", "n >= 0", "a", "b", "--", "c"],
        "Check { new_name: \"a\", old_name: \"b\", cert_name: \"c\", when: Some(\"n >= 0\") }",
    ),
    (&["sample", "0", "1"], "Sample { seed: 0, count: 1 }"),
    (
        &["sample", "2147483647", "8"],
        "Sample { seed: 2147483647, count: 8 }",
    ),
    (&["sample", "+07", "002"], "Sample { seed: 7, count: 2 }"),
];

// Words that have none.
const REFUSED: [&[&str]; 39] = [
    &[],
    &[""],
    &["help"],
    &["--help"],
    &["Analyse", "a", "b"],
    &["bound", "a"],
    &["analyse"],
    &["analyse", "a"],
    &["analyse", "a", "b", "c"],
    &["analyse", "-a", "b"],
    &["analyse", "a", "b", "--help"],
    &["analyse", "-h"],
    &["analyse", "a", "b", "--degree", "4"],
    &["analyse", "a", "b", "--degree", "-1"],
    &["analyse", "a", "b", "--degree=-1"],
    &["analyse", "a", "b", "--degree", "two"],
    &["analyse", "a", "b", "--degree="],
    &["analyse", "a", "b", "--degree"],
    &["analyse", "a", "b", "--products", "0"],
    &["analyse", "a", "b", "--products", "4"],
    &["analyse", "a", "b", "--pivots", "0"],
    &["analyse", "a", "b", "--pivots", "1000001"],
    &["analyse", "a", "b", "--pivots=-0"],
    &["analyse", "a", "b", "--pivots", "18446744073709551617"],
    &["analyse", "a", "b", "--rows", "both"],
    &["analyse", "a", "b", "--rows", "PAIRS"],
    &["analyse", "a", "b", "--row", "pairs"],
    &["analyse", "a", "b", "--when", "n > 0", "--when", "n > 0"],
    &["analyse", "a", "b", "--when"],
    &["analyse", "a", "b", "--when", "-n > 0"],
    &["check", "a", "b"],
    &["check", "a", "b", "c", "d"],
    &["check", "a", "b", "c", "--degree", "2"],
    &["sample", "1"],
    &["sample", "2147483648", "1"],
    &["sample", "-1", "1"],
    &["sample", "1", "0"],
    &["sample", "1", "9"],
    &["sample", "1", "2", "3"],
];

fn words_of(alloc: Global, words: &[&str]) -> Result<Vec<String>, AllocError> {
    let mut list = Vec::new(alloc);
    for word in words {
        list.push(String::from_str(alloc, word)?)?;
    }
    Ok(list)
}

#[test]
fn words_with_a_reading(rt: HostRuntime) -> Result<(), Fail> {
    let alloc = rt.alloc();
    for (words, reading) in TAKEN.iter() {
        let read = read_words(alloc, &words_of(alloc, words)?)?;
        let text = format!(in alloc; "{read:?}")?;
        assert!(rt; text.as_str() == *reading, "{words:?} reads as {text}");
    }
    Ok(())
}

#[test]
fn words_without_a_reading(rt: HostRuntime) -> Result<(), Fail> {
    let alloc = rt.alloc();
    for words in REFUSED.iter() {
        let is_usage = matches!(
            read_words(alloc, &words_of(alloc, words)?),
            Err(WordsFault::Usage)
        );
        assert!(rt; is_usage, "{words:?}");
    }
    Ok(())
}
