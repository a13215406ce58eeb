//! Printed atoms of the greatest families, and what shows them.
use crate::subjects::{ENOUGH, evidence, printed_atoms, read_subject};
use dc_affine::Atom;
use dc_cert::{EdgeCert, Liveness};
use dc_sparse::Cross;
use sqlite_items::Items;
use std::test::Fail;

// A source, a condition and whether sums and differences of two variables are rows; the printed
// atoms of each location, each by its constant and its coefficients; and which edges are live, and
// whether the exit is.
type Row = (
    &'static str,
    &'static str,
    bool,
    &'static [&'static [&'static [i64]]],
    &'static [bool],
    bool,
);

const TWICE: &str = "proc f(n) { var i; while (i < n) { tick 2; i = i + 1; } }";

const NESTED: &str =
    "proc f(n) { var i, j; while (i < n) { j = 0; while (j < n) { tick 1; j = j + 1; } i = i + 1; } }";

const FAMILIES: [Row; 11] = [
    (
        TWICE,
        "0 <= n && n <= 100",
        true,
        &[
            &[&[100, -1, 0], &[0, 0, 1], &[0, 1, -1]],
            &[&[100, -1, 0], &[0, 0, 1], &[-1, 1, -1]],
            &[&[100, -1, 0], &[0, 0, 1], &[-1, 1, -1]],
            &[&[0, 1, 0], &[100, -1, 0], &[0, 1, -1], &[0, -1, 1]],
        ],
        &[true, true, true, true],
        true,
    ),
    (
        TWICE,
        "n >= 1 && n <= 0",
        true,
        &[
            &[&[-1, 0, 0]],
            &[&[-1, 0, 0]],
            &[&[-1, 0, 0]],
            &[&[-1, 0, 0]],
        ],
        &[false, false, false, false],
        false,
    ),
    (
        TWICE,
        "0 <= n && n <= 3 || n == 7",
        true,
        &[
            &[&[7, -1, 0], &[0, 0, 1], &[0, 1, -1]],
            &[&[7, -1, 0], &[0, 0, 1], &[-1, 1, -1]],
            &[&[7, -1, 0], &[0, 0, 1], &[-1, 1, -1]],
            &[&[0, 1, 0], &[7, -1, 0], &[0, 1, -1], &[0, -1, 1]],
        ],
        &[true, true, true, true],
        true,
    ),
    (
        TWICE,
        "n >= 1 && n <= 0 || false",
        true,
        &[
            &[&[-1, 0, 0]],
            &[&[-1, 0, 0]],
            &[&[-1, 0, 0]],
            &[&[-1, 0, 0]],
        ],
        &[false, false, false, false],
        false,
    ),
    (
        TWICE,
        "n >= 1 && n <= 0 || n == 4",
        true,
        &[
            &[&[-4, 1, 0], &[4, -1, 0], &[0, 0, 1], &[4, 0, -1]],
            &[&[-4, 1, 0], &[4, -1, 0], &[0, 0, 1], &[3, 0, -1]],
            &[&[-4, 1, 0], &[4, -1, 0], &[0, 0, 1], &[3, 0, -1]],
            &[&[-4, 1, 0], &[4, -1, 0], &[-4, 0, 1], &[4, 0, -1]],
        ],
        &[true, true, true, true],
        true,
    ),
    (
        NESTED,
        "0 <= n && n <= 10",
        false,
        &[
            &[
                &[10, -1, 0, 0],
                &[0, 0, 1, 0],
                &[0, 0, 0, 1],
                &[0, 1, -1, 0],
                &[0, 1, 0, -1],
            ],
            &[
                &[10, -1, 0, 0],
                &[0, 0, 1, 0],
                &[0, 0, 0, 1],
                &[-1, 1, -1, 0],
                &[0, 1, 0, -1],
            ],
            &[
                &[10, -1, 0, 0],
                &[0, 0, 1, 0],
                &[0, 0, 0, 1],
                &[-1, 1, -1, 0],
                &[0, 1, 0, -1],
            ],
            &[
                &[10, -1, 0, 0],
                &[0, 0, 1, 0],
                &[0, 0, 0, 1],
                &[-1, 1, -1, 0],
                &[-1, 1, 0, -1],
            ],
            &[
                &[10, -1, 0, 0],
                &[0, 0, 1, 0],
                &[0, 0, 0, 1],
                &[-1, 1, -1, 0],
                &[-1, 1, 0, -1],
            ],
            &[
                &[10, -1, 0, 0],
                &[0, 0, 1, 0],
                &[-1, 1, -1, 0],
                &[0, 1, 0, -1],
                &[0, -1, 0, 1],
            ],
            &[
                &[10, -1, 0, 0],
                &[0, 0, 0, 1],
                &[0, 1, -1, 0],
                &[0, -1, 1, 0],
                &[0, 1, 0, -1],
            ],
        ],
        &[true, true, true, true, true, true, true, true],
        true,
    ),
    (
        "proc f(n) { if (n > 5) { tick 1; } else { skip; } }",
        "0 <= n && n <= 3",
        true,
        &[
            &[&[0, 1], &[3, -1]],
            &[&[-1, 0]],
            &[&[0, 1], &[3, -1]],
            &[&[0, 1], &[3, -1]],
        ],
        &[false, true, false, true],
        true,
    ),
    (
        "proc f(n) { var x; x = n*n; tick x; }",
        "0 <= n && n <= 3",
        true,
        &[
            &[&[0, 1, 0], &[3, -1, 0], &[0, 0, 1], &[0, 0, -1]],
            &[&[0, 1, 0], &[3, -1, 0]],
            &[&[0, 1, 0], &[3, -1, 0]],
        ],
        &[true, true],
        true,
    ),
    (
        "proc f(n) { var x; assume (false); x = n*n; skip; }",
        "0 <= n && n <= 3",
        true,
        &[
            &[&[0, 1, 0], &[3, -1, 0], &[0, 0, 1], &[0, 0, -1]],
            &[&[-1, 0, 0]],
            &[&[-1, 0, 0]],
            &[&[-1, 0, 0]],
        ],
        &[false, false, false],
        false,
    ),
    (
        "proc f(n) { var x; x = any(0, n); tick x; }",
        "0 <= n && n <= 7",
        true,
        &[
            &[&[0, 1, 0], &[7, -1, 0], &[0, 0, 1], &[0, 0, -1]],
            &[&[7, -1, 0], &[0, 0, 1], &[0, 1, -1]],
            &[&[7, -1, 0], &[0, 0, 1], &[0, 1, -1]],
        ],
        &[true, true],
        true,
    ),
    (
        "proc f(n) { var x; x = any; tick x; }",
        "0 <= n && n <= 7",
        true,
        &[
            &[&[0, 1, 0], &[7, -1, 0], &[0, 0, 1], &[0, 0, -1]],
            &[&[0, 1, 0], &[7, -1, 0]],
            &[&[0, 1, 0], &[7, -1, 0]],
        ],
        &[true, true],
        true,
    ),
];

fn is_atom(atom: &Atom, numbers: &[i64]) -> bool {
    match numbers {
        [] => false,
        [c0, coefs @ ..] => atom.c0 == *c0 && atom.coefs.as_slice() == coefs,
    }
}

fn are_atoms(atoms: &[Atom], table: &[&[i64]]) -> bool {
    atoms.len() == table.len()
        && atoms
            .iter()
            .zip(table)
            .all(|(atom, numbers)| is_atom(atom, numbers))
}

fn are_lists(lists: &[Items<Atom>], table: &[&[&[i64]]]) -> bool {
    lists.len() == table.len()
        && lists
            .iter()
            .zip(table)
            .all(|(atoms, rows)| are_atoms(atoms.as_slice(), rows))
}

fn is_live(line: &Liveness) -> bool {
    matches!(line, Liveness::Live(_))
}

// Whether the edges have these flags, and only a live one has what shows the atoms of its target.
fn are_flags(edges: &[EdgeCert], flags: &[bool]) -> bool {
    edges.len() == flags.len()
        && edges.iter().zip(flags).all(|(edge, live)| is_live(&edge.live) == *live
            && (*live || edge.keeps.as_slice().is_empty()))
}

#[test]
fn families_of_a_table(rt: HostRuntime) -> Result<(), Fail> {
    let alloc = rt.alloc();
    for (source, when, pairs, table, live, exit) in FAMILIES.iter() {
        let s = read_subject(alloc, source, when, *pairs)?;
        let mut tableau = Cross::new(alloc);
        let lists = printed_atoms(alloc, &s, &mut tableau, ENOUGH)?;
        assert!(rt; are_lists(lists.as_slice(), table));
        let side = evidence(alloc, &s, lists, &mut tableau, ENOUGH)?;
        assert!(rt; are_lists(side.families.as_slice(), table));
        assert!(rt; are_flags(side.edges.as_slice(), live));
        assert!(rt; is_live(&side.exit_line) == *exit);
    }
    Ok(())
}
