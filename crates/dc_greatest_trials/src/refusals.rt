//! The first problem that is refused, and how many problems are solved.
use crate::counting::Counting;
use crate::subjects::{ENOUGH, family, printed_atoms, read_subject};
use dc_entail::Site;
use dc_invariant::InvFault;
use dc_sparse::Cross;
use dc_syntax::Side;
use std::test::Fail;

const TWICE: &str = "proc f(n) { var i; while (i < n) { tick 2; i = i + 1; } }";

// The values of the problems of the first edge pass 128 bits: its three equations have determinants
// of some 93 bits, and sums of products of these.
const WIDE: &str =
    "proc f(a, b, c) { assume (1103527590*a + 377401575*b + 662824084*c == 0 && 1147902781*a + 2035015474*b + 368800899*c == 0 && 1508029952*a + 486256185*b + 1062517886*c == 0); }";

// The condition's and the entry's problems take one pivot each; the first edge's emptiness wants a
// second.
#[test]
fn pivots_are_spent(rt: HostRuntime) -> Result<(), Fail> {
    let alloc = rt.alloc();
    let s = read_subject(alloc, TWICE, "0 <= n && n <= 100", true)?;
    assert!(rt;
        matches!(
            family(alloc, &s, &mut Cross::new(alloc), 1),
            Err(InvFault::Budget {
                site: Site::Edge {
                    side: Side::New,
                    edge: 0
                }
            })
        )
    );
    Ok(())
}

// Pivot 4 of the first edge's emptiness is the first that doesn't fit; with three pivots it is not
// looked at.
#[test]
fn pivots_pass_128_bits(rt: HostRuntime) -> Result<(), Fail> {
    let alloc = rt.alloc();
    let s = read_subject(alloc, WIDE, "true", false)?;
    assert!(rt;
        matches!(
            family(alloc, &s, &mut Cross::new(alloc), 4),
            Err(InvFault::Past128 {
                site: Site::Edge {
                    side: Side::New,
                    edge: 0
                },
                pivot: 4
            })
        )
    );
    assert!(rt;
        matches!(
            printed_atoms(alloc, &s, &mut Cross::new(alloc), ENOUGH),
            Err(InvFault::Past128 {
                site: Site::Edge {
                    side: Side::New,
                    edge: 0
                },
                pivot: 4
            })
        )
    );
    assert!(rt;
        matches!(
            family(alloc, &s, &mut Cross::new(alloc), 3),
            Err(InvFault::Budget {
                site: Site::Edge {
                    side: Side::New,
                    edge: 0
                }
            })
        )
    );
    Ok(())
}

// Solving each problem of each round would load 11.
#[test]
fn what_is_known_is_not_solved_again(rt: HostRuntime) -> Result<(), Fail> {
    let alloc = rt.alloc();
    let s = read_subject(alloc, "proc f(n) { skip; skip; }", "true", false)?;
    let mut tableau = Counting::new(alloc);
    let _family = family(alloc, &s, &mut tableau, ENOUGH)?;
    assert!(rt; tableau.loads > 0);
    assert!(rt; tableau.loads <= 8);
    Ok(())
}
