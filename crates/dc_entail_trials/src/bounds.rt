//! Least bounds of forms. An atom is written as its constant and its coefficients.
use crate::tables::{ask_sup, ask_sup_at_zero, atom, atom_at_zero, has_no_bound, is_at};
use dc_affine::Atom;
use dc_frac::Frac;
use dc_simplex::SolveFault;
use std::test::Fail;

const M: i64 = 2147483647;

// over n and 10 - n: n is at least 0, and -n at least -10; n over 2*n - 1 is at least 1/2
#[test]
fn least_bounds(rt: HostRuntime) -> Result<(), Fail> {
    let alloc = rt.alloc();
    let [zero, one] = [Frac::whole(0), Frac::whole(1)];
    let hyps = [atom(alloc, &0, &[1], 1)?, atom(alloc, &10, &[-1], 1)?];
    assert!(rt; is_at(&ask_sup(&rt, alloc, &hyps, &[1], 100), zero, &[one, zero]));
    assert!(rt;
        is_at(
            &ask_sup(&rt, alloc, &hyps, &[-1], 100),
            Frac::whole(10),
            &[zero, one]
        )
    );
    assert!(rt;
        matches!(
            ask_sup(&rt, alloc, &hyps, &[1], 0),
            Err(SolveFault::Budget { pivots: 0 })
        )
    );
    let hyps = [atom(alloc, &-1, &[2], 1)?];
    assert!(rt;
        is_at(
            &ask_sup(&rt, alloc, &hyps, &[1], 100),
            Frac::new(-1, 2),
            &[Frac::new(1, 2)]
        )
    );
    Ok(())
}

// n + 3 twice and n + 5: the first of equals; and n + 3 behind n + 5
#[test]
fn ties(rt: HostRuntime) -> Result<(), Fail> {
    let alloc = rt.alloc();
    let [zero, one, three] = [Frac::whole(0), Frac::whole(1), Frac::whole(3)];
    let hyps = [
        atom(alloc, &3, &[1], 1)?,
        atom(alloc, &3, &[1], 1)?,
        atom(alloc, &5, &[1], 1)?,
    ];
    assert!(rt;
        is_at(
            &ask_sup(&rt, alloc, &hyps, &[1], 100),
            three,
            &[one, zero, zero]
        )
    );
    let hyps = [atom(alloc, &5, &[1], 1)?, atom(alloc, &3, &[1], 1)?];
    assert!(rt; is_at(&ask_sup(&rt, alloc, &hyps, &[1], 100), three, &[zero, one]));
    Ok(())
}

// -n over n has no bound
#[test]
fn no_bound(rt: HostRuntime) -> Result<(), Fail> {
    let alloc = rt.alloc();
    let hyps = [atom(alloc, &0, &[1], 1)?];
    assert!(rt; has_no_bound(&ask_sup(&rt, alloc, &hyps, &[-1], 100), &[Frac::whole(-1)]));
    Ok(())
}

// without atoms a form is bounded where it is 0
#[test]
fn no_atoms(rt: HostRuntime) -> Result<(), Fail> {
    let alloc = rt.alloc();
    let hyps: [Atom; 0] = [];
    let zero = Frac::whole(0);
    assert!(rt; is_at(&ask_sup(&rt, alloc, &hyps, &[0], 100), zero, &[]));
    assert!(rt; has_no_bound(&ask_sup(&rt, alloc, &hyps, &[1], 100), &[Frac::whole(1)]));
    assert!(rt; is_at(&ask_sup(&rt, alloc, &hyps, &[], 100), zero, &[]));
    Ok(())
}

// x4 over x0 - 1, x1 - M*x0, .., x4 - M*x3 is at least M^4
#[test]
fn wide(rt: HostRuntime) -> Result<(), Fail> {
    let alloc = rt.alloc();
    let hyps = [
        atom(alloc, &-1, &[1], 5)?,
        atom(alloc, &0, &[-M, 1], 5)?,
        atom(alloc, &0, &[0, -M, 1], 5)?,
        atom(alloc, &0, &[0, 0, -M, 1], 5)?,
        atom(alloc, &0, &[0, 0, 0, -M, 1], 5)?,
    ];
    let mult = [
        Frac::whole(21267647892944572736998860269687930881),
        Frac::whole(9903520300447984150353281023),
        Frac::whole(4611686014132420609),
        Frac::whole(2147483647),
        Frac::whole(1),
    ];
    let least = Frac::whole(-21267647892944572736998860269687930881);
    assert!(rt;
        is_at(
            &ask_sup(&rt, alloc, &hyps, &[0, 0, 0, 0, 1], 100),
            least,
            &mult
        )
    );
    Ok(())
}

// x5 over x0, x1 - M*x0, .., x5 - M*x4: the multiplier of the first is M^5, which passes 128 bits;
// a spent budget is judged first
#[test]
fn too_wide(rt: HostRuntime) -> Result<(), Fail> {
    let alloc = rt.alloc();
    let hyps = [
        atom_at_zero(alloc, &[1], 6)?,
        atom_at_zero(alloc, &[-M, 1], 6)?,
        atom_at_zero(alloc, &[0, -M, 1], 6)?,
        atom_at_zero(alloc, &[0, 0, -M, 1], 6)?,
        atom_at_zero(alloc, &[0, 0, 0, -M, 1], 6)?,
        atom_at_zero(alloc, &[0, 0, 0, 0, -M, 1], 6)?,
    ];
    assert!(rt;
        matches!(
            ask_sup_at_zero(alloc, &hyps, &[0, 0, 0, 0, 0, 1], 100),
            Err(SolveFault::Past128 { pivot: 5 })
        )
    );
    assert!(rt;
        matches!(
            ask_sup_at_zero(alloc, &hyps, &[0, 0, 0, 0, 0, 1], 4),
            Err(SolveFault::Budget { pivots: 4 })
        )
    );
    Ok(())
}
