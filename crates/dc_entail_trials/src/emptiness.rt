//! Dead and live lists. An atom is written as its constant and its coefficients.
use crate::tables::{ask_empty, atom, is_dead, is_live};
use dc_affine::Atom;
use dc_entail::Emptiness;
use dc_frac::Frac;
use dc_simplex::SolveFault;
use std::test::Fail;

const M: i64 = 2147483647;

// The sum of the atoms' constants, or of their coefficients at a place, each times its multiplier.
fn combination(hyps: &[Atom], mult: &[Frac], place: Option<usize>) -> Option<Frac> {
    let mut sum = Frac::whole(0);
    for (atom, factor) in hyps.iter().zip(mult) {
        let number = match place {
            None => atom.c0,
            Some(k) => atom.coefs.as_slice().get(k).copied().unwrap_or(0),
        };
        sum = sum.add(Frac::whole(number as i128).mul(*factor)?)?;
    }
    Some(sum)
}

// That sum with the multipliers that show the list dead.
fn dead_combination(
    hyps: &[Atom],
    found: &Result<Emptiness, SolveFault>,
    place: Option<usize>,
) -> Option<Frac> {
    match found {
        Ok(Emptiness::Dead { mult }) => combination(hyps, mult.as_slice(), place),
        _ => None,
    }
}

// n - 1 and -n: their sum is -1
#[test]
fn two_atoms(rt: HostRuntime) -> Result<(), Fail> {
    let alloc = rt.alloc();
    let hyps = [atom(alloc, &-1, &[1], 1)?, atom(alloc, &0, &[-1], 1)?];
    let one = Frac::whole(1);
    let found = ask_empty(alloc, &hyps, 1, 100);
    assert!(rt; is_dead(&found, &[one, one]));
    assert!(rt; dead_combination(&hyps, &found, None) == Some(Frac::whole(-1)));
    assert!(rt; dead_combination(&hyps, &found, Some(0)) == Some(Frac::whole(0)));
    assert!(rt; is_dead(&ask_empty(alloc, &hyps, 1, 2), &[one, one]));
    assert!(rt;
        matches!(
            ask_empty(alloc, &hyps, 1, 1),
            Err(SolveFault::Budget { pivots: 1 })
        )
    );
    Ok(())
}

// M*n - 1 and -M*n; M*n - 2147483648 and 1 - n, where n is at most 1 and more than 1
#[test]
fn large_coefficients(rt: HostRuntime) -> Result<(), Fail> {
    let alloc = rt.alloc();
    let one = Frac::whole(1);
    let hyps = [atom(alloc, &-1, &[M], 1)?, atom(alloc, &0, &[-M], 1)?];
    assert!(rt; is_dead(&ask_empty(alloc, &hyps, 1, 100), &[one, one]));
    let hyps = [
        atom(alloc, &-2147483648, &[M], 1)?,
        atom(alloc, &1, &[-1], 1)?,
    ];
    assert!(rt;
        is_dead(
            &ask_empty(alloc, &hyps, 1, 100),
            &[one, Frac::whole(2147483647)]
        )
    );
    Ok(())
}

// x - y - 1 and y - x - 1: x is more than y and less than y
#[test]
fn strict_gaps(rt: HostRuntime) -> Result<(), Fail> {
    let alloc = rt.alloc();
    let half = Frac::new(1, 2);
    let hyps = [
        atom(alloc, &-1, &[1, -1], 2)?,
        atom(alloc, &-1, &[-1, 1], 2)?,
    ];
    assert!(rt; is_dead(&ask_empty(alloc, &hyps, 2, 100), &[half, half]));
    Ok(())
}

// -1 without coefficients, over two places
#[test]
fn false_alone(rt: HostRuntime) -> Result<(), Fail> {
    let alloc = rt.alloc();
    let hyps = [atom(alloc, &-1, &[], 2)?];
    assert!(rt; is_dead(&ask_empty(alloc, &hyps, 2, 100), &[Frac::whole(1)]));
    Ok(())
}

// n and 10 - n name the point 0
#[test]
fn an_interval(rt: HostRuntime) -> Result<(), Fail> {
    let alloc = rt.alloc();
    let hyps = [atom(alloc, &0, &[1], 1)?, atom(alloc, &10, &[-1], 1)?];
    let found = ask_empty(alloc, &hyps, 1, 100);
    assert!(rt; is_live(&found, &[Frac::whole(0), Frac::whole(-1)]));
    Ok(())
}

// 2*n - 1 and 1 - 2*n: the point 1/2 alone, and no whole number
#[test]
fn half_a_point(rt: HostRuntime) -> Result<(), Fail> {
    let alloc = rt.alloc();
    let hyps = [atom(alloc, &-1, &[2], 1)?, atom(alloc, &1, &[-2], 1)?];
    let found = ask_empty(alloc, &hyps, 1, 100);
    assert!(rt; is_live(&found, &[Frac::new(-1, 2), Frac::whole(-1)]));
    Ok(())
}

// without atoms, over no place and over one: the point without coordinates, and the point -1
#[test]
fn no_atoms(rt: HostRuntime) -> Result<(), Fail> {
    let hyps: [Atom; 0] = [];
    let [one, less] = [Frac::whole(1), Frac::whole(-1)];
    assert!(rt; is_live(&ask_empty(rt.alloc(), &hyps, 0, 100), &[less]));
    assert!(rt; is_live(&ask_empty(rt.alloc(), &hyps, 1, 100), &[one, less]));
    Ok(())
}

// x0 - 1, x1 - M*x0, .., x5 - M*x4 and -x5: the multiplier of the first is M^5, which passes 128 bits
#[test]
fn too_wide(rt: HostRuntime) -> Result<(), Fail> {
    let alloc = rt.alloc();
    let hyps = [
        atom(alloc, &-1, &[1], 6)?,
        atom(alloc, &0, &[-M, 1], 6)?,
        atom(alloc, &0, &[0, -M, 1], 6)?,
        atom(alloc, &0, &[0, 0, -M, 1], 6)?,
        atom(alloc, &0, &[0, 0, 0, -M, 1], 6)?,
        atom(alloc, &0, &[0, 0, 0, 0, -M, 1], 6)?,
        atom(alloc, &0, &[0, 0, 0, 0, 0, -1], 6)?,
    ];
    assert!(rt;
        matches!(
            ask_empty(alloc, &hyps, 6, 100),
            Err(SolveFault::Past128 { pivot: 5 })
        )
    );
    Ok(())
}
