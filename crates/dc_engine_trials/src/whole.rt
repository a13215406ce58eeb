//! Whole certificates.
use crate::rows::{EMPTY, LOOP_1, LOOP_2, analyse_row, row_of};
use dc_affine::Atom;
use dc_cert::Body;
use std::test::Fail;

/// Whether an atom has these numbers.
fn has_numbers(atom: &Atom, constant: i64, n: i64, i: i64) -> bool {
    let coefs = atom.coefs.as_slice();
    atom.c0 == constant && coefs.len() == 2 && coefs[0] == n && coefs[1] == i
}

/// The printed atoms of a loop's location are `100 - n`, `i` and `n - i`.
#[test]
fn a_loop_has_three_atoms(rt: HostRuntime) -> Result<(), Fail> {
    let alloc = rt.alloc();
    let found = analyse_row(alloc, &row_of(LOOP_2, LOOP_1, "0 <= n && n <= 100", 1, 1))?;
    let Ok(certificate) = found else {
        return Err(Fail::from("refused"));
    };
    let families = certificate.new_side.families.as_slice();
    let Some(first) = families.first() else {
        return Err(Fail::from("no location"));
    };
    let atoms = first.as_slice();
    assert_eq!(rt; atoms.len(), 3);
    let (Some(limit), Some(turns), Some(rest)) = (atoms.first(), atoms.get(1), atoms.get(2)) else {
        return Err(Fail::from("no atom"));
    };
    assert!(rt; has_numbers(limit, 100, -1, 0));
    assert!(rt; has_numbers(turns, 0, 0, 1));
    assert!(rt; has_numbers(rest, 0, 1, -1));
    Ok(())
}

/// Two empty programs: version 2, one live case, one location each without atoms, no unknown but 0,
/// and each equation's multiplier 1.
#[test]
fn two_empty_programs_have_a_certificate(rt: HostRuntime) -> Result<(), Fail> {
    let alloc = rt.alloc();
    let found = analyse_row(alloc, &row_of(EMPTY, EMPTY, "true", 0, 1))?;
    let Ok(certificate) = found else {
        return Err(Fail::from("refused"));
    };
    assert_eq!(rt; certificate.version, 2);
    let Body::Threshold {
        t,
        unknown,
        lambda,
        dual,
    } = &certificate.body
    else {
        return Err(Fail::from("no threshold"));
    };
    assert_eq!(rt; t.num, 0);
    assert_eq!(rt; unknown.items.as_slice().len(), 0);
    assert_eq!(rt; lambda.items.as_slice().len(), 0);
    let items = dual.items.as_slice();
    assert_eq!(rt; items.len(), 3);
    for (k, item) in items.iter().enumerate() {
        assert_eq!(rt; item.index, k);
        assert_eq!(rt; item.value.num, 1);
        assert_eq!(rt; item.value.den, 1);
    }
    Ok(())
}
