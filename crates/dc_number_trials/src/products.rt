//! Products of atoms, written out by hand.
ghost use Rattle.std.specs.Prelude.{◌≤◌, length, unsigned_abs, IfOk};
ghost use Rattle.dc_affine.specs.Atoms.{AllFit, IsAtom};

use crate::tables::has_terms;
use dc_affine::Atom;
use dc_handelman::{product_count, products};
use dc_poly::Poly;
use sqlite_items::Items;
use std::alloc::{AllocError, Global};
use std::test::Fail;

fn atom(alloc: Global, c0: &i64, coefs: &[i64], places: usize) -> Result<Atom, AllocError>
    requires few { length coefs.now ≤ places }
    requires coefs { AllFit coefs.now }
    requires constant { unsigned_abs c0.now ≤ 2147483648 }
    ensures { IfOk result (λ a. IsAtom places a) }
{
    let list = Vec::from_slice(alloc, coefs)?;
    Ok(Atom {
        c0: *c0,
        coefs: Items::from_vec(list),
    })
}

fn are(list: &[Poly], table: &[&[(i128, &[u8])]]) -> bool {
    list.len() == table.len() && list.iter().zip(table).all(|(p, row)| has_terms(p, row))
}

#[test]
fn numbers(rt: HostRuntime) -> Result<(), Fail> {
    let rows = [
        (3, 2, 10),
        (2, 3, 10),
        (0, 3, 1),
        (1, 1, 2),
        (2048, 3, 1435853825),
    ];
    for (hyps, k, count) in rows {
        assert!(rt; hyps <= 2048);
        assert!(rt; k >= 1);
        assert!(rt; k <= 3);
        assert!(rt; product_count(hyps, k) == count);
    }
    Ok(())
}

// The atoms n, i and 10 - n, and at most two factors.
#[test]
fn three_atoms(rt: HostRuntime) -> Result<(), Fail> {
    let alloc = rt.alloc();
    let hyps = [
        atom(alloc, &0, &[1, 0], 2)?,
        atom(alloc, &0, &[0, 1], 2)?,
        atom(alloc, &10, &[-1], 2)?,
    ];
    assert!(rt; product_count(3, 2) <= 8192);
    let list = products(alloc, &hyps, 2, 2)?;
    let table: [&[(i128, &[u8])]; 10] = [
        &[(1, &[0, 0])],
        &[(1, &[1, 0])],
        &[(1, &[0, 1])],
        &[(10, &[0, 0]), (-1, &[1, 0])],
        &[(1, &[2, 0])],
        &[(1, &[1, 1])],
        &[(10, &[1, 0]), (-1, &[2, 0])],
        &[(1, &[0, 2])],
        &[(10, &[0, 1]), (-1, &[1, 1])],
        &[(100, &[0, 0]), (-20, &[1, 0]), (1, &[2, 0])],
    ];
    assert!(rt; are(list.as_slice(), &table));
    Ok(())
}

#[test]
fn no_atoms(rt: HostRuntime) -> Result<(), Fail> {
    let list = products(rt.alloc(), &[], 2, 3)?;
    assert!(rt; are(list.as_slice(), &[&[(1, &[0, 0])]]));
    Ok(())
}

// The atom 5 without places.
#[test]
fn no_places(rt: HostRuntime) -> Result<(), Fail> {
    let alloc = rt.alloc();
    let hyps = [atom(alloc, &5, &[], 0)?];
    let list = products(alloc, &hyps, 0, 2)?;
    assert!(rt; are(list.as_slice(), &[&[(1, &[])], &[(5, &[])], &[(25, &[])]]));
    Ok(())
}
