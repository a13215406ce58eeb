//! Monomials of a template, and one at an updated state.
use crate::tables::has_terms;
use dc_poly::{Mono, Poly};
use dc_template::{monomials, template_column, unknowns};
use std::alloc::Global;
use std::test::Fail;

// Whether the monomials are these, in this order.
fn are(list: &[Mono], table: &[&[u8]]) -> bool {
    list.len() == table.len()
        && list
            .iter()
            .zip(table)
            .all(|(mono, row)| mono.exponents() == *row)
}

#[test]
fn lists_written_out(rt: HostRuntime) -> Result<(), Fail> {
    let alloc = rt.alloc();
    let two: [&[u8]; 6] = [&[0, 0], &[1, 0], &[0, 1], &[2, 0], &[1, 1], &[0, 2]];
    assert!(rt; are(monomials(alloc, 2, 2)?.as_slice(), &two));
    assert!(rt; are(monomials(alloc, 0, 3)?.as_slice(), &[&[]]));
    assert!(rt; are(monomials(alloc, 3, 0)?.as_slice(), &[&[0, 0, 0]]));
    Ok(())
}

#[test]
fn numbers(rt: HostRuntime) -> Result<(), Fail> {
    let rows = [(2, 2, 6), (0, 3, 1), (3, 0, 1), (3, 1, 4), (10, 3, 286)];
    for (vars, degree, count) in rows {
        assert!(rt; vars <= 10);
        assert!(rt; degree <= 3);
        assert!(rt; unknowns(vars, degree) == count);
    }
    Ok(())
}

// n*i after n := n + 1, i := 2*i.
#[test]
fn a_column(rt: HostRuntime) -> Result<(), Fail> {
    let alloc = rt.alloc();
    let n = Poly::variable(alloc, 0, 2)?;
    let one = Poly::constant(alloc, 1, 2)?;
    let i = Poly::variable(alloc, 1, 2)?;
    let up = n.add(alloc, &one)?;
    let twice = i.add(alloc, &i)?;
    let mono = Mono::from_slice(alloc, &[1, 1])?;
    let column = template_column(alloc, &mono, &[up, twice])?;
    assert!(rt; has_terms(&column, &[(2, &[0, 1]), (2, &[1, 1])]));
    assert!(rt; column.places() == 2);
    Ok(())
}

#[test]
fn without_updates(rt: HostRuntime) -> Result<(), Fail> {
    let alloc = rt.alloc();
    let column = template_column(alloc, &Mono::one(alloc, 0)?, &[])?;
    assert!(rt; has_terms(&column, &[(1, &[0])]));
    assert!(rt; column.places() == 1);
    Ok(())
}
