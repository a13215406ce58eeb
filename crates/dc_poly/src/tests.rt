ghost use Rattle.std.specs.Prelude.{◌≡◌, ◌≤◌};
ghost use Rattle.dc_poly.specs.Terms as terms;
ghost use Rattle.dc_poly.specs.Terms.{largest};

use super::*;
use std::alloc::Global;
use std::process::Abort;
use std::test::Fail;

// The sum of the sizes of the coefficients.
fn weight(p: &Poly) -> u128
    ensures exact { result ≡ terms.weight p.now.terms }
    ensures small { result ≤ largest }
{
    let mut total: u128 = 0;
    for term in p.terms() {
        total += term.coef.unsigned_abs();
    }
    total
}

// Each call below first tests what it requires.
fn sum(rt: &impl Abort, alloc: Global, a: &Poly, b: &Poly) -> Result<Poly, Fail> {
    assert!(rt; a.places() == b.places());
    assert!(rt; weight(a) + weight(b) <= i128::MAX as u128);
    Ok(a.add(alloc, b)?)
}

#[tactic(auto, using(crate::proofs::Small::small_mul))]
fn product(rt: &impl Abort, alloc: Global, a: &Poly, b: &Poly) -> Result<Poly, Fail> {
    assert!(rt; a.places() == b.places());
    assert!(rt; a.degree() + b.degree() <= 12);
    assert!(rt; weight(a) <= 1000);
    assert!(rt; weight(b) <= 1000);
    Ok(a.mul(alloc, b)?)
}

#[tactic(auto, using(crate::proofs::Small::unit_mul))]
fn times_variable(rt: &impl Abort, alloc: Global, a: &Poly, b: &Poly) -> Result<Poly, Fail> {
    assert!(rt; a.places() == b.places());
    assert!(rt; a.degree() + b.degree() <= 12);
    assert!(rt; weight(b) <= 1);
    Ok(a.mul(alloc, b)?)
}

fn at_two(rt: &impl Abort, alloc: Global, p: &Poly, a: Poly, b: Poly) -> Result<Poly, Fail> {
    assert!(rt; p.places() == 2);
    assert!(rt; a.places() == b.places());
    assert!(rt; p.degree() <= 3);
    assert!(rt; a.degree() <= 4);
    assert!(rt; b.degree() <= 4);
    assert!(rt; weight(p) <= 100);
    assert!(rt; weight(&a) <= 10);
    assert!(rt; weight(&b) <= 10);
    let values = [a, b];
    Ok(p.subst(alloc, &values)?)
}

// The sum of terms in n and i, with the exponents of both.
fn poly(rt: &impl Abort, alloc: Global, rows: &[(i128, u8, u8)]) -> Result<Poly, Fail> {
    let n = Poly::variable(alloc, 0, 2)?;
    let i = Poly::variable(alloc, 1, 2)?;
    let mut all = Poly::constant(alloc, 0, 2)?;
    for (coef, first, second) in rows {
        assert!(rt; *coef > i128::MIN);
        let mut term = Poly::constant(alloc, *coef, 2)?;
        for _k in 0..*first {
            term = times_variable(rt, alloc, &term, &n)?;
        }
        for _k in 0..*second {
            term = times_variable(rt, alloc, &term, &i)?;
        }
        all = sum(rt, alloc, &all, &term)?;
    }
    Ok(all)
}

// Whether the terms are these coefficients and exponents, in this order.
fn has_terms(p: &Poly, table: &[(i128, &[u8])]) -> bool {
    let terms = p.terms();
    terms.len() == table.len()
        && terms.iter().zip(table).all(|(term, row)| term.coef == row.0
            && term.mono.exponents() == row.1)
}

#[test]
fn results_written_out_by_hand(rt: HostRuntime) -> Result<(), Fail> {
    let alloc = rt.alloc();
    let up = poly(&rt, alloc, &[(1, 0, 0), (1, 1, 0)])?;
    let down = poly(&rt, alloc, &[(-1, 0, 0), (1, 1, 0)])?;
    assert!(rt;
        has_terms(
            &product(&rt, alloc, &up, &down)?,
            &[(-1, &[0, 0]), (1, &[2, 0])]
        )
    );
    assert!(rt; has_terms(&down.neg(alloc)?, &[(1, &[0, 0]), (-1, &[1, 0])]));
    let p = poly(&rt, alloc, &[(2, 0, 0), (1, 1, 1)])?;
    assert!(rt;
        has_terms(
            &at_two(&rt, alloc, &p, up, down)?,
            &[(1, &[0, 0]), (1, &[2, 0])]
        )
    );
    Ok(())
}

#[test]
fn a_square(rt: HostRuntime) -> Result<(), Fail> {
    let alloc = rt.alloc();
    let both = poly(&rt, alloc, &[(1, 1, 0), (1, 0, 1)])?;
    let square = product(&rt, alloc, &both, &both)?;
    assert!(rt; has_terms(&square, &[(1, &[2, 0]), (2, &[1, 1]), (1, &[0, 2])]));
    assert!(rt; square.degree() == 2);
    assert!(rt; square.coef(&Mono::from_slice(alloc, &[1, 1])?) == 2);
    assert!(rt; square.coef(&Mono::from_slice(alloc, &[1, 0])?) == 0);
    Ok(())
}

#[test]
fn graded_order(rt: HostRuntime) -> Result<(), Fail> {
    let alloc = rt.alloc();
    let rows = [
        (1, 0, 2),
        (2, 1, 0),
        (3, 2, 0),
        (4, 0, 0),
        (5, 1, 1),
        (6, 0, 1),
    ];
    let p = poly(&rt, alloc, &rows)?.copy(alloc)?;
    let sorted: [(i128, &[u8]); 6] = [
        (4, &[0, 0]),
        (2, &[1, 0]),
        (6, &[0, 1]),
        (3, &[2, 0]),
        (5, &[1, 1]),
        (1, &[0, 2]),
    ];
    assert!(rt; has_terms(&p, &sorted));
    Ok(())
}

#[test]
fn zero_results(rt: HostRuntime) -> Result<(), Fail> {
    let alloc = rt.alloc();
    let zero = poly(&rt, alloc, &[(1, 1, 0), (-1, 1, 0)])?;
    assert!(rt; has_terms(&zero, &[]));
    assert!(rt; zero.degree() == 0);
    let difference = poly(&rt, alloc, &[(1, 2, 0), (-1, 1, 1)])?;
    let n = Poly::variable(alloc, 0, 2)?;
    assert!(rt; has_terms(&at_two(&rt, alloc, &difference, n.copy(alloc)?, n)?, &[]));
    Ok(())
}

#[test]
fn without_values(rt: HostRuntime) -> Result<(), Fail> {
    let alloc = rt.alloc();
    let seven = Poly::constant(alloc, 7, 0)?;
    let result = seven.subst(alloc, &[])?;
    assert!(rt; has_terms(&result, &[(7, &[])]));
    assert!(rt; result.places() == 0);
    Ok(())
}

#[test]
fn the_largest_sizes(rt: HostRuntime) -> Result<(), Fail> {
    let alloc = rt.alloc();
    let last = Poly::variable(alloc, 10, 11)?;
    let mut power = Poly::constant(alloc, i128::MAX, 11)?.neg(alloc)?;
    for _k in 0..12 {
        power = times_variable(&rt, alloc, &power, &last)?;
    }
    assert!(rt; has_terms(&power, &[(-i128::MAX, &[0, 0, 0, 0, 0, 0, 0, 0, 0, 0, 12])]));
    assert!(rt; power.degree() == 12);
    Ok(())
}
