//! Pairs of programs that do nothing: one location, which is the entry and the exit.
ghost use Rattle.std.specs.Prelude.{◌≡◌, ◌≤◌, ◌*◌, replicate, IfOk};
ghost use Rattle.dc_match_trials.specs.Systems.{first_place, idle_system};

use crate::shown::assert_is;
use dc_affine::Atom;
use dc_lp::Problem;
use dc_match::{MatchFault, SidePlan, problem_of};
use dc_syntax::Count;
use dc_system::System;
use sqlite_items::Items;
use std::alloc::{AllocError, Global};
use std::test::Fail;

// The variables of new and of old, their parameters, how often the atom "the first place is at
// least 0" stands at new's exit, and whether the condition's only case, which has no atoms, is
// live.
#[derive(Clone, Copy)]
struct Shape {
    new_vars: usize,
    old_vars: usize,
    params: usize,
    atoms: usize,
    live: bool,
    degree: u8,
    products: u8,
}

pub(crate) fn idle(alloc: Global, vars: usize, params: usize) -> System
    ensures { result ≡ idle_system vars params }
{
    System {
        vars,
        params,
        locs: 1,
        edges: Items::new(alloc),
        literals: Items::new(alloc),
    }
}

fn nonnegative(alloc: Global) -> Result<Atom, AllocError>
    ensures { IfOk result (λ a. a ≡ first_place) }
{
    Ok(Atom {
        c0: 0,
        coefs: Items::from_slice(alloc, &[1])?,
    })
}

fn copies(alloc: Global, count: usize) -> Result<Items<Atom>, AllocError>
    ensures { IfOk result (λ v. v ≡ replicate count first_place) }
{
    let mut atoms = Vec::new(alloc);
    for _copy in 0..count {
        atoms.push(nonnegative(alloc)?)?;
    }
    Ok(Items::from_vec(atoms))
}

#[tactic(auto, using(crate::proofs::Fits::idle_fits))]
fn ask(alloc: Global, shape: Shape) -> Result<Problem, MatchFault>
    requires few_new { shape.new_vars ≤ 10 }
    requires few_old { shape.old_vars ≤ 10 }
    requires new_params { shape.params ≤ shape.new_vars }
    requires old_params { shape.params ≤ shape.old_vars }
    requires few_atoms { shape.atoms ≤ 1024 }
    requires some_place { shape.atoms ≤ 1024 * shape.new_vars }
    requires low { shape.degree ≤ 3 }
    requires some { 1 ≤ shape.products }
    requires few { shape.products ≤ 3 }
{
    let new_system = idle(alloc, shape.new_vars, shape.params);
    let old_system = idle(alloc, shape.old_vars, shape.params);
    let new_families = [copies(alloc, shape.atoms)?];
    let old_families = [Items::new(alloc)];
    let cases = [Items::new(alloc)];
    let none: [bool; 0] = [];
    let new = SidePlan {
        system: &new_system,
        families: &new_families,
        live: &none,
        exit_live: true,
    };
    let old = SidePlan {
        system: &old_system,
        families: &old_families,
        live: &none,
        exit_live: true,
    };
    let live = [shape.live];
    problem_of(
        alloc,
        &new,
        &old,
        &cases,
        &live,
        shape.degree,
        shape.products,
    )
}

// Twice over one parameter.
const TWICE: Shape = Shape {
    new_vars: 1,
    old_vars: 1,
    params: 1,
    atoms: 0,
    live: true,
    degree: 0,
    products: 1,
};

// phi - l0 = 0, -chi - l1 = 0, t - phi + chi - l2 = 0
#[test]
fn three_equations(rt: HostRuntime) -> Result<(), Fail> {
    let p = ask(rt.alloc(), TWICE)?;
    assert_is(
        &rt,
        &p,
        &[&[(2, 1)], &[(0, 1), (2, -1)], &[(1, -1), (2, 1)]],
        &[&[(0, -1)], &[(1, -1)], &[(2, -1)]],
        &[0, 0, 0],
    );
    Ok(())
}

// 6 columns, C(43, 3) products of at most 3 of 40 atoms, and two empty products
#[test]
fn too_many_columns(rt: HostRuntime) {
    let answer = ask(
        rt.alloc(),
        Shape {
            atoms: 40,
            products: 3,
            ..TWICE
        },
    );
    assert!(rt;
        matches!(
            answer,
            Err(MatchFault::TooLarge {
                what: Count::Columns,
                count: 12_349,
            })
        )
    );
}

// one atom n at new's exit, degree 1: phi0 + phi1*n - l0 - l1*n, the other obligations without atoms
#[test]
fn one_atom(rt: HostRuntime) -> Result<(), Fail> {
    let p = ask(
        rt.alloc(),
        Shape {
            atoms: 1,
            degree: 1,
            ..TWICE
        },
    )?;
    assert_is(
        &rt,
        &p,
        &[
            &[(4, 1)],
            &[(0, 1), (4, -1)],
            &[(1, 1), (5, -1)],
            &[(2, -1), (4, 1)],
            &[(3, -1), (5, 1)],
        ],
        &[&[(0, -1)], &[(1, -1)], &[(2, -1)], &[(4, -1)]],
        &[0, 0, 0, 0, 0, 0],
    );
    Ok(())
}

// without variables there is one monomial, over no place
#[test]
fn no_variables(rt: HostRuntime) -> Result<(), Fail> {
    let p = ask(
        rt.alloc(),
        Shape {
            new_vars: 0,
            old_vars: 0,
            params: 0,
            degree: 3,
            ..TWICE
        },
    )?;
    assert_is(
        &rt,
        &p,
        &[&[(2, 1)], &[(0, 1), (2, -1)], &[(1, -1), (2, 1)]],
        &[&[(0, -1)], &[(1, -1)], &[(2, -1)]],
        &[0, 0, 0],
    );
    Ok(())
}

// without parameters the one local is 0 at the entry
#[test]
fn no_parameters(rt: HostRuntime) -> Result<(), Fail> {
    let p = ask(
        rt.alloc(),
        Shape {
            params: 0,
            degree: 1,
            ..TWICE
        },
    )?;
    assert_is(
        &rt,
        &p,
        &[
            &[(4, 1)],
            &[(0, 1), (4, -1)],
            &[(1, 1)],
            &[(2, -1), (4, 1)],
            &[(3, -1)],
        ],
        &[&[(0, -1)], &[(2, -1)], &[(4, -1)]],
        &[0, 0, 0, 0, 0],
    );
    Ok(())
}

// a dead case has no obligation: the threshold stands nowhere
#[test]
fn dead_case(rt: HostRuntime) -> Result<(), Fail> {
    let p = ask(
        rt.alloc(),
        Shape {
            live: false,
            ..TWICE
        },
    )?;
    assert_is(
        &rt,
        &p,
        &[&[], &[(0, 1)], &[(1, -1)]],
        &[&[(0, -1)], &[(1, -1)]],
        &[0, 0],
    );
    Ok(())
}

// a variable that only old has: a local, so 0 at the entry
#[test]
fn old_has_one_more(rt: HostRuntime) -> Result<(), Fail> {
    let p = ask(
        rt.alloc(),
        Shape {
            old_vars: 2,
            degree: 1,
            ..TWICE
        },
    )?;
    assert_is(
        &rt,
        &p,
        &[
            &[(5, 1)],
            &[(0, 1), (5, -1)],
            &[(1, 1), (6, -1)],
            &[(2, -1), (5, 1)],
            &[(3, -1), (6, 1)],
            &[(4, -1)],
        ],
        &[&[(0, -1)], &[(2, -1)], &[(5, -1)]],
        &[0, 0, 0, 0, 0, 0, 0],
    );
    Ok(())
}
