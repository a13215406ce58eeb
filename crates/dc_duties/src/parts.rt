//! What an unknown adds to the left side of a duty.
ghost use Rattle.std.specs.Prelude.{◌≡◌, ◌≤◌, ◌<◌, ◌+◌, length, IfOk, eqb, false, pos, []};
ghost use Rattle.std.specs.Bool.{MatchBool};
ghost use Rattle.dc_poly.specs.Sums.{constant_of, negated, plus};
ghost use Rattle.dc_poly.specs.Terms.{degree};
ghost use Rattle.dc_system.specs.Shapes.{IsEdge, IsForm};
ghost use Rattle.dc_claims.specs.Duties.{IsThere, exit_of, places_of, same_side};
ghost use Rattle.dc_claims.specs.Parts.{at_inputs, before as before_of, behind as behind_of, bound_part, itself, part_along, part_at, part_at_entry, part_at_exit, part_of, rest_of, when};
ghost use Rattle.dc_claims.specs.Plans.{IsPair};
ghost use Rattle.dc_duties.specs.Lent.{cost_at, lent};
ghost use Rattle.dc_claims.specs.Blocks.{IsPart};
ghost use Rattle.dc_duties.specs.Sizes.{IsCoefficientOf};
ghost use Rattle.dc_duties.specs.Tasks.{IsTask, IsUnknown};

use crate::plan::{Programs, Task};
use crate::states::{at_state, identity, inputs};
use dc_claims::{Duty, Unknown};
use dc_poly::{Mono, Poly};
use dc_syntax::Side;
use dc_system::{Edge, System};
use std::alloc::{AllocError, Global};

/// The part of an unknown in a duty.
pub fn part(alloc: Global, task: &Task, duty: &Duty, unknown: &Unknown) -> Result<Poly, AllocError>
    requires task { IsTask task.now }
    requires there { IsThere (lent task.now.programs.now) duty.now }
    requires unknown { IsUnknown task.now unknown.now }
    ensures terms { IfOk result
        (λ p. p.terms ≡ part_of (lent task.now.programs.now) task.now.degree duty.now unknown.now) }
    ensures part { IfOk result (IsPart (places_of (lent task.now.programs.now) duty.now) 2) }
{
    match *unknown {
        Unknown::Bound => bound(alloc, task.programs, duty),
        Unknown::Coefficient(side, location, number) => {
            let mono = &task.monomials(side)[number];
            coefficient(alloc, task.programs, duty, side, location, mono)
        }
    }
}

/// Over how many places a duty speaks.
pub fn places(programs: &Programs, duty: &Duty) -> usize
    requires { IsPair (lent programs.now) }
    ensures places { result ≡ places_of (lent programs.now) duty.now }
    ensures few { result ≤ 11 }
{
    match *duty {
        Duty::Along(side, _) => programs.system(side).vars + 1,
        Duty::AtExit(side) => programs.system(side).vars,
        Duty::AtEntry(_) => programs.system(Side::New).params,
    }
}

// The part of the threshold.
fn bound(alloc: Global, programs: &Programs, duty: &Duty) -> Result<Poly, AllocError>
    requires { IsPair (lent programs.now) }
    ensures terms { IfOk result (λ p. p.terms ≡ bound_part (lent programs.now) duty.now) }
    ensures part { IfOk result (IsPart (places_of (lent programs.now) duty.now) 2) }
{
    let places = places(programs, duty);
    match duty {
        Duty::Along(_, _) => nothing(alloc, places),
        Duty::AtExit(_) => nothing(alloc, places),
        Duty::AtEntry(_) => one(alloc, places),
    }
}

// The part of a coefficient.
fn coefficient(
    alloc: Global,
    programs: &Programs,
    duty: &Duty,
    side: Side,
    location: usize,
    mono: &Mono,
) -> Result<Poly, AllocError>
    requires pair { IsPair (lent programs.now) }
    requires there { IsThere (lent programs.now) duty.now }
    requires mono { IsCoefficientOf (lent programs.now) side mono.now }
    ensures terms { IfOk result
        (λ p. p.terms ≡ part_at (lent programs.now) duty.now side location mono.now) }
    ensures part { IfOk result (IsPart (places_of (lent programs.now) duty.now) 2) }
{
    let places = places(programs, duty);
    match *duty {
        Duty::Along(own, number) => {
            if is_other(own, side) {
                return nothing(alloc, places);
            }
            let edge = programs.edge(own, number);
            along(alloc, side, mono.exponents().len(), edge, location, mono)
        }
        Duty::AtExit(own) => {
            if is_other(own, side) {
                return nothing(alloc, places);
            }
            at_exit(alloc, side, programs.system(own), location, mono)
        }
        Duty::AtEntry(_) => at_entry(alloc, side, places, location, mono),
    }
}

// Whether they are two sides.
fn is_other(own: Side, side: Side) -> bool
    ensures { MatchBool result (same_side own side ≡ false) (own ≡ side) }
{
    match own {
        Side::New => match side {
            Side::New => false,
            Side::Old => true,
        },
        Side::Old => match side {
            Side::New => true,
            Side::Old => false,
        },
    }
}

// Along an edge over so many variables.
fn along(
    alloc: Global,
    side: Side,
    vars: usize,
    edge: &Edge,
    location: usize,
    mono: &Mono,
) -> Result<Poly, AllocError>
    requires few { vars ≤ 10 }
    requires edge { IsEdge vars edge.now }
    requires low { degree mono.now ≤ 3 }
    requires long { length mono.now ≡ vars }
    ensures terms { IfOk result (λ p. p.terms ≡ part_along side vars edge.now location mono.now) }
    ensures part { IfOk result (IsPart (vars + 1) 2) }
{
    let before = before(alloc, vars, edge, location, mono)?;
    let behind = behind(alloc, vars, edge, location, mono)?;
    match side {
        Side::New => difference(alloc, &before, &behind),
        Side::Old => difference(alloc, &behind, &before),
    }
}

// One less the other.
fn difference(alloc: Global, left: &Poly, right: &Poly) -> Result<Poly, AllocError>
    requires left { IsPart left.now.places 1 left.now }
    requires right { IsPart left.now.places 1 right.now }
    ensures terms { IfOk result (λ p. p.terms ≡ plus left.now.terms (negated right.now.terms)) }
    ensures part { IfOk result (IsPart left.now.places 2) }
{
    let minus = right.neg(alloc)?;
    left.add(alloc, &minus)
}

// The monomial before an edge out of its location.
fn before(
    alloc: Global,
    vars: usize,
    edge: &Edge,
    location: usize,
    mono: &Mono,
) -> Result<Poly, AllocError>
    requires few { vars ≤ 10 }
    requires low { degree mono.now ≤ 3 }
    requires long { length mono.now ≡ vars }
    ensures terms { IfOk result
        (λ p. p.terms ≡ when (eqb location edge.now.from) (before_of mono.now)) }
    ensures part { IfOk result (IsPart (vars + 1) 1) }
{
    if location != edge.from {
        return nothing(alloc, vars + 1);
    }
    let state = identity(alloc, vars, vars + 1)?;
    at_state(alloc, mono, state.as_slice(), vars + 1)
}

// The monomial behind an edge into its location.
fn behind(
    alloc: Global,
    vars: usize,
    edge: &Edge,
    location: usize,
    mono: &Mono,
) -> Result<Poly, AllocError>
    requires few { vars ≤ 10 }
    requires edge { IsEdge vars edge.now }
    requires low { degree mono.now ≤ 3 }
    requires long { length mono.now ≡ vars }
    ensures terms { IfOk result
        (λ p. p.terms ≡ when (eqb location edge.now.to) (behind_of vars edge.now mono.now)) }
    ensures part { IfOk result (IsPart (vars + 1) 1) }
{
    if location != edge.to {
        return nothing(alloc, vars + 1);
    }
    at_state(alloc, mono, edge.update.as_slice(), vars + 1)
}

// At the exit.
fn at_exit(
    alloc: Global,
    side: Side,
    system: &System,
    location: usize,
    mono: &Mono,
) -> Result<Poly, AllocError>
    requires few { system.now.vars ≤ 10 }
    requires some { 1 ≤ system.now.locs }
    requires low { degree mono.now ≤ 3 }
    requires long { length mono.now ≡ system.now.vars }
    ensures terms { IfOk result
        (λ p. p.terms ≡ part_at_exit side (exit_of system.now) location mono.now) }
    ensures part { IfOk result (IsPart system.now.vars 1) }
{
    if location != system.locs - 1 {
        return nothing(alloc, system.vars);
    }
    let state = identity(alloc, system.vars, system.vars)?;
    let own = at_state(alloc, mono, state.as_slice(), system.vars)?;
    match side {
        Side::New => Ok(own),
        Side::Old => own.neg(alloc),
    }
}

// At the entry, over so many parameters.
fn at_entry(
    alloc: Global,
    side: Side,
    params: usize,
    location: usize,
    mono: &Mono,
) -> Result<Poly, AllocError>
    requires few { length mono.now ≤ 10 }
    requires params { params ≤ length mono.now }
    requires low { degree mono.now ≤ 3 }
    ensures terms { IfOk result (λ p. p.terms ≡ part_at_entry side params location mono.now) }
    ensures part { IfOk result (IsPart params 1) }
{
    if location != 0 {
        return nothing(alloc, params);
    }
    let state = inputs(alloc, params, mono.exponents().len())?;
    let own = at_state(alloc, mono, state.as_slice(), params)?;
    match side {
        Side::New => own.neg(alloc),
        Side::Old => Ok(own),
    }
}

// Zero.
fn nothing(alloc: Global, places: usize) -> Result<Poly, AllocError>
    requires { places ≤ 11 }
    ensures terms { IfOk result (λ p. p.terms ≡ []) }
    ensures part { IfOk result (IsPart places 1) }
{
    Poly::constant(alloc, 0, places)
}

// One.
fn one(alloc: Global, places: usize) -> Result<Poly, AllocError>
    requires { places ≤ 11 }
    ensures terms { IfOk result (λ p. p.terms ≡ constant_of (pos 1) places) }
    ensures part { IfOk result (IsPart places 1) }
{
    Poly::constant(alloc, 1, places)
}

/// What stands in the left side without an unknown: the cost of an edge.
pub fn rest(alloc: Global, programs: &Programs, duty: &Duty) -> Result<Poly, AllocError>
    requires pair { IsPair (lent programs.now) }
    requires there { IsThere (lent programs.now) duty.now }
    ensures terms { IfOk result (λ p. p.terms ≡ rest_of (lent programs.now) duty.now) }
    ensures part { IfOk result (IsPart (places_of (lent programs.now) duty.now) 1) }
{
    let places = places(programs, duty);
    match *duty {
        Duty::Along(side, number) => cost(alloc, side, places, programs.edge(side, number)),
        Duty::AtExit(_) => nothing(alloc, places),
        Duty::AtEntry(_) => nothing(alloc, places),
    }
}

// What stands for an edge's cost: its opposite on new's side.
fn cost(alloc: Global, side: Side, places: usize, edge: &Edge) -> Result<Poly, AllocError>
    requires { IsForm places edge.now.cost }
    ensures terms { IfOk result (λ p. p.terms ≡ cost_at side edge.now) }
    ensures part { IfOk result (IsPart places 1) }
{
    match side {
        Side::New => edge.cost.neg(alloc),
        Side::Old => edge.cost.copy(alloc),
    }
}
