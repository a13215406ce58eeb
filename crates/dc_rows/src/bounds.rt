//! The bounds of a system and of the atoms of its condition.
ghost use Rattle.std.specs.Prelude.{◌≡◌, ◌≤◌, ◌++◌, IfOk, OnOk, filter, flat_map, ℕ};
ghost use Rattle.std.specs.List.{AllByRecursion};
ghost use Rattle.dc_affine.specs.Atoms.{IsAtom};
ghost use Rattle.dc_rows.specs.Bounds.{around, largest_bound, mentioned, is_within, candidate_bounds};

use dc_affine::{Atom, MOST_CONSTANT};
use dc_system::System;
use std::alloc::{AllocError, Global};

// The largest size of a bound.
const LARGEST: u64 = MOST_CONSTANT as u64;

// A number with the numbers next to it, and the negations of all three.
fn around(size: u64) -> [i64; 6]
    requires { size ≤ largest_bound }
    ensures { result ≡ around size }
{
    let c = size as i64;
    [c - 1, c, c + 1, 1 - c, -c, -c - 1]
}

// Those within the largest size.
fn add_within(bounds: &mut Vec<i64>, more: &[i64]) -> Result<(), AllocError>
    ensures { OnOk result (bounds.new.items ≡ bounds.old.items ++ filter is_within more.now) }
{
    for b in more {
        if b.unsigned_abs() <= LARGEST {
            bounds.push(*b)?;
        }
    }
    Ok(())
}

// The bounds next to a number.
fn add_near(bounds: &mut Vec<i64>, size: u64) -> Result<(), AllocError>
    requires { size ≤ largest_bound }
    ensures { OnOk result (bounds.new.items ≡ bounds.old.items ++ filter is_within (around size)) }
{
    add_within(bounds, &around(size))
}

// The bounds next to the literals and the constants, with repeats.
fn list_bounds(alloc: Global, s: &System, when: &[Atom]) -> Result<Vec<i64>, AllocError>
    requires literals { AllByRecursion (λ (k : ℕ). k ≤ 2147483647) s.now.literals }
    requires atoms { AllByRecursion (IsAtom s.now.params) when.now }
    ensures { IfOk result
        (λ bounds. bounds.items ≡ filter is_within (flat_map around (mentioned s.now when.now))) }
{
    let mut bounds = Vec::new(alloc);
    add_near(&mut bounds, 0)?;
    for literal in s.literals.as_slice() {
        add_near(&mut bounds, u64::from(*literal))?;
    }
    for atom in when {
        add_near(&mut bounds, atom.c0.unsigned_abs())?;
    }
    Ok(bounds)
}

/// All bounds, rising.
pub(crate) fn gather(alloc: Global, s: &System, when: &[Atom]) -> Result<Vec<i64>, AllocError>
    requires literals { AllByRecursion (λ (k : ℕ). k ≤ 2147483647) s.now.literals }
    requires atoms { AllByRecursion (IsAtom s.now.params) when.now }
    ensures { IfOk result (λ bounds. bounds.items ≡ candidate_bounds s.now when.now) }
{
    let mut bounds = list_bounds(alloc, s, when)?;
    bounds.sort_unstable();
    bounds.dedup();
    Ok(bounds)
}
