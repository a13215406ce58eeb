//! The guard of a chosen value between two bounds.
ghost use Rattle.std.specs.Prelude.{ℕ, ◌≡◌, ◌≤◌, ◌+◌, IfOk, [], ◌∷◌, None, true};
ghost use Rattle.dc_syntax.specs.declared.tree.Expr.TheVariants.{Var};
ghost use Rattle.dc_affine.specs.Forms.{affine_fault, is_below};
ghost use Rattle.dc_affine.specs.Table.{fact};
ghost use Rattle.dc_affine.specs.Atoms.{at_least as atom_at_least, atom_of};
ghost use Rattle.dc_poly.specs.Sums.{negated, plus};
ghost use Rattle.dc_system.specs.Guards.{CanDiffer};

use crate::forms::bound;
use dc_affine::{Atom, at_least};
use dc_poly::Poly;
use dc_syntax::Expr;
use std::alloc::{AllocError, Global};

// The atom of the first form less the second.
#[tactic(auto, using(crate::proofs::Differences::differences))]
fn difference(alloc: Global, big: &Poly, small: &Poly) -> Result<Atom, AllocError>
    requires { CanDiffer big.now small.now }
    ensures { IfOk result
        (λ a. a ≡ atom_at_least big.now.places (plus big.now.terms (negated small.now.terms)) 0) }
{
    let negation = small.neg(alloc)?;
    let gap = big.add(alloc, &negation)?;
    at_least(alloc, &gap, false, 0)
}

// The guard of a value between two bounds: it less the lower, and the upper less it.
#[tactic(auto, using(crate::proofs::Differences::differences))]
pub(crate) fn between(
    alloc: Global,
    a: &Expr,
    b: &Expr,
    vars: usize,
) -> Result<Vec<Atom>, AllocError>
    requires few { vars ≤ 10 }
    requires below { (is_below vars a.now ≡ true) × (is_below vars b.now ≡ true) }
    requires passes { (affine_fault vars a.now ≡ None) × (affine_fault vars b.now ≡ None) }
    ensures { IfOk result
        (λ v. v.items ≡ atom_of (vars + 1) (fact (Var vars) a.now 0)
        ∷ atom_of (vars + 1) (fact b.now (Var vars) 0) ∷ []) }
{
    let low = bound(alloc, a, vars)?;
    let high = bound(alloc, b, vars)?;
    let chosen = Poly::variable(alloc, vars, vars + 1)?;
    let mut guard = Vec::new(alloc);
    guard.push(difference(alloc, &chosen, &low)?)?;
    guard.push(difference(alloc, &high, &chosen)?)?;
    Ok(guard)
}
