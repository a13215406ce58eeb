//! The forms and conditions of an accepted procedure, over its variables and the chosen value.
ghost use Rattle.std.specs.Prelude.{ℕ, ◌≡◌, ◌≤◌, ◌+◌, IfOk, None, true};
ghost use Rattle.dc_poly.specs.Terms.{IsPolynomial};
ghost use Rattle.dc_affine.specs.declared.form.FormFault.TheVariants.{NoMemory};
ghost use Rattle.dc_poly.specs.NormalForm.{IsNormalForm};
ghost use Rattle.dc_affine.specs.Forms.{affine_fault, fault_of, form_of, is_below};
ghost use Rattle.dc_affine.specs.Atoms.{cases_of, cond_is_below, conjunctions_of, dnf_fault};

use dc_affine::{Atom, FormFault, affine, dnf, normal};
use dc_poly::Poly;
use dc_syntax::{Cond, Expr};
use std::alloc::{AllocError, Global};

// Want of memory, where a fault can be nothing else.
fn memory(fault: FormFault) -> AllocError
    requires { fault ≡ NoMemory }
{
    match fault {
        FormFault::NoMemory => AllocError,
        _ => unreachable!(),
    }
}

// The normal form of an expression over so many variables and the chosen value.
pub(crate) fn form(alloc: Global, e: &Expr, vars: usize) -> Result<Poly, AllocError>
    requires few { vars ≤ 10 }
    requires below { is_below vars e.now ≡ true }
    requires passes { fault_of vars e.now ≡ None }
    ensures { IfOk result (λ p. p ≡ form_of (vars + 1) e.now) }
{
    match normal(alloc, e, vars + 1) {
        Ok(form) => Ok(form),
        Err(fault) => Err(memory(fault)),
    }
}

// The form of a bound.
pub(crate) fn bound(alloc: Global, e: &Expr, vars: usize) -> Result<Poly, AllocError>
    requires few { vars ≤ 10 }
    requires below { is_below vars e.now ≡ true }
    requires passes { affine_fault vars e.now ≡ None }
    ensures form { IfOk result (λ p. p ≡ form_of (vars + 1) e.now) }
    ensures kind { IfOk result (λ p. IsPolynomial p) }
    ensures narrow { IfOk result (λ p. IsNormalForm p.terms) }
{
    match affine(alloc, e, vars + 1) {
        Ok(form) => Ok(form),
        Err(fault) => Err(memory(fault)),
    }
}

// The conjunctions of a condition, or of its negation.
pub(crate) fn cases(
    alloc: Global,
    c: &Cond,
    negated: bool,
    vars: usize,
) -> Result<Vec<Vec<Atom>>, AllocError>
    requires few { vars ≤ 10 }
    requires below { cond_is_below vars c.now ≡ true }
    requires passes { dnf_fault vars c.now negated ≡ None }
    ensures { IfOk result (λ v. cases_of v.items ≡ conjunctions_of (vars + 1) c.now negated) }
{
    match dnf(alloc, c, negated, vars + 1) {
        Ok(cases) => Ok(cases),
        Err(fault) => Err(memory(fault)),
    }
}
