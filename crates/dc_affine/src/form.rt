//! The normal form of an expression.
ghost use Rattle.std.specs.Prelude.{ℕ, ◌≡◌, ◌≤◌, ◌^◌, ◌+◌, ◌*◌, IfOk, IfErr, IsTrue, Some, None, true};
ghost use Rattle.std.specs.Option.{option_or};
ghost use Rattle.dc_poly.specs.Terms.{IsPolynomial, degree_of};
ghost use Rattle.dc_poly.specs.Sums.{sum_of, negation_of, product_of};
ghost use Rattle.dc_poly.specs.NormalForm.{IsNormalForm, coefs_fit};
ghost use Rattle.dc_affine.specs.Forms.{IsCause, affine_fault, bend, fault_of, form_of, is_below, own_fault};

use dc_poly::Poly;
use dc_syntax::Expr;
use std::alloc::{AllocError, Global};
use thiserror::Error;

/// Why a form or a condition is refused.
#[derive(Debug, Drop, Error)]
pub enum FormFault {
    /// A normal form has a degree above 2.
    #[error("a degree above 2")]
    DegreeTooHigh,
    /// A normal form has a coefficient above 2147483647 in size.
    #[error("a coefficient that is too large")]
    CoefficientRange,
    /// A form that should be affine has degree 2.
    #[error("not affine")]
    NotAffine,
    /// A condition has more than 64 conjunctions.
    #[error("a condition with too many cases")]
    ConditionTooWide,
    #[error("out of memory")]
    NoMemory,
}

impl From<AllocError> for FormFault {
    ghost use Rattle.dc_affine.specs.declared.form.FormFault.TheVariants.{NoMemory};

    ghost from_gives = { λ _ e. e ≡ NoMemory };

    fn from(_error: AllocError) -> FormFault {
        FormFault::NoMemory
    }
}

/// The greatest size of a coefficient of a form or an atom.
pub const MOST_COEFFICIENT: u128 = 2147483647;

/// The greatest size of an atom's constant. A constant is a coefficient or 1 less than one, so this
/// is 1 more than the greatest size of a coefficient.
pub const MOST_CONSTANT: u128 = 2147483648;

/// Whether each coefficient is at most `MOST_COEFFICIENT` in size.
pub fn in_range(form: &Poly) -> bool
    ensures { result ≡ coefs_fit form.now.terms }
{
    for term in form.terms() {
        if term.coef.unsigned_abs() > MOST_COEFFICIENT {
            return false;
        }
    }
    true
}

// Judges a normal form alone, after its operands.

fn judge(form: Poly) -> Result<Poly, FormFault>
    requires { IsPolynomial form }
    ensures form { IfOk result (λ p. p ≡ form) }
    ensures passes { IfOk result (λ p. own_fault p.terms ≡ None) }
    ensures fault { IfErr result (λ f. own_fault form.terms ≡ Some f) }
    ensures kind { IfOk result (λ p. IsPolynomial p) }
    ensures narrow { IfOk result (λ p. IsNormalForm p.terms) }
{
    if form.degree() > 2 {
        return Err(FormFault::DegreeTooHigh);
    }
    if !in_range(&form) {
        return Err(FormFault::CoefficientRange);
    }
    Ok(form)
}

// Judges the degree of a form that should be affine.
fn judge_degree(form: &Poly) -> Result<(), FormFault>
    ensures passes { IfOk result (λ u. bend form.now.terms ≡ None) }
    ensures fault { IfErr result (λ f. bend form.now.terms ≡ Some f) }
    ensures low { IfOk result (λ u. degree_of form.now.terms ≤ 1) }
{
    if form.degree() > 1 {
        return Err(FormFault::NotAffine);
    }
    Ok(())
}

// The normal form of a sum.
#[tactic(auto, using(crate::proofs::Narrow::operands))]
fn sum(alloc: Global, left: &Poly, right: &Poly) -> Result<Poly, AllocError>
    requires places { right.now.places ≡ left.now.places }
    requires kinds { IsPolynomial left.now × IsPolynomial right.now }
    requires narrow { IsNormalForm left.now.terms × IsNormalForm right.now.terms }
    ensures sum { IfOk result (λ p. p ≡ sum_of left.now right.now) }
    ensures kind { IfOk result (λ p. IsPolynomial p) }
{
    left.add(alloc, right)
}

// The difference of two normal forms.
#[tactic(auto, using(crate::proofs::Narrow::operands))]
pub(crate) fn difference(alloc: Global, left: &Poly, right: &Poly) -> Result<Poly, AllocError>
    requires places { right.now.places ≡ left.now.places }
    requires kinds { IsPolynomial left.now × IsPolynomial right.now }
    requires narrow { IsNormalForm left.now.terms × IsNormalForm right.now.terms }
    ensures difference { IfOk result (λ p. p ≡ sum_of left.now (negation_of right.now)) }
    ensures kind { IfOk result (λ p. IsPolynomial p) }
{
    let negation = right.neg(alloc)?;
    left.add(alloc, &negation)
}

// The product of two normal forms, whose degree is at most 4.
#[tactic(auto, using(crate::proofs::Narrow::operands))]
fn product(alloc: Global, left: &Poly, right: &Poly) -> Result<Poly, AllocError>
    requires places { right.now.places ≡ left.now.places }
    requires kinds { IsPolynomial left.now × IsPolynomial right.now }
    requires narrow { IsNormalForm left.now.terms × IsNormalForm right.now.terms }
    ensures product { IfOk result (λ p. p ≡ product_of left.now right.now) }
    ensures kind { IfOk result (λ p. IsPolynomial p) }
{
    left.mul(alloc, right)
}

/// The normal form of an expression: its polynomial over so many places.
///
/// Subexpressions are taken left operand, right operand, then the whole. The first whose normal form
/// breaks a bound is refused: `DegreeTooHigh` exactly where its degree is above 2, else
/// `CoefficientRange` exactly where a coefficient passes 2147483647 in size.
pub fn normal(alloc: Global, e: &Expr, places: usize) -> Result<Poly, FormFault>
    requires few { places ≤ 11 }
    requires below { is_below places e.now ≡ true }
    ensures form { IfOk result (λ p. p ≡ form_of places e.now) }
    ensures passes { IfOk result (λ p. fault_of places e.now ≡ None) }
    ensures fault { IfErr result (λ f. IsCause f (fault_of places e.now)) }
    ensures kind { IfOk result (λ p. IsPolynomial p) }
    ensures narrow { IfOk result (λ p. IsNormalForm p.terms) }
{
    let form = match e {
        Expr::Num(value) => Poly::constant(alloc, *value as i128, places)?,
        Expr::Var(index) => Poly::variable(alloc, *index, places)?,
        Expr::Neg(a) => {
            let a = normal(alloc, a.get(), places)?;
            a.neg(alloc)?
        }
        Expr::Add(a, b) => {
            let left = normal(alloc, a.get(), places)?;
            let right = normal(alloc, b.get(), places)?;
            sum(alloc, &left, &right)?
        }
        Expr::Sub(a, b) => {
            let left = normal(alloc, a.get(), places)?;
            let right = normal(alloc, b.get(), places)?;
            difference(alloc, &left, &right)?
        }
        Expr::Mul(a, b) => {
            let left = normal(alloc, a.get(), places)?;
            let right = normal(alloc, b.get(), places)?;
            product(alloc, &left, &right)?
        }
    };
    judge(form)
}

/// The normal form of an expression of degree at most 1.
///
/// Faults are those of [`normal`], and then `NotAffine` exactly where the degree is 2.
pub fn affine(alloc: Global, e: &Expr, places: usize) -> Result<Poly, FormFault>
    requires few { places ≤ 11 }
    requires below { is_below places e.now ≡ true }
    ensures form { IfOk result (λ p. p ≡ form_of places e.now) }
    ensures passes { IfOk result (λ p. affine_fault places e.now ≡ None) }
    ensures fault { IfErr result (λ f. IsCause f (affine_fault places e.now)) }
    ensures kind { IfOk result (λ p. IsPolynomial p) }
    ensures narrow { IfOk result (λ p. IsNormalForm p.terms) }
    ensures low { IfOk result (λ p. degree_of p.terms ≤ 1) }
{
    let form = normal(alloc, e, places)?;
    judge_degree(&form)?;
    Ok(form)
}
