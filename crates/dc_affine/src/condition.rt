//! A condition as conjunctions of atoms.
ghost use Rattle.std.specs.Prelude.{ℕ, ◌≡◌, ◌≤◌, ◌+◌, ◌*◌, ◌++◌, List, [], ◌∷◌, IfOk, IfErr, OnOk, Some, None, true, length, min, if◌then◌else◌};
ghost use Rattle.std.specs.Option.{option_or};
ghost use Rattle.dc_poly.specs.Terms.{IsPolynomial, degree_of, polynomial};
ghost use Rattle.dc_syntax.specs.declared.tree.Expr.{Expr as ExprTree};
ghost use Rattle.dc_poly.specs.NormalForm.{coefs_fit};
ghost use Rattle.dc_affine.specs.Forms.{IsCause, is_below};
ghost use Rattle.dc_affine.specs.Table.{after, crossed, facts_of, falsity, relation};
ghost use Rattle.dc_affine.specs.Table.{opposite as opposite_of};
ghost use Rattle.dc_affine.specs.Atoms.{AllCases, IsFullAtom, atom_of, cases_of, comparison_fault, cond_is_below, conjunctions_of, dnf_fault, gap_fault, gap_of, sides_fault, width_fault};
ghost use Rattle.dc_affine.specs.Gaps.{combined};

use crate::atom::{Atom, at_least, comparison, single};
use crate::form::{FormFault, difference, in_range, normal};
use dc_poly::Poly;
use dc_syntax::{Cond, Expr, Rel};
use std::alloc::{AllocError, Global};

const WIDEST: usize = 64;

// Judges the difference of the sides of a comparison.
fn judge_gap(gap: &Poly) -> Result<(), FormFault>
    ensures passes { IfOk result (λ u. gap_fault gap.now.terms ≡ None) }
    ensures fault { IfErr result (λ f. gap_fault gap.now.terms ≡ Some f) }
    ensures fits { IfOk result (λ u. coefs_fit gap.now.terms ≡ true) }
{
    if gap.degree() > 1 {
        return Err(FormFault::NotAffine);
    }
    if !in_range(gap) {
        return Err(FormFault::CoefficientRange);
    }
    Ok(())
}

// The left side of a comparison less its right side.
fn gap(alloc: Global, a: &Expr, b: &Expr, places: usize) -> Result<Poly, FormFault>
    requires few { places ≤ 11 }
    requires left { is_below places a.now ≡ true }
    requires right { is_below places b.now ≡ true }
    ensures form { IfOk result (λ p. p ≡ polynomial places (gap_of places a.now b.now)) }
    ensures passes { IfOk result (λ p. sides_fault places a.now b.now ≡ None) }
    ensures fault { IfErr result (λ f. IsCause f (sides_fault places a.now b.now)) }
    ensures kind { IfOk result (λ p. IsPolynomial p) }
    ensures fits { IfOk result (λ p. coefs_fit p.terms ≡ true) }
{
    let left = normal(alloc, a, places)?;
    let right = normal(alloc, b, places)?;
    let gap = difference(alloc, &left, &right)?;
    judge_gap(&gap)?;
    Ok(gap)
}

// Judges each comparison of a condition, from left to right.
fn judge(alloc: Global, c: &Cond, places: usize) -> Result<(), FormFault>
    requires few { places ≤ 11 }
    requires below { cond_is_below places c.now ≡ true }
    ensures passes { IfOk result (λ u. comparison_fault places c.now ≡ None) }
    ensures fault { IfErr result (λ f. IsCause f (comparison_fault places c.now)) }
{
    match c {
        Cond::True => Ok(()),
        Cond::False => Ok(()),
        Cond::Cmp(a, _, b) => {
            let _gap = gap(alloc, a, b, places)?;
            Ok(())
        }
        Cond::Not(c) => judge(alloc, c.get(), places),
        Cond::And(c, d) => {
            judge(alloc, c.get(), places)?;
            judge(alloc, d.get(), places)
        }
        Cond::Or(c, d) => {
            judge(alloc, c.get(), places)?;
            judge(alloc, d.get(), places)
        }
    }
}

// The comparison that holds where another does not.
fn opposite(rel: Rel) -> Rel
    ensures { result ≡ opposite_of rel }
{
    match rel {
        Rel::Le => Rel::Gt,
        Rel::Lt => Rel::Ge,
        Rel::Ge => Rel::Lt,
        Rel::Gt => Rel::Le,
        Rel::Eq => Rel::Ne,
        Rel::Ne => Rel::Eq,
    }
}

// The comparison, or where negated its opposite.
fn opposite_if(rel: Rel, negated: bool) -> Rel
    ensures { result ≡ (if negated then opposite_of rel else rel) }
{
    if negated { opposite(rel) } else { rel }
}

// The number of conjunctions of a comparison.
fn relation_width(rel: Rel) -> usize
    ensures { (a b : ExprTree) → result ≡ length (relation a rel b) }
{
    match rel {
        Rel::Ne => 2,
        _ => 1,
    }
}

// The number of conjunctions of a condition, or 65 where there are more.
fn width(c: &Cond, negated: bool) -> usize
    ensures { result ≡ min (length (facts_of c.now negated)) 65 }
{
    match c {
        Cond::True => 1,
        Cond::False => 1,
        Cond::Cmp(_, rel, _) => relation_width(opposite_if(*rel, negated)),
        Cond::Not(c) => width(c.get(), !negated),
        Cond::And(c, d) => {
            let left = width(c.get(), negated);
            let right = width(d.get(), negated);
            widths(left, right, !negated)
        }
        Cond::Or(c, d) => {
            let left = width(c.get(), negated);
            let right = width(d.get(), negated);
            widths(left, right, negated)
        }
    }
}

// The number of two lists of cases that are crossed or joined, or 65 where there are more.
#[tactic(auto, using(crate::proofs::Widths::capping))]
fn widths(left: usize, right: usize, cross: bool) -> usize
    requires left { left ≤ 65 }
    requires right { right ≤ 65 }
    ensures { (m n : ℕ) → left ≡ min m 65 → right ≡ min n 65
        → result ≡ min (if cross then m * n else m + n) 65 }
{
    if cross {
        (left * right).min(WIDEST + 1)
    } else {
        (left + right).min(WIDEST + 1)
    }
}

// Puts copies of atoms at the end of a case.
fn append(alloc: Global, case: &mut Vec<Atom>, atoms: &[Atom]) -> Result<(), AllocError>
    ensures { OnOk result (case.new.items ≡ case.old.items ++ atoms.now) }
{
    for atom in atoms {
        case.push(atom.copy(alloc)?)?;
    }
    Ok(())
}

// A case with each of a list of cases appended.
#[tactic(auto, using(crate::proofs::Crossing::crossing))]
fn extend(
    alloc: Global,
    out: &mut Vec<Vec<Atom>>,
    case: &[Atom],
    cases: &[Vec<Atom>],
) -> Result<(), AllocError>
    ensures { OnOk result
        (cases_of out.new.items ≡ cases_of out.old.items ++ after case.now (cases_of cases.now)) }
{
    for more in cases {
        let mut both = Vec::new(alloc);
        append(alloc, &mut both, case)?;
        append(alloc, &mut both, more.as_slice())?;
        out.push(both)?;
    }
    Ok(())
}

// Each of one list of cases with each of another, the first outermost.
#[tactic(auto, using(crate::proofs::Crossing::crossing))]
fn cross(
    alloc: Global,
    left: &[Vec<Atom>],
    right: &[Vec<Atom>],
) -> Result<Vec<Vec<Atom>>, AllocError>
    ensures { IfOk result (λ v. cases_of v.items ≡ crossed (cases_of left.now) (cases_of right.now)) }
{
    let mut out = Vec::new(alloc);
    for case in left {
        extend(alloc, &mut out, case.as_slice(), right)?;
    }
    Ok(out)
}

// Two lists of cases crossed, or one after the other.
#[tactic(auto, using(crate::proofs::Crossing::crossing))]
fn combine(
    alloc: Global,
    left: Vec<Vec<Atom>>,
    right: Vec<Vec<Atom>>,
    crossing: bool,
) -> Result<Vec<Vec<Atom>>, AllocError>
    ensures { IfOk result
        (λ v. cases_of v.items ≡ combined crossing (cases_of left.items) (cases_of right.items)) }
{
    if crossing {
        return cross(alloc, left.as_slice(), right.as_slice());
    }
    let mut all = left;
    let mut rest = right;
    all.append(&mut rest)?;
    Ok(all)
}

// One case.
fn one_case(alloc: Global, case: Vec<Atom>) -> Result<Vec<Vec<Atom>>, AllocError>
    ensures { IfOk result (λ v. cases_of v.items ≡ case.items ∷ []) }
{
    let mut cases = Vec::new(alloc);
    cases.push(case)?;
    Ok(cases)
}

// The one atom that never holds.
fn never(alloc: Global, places: usize) -> Result<Vec<Atom>, AllocError>
    requires { places ≤ 11 }
    ensures { IfOk result (λ v. v.items ≡ atom_of places falsity ∷ []) }
{
    let zero = Poly::constant(alloc, 0, places)?;
    let atom = at_least(alloc, &zero, false, 1)?;
    let atoms = single(alloc, atom)?;
    Ok(atoms)
}

// The one case without atoms, or the one of an atom that never holds.
fn constant(alloc: Global, truth: bool, places: usize) -> Result<Vec<Vec<Atom>>, AllocError>
    requires { places ≤ 11 }
    ensures { IfOk result
        (λ v. cases_of v.items ≡ (if truth then [] ∷ [] else (atom_of places falsity ∷ []) ∷ [])) }
{
    if truth {
        return one_case(alloc, Vec::new(alloc));
    }
    let atoms = never(alloc, places)?;
    one_case(alloc, atoms)
}

// The conjunctions of a condition, or of its negation.
fn conjunctions(
    alloc: Global,
    c: &Cond,
    negated: bool,
    places: usize,
) -> Result<Vec<Vec<Atom>>, FormFault>
    requires few { places ≤ 11 }
    requires below { cond_is_below places c.now ≡ true }
    ensures cases { IfOk result (λ v. cases_of v.items ≡ conjunctions_of places c.now negated) }
    ensures passes { IfOk result (λ v. comparison_fault places c.now ≡ None) }
    ensures fault { IfErr result (λ f. IsCause f (comparison_fault places c.now)) }
{
    match c {
        Cond::True => Ok(constant(alloc, !negated, places)?),
        Cond::False => Ok(constant(alloc, negated, places)?),
        Cond::Cmp(a, rel, b) => {
            let gap = gap(alloc, a, b, places)?;
            Ok(comparison(alloc, &gap, opposite_if(*rel, negated))?)
        }
        Cond::Not(c) => conjunctions(alloc, c.get(), !negated, places),
        Cond::And(c, d) => {
            let left = conjunctions(alloc, c.get(), negated, places)?;
            let right = conjunctions(alloc, d.get(), negated, places)?;
            Ok(combine(alloc, left, right, !negated)?)
        }
        Cond::Or(c, d) => {
            let left = conjunctions(alloc, c.get(), negated, places)?;
            let right = conjunctions(alloc, d.get(), negated, places)?;
            Ok(combine(alloc, left, right, negated)?)
        }
    }
}

// Judges the number of conjunctions.
#[tactic(auto, using(crate::proofs::Widths::widest))]
fn judge_width(c: &Cond, negated: bool) -> Result<(), FormFault>
    ensures passes { IfOk result (λ u. width_fault c.now negated ≡ None) }
    ensures fault { IfErr result (λ f. width_fault c.now negated ≡ Some f) }
{
    if width(c, negated) > WIDEST {
        return Err(FormFault::ConditionTooWide);
    }
    Ok(())
}

/// The conjunctions of a condition, or of its negation, as atoms with one coefficient per place.
///
/// Negation is pushed inward: `a < b` is the one atom `b - a - 1`, `a != b` the two cases `b - a -
/// 1` and `a - b - 1`, `&&` crosses the cases of its operands, the left one outermost, and `||`
/// puts those of the right one after those of the left one. `true` is one case without atoms,
/// `false` one case of the atom -1.
///
/// Comparisons are taken from left to right: the faults of [`normal`] of the left side, of the
/// right side, then `NotAffine` exactly where their difference has degree 2, then
/// `CoefficientRange` exactly where it has a coefficient above 2147483647 in size. After all
/// comparisons, `ConditionTooWide` exactly where there are more than 64 conjunctions; they are
/// counted, not built.
#[tactic(auto, using(crate::proofs::Widths::widest))]
pub fn dnf(
    alloc: Global,
    c: &Cond,
    negated: bool,
    places: usize,
) -> Result<Vec<Vec<Atom>>, FormFault>
    requires few { places ≤ 11 }
    requires below { cond_is_below places c.now ≡ true }
    ensures cases { IfOk result (λ v. cases_of v.items ≡ conjunctions_of places c.now negated) }
    ensures passes { IfOk result (λ v. dnf_fault places c.now negated ≡ None) }
    ensures fault { IfErr result (λ f. IsCause f (dnf_fault places c.now negated)) }
    ensures atoms { IfOk result (λ v. AllCases (IsFullAtom places) (cases_of v.items)) }
{
    judge(alloc, c, places)?;
    judge_width(c, negated)?;
    let cases = conjunctions(alloc, c, negated, places)?;
    Ok(cases)
}
