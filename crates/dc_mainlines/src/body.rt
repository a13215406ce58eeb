//! The main problem's part of a certificate: its clauses in order.
ghost use Rattle.std.specs.Prelude.{◌≡◌, ◌+◌, ◌*◌, ◌≤◌, ◌<◌, ◌∷◌, [], ℕ, IfOk, length, map, pos, Some, true};
ghost use Rattle.std.specs.List.{range_with_len};
ghost use Rattle.std.specs.Option.{option_map};
ghost use Rattle.dc_frac.specs.Fits.{IsSmall};
ghost use Rattle.dc_frac.specs.Value.{value};
ghost use Rattle.dc_math.specs.Tests.{eq_ℚ, is_positive};
ghost use Rattle.dc_lp.specs.Problems.{IsWellFormed, whole_at, columns};
ghost use Rattle.dc_lp.specs.Folds.{folded};
ghost use Rattle.dc_cert.specs.declared.certificate.Body.TheVariants.{Threshold, Nothing, Vacuous};
ghost use Rattle.dc_cert.specs.Ranges.{IsBody};
ghost use Rattle.dc_cert.specs.Vectors.{IsVector, in_range};
ghost use Rattle.dc_clauses.specs.Steps.{all_of, counted, first_failure};
ghost use Rattle.dc_clauses.specs.Lines.{at};
ghost use Rattle.dc_clauses.specs.Mains.{claim_steps, equation_test, multipliers, price_test, range_step, range_steps, whole_problem};
ghost use Rattle.dc_mainlines.specs.Sums.{later_steps, short_columns};

use crate::steps::{entry, equation_failure, price_failure, right_sum, sign_failure};
use crate::sums::left_sums;
use dc_cert::{Body, Sparse, dense_of};
use dc_clauses::{Step, failure};
use dc_frac::Frac;
use dc_lp::Problem;
use std::alloc::{AllocError, Global};

/// Whether the items of a vector are in range; `vector` is its number.
fn range_failure(
    p: &Problem,
    unknowns: usize,
    vector: usize,
    count: usize,
    v: &Sparse,
) -> Option<Step>
    ensures { result
        ≡ first_failure (range_step (whole_problem p.now) unknowns vector count v.now ∷ []) }
{
    failure(7, vector, Some(v.is_below(count)))
}

/// The first vector with an item out of range.
fn ranges_failure(p: &Problem, unknowns: usize, body: &Body) -> Option<Step>
    requires room { unknowns * 2 ≤ columns p.now }
    ensures { result ≡ first_failure (range_steps (whole_problem p.now) unknowns body.now) }
{
    let multipliers = p.columns.len() - unknowns * 2;
    match body {
        Body::Threshold {
            t: _,
            unknown,
            lambda,
            dual,
        } => range_failure(p, unknowns, 0, unknowns, unknown)
            .or(range_failure(p, unknowns, 1, multipliers, lambda))
            .or(range_failure(p, unknowns, 4, p.rows, dual)),
        Body::Nothing { dual } => range_failure(p, unknowns, 4, p.rows, dual),
        Body::Vacuous {
            unknown,
            lambda,
            ray_unknown,
            ray_lambda,
        } => range_failure(p, unknowns, 0, unknowns, unknown)
            .or(range_failure(p, unknowns, 1, multipliers, lambda))
            .or(range_failure(p, unknowns, 2, unknowns, ray_unknown))
            .or(range_failure(p, unknowns, 3, multipliers, ray_lambda)),
    }
}

/// The first equation that doesn't hold for values of the unknowns and the multipliers.
fn solution_failure(
    alloc: Global,
    p: &Problem,
    unknowns: usize,
    clause: u8,
    unknown: &Sparse,
    lambda: &Sparse,
    right: &[i128],
) -> Result<Option<Step>, AllocError>
    requires well_formed { IsWellFormed p.now }
    requires room { unknowns * 2 ≤ columns p.now }
    requires unknown { IsVector unknown.now }
    requires lambda { IsVector lambda.now }
    requires unknown_range { in_range unknowns unknown.now ≡ true }
    requires lambda_range { in_range (multipliers (whole_problem p.now) unknowns) lambda.now ≡ true }
    requires small { (k : ℕ) → k < p.now.rows → IsSmall (whole_at right.now k) }
    ensures { IfOk result (λ step. step ≡ first_failure (counted clause 0 (map
        (equation_test (whole_problem p.now) unknowns (whole_at right.now) unknown.now lambda.now)
        (range_with_len 0 p.now.rows)))) }
{
    let sums = left_sums(alloc, p, unknowns, unknown, lambda)?;
    Ok(equation_failure(clause, sums.as_slice(), right))
}

/// The first column that a dual prices wrongly.
fn dual_failure(
    alloc: Global,
    p: &Problem,
    unknowns: usize,
    costs: &[i128],
    dual: &Sparse,
) -> Result<Option<Step>, AllocError>
    requires well_formed { IsWellFormed p.now }
    requires room { unknowns * 2 ≤ columns p.now }
    requires range { in_range p.now.rows dual.now ≡ true }
    requires small { (j : ℕ) → j < columns p.now → IsSmall (whole_at costs.now j) }
    ensures { IfOk result (λ step. step ≡ first_failure (counted 10 0 (map
        (price_test (whole_problem p.now) unknowns (whole_at costs.now) dual.now)
        (range_with_len 0 (unknowns + multipliers (whole_problem p.now) unknowns))))) }
{
    let y = dense_of(alloc, dual, p.rows)?;
    Ok(price_failure(p, unknowns, costs, y.as_slice()))
}

/// Whether the threshold is unknown 0, and the product of the dual with the right sides.
fn threshold_test(p: &Problem, t: &Frac, unknown: &Sparse, dual: &Sparse) -> Option<bool>
    requires well_formed { IsWellFormed p.now }
    requires vector { IsVector dual.now }
    requires range { in_range p.now.rows dual.now ≡ true }
    ensures { result ≡ all_of (Some (eq_ℚ (value t.now) (at unknown.now 0))
        ∷ option_map (λ s. eq_ℚ (value t.now) s)
        (folded p.now.rows (whole_at p.now.b.items) (at dual.now)) ∷ []) }
{
    if *t != entry(unknown.items.as_slice(), 0) {
        return Some(false);
    }
    let right = right_sum(p, dual)?;
    Some(*t == right)
}

/// Whether the product of the dual with the right sides is positive.
fn refutation_test(p: &Problem, dual: &Sparse) -> Option<bool>
    requires well_formed { IsWellFormed p.now }
    requires vector { IsVector dual.now }
    requires range { in_range p.now.rows dual.now ≡ true }
    ensures { result
        ≡ option_map is_positive (folded p.now.rows (whole_at p.now.b.items) (at dual.now)) }
{
    let right = right_sum(p, dual)?;
    Some(right.is_positive())
}

/// The first step behind the ranges that doesn't hold of a threshold.
fn threshold_failure(
    alloc: Global,
    p: &Problem,
    unknowns: usize,
    t: &Frac,
    unknown: &Sparse,
    lambda: &Sparse,
    dual: &Sparse,
) -> Result<Option<Step>, AllocError>
    requires well_formed { IsWellFormed p.now }
    requires room { unknowns * 2 ≤ columns p.now }
    requires unknown { IsVector unknown.now }
    requires lambda { IsVector lambda.now }
    requires dual { IsVector dual.now }
    requires unknown_range { in_range unknowns unknown.now ≡ true }
    requires lambda_range { in_range (multipliers (whole_problem p.now) unknowns) lambda.now ≡ true }
    requires dual_range { in_range p.now.rows dual.now ≡ true }
    ensures { IfOk result (λ step. step ≡ first_failure (later_steps (whole_problem p.now) unknowns
        (Threshold t.now unknown.now lambda.now dual.now))) }
{
    if let Some(step) = sign_failure(lambda.items.as_slice()) {
        return Ok(Some(step));
    }
    if let Some(step) = solution_failure(alloc, p, unknowns, 9, unknown, lambda, &p.b)? {
        return Ok(Some(step));
    }
    if let Some(step) = dual_failure(alloc, p, unknowns, &p.cost, dual)? {
        return Ok(Some(step));
    }
    Ok(failure(11, 0, threshold_test(p, t, unknown, dual)))
}

/// The first step behind the ranges that doesn't hold of a refutation.
fn nothing_failure(
    alloc: Global,
    p: &Problem,
    unknowns: usize,
    dual: &Sparse,
) -> Result<Option<Step>, AllocError>
    requires well_formed { IsWellFormed p.now }
    requires room { unknowns * 2 ≤ columns p.now }
    requires dual { IsVector dual.now }
    requires dual_range { in_range p.now.rows dual.now ≡ true }
    ensures { IfOk result (λ step. step ≡ first_failure (later_steps (whole_problem p.now) unknowns
        (Nothing dual.now))) }
{
    if let Some(step) = dual_failure(alloc, p, unknowns, &[], dual)? {
        return Ok(Some(step));
    }
    Ok(failure(11, 0, refutation_test(p, dual)))
}

/// The first step behind the ranges that doesn't hold of a solution and a ray.
fn vacuous_failure(
    alloc: Global,
    p: &Problem,
    unknowns: usize,
    unknown: &Sparse,
    lambda: &Sparse,
    ray_unknown: &Sparse,
    ray_lambda: &Sparse,
) -> Result<Option<Step>, AllocError>
    requires well_formed { IsWellFormed p.now }
    requires room { unknowns * 2 ≤ columns p.now }
    requires unknown { IsVector unknown.now }
    requires lambda { IsVector lambda.now }
    requires ray_unknown { IsVector ray_unknown.now }
    requires ray_lambda { IsVector ray_lambda.now }
    requires unknown_range { in_range unknowns unknown.now ≡ true }
    requires lambda_range { in_range (multipliers (whole_problem p.now) unknowns) lambda.now ≡ true }
    requires ray_unknown_range { in_range unknowns ray_unknown.now ≡ true }
    requires ray_lambda_range { in_range (multipliers (whole_problem p.now) unknowns) ray_lambda.now
        ≡ true }
    ensures { IfOk result (λ step. step ≡ first_failure (later_steps (whole_problem p.now) unknowns
        (Vacuous unknown.now lambda.now ray_unknown.now ray_lambda.now))) }
{
    if let Some(step) = sign_failure(lambda.items.as_slice()) {
        return Ok(Some(step));
    }
    if let Some(step) = sign_failure(ray_lambda.items.as_slice()) {
        return Ok(Some(step));
    }
    if let Some(step) = solution_failure(alloc, p, unknowns, 9, unknown, lambda, &p.b)? {
        return Ok(Some(step));
    }
    if let Some(step) = solution_failure(alloc, p, unknowns, 12, ray_unknown, ray_lambda, &[])? {
        return Ok(Some(step));
    }
    Ok(failure(
        13,
        0,
        Some(entry(ray_unknown.items.as_slice(), 0).is_negative()),
    ))
}

/// The first step of clauses 7 to 13 that doesn't hold of what a certificate claims, `None` where
/// all do.
///
/// Of the problem's columns the first `unknowns * 2` belong to the unknowns, a plus and a minus
/// each. Besides the time for its sums it takes time in proportion to the problem and the
/// certificate, and one number for each equation.
///
/// # Errors
/// Want of memory.
pub fn main_failure(
    alloc: Global,
    p: &Problem,
    unknowns: usize,
    body: &Body,
) -> Result<Option<Step>, AllocError>
    requires well_formed { IsWellFormed p.now }
    requires room { unknowns * 2 ≤ columns p.now }
    requires body { IsBody body.now }
    ensures { IfOk result (λ step. step
        ≡ first_failure (claim_steps (whole_problem p.now) unknowns body.now)) }
{
    if let Some(step) = ranges_failure(p, unknowns, body) {
        return Ok(Some(step));
    }
    match body {
        Body::Threshold {
            t,
            unknown,
            lambda,
            dual,
        } => threshold_failure(alloc, p, unknowns, t, unknown, lambda, dual),
        Body::Nothing { dual } => nothing_failure(alloc, p, unknowns, dual),
        Body::Vacuous {
            unknown,
            lambda,
            ray_unknown,
            ray_lambda,
        } => vacuous_failure(alloc, p, unknowns, unknown, lambda, ray_unknown, ray_lambda),
    }
}
