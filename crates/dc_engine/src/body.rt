//! The body of the certificate, by the outcome of the main problem.
ghost use Rattle.std.specs.Prelude.{◌≡◌, ◌⊎◌, pos, IfOk};
ghost use Rattle.dc_math.specs.Rational.{of_ℤ, ◌-ℚ◌};
ghost use Rattle.dc_frac.specs.Value.{value};
ghost use Rattle.dc_lp.specs.Folds.{numbers};
ghost use Rattle.dc_simplex.specs.Outcomes.{IsVector};
ghost use Rattle.dc_session.specs.Made.{unknown_in};
ghost use Rattle.dc_engine.specs.Bodies.{CanSplit, CanTell, IsSplit, TellsBody};

use dc_cert::{Body, Sparse, sparse_of};
use dc_frac::Frac;
use dc_simplex::Outcome;
use std::alloc::{AllocError, Global};

/// The difference of two numbers of which one is 0.
fn difference(plus: &Frac, minus: &Frac) -> Frac
    requires { (value plus.now ≡ of_ℤ (pos 0)) ⊎ (value minus.now ≡ of_ℤ (pos 0)) }
    ensures { value result ≡ value plus.now -ℚ value minus.now }
{
    if minus.is_zero() { *plus } else { minus.neg() }
}

/// Each unknown: its plus less its minus.
fn differences(alloc: Global, x: &[Frac], count: usize) -> Result<Vec<Frac>, AllocError>
    requires { CanSplit count x.now }
    ensures { IfOk result (λ v. IsVector count (unknown_in (numbers x.now)) v.items) }
{
    let mut list = Vec::new(alloc);
    for k in 0..count {
        list.push(difference(&x[k * 2], &x[k * 2 + 1]))?;
    }
    Ok(list)
}

/// A vector over the columns, by its unknowns and its multipliers.
#[derive(Drop)]
struct Split {
    pub unknown: Sparse,
    pub lambda: Sparse,
}

/// The unknowns and the multipliers of a vector over the columns.
fn split_vector(alloc: Global, x: &[Frac], count: usize) -> Result<Split, AllocError>
    requires { CanSplit count x.now }
    ensures { IfOk result (IsSplit count x.now) }
{
    let unknown = differences(alloc, x, count)?;
    Ok(Split {
        unknown: sparse_of(alloc, &unknown)?,
        lambda: sparse_of(alloc, &x[count * 2..])?,
    })
}

/// The body of an outcome with so many unknowns: the least threshold, none, or every one.
pub(crate) fn body_of(alloc: Global, outcome: &Outcome, count: usize) -> Result<Body, AllocError>
    requires { CanTell count outcome.now }
    ensures { IfOk result (TellsBody count outcome.now) }
{
    match outcome {
        Outcome::Optimal { x, y, value, .. } => {
            let Split { unknown, lambda } = split_vector(alloc, x, count)?;
            Ok(Body::Threshold {
                t: *value,
                unknown,
                lambda,
                dual: sparse_of(alloc, y)?,
            })
        }
        Outcome::Infeasible { y, .. } => Ok(Body::Nothing {
            dual: sparse_of(alloc, y)?,
        }),
        Outcome::Unbounded { x, ray, .. } => {
            let Split { unknown, lambda } = split_vector(alloc, x, count)?;
            let along = split_vector(alloc, ray, count)?;
            Ok(Body::Vacuous {
                unknown,
                lambda,
                ray_unknown: along.unknown,
                ray_lambda: along.lambda,
            })
        }
    }
}
