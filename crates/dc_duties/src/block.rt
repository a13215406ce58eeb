//! What a duty adds to the main problem.
ghost use Rattle.std.specs.Prelude.{◌≡◌, ◌≤◌, IfOk, map};
ghost use Rattle.std.specs.List.{AllByRecursion};
ghost use Rattle.dc_coefficients.specs.Monomials.{all_terms};
ghost use Rattle.dc_claims.specs.Claims.{products_count};
ghost use Rattle.dc_claims.specs.Duties.{IsThere, places_of};
ghost use Rattle.dc_claims.specs.Parts.{part_of, unknowns_of};
ghost use Rattle.dc_claims.specs.Blocks.{IsBlock, IsPart};
ghost use Rattle.dc_duties.specs.Lent.{lent};
ghost use Rattle.dc_duties.specs.Tasks.{IsTask};

use crate::parts::{part, places, rest};
use crate::plan::Task;
use crate::products::duty_products;
use dc_claims::Duty;
use dc_coefficients::{Block, monos_of};
use dc_poly::Poly;
use std::alloc::{AllocError, Global};

// The parts of all unknowns.
fn parts(alloc: Global, task: &Task, duty: &Duty) -> Result<Vec<Poly>, AllocError>
    requires task { IsTask task.now }
    requires there { IsThere (lent task.now.programs.now) duty.now }
    ensures terms { IfOk result
        (λ v. all_terms v.items
        ≡ map (part_of (lent task.now.programs.now) task.now.degree duty.now)
        (unknowns_of (lent task.now.programs.now) task.now.degree)) }
    ensures kinds { IfOk result
        (λ v. AllByRecursion (IsPart (places_of (lent task.now.programs.now) duty.now) 2) v.items) }
{
    let mut list = Vec::new(alloc);
    for unknown in task.unknowns.as_slice() {
        list.push(part(alloc, task, duty, unknown)?)?;
    }
    Ok(list)
}

/// What a duty adds.
pub fn block_of(alloc: Global, task: &Task, duty: &Duty) -> Result<Block, AllocError>
    requires task { IsTask task.now }
    requires there { IsThere (lent task.now.programs.now) duty.now }
    requires not_many { products_count (lent task.now.programs.now) task.now.products duty.now ≤ 8192 }
    ensures { IfOk result
        (IsBlock (lent task.now.programs.now) task.now.degree task.now.products duty.now) }
{
    let parts = parts(alloc, task, duty)?;
    let rest = rest(alloc, task.programs, duty)?;
    let places = places(task.programs, duty);
    let products = duty_products(alloc, task.programs, duty, places, task.products)?;
    let monos = monos_of(alloc, parts.as_slice(), &rest, products.as_slice())?;
    Ok(Block {
        monos,
        parts,
        rest,
        products,
    })
}
