//! How large the main problem is.
ghost use Rattle.std.specs.Prelude.{◌≡◌, ◌≤◌, ◌+◌, ◌*◌, All, IfOk, length, sum_by};
ghost use Rattle.dc_claims.specs.Claims.{products_count};
ghost use Rattle.dc_claims.specs.Duties.{IsThere};
ghost use Rattle.dc_claims.specs.Parts.{unknowns_of, unknowns_on};
ghost use Rattle.dc_claims.specs.Plans.{IsPair};
ghost use Rattle.dc_duties.specs.Lent.{lent};
ghost use Rattle.dc_duties.specs.Tasks.{IsTask};
ghost use Rattle.dc_table.specs.Tables.{equations_in};

use dc_claims::Duty;
use dc_duties::{Programs, Task, block_of, duty_product_count};
use dc_syntax::Side;
use dc_template::unknowns;
use std::alloc::{AllocError, Global};

// The coefficients of a side.
fn coefficient_count(programs: &Programs, side: Side, degree: u8) -> u64
    requires pair { IsPair (lent programs.now) }
    requires low { degree ≤ 3 }
    ensures count { result ≡ length (unknowns_on (lent programs.now) degree side) }
    ensures small { result ≤ 128 * 8192 }
{
    let system = programs.system(side);
    system.locs as u64 * unknowns(system.vars, degree)
}

/// The columns of the main problem: two for each unknown, and one for each product. No product is made.
pub fn column_count(programs: &Programs, duties: &[Duty], degree: u8, products: u8) -> u64
    requires pair { IsPair (lent programs.now) }
    requires there { All (IsThere (lent programs.now)) duties.now }
    requires not_many { length duties.now ≤ 2048 }
    requires low { degree ≤ 3 }
    requires some { 1 ≤ products }
    requires few { products ≤ 3 }
    ensures { result
        ≡ 2 * length (unknowns_of (lent programs.now) degree)
        + sum_by (products_count (lent programs.now) products) duties.now }
{
    let new = coefficient_count(programs, Side::New, degree);
    let old = coefficient_count(programs, Side::Old, degree);
    let mut count = 2 * (1 + new + old);
    for duty in duties {
        count += duty_product_count(programs, duty, products);
    }
    count
}

/// The equations of some duties. A count past 64 bits is told as want of memory: no machine holds
/// so many monomials.
pub fn equation_count(alloc: Global, task: &Task, duties: &[Duty]) -> Result<u64, AllocError>
    requires task { IsTask task.now }
    requires there { All (IsThere (lent task.now.programs.now)) duties.now }
    requires few { All (λ o. products_count
        (lent task.now.programs.now) task.now.products o ≤ 8192) duties.now }
    ensures { IfOk result
        (λ n. n
        ≡ length (equations_in
        (lent task.now.programs.now) task.now.degree task.now.products duties.now)) }
{
    let mut count: u64 = 0;
    for duty in duties {
        let block = block_of(alloc, task, duty)?;
        let Some(more) = count.checked_add(block.monos.as_slice().len() as u64) else {
            return Err(AllocError);
        };
        count = more;
    }
    Ok(count)
}
