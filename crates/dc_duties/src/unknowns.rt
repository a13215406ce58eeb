//! The unknowns in order.
ghost use Rattle.std.specs.Prelude.{◌≡◌, ◌++◌, ◌∷◌, map, IfOk, OnOk};
ghost use Rattle.std.specs.List.{range_with_len};
ghost use Rattle.dc_claims.specs.declared.duty.Unknown.TheVariants.{Bound, Coefficient};
ghost use Rattle.dc_syntax.specs.declared.tree.Side.TheVariants.{New, Old};
ghost use Rattle.dc_duties.specs.Lists.{coefficients};

use dc_claims::Unknown;
use dc_syntax::Side;
use std::alloc::{AllocError, Global};

/// How many locations a side has, and how many monomials at each.
#[derive(Clone, Copy)]
pub struct Extent {
    pub locations: usize,
    pub monomials: usize,
}

/// The threshold, then the coefficients of new, then those of old.
pub fn unknown_list(alloc: Global, new: Extent, old: Extent) -> Result<Vec<Unknown>, AllocError>
    ensures { IfOk result
        (λ v. v.items
        ≡ Bound
        ∷ (coefficients New new.locations new.monomials
        ++ coefficients Old old.locations old.monomials)) }
{
    let mut list = Vec::new(alloc);
    list.push(Unknown::Bound)?;
    push_coefficients(&mut list, Side::New, new)?;
    push_coefficients(&mut list, Side::Old, old)?;
    Ok(list)
}

// Adds the coefficients of a side, location by location.
fn push_coefficients(list: &mut Vec<Unknown>, side: Side, extent: Extent) -> Result<(), AllocError>
    ensures { OnOk result
        (list.new.items ≡ list.old.items ++ coefficients side extent.locations extent.monomials) }
{
    for location in 0..extent.locations {
        push_at(list, side, location, extent.monomials)?;
    }
    Ok(())
}

// Adds those at a location.
fn push_at(
    list: &mut Vec<Unknown>,
    side: Side,
    location: usize,
    monomials: usize,
) -> Result<(), AllocError>
    ensures { OnOk result
        (list.new.items
        ≡ list.old.items ++ map (Coefficient side location) (range_with_len 0 monomials)) }
{
    for number in 0..monomials {
        list.push(Unknown::Coefficient(side, location, number))?;
    }
    Ok(())
}
