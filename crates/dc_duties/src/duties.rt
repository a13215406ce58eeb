//! The duties in order.
ghost use Rattle.std.specs.Prelude.{◌≡◌, ◌++◌, IfOk, OnOk};
ghost use Rattle.dc_claims.specs.Duties.{duties_of, duties_along, duty_at_exit, duties_at_entry};
ghost use Rattle.dc_duties.specs.Lent.{flags_of};

use crate::plan::SidePlan;
use dc_claims::Duty;
use dc_syntax::Side;
use std::alloc::{AllocError, Global};

/// Those of new, those of old, and those of the cases.
pub fn duties_in_order(
    alloc: Global,
    new: &SidePlan,
    old: &SidePlan,
    live: &[bool],
) -> Result<Vec<Duty>, AllocError>
    ensures { IfOk result (λ v. v.items ≡ duties_of (flags_of new.now old.now live.now)) }
{
    let mut list = Vec::new(alloc);
    push_along(&mut list, Side::New, new.live)?;
    push_at_exit(&mut list, Side::New, new.exit_live)?;
    push_along(&mut list, Side::Old, old.live)?;
    push_at_exit(&mut list, Side::Old, old.exit_live)?;
    push_at_entry(&mut list, live)?;
    Ok(list)
}

// Adds those along the live edges of a side.
fn push_along(list: &mut Vec<Duty>, side: Side, live: &[bool]) -> Result<(), AllocError>
    ensures { OnOk result (list.new.items ≡ list.old.items ++ duties_along side live.now) }
{
    for (edge, flag) in live.iter().enumerate() {
        if *flag {
            list.push(Duty::Along(side, edge))?;
        }
    }
    Ok(())
}

// Adds that at a live exit.
fn push_at_exit(list: &mut Vec<Duty>, side: Side, live: bool) -> Result<(), AllocError>
    ensures { OnOk result (list.new.items ≡ list.old.items ++ duty_at_exit side live) }
{
    if live {
        list.push(Duty::AtExit(side))?;
    }
    Ok(())
}

// Adds those of the live cases.
fn push_at_entry(list: &mut Vec<Duty>, live: &[bool]) -> Result<(), AllocError>
    ensures { OnOk result (list.new.items ≡ list.old.items ++ duties_at_entry live.now) }
{
    for (case, flag) in live.iter().enumerate() {
        if *flag {
            list.push(Duty::AtEntry(case))?;
        }
    }
    Ok(())
}
