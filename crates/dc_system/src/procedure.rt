//! The system of a procedure.
ghost use Rattle.std.specs.Prelude.{◌≡◌, ◌⊎◌, ◌↔◌, IfOk, IfErr, Some, None, length, ℤ};
ghost use Rattle.dc_syntax.specs.Value.{State};
ghost use Rattle.dc_syntax.specs.Run.{Run};
ghost use Rattle.dc_system.specs.declared.edges.SystemFault.TheVariants.{NoMemory};
ghost use Rattle.dc_program.specs.Programs.{IsProgram};
ghost use Rattle.dc_system.specs.Systems.{size_fault, system_of};
ghost use Rattle.dc_system.specs.Shapes.{IsWellFormed};
ghost use Rattle.dc_system.specs.Laws.{Through};

use crate::count::count_all;
use crate::edges::{System, SystemFault};
use crate::laying::lay_all;
use crate::literals;
use dc_syntax::{Count, Proc};
use sqlite_items::Items;
use std::alloc::{AllocError, Global};

const MOST_LOCATIONS: u64 = 128;

const MOST_EDGES: usize = 512;

// The system of a procedure, within the limits.
fn build_system(alloc: Global, p: &Proc) -> Result<System, SystemFault>
    requires { IsProgram p.now }
    ensures system { IfOk result (λ s. s ≡ system_of p.now) }
    ensures within { IfOk result (λ s. size_fault p.now ≡ None) }
    ensures fault { IfErr result (λ f. (f ≡ NoMemory) ⊎ (size_fault p.now ≡ Some f)) }
{
    let vars = p.names.len();
    let body = p.body.as_slice();
    let statements = count_all(body);
    if statements >= MOST_LOCATIONS {
        return Err(SystemFault::TooLarge {
            what: Count::Locations,
            count: statements.saturating_add(1),
        });
    }
    let exit = statements as usize;
    let mut edges = Vec::new(alloc);
    lay_all(alloc, &mut edges, vars, body, 0, exit)?;
    if edges.len() > MOST_EDGES {
        return Err(SystemFault::TooLarge {
            what: Count::Edges,
            count: edges.len() as u64,
        });
    }
    let mut literals = Vec::new(alloc);
    literals::of_body(&mut literals, body)?;
    Ok(System {
        vars,
        params: p.params,
        locs: exit + 1,
        edges: Items::from_vec(edges),
        literals: Items::from_vec(literals),
    })
}

/// The system of a procedure: one location before each statement, numbered in preorder from 0, and
/// the exit.
///
/// The procedure is a program as the parser gives it (`dc_program`): its names differ and are at
/// most 10, parameters first, its literals, operators, forms and conditions are within their
/// bounds. `TooLarge` comes with `Locations` exactly where the statements and the exit are more
/// than 128, else with `Edges` exactly where the edges are more than 512. A count past 64 bits
/// stands at 2^64 - 1.
///
/// From each state the paths from location 0 to the exit are exactly the finished runs of the body.
#[tactic(auto, using(crate::proofs::Built::building))]
pub fn build(alloc: Global, p: &Proc) -> Result<System, SystemFault>
    requires { IsProgram p.now }
    ensures system { IfOk result (λ s. s ≡ system_of p.now) }
    ensures within { IfOk result (λ s. size_fault p.now ≡ None) }
    ensures fault { IfErr result (λ f. (f ≡ NoMemory) ⊎ (size_fault p.now ≡ Some f)) }
    ensures well_formed { IfOk result (λ s. IsWellFormed s) }
    ensures paths { IfOk result
        (λ s. (x : State) (c : ℤ) (t : State) → length x ≡ s.vars → Through s x c t
        ↔ Run p.now.body x c t) }
{
    let system = build_system(alloc, p)?;
    Ok(system)
}
