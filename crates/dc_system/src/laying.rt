//! The edges of a body, statement by statement.
ghost use Rattle.std.specs.Prelude.{ℕ, ◌≡◌, ◌≤◌, ◌<◌, ◌+◌, ◌++◌, [], ◌∷◌, map, IfOk, OnOk, true};
ghost use Rattle.dc_affine.specs.Atoms.{cases_of};
ghost use Rattle.dc_affine.specs.Whole.{all_pass, statement_passes};
ghost use Rattle.dc_graph.specs.Pieces.{piece, pieces, all_arrows, sizes};
ghost use Rattle.dc_system.specs.Simple.{IsSimple};
ghost use Rattle.dc_system.specs.Edges.{cost_edge, edge_of, set_edge, test_edge, test_edges, unchanged};

use crate::count::{count, count_all, first};
use crate::edges::Edge;
use crate::forms::{cases, form};
use crate::guards::between;
use dc_affine::Atom;
use dc_poly::Poly;
use dc_syntax::Stmt;
use sqlite_items::Items;
use std::alloc::{AllocError, Global};

// The variables themselves.
fn variables(alloc: Global, vars: usize) -> Result<Vec<Poly>, AllocError>
    requires { vars ≤ 10 }
    ensures { IfOk result (λ v. v.items ≡ unchanged vars) }
{
    let mut update = Vec::new(alloc);
    for k in 0..vars {
        update.push(Poly::variable(alloc, k, vars + 1)?)?;
    }
    Ok(update)
}

// An edge that only tests.
fn test(
    alloc: Global,
    vars: usize,
    from: usize,
    to: usize,
    guard: Vec<Atom>,
) -> Result<Edge, AllocError>
    requires { vars ≤ 10 }
    ensures { IfOk result (λ e. e ≡ test_edge vars from to guard.items) }
{
    Ok(Edge {
        from,
        to,
        guard: Items::from_vec(guard),
        update: Items::from_vec(variables(alloc, vars)?),
        any: false,
        cost: Poly::constant(alloc, 0, vars + 1)?,
    })
}

// One edge that only tests for each guard.
#[tactic(auto, using(crate::proofs::Pushed::branching))]
fn branch(
    alloc: Global,
    out: &mut Vec<Edge>,
    vars: usize,
    from: usize,
    to: usize,
    guards: Vec<Vec<Atom>>,
) -> Result<(), AllocError>
    requires { vars ≤ 10 }
    ensures { OnOk result
        (out.new.items ≡ out.old.items ++ test_edges vars from to (cases_of guards.items)) }
{
    for guard in guards {
        out.push(test(alloc, vars, from, to, guard)?)?;
    }
    Ok(())
}

// What an assignment does: one variable takes a value, under a guard that may mention the chosen value.
fn assignment(
    alloc: Global,
    vars: usize,
    from: usize,
    to: usize,
    guard: Vec<Atom>,
    index: usize,
    value: Poly,
    any: bool,
) -> Result<Edge, AllocError>
    requires few { vars ≤ 10 }
    requires inside { index < vars }
    ensures { IfOk result (λ e. e ≡ set_edge vars from to guard.items index value any) }
{
    let mut update = variables(alloc, vars)?;
    update[index] = value;
    Ok(Edge {
        from,
        to,
        guard: Items::from_vec(guard),
        update: Items::from_vec(update),
        any,
        cost: Poly::constant(alloc, 0, vars + 1)?,
    })
}

// An edge that only costs.
fn payment(
    alloc: Global,
    vars: usize,
    from: usize,
    to: usize,
    cost: Poly,
) -> Result<Edge, AllocError>
    requires { vars ≤ 10 }
    ensures { IfOk result (λ e. e ≡ cost_edge vars from to cost) }
{
    Ok(Edge {
        from,
        to,
        guard: Items::new(alloc),
        update: Items::from_vec(variables(alloc, vars)?),
        any: false,
        cost,
    })
}

// The edge of a statement that has no condition and no statements inside it.
#[tactic(auto, using(crate::proofs::Simple::simples))]
fn simple_edge(
    alloc: Global,
    vars: usize,
    statement: &Stmt,
    from: usize,
    to: usize,
) -> Result<Edge, AllocError>
    requires few { vars ≤ 10 }
    requires passes { statement_passes vars statement.now ≡ true }
    requires simple { IsSimple statement.now }
    ensures { IfOk result (λ e. e ∷ [] ≡ map (edge_of vars) ((piece statement.now).arrows from to)) }
{
    let none = Vec::new(alloc);
    match statement {
        Stmt::Assign(x, e) => {
            let value = form(alloc, e, vars)?;
            assignment(alloc, vars, from, to, none, *x, value, false)
        }
        Stmt::AnyOf(x) => {
            let value = Poly::variable(alloc, vars, vars + 1)?;
            assignment(alloc, vars, from, to, none, *x, value, true)
        }
        Stmt::Between(x, a, b) => {
            let guard = between(alloc, a, b, vars)?;
            let value = Poly::variable(alloc, vars, vars + 1)?;
            assignment(alloc, vars, from, to, guard, *x, value, true)
        }
        Stmt::Tick(e) => {
            let cost = form(alloc, e, vars)?;
            payment(alloc, vars, from, to, cost)
        }
        _ => test(alloc, vars, from, to, none),
    }
}

// Pushes the edges of a statement that stands at a number, where the program goes on at another.
#[cycle(laying)]
fn lay(
    alloc: Global,
    out: &mut Vec<Edge>,
    vars: usize,
    statement: &Stmt,
    at: usize,
    next: usize,
) -> Result<(), AllocError>
    requires few { vars ≤ 10 }
    requires passes { statement_passes vars statement.now ≡ true }
    requires within { at + (piece statement.now).size ≤ 128 }
    ensures { OnOk result
        (out.new.items ≡ out.old.items
        ++ map (edge_of vars) ((piece statement.now).arrows at next)) }
{
    match statement {
        Stmt::Assume(c) => branch(alloc, out, vars, at, next, cases(alloc, c, false, vars)?),
        Stmt::If(c, yes, no) => {
            let second = at + 1 + count_all(yes.as_slice()) as usize;
            let to_yes = first(yes.as_slice(), at + 1, next);
            let to_no = first(no.as_slice(), second, next);
            branch(alloc, out, vars, at, to_yes, cases(alloc, c, false, vars)?)?;
            branch(alloc, out, vars, at, to_no, cases(alloc, c, true, vars)?)?;
            lay_all(alloc, out, vars, yes.as_slice(), at + 1, next)?;
            lay_all(alloc, out, vars, no.as_slice(), second, next)
        }
        Stmt::IfAny(yes, no) => {
            let second = at + 1 + count_all(yes.as_slice()) as usize;
            let to_yes = first(yes.as_slice(), at + 1, next);
            let to_no = first(no.as_slice(), second, next);
            out.push(test(alloc, vars, at, to_yes, Vec::new(alloc))?)?;
            out.push(test(alloc, vars, at, to_no, Vec::new(alloc))?)?;
            lay_all(alloc, out, vars, yes.as_slice(), at + 1, next)?;
            lay_all(alloc, out, vars, no.as_slice(), second, next)
        }
        Stmt::While(c, body) => {
            let to_body = first(body.as_slice(), at + 1, at);
            branch(alloc, out, vars, at, to_body, cases(alloc, c, false, vars)?)?;
            branch(alloc, out, vars, at, next, cases(alloc, c, true, vars)?)?;
            lay_all(alloc, out, vars, body.as_slice(), at + 1, at)
        }
        Stmt::WhileAny(turn) => {
            let to_body = first(turn.as_slice(), at + 1, at);
            out.push(test(alloc, vars, at, to_body, Vec::new(alloc))?)?;
            out.push(test(alloc, vars, at, next, Vec::new(alloc))?)?;
            lay_all(alloc, out, vars, turn.as_slice(), at + 1, at)
        }
        _ => {
            out.push(simple_edge(alloc, vars, statement, at, next)?)?;
            Ok(())
        }
    }
}

// Pushes the edges of a block that stands at a number, where the program goes on at another.
#[cycle(laying)]
pub(crate) fn lay_all(
    alloc: Global,
    out: &mut Vec<Edge>,
    vars: usize,
    body: &[Stmt],
    at: usize,
    next: usize,
) -> Result<(), AllocError>
    requires few { vars ≤ 10 }
    requires passes { all_pass vars body.now ≡ true }
    requires within { at + sizes (pieces body.now) ≤ 128 }
    ensures { OnOk result
        (out.new.items ≡ out.old.items ++ map (edge_of vars) (all_arrows (pieces body.now) at next)) }
{
    let mut number = at;
    for i in 0..body.len() {
        let statement = &body[i];
        let after = number + count(statement) as usize;
        let target = if i + 1 < body.len() { after } else { next };
        lay(alloc, out, vars, statement, number, target)?;
        number = after;
    }
    Ok(())
}
