//! The literals of a body, rising and each once.
ghost use Rattle.std.specs.Prelude.{ℕ, ◌≡◌, OnOk};
ghost use Rattle.dc_system.specs.Literals.{cond_numbers, expr_numbers, numbers_of, stmt_numbers, with_number, with_numbers};

use dc_syntax::{Cond, Expr, Stmt};
use std::alloc::AllocError;

// Puts a literal where it belongs, unless it is there.
#[tactic(auto, using(crate::proofs::Rising::placing))]
fn add(literals: &mut Vec<u32>, value: u32) -> Result<(), AllocError>
    ensures { OnOk result (literals.new.items ≡ with_number value literals.old.items) }
{
    for at in 0..literals.len() {
        let there = literals[at];
        if there == value {
            return Ok(());
        }
        if value < there {
            literals.insert(at, value)?;
            return Ok(());
        }
    }
    literals.push(value)?;
    Ok(())
}

#[tactic(auto, using(crate::proofs::Rising::gathering))]
fn of_expr(literals: &mut Vec<u32>, e: &Expr) -> Result<(), AllocError>
    ensures { OnOk result (literals.new.items ≡ with_numbers literals.old.items (expr_numbers e.now)) }
{
    match e {
        Expr::Num(value) => add(literals, *value),
        Expr::Var(_) => Ok(()),
        Expr::Neg(a) => of_expr(literals, a.get()),
        Expr::Add(a, b) => {
            of_expr(literals, a.get())?;
            of_expr(literals, b.get())
        }
        Expr::Sub(a, b) => {
            of_expr(literals, a.get())?;
            of_expr(literals, b.get())
        }
        Expr::Mul(a, b) => {
            of_expr(literals, a.get())?;
            of_expr(literals, b.get())
        }
    }
}

#[tactic(auto, using(crate::proofs::Rising::gathering))]
fn of_cond(literals: &mut Vec<u32>, c: &Cond) -> Result<(), AllocError>
    ensures { OnOk result (literals.new.items ≡ with_numbers literals.old.items (cond_numbers c.now)) }
{
    match c {
        Cond::True => Ok(()),
        Cond::False => Ok(()),
        Cond::Cmp(a, _, b) => {
            of_expr(literals, a)?;
            of_expr(literals, b)
        }
        Cond::Not(c) => of_cond(literals, c.get()),
        Cond::And(c, d) => {
            of_cond(literals, c.get())?;
            of_cond(literals, d.get())
        }
        Cond::Or(c, d) => {
            of_cond(literals, c.get())?;
            of_cond(literals, d.get())
        }
    }
}

#[cycle(literals)]
#[tactic(auto, using(crate::proofs::Rising::gathering))]
fn of_statement(literals: &mut Vec<u32>, statement: &Stmt) -> Result<(), AllocError>
    ensures { OnOk result
        (literals.new.items ≡ with_numbers literals.old.items (stmt_numbers statement.now)) }
{
    match statement {
        Stmt::Skip => Ok(()),
        Stmt::Assign(_, e) => of_expr(literals, e),
        Stmt::AnyOf(_) => Ok(()),
        Stmt::Between(_, a, b) => {
            of_expr(literals, a)?;
            of_expr(literals, b)
        }
        Stmt::Tick(e) => of_expr(literals, e),
        Stmt::Assume(c) => of_cond(literals, c),
        Stmt::If(c, yes, no) => {
            of_cond(literals, c)?;
            of_body(literals, yes.as_slice())?;
            of_body(literals, no.as_slice())
        }
        Stmt::IfAny(left, right) => {
            of_body(literals, left.as_slice())?;
            of_body(literals, right.as_slice())
        }
        Stmt::While(c, body) => {
            of_cond(literals, c)?;
            of_body(literals, body.as_slice())
        }
        Stmt::WhileAny(body) => of_body(literals, body.as_slice()),
    }
}

// Adds the literals of a body.
#[cycle(literals)]
#[tactic(auto, using(crate::proofs::Rising::gathering))]
pub(crate) fn of_body(literals: &mut Vec<u32>, body: &[Stmt]) -> Result<(), AllocError>
    ensures { OnOk result (literals.new.items ≡ with_numbers literals.old.items (numbers_of body.now)) }
{
    for statement in body {
        of_statement(literals, statement)?;
    }
    Ok(())
}
