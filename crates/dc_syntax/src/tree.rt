//! The trees of a program.
use crate::names::{Name, Names};
use sqlite_items::{Boxed, Items};

/// One of the two versions.
#[derive(Clone, Copy, Debug, PartialEq)]
pub enum Side {
    New,
    Old,
}

/// What a limit counts.
#[derive(Clone, Copy, Debug, PartialEq)]
pub enum Count {
    Locations,
    Edges,
    Rows,
    Bounds,
    Columns,
    Equations,
    Certificate,
}

/// An expression. A variable is the place of its name in the procedure's names.
#[derive(Debug, Drop)]
pub enum Expr {
    Num(u32),
    Var(usize),
    Neg(Boxed<Expr>),
    Add(Boxed<Expr>, Boxed<Expr>),
    Sub(Boxed<Expr>, Boxed<Expr>),
    Mul(Boxed<Expr>, Boxed<Expr>),
}

/// How a comparison compares its left side with its right side.
#[derive(Clone, Copy, Debug, PartialEq)]
pub enum Rel {
    Lt,
    Le,
    Gt,
    Ge,
    Eq,
    Ne,
}

/// A condition.
#[derive(Debug, Drop)]
pub enum Cond {
    True,
    False,
    Cmp(Expr, Rel, Expr),
    Not(Boxed<Cond>),
    And(Boxed<Cond>, Boxed<Cond>),
    Or(Boxed<Cond>, Boxed<Cond>),
}

/// A statement.
#[derive(Debug, Drop)]
pub enum Stmt {
    /// `skip;`
    Skip,
    /// `x = e;`
    Assign(usize, Expr),
    /// `x = any;`
    AnyOf(usize),
    /// `x = any(a, b);`
    Between(usize, Expr, Expr),
    /// `tick e;`
    Tick(Expr),
    /// `assume (c);`
    Assume(Cond),
    /// `if (c) { .. } else { .. }`
    If(Cond, Items<Stmt>, Items<Stmt>),
    /// `if (*) { .. } else { .. }`
    IfAny(Items<Stmt>, Items<Stmt>),
    /// `while (c) { .. }`
    While(Cond, Items<Stmt>),
    /// `while (*) { .. }`
    WhileAny(Items<Stmt>),
}

/// A procedure: its names are the `params` parameters, then the locals.
#[derive(Debug, Drop)]
pub struct Proc {
    pub name: Name,
    pub names: Names,
    pub params: usize,
    pub body: Items<Stmt>,
}
