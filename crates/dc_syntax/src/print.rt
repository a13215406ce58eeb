//! The text of a procedure.
ghost use Rattle.std.specs.Prelude.{◌≡◌, ℕ, ◌≤◌, ◌++◌, List, [], map, length, take, drop, slice_index_or, if◌then◌else◌, codes, IfOk, OnOk};
ghost use Rattle.std.specs.String.{string_bytes};
ghost use Rattle.std.specs.Fmt.{decimal};
ghost use Rattle.dc_syntax.specs.Text.{written_expr, written_cond, expr_in, cond_in, expr_text, cond_text, rel_text, stmt_text, stmts_text, listed, locals_text, text_of};

use crate::layer::Layer;
use crate::params::{first_names, later_names};
use crate::tree::{Cond, Expr, Proc, Rel, Stmt};
use std::alloc::{AllocError, Global};

/// The text with the fewest brackets: one statement or closing bracket per line, each ended by LF,
/// without indentation. A variable whose place has no name is written as nothing.
#[tactic(auto, using(crate::proofs::Texts::regroup))]
pub fn print_proc(alloc: Global, p: &Proc) -> Result<Vec<u8>, AllocError>
    ensures { IfOk result (λ text. text.items ≡ text_of p.now) }
{
    let mut out = String::new(alloc);
    put_head(&mut out, p)?;
    put_block(&mut out, p.names.as_slice(), p.body.as_slice(), "}\n")?;
    Ok(out.into_bytes())
}

// The lines of the name, the parameters and the locals.
#[tactic(auto, using(crate::proofs::Texts::regroup))]
fn put_head(out: &mut String, p: &Proc) -> Result<(), AllocError>
    ensures { OnOk result
        (string_bytes out.new
        ≡ string_bytes out.old
        ++ (codes "proc " ++ (p.now.name
        ++ (codes "(" ++ (listed (take p.now.params p.now.names)
        ++ (codes ") {\n" ++ locals_text (drop p.now.params p.now.names))))))) }
{
    out.push_str("proc ")?;
    out.push_str(p.name.as_str())?;
    out.push_str("(")?;
    put_names(out, first_names(&p.names, p.params))?;
    out.push_str(") {\n")?;
    put_locals(out, later_names(&p.names, p.params))
}

#[tactic(auto, using(crate::proofs::Texts::regroup))]
fn put_locals(out: &mut String, names: &[String]) -> Result<(), AllocError>
    ensures { OnOk result
        (string_bytes out.new ≡ string_bytes out.old ++ locals_text (map string_bytes names.now)) }
{
    if names.is_empty() {
        return Ok(());
    }
    out.push_str("var ")?;
    put_names(out, names)?;
    out.push_str(";\n")
}

// Names with a comma and a space between.
#[tactic(auto, using(crate::proofs::Texts::regroup))]
fn put_names(out: &mut String, names: &[String]) -> Result<(), AllocError>
    ensures { OnOk result
        (string_bytes out.new ≡ string_bytes out.old ++ listed (map string_bytes names.now)) }
{
    match names {
        [] => Ok(()),
        [name] => out.push_str(name.as_str()),
        [name, rest @ ..] => {
            out.push_str(name.as_str())?;
            out.push_str(", ")?;
            put_names(out, rest)
        }
    }
}

// The name at a place.
fn put_name(out: &mut String, names: &[String], place: usize) -> Result<(), AllocError>
    ensures { OnOk result
        (string_bytes out.new
        ≡ string_bytes out.old ++ slice_index_or (map string_bytes names.now) place []) }
{
    match names.get(place) {
        Some(name) => out.push_str(name.as_str()),
        None => Ok(()),
    }
}

fn layer_of(e: &Expr, names: &[String]) -> Layer
    ensures { result ≡ (written_expr (map string_bytes names.now) e.now).layer }
{
    match e {
        Expr::Add(..) | Expr::Sub(..) => Layer::Loose,
        Expr::Mul(..) => Layer::Middle,
        Expr::Num(_) | Expr::Var(_) | Expr::Neg(_) => Layer::Tight,
    }
}

// An expression where a layer is asked: in brackets where it binds less tightly.
#[tactic(auto, using(crate::proofs::Texts::regroup))]
fn put_expr(out: &mut String, names: &[String], e: &Expr, asked: Layer) -> Result<(), AllocError>
    ensures { OnOk result
        (string_bytes out.new
        ≡ string_bytes out.old ++ expr_in asked (written_expr (map string_bytes names.now) e.now)) }
{
    if !layer_of(e, names).is_within(asked) {
        out.push_str("(")?;
        put_expr(out, names, e, Layer::Loose)?;
        return out.push_str(")");
    }
    match e {
        Expr::Num(value) => write!(out, "{value}"),
        Expr::Var(place) => put_name(out, names, *place),
        Expr::Neg(a) => {
            out.push_str("-")?;
            put_expr(out, names, a.get(), Layer::Tight)
        }
        Expr::Add(a, b) => {
            put_expr(out, names, a.get(), Layer::Loose)?;
            out.push_str(" + ")?;
            put_expr(out, names, b.get(), Layer::Middle)
        }
        Expr::Sub(a, b) => {
            put_expr(out, names, a.get(), Layer::Loose)?;
            out.push_str(" - ")?;
            put_expr(out, names, b.get(), Layer::Middle)
        }
        Expr::Mul(a, b) => {
            put_expr(out, names, a.get(), Layer::Middle)?;
            out.push_str(" * ")?;
            put_expr(out, names, b.get(), Layer::Tight)
        }
    }
}

fn cond_layer_of(c: &Cond, names: &[String]) -> Layer
    ensures { result ≡ (written_cond (map string_bytes names.now) c.now).layer }
{
    match c {
        Cond::Or(..) => Layer::Loose,
        Cond::And(..) => Layer::Middle,
        Cond::True | Cond::False | Cond::Cmp(..) | Cond::Not(_) => Layer::Tight,
    }
}

fn rel_word(rel: Rel) -> &'static str
    ensures { result.now ≡ rel_text rel }
{
    match rel {
        Rel::Lt => " < ",
        Rel::Le => " <= ",
        Rel::Gt => " > ",
        Rel::Ge => " >= ",
        Rel::Eq => " == ",
        Rel::Ne => " != ",
    }
}

// A condition where a layer is asked: in brackets where it binds less tightly.
#[tactic(auto, using(crate::proofs::Texts::regroup))]
fn put_cond(out: &mut String, names: &[String], c: &Cond, asked: Layer) -> Result<(), AllocError>
    ensures { OnOk result
        (string_bytes out.new
        ≡ string_bytes out.old ++ cond_in asked (written_cond (map string_bytes names.now) c.now)) }
{
    if !cond_layer_of(c, names).is_within(asked) {
        out.push_str("[")?;
        put_cond(out, names, c, Layer::Loose)?;
        return out.push_str("]");
    }
    match c {
        Cond::True => out.push_str("true"),
        Cond::False => out.push_str("false"),
        Cond::Cmp(a, rel, b) => {
            put_expr(out, names, a, Layer::Loose)?;
            out.push_str(rel_word(*rel))?;
            put_expr(out, names, b, Layer::Loose)
        }
        Cond::Not(a) => {
            out.push_str("!")?;
            put_cond(out, names, a.get(), Layer::Tight)
        }
        Cond::And(a, b) => {
            put_cond(out, names, a.get(), Layer::Middle)?;
            out.push_str(" && ")?;
            put_cond(out, names, b.get(), Layer::Tight)
        }
        Cond::Or(a, b) => {
            put_cond(out, names, a.get(), Layer::Loose)?;
            out.push_str(" || ")?;
            put_cond(out, names, b.get(), Layer::Middle)
        }
    }
}

// A statement with its line ends.
#[cycle(statements)]
#[tactic(auto, using(crate::proofs::Texts::regroup))]
fn put_stmt(out: &mut String, names: &[String], s: &Stmt) -> Result<(), AllocError>
    ensures { OnOk result
        (string_bytes out.new
        ≡ string_bytes out.old ++ stmt_text (map string_bytes names.now) s.now) }
{
    match s {
        Stmt::Skip => out.push_str("skip;\n"),
        Stmt::Assign(place, e) => put_assign(out, names, *place, e),
        Stmt::AnyOf(place) => {
            put_name(out, names, *place)?;
            out.push_str(" = any;\n")
        }
        Stmt::Between(place, a, b) => put_between(out, names, *place, a, b),
        Stmt::Tick(e) => {
            out.push_str("tick ")?;
            put_expr(out, names, e, Layer::Loose)?;
            out.push_str(";\n")
        }
        Stmt::Assume(c) => {
            out.push_str("assume (")?;
            put_cond(out, names, c, Layer::Loose)?;
            out.push_str(");\n")
        }
        Stmt::If(c, a, b) => {
            out.push_str("if (")?;
            put_cond(out, names, c, Layer::Loose)?;
            out.push_str(") {\n")?;
            put_block(out, names, a.as_slice(), "} else {\n")?;
            put_block(out, names, b.as_slice(), "}\n")
        }
        Stmt::IfAny(a, b) => {
            out.push_str("if (*) {\n")?;
            put_block(out, names, a.as_slice(), "} else {\n")?;
            put_block(out, names, b.as_slice(), "}\n")
        }
        Stmt::While(c, a) => {
            out.push_str("while (")?;
            put_cond(out, names, c, Layer::Loose)?;
            out.push_str(") {\n")?;
            put_block(out, names, a.as_slice(), "}\n")
        }
        Stmt::WhileAny(a) => {
            out.push_str("while (*) {\n")?;
            put_block(out, names, a.as_slice(), "}\n")
        }
    }
}

#[tactic(auto, using(crate::proofs::Texts::regroup))]
fn put_assign(out: &mut String, names: &[String], place: usize, e: &Expr) -> Result<(), AllocError>
    ensures { OnOk result
        (string_bytes out.new
        ≡ string_bytes out.old
        ++ (slice_index_or (map string_bytes names.now) place []
        ++ (codes " = " ++ (expr_text (map string_bytes names.now) e.now ++ codes ";\n")))) }
{
    put_name(out, names, place)?;
    out.push_str(" = ")?;
    put_expr(out, names, e, Layer::Loose)?;
    out.push_str(";\n")
}

#[tactic(auto, using(crate::proofs::Texts::regroup))]
fn put_between(
    out: &mut String,
    names: &[String],
    place: usize,
    a: &Expr,
    b: &Expr,
) -> Result<(), AllocError>
    ensures { OnOk result
        (string_bytes out.new
        ≡ string_bytes out.old
        ++ (slice_index_or (map string_bytes names.now) place []
        ++ (codes " = any(" ++ (expr_text (map string_bytes names.now) a.now
        ++ (codes ", " ++ (expr_text (map string_bytes names.now) b.now ++ codes ");\n")))))) }
{
    put_name(out, names, place)?;
    out.push_str(" = any(")?;
    put_expr(out, names, a, Layer::Loose)?;
    out.push_str(", ")?;
    put_expr(out, names, b, Layer::Loose)?;
    out.push_str(");\n")
}

// Statements, one after another, and the line that ends them.
#[cycle(statements)]
#[tactic(auto, using(crate::proofs::Texts::regroup))]
fn put_block(out: &mut String, names: &[String], body: &[Stmt], end: &str) -> Result<(), AllocError>
    ensures { OnOk result
        (string_bytes out.new
        ≡ string_bytes out.old ++ (stmts_text (map string_bytes names.now) body.now ++ end.now)) }
{
    for statement in body {
        put_stmt(out, names, statement)?;
    }
    out.push_str(end)
}
