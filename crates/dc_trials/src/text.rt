//! Systems as texts.
use dc_affine::Atom;
use dc_poly::{Mono, Poly};
use dc_system::{Edge, System};
use std::alloc::{AllocError, Global};

// The name of a place: `z` stands for the chosen value.
fn name_at(names: &[String], place: usize) -> &str {
    match names.get(place) {
        Some(name) => name.as_str(),
        None => "z",
    }
}

// An atom as its constant and its coefficients other than 0, with their names: `-1 2n`.
fn put_atom(out: &mut String, names: &[String], atom: &Atom) -> Result<(), AllocError> {
    write!(out, "{}", atom.c0)?;
    let coefs = atom.coefs.as_slice();
    for k in 0..coefs.len() {
        if coefs[k] != 0 {
            write!(out, " {}{}", coefs[k], name_at(names, k))?;
        }
    }
    Ok(())
}

// A monomial as the names of its variables, each as often as its exponent says.
fn put_mono(out: &mut String, names: &[String], mono: &Mono) -> Result<(), AllocError> {
    let exponents = mono.exponents();
    for k in 0..exponents.len() {
        for _time in 0..exponents[k] {
            out.push_str(name_at(names, k))?;
        }
    }
    Ok(())
}

// A polynomial as its terms in order, each a coefficient and its monomial: ` -1 2n 1nn`. The
// polynomial 0 has none.
fn put_poly(out: &mut String, names: &[String], poly: &Poly) -> Result<(), AllocError> {
    for term in poly.terms() {
        write!(out, " {}", term.coef)?;
        put_mono(out, names, &term.mono)?;
    }
    Ok(())
}

/// A polynomial as a text.
pub(crate) fn form_text(
    alloc: Global,
    names: &[String],
    form: &Poly,
) -> Result<String, AllocError> {
    let mut out = String::new(alloc);
    put_poly(&mut out, names, form)?;
    Ok(out)
}

// An edge as a line: from and to, the atoms of the guard, what each variable becomes, the cost, and
// whether there is a chosen value.
fn put_edge(out: &mut String, names: &[String], edge: &Edge) -> Result<(), AllocError> {
    write!(out, "{} to {}", edge.from, edge.to)?;
    for atom in edge.guard.as_slice() {
        out.push_str(", where ")?;
        put_atom(out, names, atom)?;
    }
    for k in 0..edge.update.len() {
        write!(out, ", {} =", name_at(names, k))?;
        put_poly(out, names, &edge.update.as_slice()[k])?;
    }
    out.push_str(", cost")?;
    put_poly(out, names, &edge.cost)?;
    out.push_str(if edge.any { ", any\n" } else { "\n" })
}

/// An edge as a text.
pub(crate) fn edge_text(
    alloc: Global,
    names: &[String],
    edge: &Edge,
) -> Result<String, AllocError> {
    let mut out = String::new(alloc);
    put_edge(&mut out, names, edge)?;
    Ok(out)
}

/// A system as a text: a line for its numbers, then one for each edge.
pub(crate) fn system_text(
    alloc: Global,
    names: &[String],
    system: &System,
) -> Result<String, AllocError> {
    let mut out = String::new(alloc);
    write!(out, "{} variables, ", system.vars)?;
    write!(out, "{} parameters, ", system.params)?;
    write!(out, "{} locations, literals", system.locs)?;
    for literal in system.literals.as_slice() {
        write!(out, " {literal}")?;
    }
    out.push_str("\n")?;
    for edge in system.edges.as_slice() {
        put_edge(&mut out, names, edge)?;
    }
    Ok(out)
}
