//! Clause 1: the shape of a program's part of a certificate.
ghost use Rattle.std.specs.Prelude.{◌≡◌, ◌≤◌, ◌&&◌, length, slice_get};
ghost use Rattle.std.specs.List.{list_all};
ghost use Rattle.dc_cert.specs.Vectors.{in_range};
ghost use Rattle.dc_clauses.specs.Hyps.{atoms_of};
ghost use Rattle.dc_clauses.specs.Lines.{line_in_range as range_of_line};
ghost use Rattle.dc_clauses.specs.Lent.{IsPart};
ghost use Rattle.dc_clauses.specs.Sides.{case_range as range_of_case, edge_atoms, edge_fits as fits_edge, edge_places as places_of, entry_fits as fits_entry, has_keeps as keeps_of, is_full as full, paired, shape_fits as fits};
ghost use Rattle.dc_clauses.specs.Sides.{atoms_at as atoms_at_of};

use crate::hyps::Hyps;
use dc_affine::Atom;
use dc_cert::{EdgeCert, Liveness, SideCert, Sparse};
use dc_system::{Edge, System};
use sqlite_items::Items;

/// The atoms of a location, none where there is no such location.
pub fn atoms_at(x: &SideCert, location: usize) -> &[Atom]
    ensures { result.now ≡ atoms_at_of x.now location }
{
    match x.families.as_slice().get(location) {
        Some(atoms) => atoms.as_slice(),
        None => &[],
    }
}

/// The atoms along an edge.
pub fn edge_hyps<'a>(x: &'a SideCert, e: &'a Edge) -> Hyps<'a>
    ensures { atoms_of result ≡ edge_atoms x.now e.now }
{
    Hyps {
        atoms: atoms_at(x, e.from),
        guard: e.guard.as_slice(),
    }
}

/// The places over which an edge speaks.
pub fn edge_places(vars: usize, e: &Edge) -> usize
    requires { vars ≤ 10 }
    ensures { result ≡ places_of vars e.now }
{
    if e.any { vars + 1 } else { vars }
}

/// Whether each atom has one coefficient for each variable.
fn is_full(s: &System, atoms: &[Atom]) -> bool
    ensures { result ≡ full s.now atoms.now }
{
    let vars = s.vars;
    atoms.iter().all(|atom| atom.coefs.len() == vars)
}

fn are_full(s: &System, x: &SideCert) -> bool
    ensures { result ≡ list_all (full s.now) x.now.families }
{
    for atoms in x.families.as_slice() {
        if !is_full(s, atoms.as_slice()) {
            return false;
        }
    }
    true
}

/// Whether there is one keep for each atom where the line says live, else none.
fn has_keeps(line: &Liveness, atoms: &[Atom], keeps: &[Sparse]) -> bool
    ensures { result ≡ keeps_of line.now atoms.now keeps.now }
{
    let count = if line.is_live() { atoms.len() } else { 0 };
    keeps.len() == count
}

/// Whether the indices of each vector are below a number.
fn are_below(keeps: &[Sparse], count: usize) -> bool
    ensures { result ≡ list_all (in_range count) keeps.now }
{
    for keep in keeps {
        if !keep.is_below(count) {
            return false;
        }
    }
    true
}

/// Whether the indices of a line over so many atoms and places are in range.
pub fn line_is_below(line: &Liveness, atoms: usize, places: usize) -> bool
    requires { places ≤ 11 }
    ensures { result ≡ range_of_line atoms places line.now }
{
    match line {
        Liveness::Dead(v) => v.is_below(atoms),
        Liveness::Live(y) => y.is_below(places + 1),
    }
}

/// Whether the keeps of a case are in range; those of a case that doesn't exist count so.
fn case_range(cases: &[Items<Atom>], number: usize, keeps: &[Sparse]) -> bool
    ensures { result ≡ range_of_case (slice_get cases.now number) keeps.now }
{
    match cases.get(number) {
        Some(case) => are_below(keeps, case.len()),
        None => true,
    }
}

/// Whether the keeps of a case fit its line.
fn case_fits(
    atoms: &[Atom],
    cases: &[Items<Atom>],
    number: usize,
    line: &Liveness,
    keeps: &[Sparse],
) -> bool
    ensures { result ≡ keeps_of line.now atoms.now keeps.now
        && range_of_case (slice_get cases.now number) keeps.now }
{
    has_keeps(line, atoms, keeps) && case_range(cases, number, keeps)
}

/// Whether the keeps of the entry fit the lines of the cases.
fn entry_fits(
    atoms: &[Atom],
    cases: &[Items<Atom>],
    when: &[Liveness],
    keeps: &[Items<Sparse>],
) -> bool
    requires one_each { length keeps.now ≡ length when.now }
    ensures { result ≡ fits_entry atoms.now cases.now when.now keeps.now }
{
    for k in 0..when.len() {
        if !case_fits(atoms, cases, k, &when[k], keeps[k].as_slice()) {
            return false;
        }
    }
    true
}

/// Whether an edge's line and keeps fit the edge.
fn edge_fits(s: &System, x: &SideCert, e: &Edge, c: &EdgeCert) -> bool
    requires few { s.now.vars ≤ 10 }
    requires atoms { length (edge_atoms x.now e.now) ≤ 2000 }
    ensures { result ≡ fits_edge s.now x.now e.now c.now }
{
    let hyps = edge_hyps(x, e);
    let count = hyps.len();
    line_is_below(&c.live, count, edge_places(s.vars, e))
        && has_keeps(&c.live, atoms_at(x, e.to), c.keeps.as_slice())
        && are_below(c.keeps.as_slice(), count)
}

/// Whether each edge's line and keeps fit the edge.
fn edges_fit(s: &System, x: &SideCert) -> bool
    requires part { IsPart s.now x.now }
    requires one_each { length x.now.edges ≡ length s.now.edges }
    ensures { result ≡ list_all (λ fits. fits)
        (paired (fits_edge s.now x.now) s.now.edges x.now.edges) }
{
    let edges = s.edges.as_slice();
    let certs = x.edges.as_slice();
    for k in 0..edges.len() {
        if !edge_fits(s, x, &edges[k], &certs[k]) {
            return false;
        }
    }
    true
}

/// Whether the shape of a program's part is that of its system.
pub fn shape_fits(s: &System, cases: &[Items<Atom>], when: &[Liveness], x: &SideCert) -> bool
    requires part { IsPart s.now x.now }
    requires one_each { length x.now.entry_keeps ≡ length when.now }
    ensures { result ≡ fits s.now cases.now when.now x.now }
{
    if x.families.len() != s.locs || !are_full(s, x) {
        return false;
    }
    if !entry_fits(atoms_at(x, 0), cases, when, x.entry_keeps.as_slice()) {
        return false;
    }
    if x.edges.len() != s.edges.len() || !edges_fit(s, x) {
        return false;
    }
    line_is_below(&x.exit_line, atoms_at(x, s.locs - 1).len(), s.vars)
}
