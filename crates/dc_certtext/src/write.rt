//! The text of a certificate.
ghost use Rattle.std.specs.Prelude.{ℕ, List, ◌≡◌, ◌≤◌, ◌<◌, ◌++◌, ◌∷◌, [], map, length, codes, OnOk, IfOk, IfErr};
ghost use Rattle.dc_cert.specs.Claims.{claim_of};
ghost use Rattle.dc_cert.specs.Ranges.{IsCertificate};
ghost use Rattle.dc_certtext.specs.Limits.{limit};
ghost use Rattle.dc_certtext.specs.WriteFaults.{IsWriteFault};
ghost use Rattle.dc_certtext.specs.Words.{frac_text};
ghost use Rattle.dc_certtext.specs.Text.{atom_line, body_lines, cases_lines, claim_line, claim_lines, edge_line, edge_lines, entry_line, entry_lines, groups, head_lines, keep_lines, location_lines, numbered, shown_line, shown_text, side_lines, sizes_line, text_of, vector_line, whole_line};
ghost use Rattle.dc_lines.specs.Bytes.{ended};

use crate::put::{put_atom, put_fraction, put_vector};
use dc_affine::Atom;
use dc_cert::{Body, Certificate, Claim, EdgeCert, Liveness, SideCert, Sparse};
use dc_frac::Frac;
use dc_lines::{put_number, put_whole};
use sqlite_items::Items;
use std::alloc::{AllocError, Global};
use thiserror::Error;

// A line that is one fixed text.
fn plain(out: &mut Vec<u8>, text: &[u8]) -> Result<(), AllocError>
    ensures { OnOk result (out.new.items ≡ out.old.items ++ ended (text.now ∷ [])) }
{
    out.extend_from_slice(text)?;
    out.push(b'\n')?;
    Ok(())
}

// A word and a number.
fn number(alloc: Global, out: &mut Vec<u8>, word: &[u8], n: usize) -> Result<(), AllocError>
    ensures { OnOk result (out.new.items ≡ out.old.items ++ ended (numbered word.now n ∷ [])) }
{
    out.extend_from_slice(word)?;
    put_number(alloc, out, n as u128)?;
    out.push(b'\n')?;
    Ok(())
}

// A word and a vector.
fn vector(alloc: Global, out: &mut Vec<u8>, word: &[u8], s: &Sparse) -> Result<(), AllocError>
    ensures { OnOk result (out.new.items ≡ out.old.items ++ ended (vector_line word.now s.now ∷ [])) }
{
    out.extend_from_slice(word)?;
    put_vector(alloc, out, s)?;
    out.push(b'\n')?;
    Ok(())
}

// What a line says of being live, behind its word.
fn put_shown(alloc: Global, out: &mut Vec<u8>, l: &Liveness) -> Result<(), AllocError>
    ensures { OnOk result (out.new.items ≡ out.old.items ++ shown_text l.now) }
{
    match l {
        Liveness::Dead(s) => {
            out.extend_from_slice(b" dead")?;
            put_vector(alloc, out, s)
        }
        Liveness::Live(s) => {
            out.extend_from_slice(b" live")?;
            put_vector(alloc, out, s)
        }
    }
}

// A word and whether something is live.
fn write_liveness(
    alloc: Global,
    out: &mut Vec<u8>,
    word: &[u8],
    l: &Liveness,
) -> Result<(), AllocError>
    ensures { OnOk result (out.new.items ≡ out.old.items ++ ended (shown_line word.now l.now ∷ [])) }
{
    out.extend_from_slice(word)?;
    put_shown(alloc, out, l)?;
    out.push(b'\n')?;
    Ok(())
}

// The vectors of a list of keeps.
#[tactic(auto, using(dc_lines::proofs::Lines::writing))]
fn keeps(alloc: Global, out: &mut Vec<u8>, list: &[Sparse]) -> Result<(), AllocError>
    ensures { OnOk result (out.new.items ≡ out.old.items ++ ended (keep_lines list.now)) }
{
    for s in list {
        vector(alloc, out, b"keep", s)?;
    }
    Ok(())
}

// An atom.
fn atom(alloc: Global, out: &mut Vec<u8>, a: &Atom) -> Result<(), AllocError>
    ensures { OnOk result (out.new.items ≡ out.old.items ++ ended (atom_line a.now ∷ [])) }
{
    out.extend_from_slice(b"atom")?;
    put_atom(alloc, out, a)?;
    out.push(b'\n')?;
    Ok(())
}

// A location with its atoms.
#[tactic(auto, using(dc_lines::proofs::Lines::writing))]
fn location(
    alloc: Global,
    out: &mut Vec<u8>,
    n: usize,
    atoms: &Items<Atom>,
) -> Result<(), AllocError>
    ensures { OnOk result (out.new.items ≡ out.old.items ++ ended (location_lines n atoms.now)) }
{
    number(alloc, out, b"location ", n)?;
    for a in atoms.as_slice() {
        atom(alloc, out, a)?;
    }
    Ok(())
}

// All locations.
#[tactic(auto, using(dc_lines::proofs::Lines::writing))]
fn locations(alloc: Global, out: &mut Vec<u8>, list: &[Items<Atom>]) -> Result<(), AllocError>
    ensures { OnOk result (out.new.items ≡ out.old.items ++ ended (groups location_lines 0 list.now)) }
{
    for (n, atoms) in list.iter().enumerate() {
        location(alloc, out, n, atoms)?;
    }
    Ok(())
}

// The entry for one case of the condition with its keeps.
#[tactic(auto, using(dc_lines::proofs::Lines::writing))]
fn entry(
    alloc: Global,
    out: &mut Vec<u8>,
    version: u8,
    n: usize,
    list: &Items<Sparse>,
) -> Result<(), AllocError>
    ensures { OnOk result (out.new.items ≡ out.old.items ++ ended (entry_lines version n list.now)) }
{
    if version == 1 {
        plain(out, b"entry")?;
    } else {
        number(alloc, out, b"entry ", n)?;
    }
    keeps(alloc, out, list.as_slice())
}

// All entries.
#[tactic(auto, using(dc_lines::proofs::Lines::writing))]
fn entries(
    alloc: Global,
    out: &mut Vec<u8>,
    version: u8,
    list: &[Items<Sparse>],
) -> Result<(), AllocError>
    ensures { OnOk result
        (out.new.items ≡ out.old.items ++ ended (groups (entry_lines version) 0 list.now)) }
{
    for (n, keeps) in list.iter().enumerate() {
        entry(alloc, out, version, n, keeps)?;
    }
    Ok(())
}

// An edge with its keeps.
#[tactic(auto, using(dc_lines::proofs::Lines::writing))]
fn edge(alloc: Global, out: &mut Vec<u8>, n: usize, e: &EdgeCert) -> Result<(), AllocError>
    ensures { OnOk result (out.new.items ≡ out.old.items ++ ended (edge_lines n e.now)) }
{
    out.extend_from_slice(b"edge ")?;
    put_number(alloc, out, n as u128)?;
    put_shown(alloc, out, &e.live)?;
    out.push(b'\n')?;
    keeps(alloc, out, e.keeps.as_slice())
}

// All edges.
#[tactic(auto, using(dc_lines::proofs::Lines::writing))]
fn edges(alloc: Global, out: &mut Vec<u8>, list: &[EdgeCert]) -> Result<(), AllocError>
    ensures { OnOk result (out.new.items ≡ out.old.items ++ ended (groups edge_lines 0 list.now)) }
{
    for (n, e) in list.iter().enumerate() {
        edge(alloc, out, n, e)?;
    }
    Ok(())
}

// What is kept of one program.
#[tactic(auto, using(dc_lines::proofs::Lines::writing))]
fn side(alloc: Global, out: &mut Vec<u8>, version: u8, s: &SideCert) -> Result<(), AllocError>
    ensures { OnOk result (out.new.items ≡ out.old.items ++ ended (side_lines version s.now)) }
{
    locations(alloc, out, s.families.as_slice())?;
    entries(alloc, out, version, s.entry_keeps.as_slice())?;
    edges(alloc, out, s.edges.as_slice())?;
    write_liveness(alloc, out, b"exit", &s.exit_line)
}

// What is claimed: a threshold has its floor on a second line.
#[tactic(auto, using(dc_lines::proofs::Lines::writing))]
fn put_claim(alloc: Global, out: &mut Vec<u8>, what: &Claim) -> Result<(), AllocError>
    ensures { OnOk result (out.new.items ≡ out.old.items ++ ended (claim_lines what.now)) }
{
    match what {
        Claim::Threshold(t) => {
            first_line(alloc, out, what)?;
            whole(alloc, out, t)
        }
        Claim::Nothing => first_line(alloc, out, what),
        Claim::Vacuous => first_line(alloc, out, what),
    }
}

fn claim(alloc: Global, out: &mut Vec<u8>, body: &Body) -> Result<(), AllocError>
    ensures { OnOk result (out.new.items ≡ out.old.items ++ ended (claim_lines (claim_of body.now))) }
{
    let what = body.claim();
    put_claim(alloc, out, &what)
}

// The first of them, without its line feed.
fn put_claim_line(alloc: Global, out: &mut Vec<u8>, what: &Claim) -> Result<(), AllocError>
    ensures { OnOk result (out.new.items ≡ out.old.items ++ claim_line what.now) }
{
    match what {
        Claim::Threshold(t) => {
            out.extend_from_slice(b"threshold ")?;
            put_fraction(alloc, out, t)
        }
        Claim::Nothing => {
            out.extend_from_slice(b"none")?;
            Ok(())
        }
        Claim::Vacuous => {
            out.extend_from_slice(b"vacuous")?;
            Ok(())
        }
    }
}

fn first_line(alloc: Global, out: &mut Vec<u8>, what: &Claim) -> Result<(), AllocError>
    ensures { OnOk result (out.new.items ≡ out.old.items ++ ended (claim_line what.now ∷ [])) }
{
    put_claim_line(alloc, out, what)?;
    out.push(b'\n')?;
    Ok(())
}

fn whole(alloc: Global, out: &mut Vec<u8>, t: &Frac) -> Result<(), AllocError>
    ensures { OnOk result (out.new.items ≡ out.old.items ++ ended (whole_line t.now ∷ [])) }
{
    out.extend_from_slice(b"whole ")?;
    let floor = t.floor();
    put_whole(alloc, out, &floor)?;
    out.push(b'\n')?;
    Ok(())
}

fn sizes(alloc: Global, out: &mut Vec<u8>, degree: u8, products: u8) -> Result<(), AllocError>
    ensures { OnOk result (out.new.items ≡ out.old.items ++ ended (sizes_line degree products ∷ [])) }
{
    out.extend_from_slice(b"degree ")?;
    put_number(alloc, out, degree as u128)?;
    out.extend_from_slice(b" products ")?;
    put_number(alloc, out, products as u128)?;
    out.push(b'\n')?;
    Ok(())
}

// The number of cases, which version 1 leaves out.
fn cases(
    alloc: Global,
    out: &mut Vec<u8>,
    version: u8,
    when: &Items<Liveness>,
) -> Result<(), AllocError>
    ensures { OnOk result
        (out.new.items ≡ out.old.items ++ ended (cases_lines version (length when.now))) }
{
    if version == 1 {
        return Ok(());
    }
    number(alloc, out, b"cases ", when.len())
}

fn whens(alloc: Global, out: &mut Vec<u8>, list: &Items<Liveness>) -> Result<(), AllocError>
    ensures { OnOk result
        (out.new.items ≡ out.old.items ++ ended (map (shown_line (codes "when")) list.now)) }
{
    for l in list.as_slice() {
        write_liveness(alloc, out, b"when", l)?;
    }
    Ok(())
}

// From the claim to the cases of the condition.
fn head(alloc: Global, out: &mut Vec<u8>, c: &Certificate) -> Result<(), AllocError>
    ensures { OnOk result (out.new.items ≡ out.old.items ++ ended (head_lines c.now)) }
{
    claim(alloc, out, &c.body)?;
    number(alloc, out, b"diffcost ", c.version as usize)?;
    sizes(alloc, out, c.degree, c.products)?;
    cases(alloc, out, c.version, &c.when)?;
    whens(alloc, out, &c.when)?;
    Ok(())
}

// Two vectors.
#[tactic(auto, using(dc_lines::proofs::Lines::writing))]
fn pair(
    alloc: Global,
    out: &mut Vec<u8>,
    first_word: &[u8],
    first: &Sparse,
    second_word: &[u8],
    second: &Sparse,
) -> Result<(), AllocError>
    ensures { OnOk result
        (out.new.items ≡ out.old.items
        ++ ended (vector_line first_word.now first.now ∷ vector_line second_word.now second.now
        ∷ [])) }
{
    vector(alloc, out, first_word, first)?;
    vector(alloc, out, second_word, second)?;
    Ok(())
}

// Four vectors: a solution, and a ray.
fn rays(
    alloc: Global,
    out: &mut Vec<u8>,
    unknown: &Sparse,
    lambda: &Sparse,
    ray_unknown: &Sparse,
    ray_lambda: &Sparse,
) -> Result<(), AllocError>
    ensures { OnOk result (out.new.items ≡ out.old.items
        ++ ended (vector_line (codes "unknown") unknown.now
        ∷ vector_line (codes "lambda") lambda.now
        ∷ vector_line (codes "ray unknown") ray_unknown.now
        ∷ vector_line (codes "ray lambda") ray_lambda.now ∷ [])) }
{
    pair(alloc, out, b"unknown", unknown, b"lambda", lambda)?;
    pair(
        alloc,
        out,
        b"ray unknown",
        ray_unknown,
        b"ray lambda",
        ray_lambda,
    )?;
    Ok(())
}

// The vectors of the main problem.
#[tactic(auto, using(dc_lines::proofs::Lines::writing))]
fn body(alloc: Global, out: &mut Vec<u8>, body: &Body) -> Result<(), AllocError>
    ensures { OnOk result (out.new.items ≡ out.old.items ++ ended (body_lines body.now)) }
{
    match body {
        Body::Threshold {
            unknown,
            lambda,
            dual,
            ..
        } => {
            pair(alloc, out, b"unknown", unknown, b"lambda", lambda)?;
            vector(alloc, out, b"dual", dual)?;
        }
        Body::Nothing { dual } => vector(alloc, out, b"dual", dual)?,
        Body::Vacuous {
            unknown,
            lambda,
            ray_unknown,
            ray_lambda,
        } => rays(alloc, out, unknown, lambda, ray_unknown, ray_lambda)?,
    }
    Ok(())
}

// The whole text.
fn put_text(alloc: Global, out: &mut Vec<u8>, c: &Certificate) -> Result<(), AllocError>
    ensures { OnOk result (out.new.items ≡ out.old.items ++ text_of c.now) }
{
    head(alloc, out, c)?;
    plain(out, b"side new")?;
    side(alloc, out, c.version, &c.new_side)?;
    plain(out, b"side old")?;
    side(alloc, out, c.version, &c.old_side)?;
    plain(out, b"main")?;
    body(alloc, out, &c.body)?;
    plain(out, b"end")?;
    Ok(())
}

/// Why a certificate has no text.
#[derive(Debug, Drop, Error)]
pub enum WriteFault {
    /// The text would have so many bytes, more than 16,777,216.
    #[error("a text that is too large")]
    TooLarge { count: u64 },
    #[error("out of memory")]
    NoMemory,
}

/// The lines of a claim, with which a certificate's text begins: `threshold F` with `whole W` below,
/// `none`, or `vacuous`, each with its line feed.
pub fn write_claim(alloc: Global, what: &Claim) -> Result<Vec<u8>, AllocError>
    ensures { IfOk result (λ v. v.items ≡ ended (claim_lines what.now)) }
{
    let mut out = Vec::new(alloc);
    put_claim(alloc, &mut out, what)?;
    Ok(out)
}

/// The first line of a claim's, without its line feed: `threshold F`, `none` or `vacuous`.
pub fn write_claim_line(alloc: Global, what: &Claim) -> Result<Vec<u8>, AllocError>
    ensures { IfOk result (λ v. v.items ≡ claim_line what.now) }
{
    let mut out = Vec::new(alloc);
    put_claim_line(alloc, &mut out, what)?;
    Ok(out)
}

/// A fraction as texts spell it: the numerator, and `/` with the denominator where it isn't 1.
pub fn write_fraction(alloc: Global, f: &Frac) -> Result<Vec<u8>, AllocError>
    ensures { IfOk result (λ v. v.items ≡ frac_text f.now) }
{
    let mut out = Vec::new(alloc);
    put_fraction(alloc, &mut out, f)?;
    Ok(out)
}

/// The greatest number of bytes of a text.
pub(crate) const LIMIT: usize = 16777216;

/// The one text of a certificate that is in its ranges (`dc_cert`'s `specs/Ranges`).
///
/// # Errors
///
/// `TooLarge` where the text has more than 16,777,216 bytes, and only there, with its length; else
/// `NoMemory`, for want of memory alone.
pub fn write_cert(alloc: Global, c: &Certificate) -> Result<Vec<u8>, WriteFault>
    requires { IsCertificate c.now }
    ensures text { IfOk result (λ v. v.items ≡ text_of c.now) }
    ensures short { IfOk result (λ v. length (text_of c.now) ≤ limit) }
    ensures fault { IfErr result (λ f. IsWriteFault c.now f) }
{
    let mut out = Vec::new(alloc);
    let Ok(_) = put_text(alloc, &mut out, c) else {
        return Err(WriteFault::NoMemory);
    };
    if out.len() > LIMIT {
        return Err(WriteFault::TooLarge {
            count: out.len() as u64,
        });
    }
    Ok(out)
}
