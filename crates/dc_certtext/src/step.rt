//! One line more: the stage that it leads to.
ghost use Rattle.std.specs.Prelude.{ℕ, ◌≡◌, ◌≤◌, IfOk, MatchOption};
ghost use Rattle.dc_certtext.specs.Stages.{Steps, sized as sized_stage, with_when as head_with};
ghost use Rattle.dc_certtext.specs.Text.{entry_line, numbered, sizes_line, whole_line};

use crate::behind::{atom_behind, fraction_behind, number_behind, shown_behind, vector_behind};
use crate::stage::{Found, Front, Head, Stage};
use dc_affine::Atom;
use dc_cert::{Certificate, Claim, EdgeCert, Liveness, SideCert, Sparse};
use dc_frac::Frac;
use dc_lines::{cut, is_same, natural, put_number, put_whole, strip};
use sqlite_items::Items;
use std::alloc::{AllocError, Global};

// The atoms of a location, or the keeps of an entry or an edge.
const MOST_LINES: usize = 1024;

const MOST_LOCATIONS: usize = 128;

const MOST_EDGES: usize = 512;

const MOST_CASES: u128 = 64;

const MOST_DEGREE: u128 = 3;

const MOST_FACTORS: u128 = 3;

// The claim.
pub(crate) fn start(line: &[u8]) -> Option<Stage>
    ensures { Steps Stage.Start line.now result }
{
    if let Some(t) = fraction_behind(line, b"threshold ") {
        return Some(Stage::Whole(t));
    }
    if is_same(line, b"none") {
        return Some(Stage::Version(Claim::Nothing));
    }
    if is_same(line, b"vacuous") {
        return Some(Stage::Version(Claim::Vacuous));
    }
    None
}

// The floor of a threshold.
pub(crate) fn floor(alloc: Global, line: &[u8], t: Frac) -> Result<Option<Stage>, AllocError>
    ensures { IfOk result (λ o. Steps (Stage.Whole t) line.now o) }
{
    let text = whole_text(alloc, &t)?;
    if is_same(line, text.as_slice()) {
        return Ok(Some(Stage::Version(Claim::Threshold(t))));
    }
    Ok(None)
}

fn whole_text(alloc: Global, t: &Frac) -> Result<Vec<u8>, AllocError>
    ensures { IfOk result (λ v. v.items ≡ whole_line t.now) }
{
    let mut out = Vec::new(alloc);
    out.extend_from_slice(b"whole ")?;
    let floor = t.floor();
    put_whole(alloc, &mut out, &floor)?;
    Ok(out)
}

// A word with a number.
fn number_text(alloc: Global, word: &[u8], n: usize) -> Result<Vec<u8>, AllocError>
    ensures { IfOk result (λ v. v.items ≡ numbered word.now n) }
{
    let mut out = Vec::new(alloc);
    out.extend_from_slice(word)?;
    put_number(alloc, &mut out, n as u128)?;
    Ok(out)
}

fn entry_text(alloc: Global, version: u8, n: usize) -> Result<Vec<u8>, AllocError>
    ensures { IfOk result (λ v. v.items ≡ entry_line version n) }
{
    let mut out = Vec::new(alloc);
    out.extend_from_slice(b"entry")?;
    if version != 1 {
        out.push(b' ')?;
        put_number(alloc, &mut out, n as u128)?;
    }
    Ok(out)
}

// The version.
pub(crate) fn version(line: &[u8], claim: Claim) -> Option<Stage>
    ensures { Steps (Stage.Version claim) line.now result }
{
    let Some(n) = number_behind(line, b"diffcost ") else {
        return None;
    };
    if n < 1 {
        return None;
    }
    if n > 2 {
        return None;
    }
    Some(Stage::Sizes(claim, n as u8))
}

// The degree and the number of factors.
fn two_sizes(line: &[u8]) -> Option<(u8, u8)>
    ensures { MatchOption result ((d n : ℕ) → d ≤ 3 → 1 ≤ n → n ≤ 3 → ¬ (sizes_line d n ≡ line.now))
        (λ p. (p.0 ≤ 3) × (1 ≤ p.1) × (p.1 ≤ 3) × (sizes_line p.0 p.1 ≡ line.now)) }
{
    let Some(rest) = strip(line, b"degree ") else {
        return None;
    };
    let (front, back) = cut(rest, b' ');
    let Some(degree) = natural(front) else {
        return None;
    };
    if degree > MOST_DEGREE {
        return None;
    }
    let Some(products) = number_behind(back, b" products ") else {
        return None;
    };
    if products < 1 {
        return None;
    }
    if products > MOST_FACTORS {
        return None;
    }
    Some((degree as u8, products as u8))
}

pub(crate) fn sizes(alloc: Global, line: &[u8], claim: Claim, version: u8) -> Option<Stage>
    ensures { Steps (Stage.Sizes claim version) line.now result }
{
    let Some((degree, products)) = two_sizes(line) else {
        return None;
    };
    Some(after_sizes(alloc, claim, version, degree, products))
}

// Version 1 has one case.
fn after_sizes(alloc: Global, claim: Claim, version: u8, degree: u8, products: u8) -> Stage
    ensures { result ≡ sized_stage claim version degree products }
{
    if version == 1 {
        return Stage::Heads(Head {
            claim,
            version: 1,
            degree,
            products,
            cases: 1,
            when: Items::new(alloc),
        });
    }
    Stage::Cases(claim, degree, products)
}

// The number of cases.
pub(crate) fn cases(
    alloc: Global,
    line: &[u8],
    claim: Claim,
    degree: u8,
    products: u8,
) -> Option<Stage>
    ensures { Steps (Stage.Cases claim degree products) line.now result }
{
    let Some(n) = number_behind(line, b"cases ") else {
        return None;
    };
    if n < 1 {
        return None;
    }
    if n > MOST_CASES {
        return None;
    }
    Some(Stage::Heads(Head {
        claim,
        version: 2,
        degree,
        products,
        cases: n as usize,
        when: Items::new(alloc),
    }))
}

fn with_when(mut head: Head, l: Liveness) -> Result<Head, AllocError>
    ensures { IfOk result (λ h. h ≡ head_with head l) }
{
    head.when.push(l)?;
    Ok(head)
}

// A case, or the new side.
pub(crate) fn heads(alloc: Global, line: &[u8], head: Head) -> Result<Option<Stage>, AllocError>
    ensures { IfOk result (λ o. Steps (Stage.Heads head) line.now o) }
{
    if let Some(l) = shown_behind(alloc, line, b"when")? {
        if head.when.len() >= head.cases {
            return Ok(None);
        }
        return Ok(Some(Stage::Heads(with_when(head, l)?)));
    }
    if is_same(line, b"side new") {
        if head.when.len() < head.cases {
            return Ok(None);
        }
        return Ok(Some(Stage::Opened(Front { head, new: None })));
    }
    Ok(None)
}

// The first location of a side.
pub(crate) fn open_side(
    alloc: Global,
    line: &[u8],
    front: Front,
) -> Result<Option<Stage>, AllocError>
    ensures { IfOk result (λ o. Steps (Stage.Opened front) line.now o) }
{
    let text = number_text(alloc, b"location ", 0)?;
    if is_same(line, text.as_slice()) {
        return Ok(Some(Stage::Locations(front, Items::new(alloc), Items::new(alloc))));
    }
    Ok(None)
}

// An atom, another location, or the first entry.
pub(crate) fn locations(
    alloc: Global,
    line: &[u8],
    front: Front,
    mut done: Items<Items<Atom>>,
    mut last: Items<Atom>,
) -> Result<Option<Stage>, AllocError>
    ensures { IfOk result (λ o. Steps (Stage.Locations front done last) line.now o) }
{
    if let Some(a) = atom_behind(alloc, line)? {
        if last.len() >= MOST_LINES {
            return Ok(None);
        }
        last.push(a)?;
        return Ok(Some(Stage::Locations(front, done, last)));
    }
    let next = number_text(alloc, b"location ", done.len() + 1)?;
    if is_same(line, next.as_slice()) {
        if done.len() + 1 >= MOST_LOCATIONS {
            return Ok(None);
        }
        done.push(last)?;
        return Ok(Some(Stage::Locations(front, done, Items::new(alloc))));
    }
    let entry = entry_text(alloc, front.head.version, 0)?;
    if is_same(line, entry.as_slice()) {
        done.push(last)?;
        return Ok(Some(Stage::Entries(front, done, Items::new(alloc), Items::new(alloc))));
    }
    Ok(None)
}

// A keep of an entry, another entry, the first edge, or the exit.
pub(crate) fn entries(
    alloc: Global,
    line: &[u8],
    front: Front,
    families: Items<Items<Atom>>,
    mut done: Items<Items<Sparse>>,
    mut last: Items<Sparse>,
) -> Result<Option<Stage>, AllocError>
    ensures { IfOk result (λ o. Steps (Stage.Entries front families done last) line.now o) }
{
    if let Some(s) = vector_behind(alloc, line, b"keep")? {
        if last.len() >= MOST_LINES {
            return Ok(None);
        }
        last.push(s)?;
        return Ok(Some(Stage::Entries(front, families, done, last)));
    }
    let next = entry_text(alloc, front.head.version, done.len() + 1)?;
    if is_same(line, next.as_slice()) {
        if done.len() + 1 >= front.head.cases {
            return Ok(None);
        }
        done.push(last)?;
        return Ok(Some(Stage::Entries(front, families, done, Items::new(alloc))));
    }
    let edge = number_text(alloc, b"edge ", 0)?;
    if let Some(l) = shown_behind(alloc, line, edge.as_slice())? {
        if done.len() + 1 < front.head.cases {
            return Ok(None);
        }
        done.push(last)?;
        return Ok(Some(Stage::Edges(
            front,
            families,
            done,
            Items::new(alloc),
            l,
            Items::new(alloc),
        )));
    }
    if let Some(l) = shown_behind(alloc, line, b"exit")? {
        if done.len() + 1 < front.head.cases {
            return Ok(None);
        }
        done.push(last)?;
        return Ok(Some(front.close(SideCert {
            families,
            entry_keeps: done,
            edges: Items::new(alloc),
            exit_line: l,
        })));
    }
    Ok(None)
}

// A keep of an edge, another edge, or the exit.
#[tactic(auto, using(crate::proofs::Refusals::refusing))]
pub(crate) fn edges(
    alloc: Global,
    line: &[u8],
    front: Front,
    families: Items<Items<Atom>>,
    entries: Items<Items<Sparse>>,
    mut done: Items<EdgeCert>,
    live: Liveness,
    mut last: Items<Sparse>,
) -> Result<Option<Stage>, AllocError>
    ensures { IfOk result (λ o. Steps (Stage.Edges front families entries done live last) line.now o) }
{
    if let Some(s) = vector_behind(alloc, line, b"keep")? {
        if last.len() >= MOST_LINES {
            return Ok(None);
        }
        last.push(s)?;
        return Ok(Some(Stage::Edges(front, families, entries, done, live, last)));
    }
    let edge = number_text(alloc, b"edge ", done.len() + 1)?;
    if let Some(l) = shown_behind(alloc, line, edge.as_slice())? {
        if done.len() + 1 >= MOST_EDGES {
            return Ok(None);
        }
        done.push(EdgeCert { live, keeps: last })?;
        return Ok(Some(Stage::Edges(front, families, entries, done, l, Items::new(alloc))));
    }
    if let Some(l) = shown_behind(alloc, line, b"exit")? {
        done.push(EdgeCert { live, keeps: last })?;
        return Ok(Some(front.close(SideCert {
            families,
            entry_keeps: entries,
            edges: done,
            exit_line: l,
        })));
    }
    Ok(None)
}

// The old side, behind the new one.
pub(crate) fn between(line: &[u8], head: Head, new: SideCert) -> Option<Stage>
    ensures { Steps (Stage.Between head new) line.now result }
{
    if is_same(line, b"side old") {
        return Some(Stage::Opened(Front {
            head,
            new: Some(new),
        }));
    }
    None
}

// The vectors, behind both sides.
pub(crate) fn main_line(line: &[u8], head: Head, new: SideCert, old: SideCert) -> Option<Stage>
    ensures { Steps (Stage.Closed head new old) line.now result }
{
    if is_same(line, b"main") {
        let found = Found::nothing(&head.claim);
        return Some(Stage::Main(head, new, old, found));
    }
    None
}

// A vector of the main problem.
pub(crate) fn main_vector(
    alloc: Global,
    line: &[u8],
    head: Head,
    new: SideCert,
    old: SideCert,
    found: Found,
) -> Result<Option<Stage>, AllocError>
    ensures { IfOk result (λ o. Steps (Stage.Main head new old found) line.now o) }
{
    let Some(s) = vector_behind(alloc, line, found.due())? else {
        return Ok(None);
    };
    Ok(Some(found.with_vector(head, new, old, s)))
}

// The end.
pub(crate) fn end(line: &[u8], c: Certificate) -> Option<Stage>
    ensures { Steps (Stage.End c) line.now result }
{
    if is_same(line, b"end") {
        return Some(Stage::Done(c));
    }
    None
}
