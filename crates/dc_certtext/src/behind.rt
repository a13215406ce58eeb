//! Single lines, from their words.
ghost use Rattle.std.specs.Prelude.{ℕ, List, ◌≡◌, ◌≢◌, ◌≤◌, ◌<◌, ◌^◌, ◌++◌, IfOk, MatchOption, MatchBool, codes};
ghost use Rattle.std.specs.Fmt.{decimal};
ghost use Rattle.dc_frac.specs.declared.Frac.{Frac as Fraction};
ghost use Rattle.dc_frac.specs.Fits.{IsSmall};
ghost use Rattle.dc_affine.specs.declared.atom.Atom.{Atom as Fact};
ghost use Rattle.dc_affine.specs.Atoms.{IsAtom};
ghost use Rattle.dc_cert.specs.declared.sparse.Sparse.{Sparse as Vector};
ghost use Rattle.dc_cert.specs.declared.certificate.Liveness.{Liveness as Shown};
ghost use Rattle.dc_cert.specs.Vectors.{IsVector};
ghost use Rattle.dc_cert.specs.Ranges.{IsShown};
ghost use Rattle.dc_certtext.specs.Words.{atom_text, frac_text, vector_text};
ghost use Rattle.dc_certtext.specs.Text.{shown_text};

use crate::items::{read_atom, read_items};
use crate::read::fraction;
use dc_affine::Atom;
use dc_cert::{Liveness, Sparse};
use dc_frac::Frac;
use dc_lines::{natural, strip};
use std::alloc::{AllocError, Global};

// The vector behind a word.
#[tactic(auto, using(crate::proofs::Afterword::words))]
pub(crate) fn vector_behind(
    alloc: Global,
    line: &[u8],
    word: &[u8],
) -> Result<Option<Sparse>, AllocError>
    ensures { IfOk result
        (λ o. MatchOption o ((s : Vector) → IsVector s → ¬ (word.now ++ vector_text s ≡ line.now))
        (λ s. IsVector s × (word.now ++ vector_text s ≡ line.now))) }
{
    let Some(rest) = strip(line, word) else {
        return Ok(None);
    };
    let Some(s) = read_items(alloc, rest)? else {
        return Ok(None);
    };
    Ok(Some(s))
}

// Whether something is live, behind a word.
#[tactic(auto, using(crate::proofs::Afterword::words))]
pub(crate) fn shown_behind(
    alloc: Global,
    line: &[u8],
    word: &[u8],
) -> Result<Option<Liveness>, AllocError>
    ensures { IfOk result
        (λ o. MatchOption o ((l : Shown) → IsShown l → ¬ (word.now ++ shown_text l ≡ line.now))
        (λ l. IsShown l × (word.now ++ shown_text l ≡ line.now))) }
{
    let Some(rest) = strip(line, word) else {
        return Ok(None);
    };
    if let Some(s) = vector_behind(alloc, rest, b" live")? {
        return Ok(Some(Liveness::Live(s)));
    }
    let Some(s) = vector_behind(alloc, rest, b" dead")? else {
        return Ok(None);
    };
    Ok(Some(Liveness::Dead(s)))
}

// The fraction behind a word.
#[tactic(auto, using(crate::proofs::Afterword::words))]
pub(crate) fn fraction_behind(line: &[u8], word: &[u8]) -> Option<Frac>
    ensures { MatchOption result
        ((f : Fraction) → IsSmall f.den → ¬ (word.now ++ frac_text f ≡ line.now))
        (λ f. IsSmall f.den × (word.now ++ frac_text f ≡ line.now)) }
{
    let Some(rest) = strip(line, word) else {
        return None;
    };
    let Some(f) = fraction(rest) else {
        return None;
    };
    Some(f)
}

// The number behind a word.
#[tactic(auto, using(crate::proofs::Afterword::words))]
pub(crate) fn number_behind(line: &[u8], word: &[u8]) -> Option<u128>
    ensures { MatchOption result ((n : ℕ) → n < 2 ^ 127 → ¬ (word.now ++ decimal n ≡ line.now))
        (λ n. (n < 2 ^ 127) × (word.now ++ decimal n ≡ line.now)) }
{
    let Some(rest) = strip(line, word) else {
        return None;
    };
    let Some(n) = natural(rest) else {
        return None;
    };
    Some(n)
}

// The atom behind its word.
#[tactic(auto, using(crate::proofs::Afterword::words))]
pub(crate) fn atom_behind(alloc: Global, line: &[u8]) -> Result<Option<Atom>, AllocError>
    ensures { IfOk result
        (λ o. MatchOption o ((a : Fact) → IsAtom 10 a → ¬ (codes "atom" ++ atom_text a ≡ line.now))
        (λ a. IsAtom 10 a × (codes "atom" ++ atom_text a ≡ line.now))) }
{
    let Some(rest) = strip(line, b"atom") else {
        return Ok(None);
    };
    let Some(a) = read_atom(alloc, rest)? else {
        return Ok(None);
    };
    Ok(Some(a))
}
