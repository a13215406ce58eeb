//! Vectors and atoms from a text, item by item.
ghost use Rattle.std.specs.Prelude.{ℕ, ℤ, List, ◌≡◌, ◌≤◌, ◌++◌, ◌∷◌, unsigned_abs, IfOk, MatchOption};
ghost use Rattle.std.specs.Fmt.{signed_decimal};
ghost use Rattle.dc_affine.specs.declared.atom.Atom.{Atom as Fact};
ghost use Rattle.dc_affine.specs.Atoms.{IsAtom, most_constant};
ghost use Rattle.dc_cert.specs.declared.sparse.Sparse.{Sparse as Vector};
ghost use Rattle.dc_cert.specs.declared.sparse.Item.{Item as Entry};
ghost use Rattle.dc_cert.specs.Vectors.{IsItem, IsVector};
ghost use Rattle.dc_lines.specs.Cuts.{Starts};
ghost use Rattle.dc_certtext.specs.Words.{atom_text, item_text, vector_text};

use crate::put::put_vector;
use crate::read::item;
use dc_affine::Atom;
use dc_cert::{Item, Sparse};
use dc_lines::{cut, next_field, strip};
use sqlite_items::Items;
use std::alloc::{AllocError, Global};

// The greatest sizes of the numbers of an atom, and how many stand behind the constant.
const MOST_CONSTANT: u64 = dc_affine::MOST_CONSTANT as u64;

const MOST_COEFFICIENT: u64 = dc_affine::MOST_COEFFICIENT as u64;

const MOST_COEFFICIENTS: usize = 10;

/// The items of a vector as they stand on a line, each with a space in front: ` I:F`.
pub fn write_items(alloc: Global, s: &Sparse) -> Result<Vec<u8>, AllocError>
    requires { IsVector s.now }
    ensures { IfOk result (λ v. v.items ≡ vector_text s.now) }
{
    let mut out = Vec::new(alloc);
    put_vector(alloc, &mut out, s)?;
    Ok(out)
}

/// The vector whose items stand there, with `None` exactly where no vector has this text.
///
/// Indices rise and are at most 8191; each value is a fraction in lowest terms that isn't 0, with
/// parts of at most 2^127 - 1, spelt without leading zeros.
pub fn read_items(alloc: Global, text: &[u8]) -> Result<Option<Sparse>, AllocError>
    ensures { IfOk result
        (λ o. MatchOption o ((s : Vector) → IsVector s → ¬ (vector_text s ≡ text.now))
        (λ s. IsVector s × (vector_text s ≡ text.now))) }
{
    let mut items = Items::new(alloc);
    let mut rest = text;
    let mut low = 0;
    'items: while !rest.is_empty() {
        let Some((next, more)) = next_item(rest) else {
            return Ok(None);
        };
        if next.index < low {
            return Ok(None);
        }
        low = next.index + 1;
        items.push(next)?;
        rest = more;
    }
    Ok(Some(Sparse { items }))
}

// The first item of a text, with the space in front, and the text behind it.
fn next_item(text: &[u8]) -> Option<(Item, &[u8])>
    ensures { MatchOption result
        ((i : Entry) (r : List ℕ) → IsItem i → Starts 32 r → ¬ (32 ∷ (item_text i ++ r) ≡ text.now))
        (λ p. IsItem p.0 × Starts 32 p.1.now × (32 ∷ (item_text p.0 ++ p.1.now) ≡ text.now)) }
{
    let Some(inside) = strip(text, b" ") else {
        return None;
    };
    let (word, more) = cut(inside, b' ');
    let Some(next) = item(word) else {
        return None;
    };
    Some((next, more))
}

// The first number of a text, with the space in front, and the text behind it.
fn next_number(text: &[u8]) -> Option<(i64, &[u8])>
    ensures { MatchOption result
        ((z : ℤ) (r : List ℕ) → unsigned_abs z ≤ most_constant → Starts 32 r
        → ¬ (32 ∷ (signed_decimal z ++ r) ≡ text.now))
        (λ p. (unsigned_abs p.0 ≤ most_constant) × Starts 32 p.1.now
        × (32 ∷ (signed_decimal p.0 ++ p.1.now) ≡ text.now)) }
{
    let Some((next, more)) = next_field(text) else {
        return None;
    };
    if next.unsigned_abs() > MOST_CONSTANT {
        return None;
    }
    Some((next, more))
}

/// The atom whose numbers stand there, each with a space in front, with `None` exactly where no
/// atom of at most 10 coefficients, within their sizes, has this text.
pub(crate) fn read_atom(alloc: Global, text: &[u8]) -> Result<Option<Atom>, AllocError>
    ensures { IfOk result
        (λ o. MatchOption o ((a : Fact) → IsAtom 10 a → ¬ (atom_text a ≡ text.now))
        (λ a. IsAtom 10 a × (atom_text a ≡ text.now))) }
{
    let Some((c0, more)) = next_number(text) else {
        return Ok(None);
    };
    let mut coefs = Items::new(alloc);
    let mut rest = more;
    'coefs: while !rest.is_empty() {
        if coefs.len() >= MOST_COEFFICIENTS {
            return Ok(None);
        }
        let Some((coef, more)) = next_number(rest) else {
            return Ok(None);
        };
        if coef.unsigned_abs() > MOST_COEFFICIENT {
            return Ok(None);
        }
        coefs.push(coef)?;
        rest = more;
    }
    Ok(Some(Atom { c0, coefs }))
}
