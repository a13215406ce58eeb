//! Numbers, fractions and vectors at the end of a text.
ghost use Rattle.std.specs.Prelude.{ℕ, ◌≡◌, ◌<◌, ◌^◌, ◌++◌, ◌∷◌, [], OnOk, unsigned_abs};
ghost use Rattle.std.specs.Fmt.{decimal, signed_decimal};
ghost use Rattle.dc_certtext.specs.Words.{atom_text, frac_text, item_text, vector_text};

use dc_affine::Atom;
use dc_cert::{Item, Sparse};
use dc_frac::Frac;
use dc_lines::{put_field, put_number, put_whole};
use std::alloc::{AllocError, Global};

// A fraction: its denominator stands where it isn't 1.
pub(crate) fn put_fraction(alloc: Global, out: &mut Vec<u8>, f: &Frac) -> Result<(), AllocError>
    ensures { OnOk result (out.new.items ≡ out.old.items ++ frac_text f.now) }
{
    put_whole(alloc, out, &f.num)?;
    if f.den != 1 {
        out.push(b'/')?;
        put_number(alloc, out, f.den.unsigned_abs())?;
    }
    Ok(())
}

// An item.
fn put_item(alloc: Global, out: &mut Vec<u8>, item: &Item) -> Result<(), AllocError>
    ensures { OnOk result (out.new.items ≡ out.old.items ++ item_text item.now) }
{
    put_number(alloc, out, item.index as u128)?;
    out.push(b':')?;
    put_fraction(alloc, out, &item.value)
}

// The items of a vector, each with a space in front.
pub(crate) fn put_vector(alloc: Global, out: &mut Vec<u8>, s: &Sparse) -> Result<(), AllocError>
    ensures { OnOk result (out.new.items ≡ out.old.items ++ vector_text s.now) }
{
    for item in s.items.as_slice() {
        out.push(b' ')?;
        put_item(alloc, out, item)?;
    }
    Ok(())
}

// The numbers of an atom, each with a space in front.
pub(crate) fn put_atom(alloc: Global, out: &mut Vec<u8>, atom: &Atom) -> Result<(), AllocError>
    ensures { OnOk result (out.new.items ≡ out.old.items ++ atom_text atom.now) }
{
    put_field(alloc, out, &atom.c0)?;
    for coef in atom.coefs.as_slice() {
        put_field(alloc, out, coef)?;
    }
    Ok(())
}
