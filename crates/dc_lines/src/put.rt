//! Whole numbers at the end of a text.
ghost use Rattle.std.specs.Prelude.{◌≡◌, ◌++◌, ◌∷◌, OnOk};
ghost use Rattle.std.specs.Fmt.{decimal, signed_decimal};

use std::alloc::{AllocError, Global};

/// A number in decimal.
pub fn put_number(alloc: Global, out: &mut Vec<u8>, n: u128) -> Result<(), AllocError>
    ensures { OnOk result (out.new.items ≡ out.old.items ++ decimal n) }
{
    let text = format!(in alloc; "{n}")?;
    out.extend_from_slice(text.as_bytes())
}

/// A whole number in decimal, with `-` in front of a negative one.
pub fn put_whole(alloc: Global, out: &mut Vec<u8>, z: &i128) -> Result<(), AllocError>
    ensures { OnOk result (out.new.items ≡ out.old.items ++ signed_decimal z.now) }
{
    if *z < 0 {
        out.push(b'-')?;
    }
    put_number(alloc, out, z.unsigned_abs())
}

/// A field: a space and a whole number.
pub fn put_field(alloc: Global, out: &mut Vec<u8>, z: &i64) -> Result<(), AllocError>
    ensures { OnOk result (out.new.items ≡ out.old.items ++ 32 ∷ signed_decimal z.now) }
{
    out.push(b' ')?;
    if *z < 0 {
        out.push(b'-')?;
    }
    put_number(alloc, out, z.unsigned_abs() as u128)
}
