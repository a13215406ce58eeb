//! Lists of whole numbers on a line, each with a space in front.
ghost use Rattle.std.specs.Prelude.{ℤ, List, ◌≡◌, ◌++◌, IfOk, MatchOption, OnOk};
ghost use Rattle.dc_lines.specs.Fields.{AreFields, fields_text};

use crate::number::next_field;
use crate::put::put_field;
use std::alloc::{AllocError, Global};

/// The numbers, each with a space in front, at the end of a text.
pub fn put_fields(alloc: Global, out: &mut Vec<u8>, list: &[i64]) -> Result<(), AllocError>
    ensures { OnOk result (out.new.items ≡ out.old.items ++ fields_text list.now) }
{
    for z in list {
        put_field(alloc, out, z)?;
    }
    Ok(())
}

/// The numbers that stand on a line, each with a space in front and of size at most 2^63 - 1;
/// `None` exactly where the text is no such list.
pub fn read_fields(alloc: Global, text: &[u8]) -> Result<Option<Vec<i64>>, AllocError>
    ensures { IfOk result
        (λ o. MatchOption o ((zs : List ℤ) → AreFields zs → ¬ (fields_text zs ≡ text.now))
        (λ v. AreFields v.items × (fields_text v.items ≡ text.now))) }
{
    let mut list = Vec::new(alloc);
    let mut rest = text;
    'fields: while !rest.is_empty() {
        let Some((next, more)) = next_field(rest) else {
            return Ok(None);
        };
        list.push(next)?;
        rest = more;
    }
    Ok(Some(list))
}
