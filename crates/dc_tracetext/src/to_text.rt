//! The text of a trace.
ghost use Rattle.std.specs.Prelude.{◌≡◌, ◌≤◌, ◌++◌, ◌∷◌, [], length, OnOk, IfOk, IfErr};
ghost use Rattle.dc_lines.specs.Bytes.{ended};
ghost use Rattle.dc_tracetext.specs.Text.{IsTrace, limit, list_line, text_of};
ghost use Rattle.dc_tracetext.specs.Faults.{IsWriteFault};

use crate::trace::Trace;
use dc_lines::put_fields;
use std::alloc::{AllocError, Global};
use thiserror::Error;

/// Why a trace has no text.
#[derive(Debug, Drop, Error)]
pub enum TraceWriteFault {
    /// The text would have so many bytes, more than 1,048,576.
    #[error("a trace that is too long")]
    TooLong { count: u64 },
    #[error("out of memory")]
    NoMemory,
}

/// The greatest number of bytes of a text.
pub(crate) const LIMIT: usize = 1048576;

// A word and a list.
fn put_list(alloc: Global, out: &mut Vec<u8>, word: &[u8], list: &[i64]) -> Result<(), AllocError>
    ensures { OnOk result (out.new.items ≡ out.old.items ++ ended (list_line word.now list.now ∷ [])) }
{
    out.extend_from_slice(word)?;
    put_fields(alloc, out, list)?;
    out.push(b'\n')?;
    Ok(())
}

// All three lines.
fn put_text(alloc: Global, out: &mut Vec<u8>, t: &Trace) -> Result<(), AllocError>
    ensures { OnOk result (out.new.items ≡ out.old.items ++ text_of t.now) }
{
    put_list(alloc, out, b"input", t.input.as_slice())?;
    put_list(alloc, out, b"choices", t.choices.as_slice())?;
    out.extend_from_slice(b"end\n")?;
    Ok(())
}

/// The one text of a trace whose numbers have sizes of at most 2^63 - 1.
///
/// # Errors
///
/// `TooLong` where the text has more than 1,048,576 bytes, and only there, with its length; else
/// `NoMemory`, for want of memory alone.
pub fn write_trace(alloc: Global, t: &Trace) -> Result<Vec<u8>, TraceWriteFault>
    requires { IsTrace t.now }
    ensures text { IfOk result (λ v. v.items ≡ text_of t.now) }
    ensures short { IfOk result (λ _. length (text_of t.now) ≤ limit) }
    ensures fault { IfErr result (λ f. IsWriteFault t.now f) }
{
    let mut out = Vec::new(alloc);
    let Ok(_) = put_text(alloc, &mut out, t) else {
        return Err(TraceWriteFault::NoMemory);
    };
    if out.len() > LIMIT {
        return Err(TraceWriteFault::TooLong {
            count: out.len() as u64,
        });
    }
    Ok(out)
}
