//! What of a trace is read after some of its lines.
ghost use Rattle.std.specs.Prelude.{ℤ, List, ◌≡◌, ◌++◌, IfOk, IfErr, MatchOption};
ghost use Rattle.dc_tracetext.specs.declared.trace.Trace.{Trace as Whole};
ghost use Rattle.dc_tracetext.specs.Text.{IsListLine};
ghost use Rattle.dc_tracetext.specs.Stages.{Steps};

use crate::trace::Trace;
use dc_lines::{is_same, read_fields, strip};
use sqlite_items::Items;
use std::alloc::{AllocError, Global};

/// What is read: nothing, the inputs, the choices too, or all.
#[derive(Debug, Drop)]
pub enum Stage {
    Start,
    Input(Items<i64>),
    Choices(Trace),
    Done(Trace),
}

// The list of a line that begins with this word; `None` exactly where the line is no such one.
fn read_list(alloc: Global, line: &[u8], word: &[u8]) -> Result<Option<Items<i64>>, AllocError>
    ensures { IfOk result
        (λ o. MatchOption o ((zs : List ℤ) → ¬ IsListLine word.now zs line.now)
        (λ zs. IsListLine word.now zs line.now)) }
{
    let Some(rest) = strip(line, word) else {
        return Ok(None);
    };
    match read_fields(alloc, rest)? {
        Some(list) => Ok(Some(Items::from_vec(list))),
        None => Ok(None),
    }
}

impl Stage {
    /// The stage behind a line, `None` where this one takes no such line.
    pub fn step(self, alloc: Global, line: &[u8]) -> Result<Option<Stage>, AllocError>
        ensures { IfOk result (λ o. Steps self line.now o) }
    {
        match self {
            Stage::Start => match read_list(alloc, line, b"input")? {
                Some(input) => Ok(Some(Stage::Input(input))),
                None => Ok(None),
            },
            Stage::Input(input) => match read_list(alloc, line, b"choices")? {
                Some(choices) => Ok(Some(Stage::Choices(Trace { input, choices }))),
                None => Ok(None),
            },
            Stage::Choices(trace) => {
                if is_same(line, b"end") {
                    Ok(Some(Stage::Done(trace)))
                } else {
                    Ok(None)
                }
            }
            Stage::Done(_) => Ok(None),
        }
    }

    /// The trace, where its last line is read.
    pub fn trace(self) -> Option<Trace>
        ensures { MatchOption result ((t : Whole) → ¬ (self ≡ Stage.Done t))
            (λ t. self ≡ Stage.Done t) }
    {
        match self {
            Stage::Done(trace) => Some(trace),
            _ => None,
        }
    }
}
