//! A trace from its text.
ghost use Rattle.std.specs.Prelude.{ℕ, List, [], ◌≡◌, ◌≤◌, IfOk, IfErr, MatchOption, length};
ghost use Rattle.dc_lines.specs.Texts.{IsReading};
ghost use Rattle.dc_tracetext.specs.declared.trace.Trace.{Trace as Whole};
ghost use Rattle.dc_tracetext.specs.Text.{HasText, IsTrace, limit, text_of};
ghost use Rattle.dc_tracetext.specs.Faults.{IsTextFault};

use crate::stage::Stage;
use crate::to_text::LIMIT;
use crate::trace::Trace;
use dc_lines::first_line;
use std::alloc::{AllocError, Global};
use thiserror::Error;

/// Why bytes are not read as a trace.
#[derive(Debug, Drop, Error)]
pub enum TraceTextFault {
    /// The bytes are no trace's text. The line, from 1 on, is the first with which no trace's text
    /// goes on, of any length; in a text of more than 1,048,576 bytes it is at most the line of
    /// byte 1,048,577; where all lines go on it is the one behind the last line feed.
    #[error("not the text of a trace")]
    BadTrace { line: u64 },
    #[error("out of memory")]
    NoMemory,
}

impl From<AllocError> for TraceTextFault {
    ghost use Rattle.std.specs.Prelude.{◌≡◌};
    ghost use Rattle.dc_tracetext.specs.declared.from_text.TraceTextFault.TheVariants.{NoMemory};

    ghost from_gives = { λ _ e. e ≡ NoMemory };

    fn from(_error: AllocError) -> TraceTextFault {
        TraceTextFault::NoMemory
    }
}

// The line that the reading of a text ended at, and the trace where the text is one's.
#[derive(Debug, Drop)]
struct Reading {
    line: u64,
    whole: Option<Trace>,
}

// The trace, where its last line is read and nothing stands behind it.
fn finish(stage: Stage, rest: &[u8]) -> Option<Trace>
    ensures { MatchOption result ((t : Whole) → stage ≡ Stage.Done t → ¬ (rest.now ≡ []))
        (λ t. (stage ≡ Stage.Done t) × (rest.now ≡ [])) }
{
    if !rest.is_empty() {
        return None;
    }
    stage.trace()
}

// The reading of a text line by line, up to the first line that no stage takes.
#[tactic(auto, using(crate::proofs::Machine::reaching))]
fn read_lines(alloc: Global, text: &[u8]) -> Result<Reading, AllocError>
    requires { length text.now ≤ limit }
    ensures { IfOk result (λ r. IsReading HasText text.now r.line r.whole) }
{
    let mut stage = Stage::Start;
    let mut rest = text;
    let mut line = 1;
    'lines: while let Some((front, behind)) = first_line(rest) {
        let Some(next) = stage.step(alloc, front)? else {
            return Ok(Reading { line, whole: None });
        };
        stage = next;
        rest = behind;
        line += 1;
    }
    Ok(Reading {
        line,
        whole: finish(stage, rest),
    })
}

/// The trace whose text the bytes are.
///
/// A text has at most 1,048,576 bytes and three lines, each with its line feed: `input` and the
/// inputs, `choices` and the choices, `end`. Each number has one space in front; it is written in
/// digits without leading zeros, with `-` where it is negative, and its size is at most 2^63 - 1.
///
/// # Errors
///
/// `BadTrace` where the bytes are no trace's text, and only there, with its line; else `NoMemory`,
/// for want of memory alone.
pub fn read_trace(alloc: Global, text: &[u8]) -> Result<Trace, TraceTextFault>
    ensures sizes { IfOk result (λ t. IsTrace t) }
    ensures text { IfOk result (λ t. text_of t ≡ text.now) }
    ensures short { IfOk result (λ _. length text.now ≤ limit) }
    ensures fault { IfErr result (λ f. IsTextFault text.now f) }
{
    if text.len() > LIMIT {
        let reading = read_lines(alloc, &text[..LIMIT])?;
        return Err(TraceTextFault::BadTrace { line: reading.line });
    }
    let reading = read_lines(alloc, text)?;
    match reading.whole {
        Some(t) => Ok(t),
        None => Err(TraceTextFault::BadTrace { line: reading.line }),
    }
}
