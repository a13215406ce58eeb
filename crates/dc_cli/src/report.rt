//! How a refusal is reported.
ghost use Rattle.std.specs.Prelude.{◌≡◌, ◌≤◌, MatchResult, codes};
ghost use Rattle.std.specs.String.{string_bytes};
ghost use Rattle.dc_answers.specs.Lines.{status_of};
ghost use Rattle.dc_answers.specs.Outside.{stream_of, IsSaid};
ghost use Rattle.dc_cli.specs.Reports.{IsReported};

use crate::lines::{built_line, fixed_line};
use dc_answers::Refusal;
use dc_host::{Sink, put_all};
use std::alloc::{AllocError, Global};

const NO_MEMORY: u8 = 10;

/// Writes the line of a refusal, and answers its status. Where there is no memory for the line, the
/// line and the status are those of want of memory. A fault of `err` changes nothing else.
pub fn report<E: Sink>(alloc: Global, refusal: &Refusal, err: &mut E) -> u8
    ensures line { IsReported refusal.now (stream_of E.written E.faults err.old err.new) result }
    ensures later { E.faults err.old ≤ E.faults err.new }
{
    let status = status(refusal);
    match fixed_line(refusal) {
        Some(line) => tell(err, line, status),
        None => tell_built(err, built_line(alloc, refusal), status),
    }
}

/// The status of a refusal.
fn status(refusal: &Refusal) -> u8
    ensures { result ≡ status_of refusal.now }
{
    match refusal {
        Refusal::Usage => 3,
        Refusal::Source(_, _) => 4,
        Refusal::TooLarge { .. } => 5,
        Refusal::PastPivot { .. } => 6,
        Refusal::PastFold { .. } => 6,
        Refusal::Spent { .. } => 7,
        Refusal::Unread(_) => 8,
        Refusal::Unwritten => 9,
        Refusal::NoMemory => NO_MEMORY,
        Refusal::Rejected { .. } => 11,
        Refusal::BadCertificate { .. } => 12,
    }
}

/// Writes a line, and answers the status that goes with it.
fn tell<E: Sink>(err: &mut E, line: &str, status: u8) -> u8
    ensures said { IsSaid (stream_of E.written E.faults err.old err.new) line.now }
    ensures later { E.faults err.old ≤ E.faults err.new }
    ensures status { result ≡ status }
{
    let _ = put_all(err, line.as_bytes());
    status
}

/// Writes a line that wanted memory, or that there was none.
fn tell_built<E: Sink>(err: &mut E, line: Result<String, AllocError>, status: u8) -> u8
    ensures said { MatchResult line (λ l. IsSaid (stream_of E.written E.faults err.old err.new)
        (string_bytes l) × (result ≡ status)) (λ _. IsSaid (stream_of E.written E.faults err.old
        err.new) (codes "no memory\n") × (result ≡ 10)) }
    ensures later { E.faults err.old ≤ E.faults err.new }
{
    match line {
        Ok(line) => tell(err, line.as_str(), status),
        Err(AllocError) => tell(err, "no memory\n", NO_MEMORY),
    }
}
