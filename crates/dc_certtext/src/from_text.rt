//! A certificate from its text.
ghost use Rattle.std.specs.Prelude.{ℕ, List, [], ◌∷◌, ◌++◌, ◌≡◌, ◌≤◌, IfOk, IfErr, MatchOption, length};
ghost use Rattle.dc_cert.specs.declared.certificate.Certificate.{Certificate as Whole};
ghost use Rattle.dc_cert.specs.Ranges.{IsCertificate};
ghost use Rattle.dc_certtext.specs.Limits.{limit, HasText};
ghost use Rattle.dc_certtext.specs.Text.{text_of};
ghost use Rattle.dc_certtext.specs.ReadFaults.{IsReadFault};
ghost use Rattle.dc_lines.specs.Cuts.{Lacks};
ghost use Rattle.dc_lines.specs.Texts.{IsReading};

use crate::stage::Stage;
use crate::write::LIMIT;
use dc_cert::Certificate;
use dc_lines::first_line;
use std::alloc::{AllocError, Global};
use thiserror::Error;

/// Why bytes are not read as a certificate.
#[derive(Debug, Drop, Error)]
pub enum ReadFault {
    /// The bytes are no certificate's text. The line, from 1 on, is the first with which no
    /// certificate's text goes on, of any length; in a text of more than 16,777,216 bytes it is at
    /// most the line of byte 16,777,217; where all lines go on it is the one behind the last line
    /// feed.
    #[error("not the text of a certificate")]
    BadText { line: u64 },
    #[error("out of memory")]
    NoMemory,
}

impl From<AllocError> for ReadFault {
    ghost use Rattle.std.specs.Prelude.{◌≡◌};
    ghost use Rattle.dc_certtext.specs.declared.from_text.ReadFault.TheVariants.{NoMemory};

    ghost from_gives = { λ _ e. e ≡ NoMemory };

    fn from(_error: AllocError) -> ReadFault {
        ReadFault::NoMemory
    }
}

// The line that the reading of a text ended at, and the certificate where the text is one's.
#[derive(Debug, Drop)]
struct Reading {
    line: u64,
    whole: Option<Certificate>,
}

// The certificate, where its last line is read and nothing stands behind it.
fn finish(stage: Stage, rest: &[u8]) -> Option<Certificate>
    ensures { MatchOption result ((c : Whole) → stage ≡ Stage.Done c → ¬ (rest.now ≡ []))
        (λ c. (stage ≡ Stage.Done c) × (rest.now ≡ [])) }
{
    if !rest.is_empty() {
        return None;
    }
    match stage.certificate() {
        Ok(c) => Some(c),
        Err(_) => None,
    }
}

// The reading of a text line by line, up to the first line that no stage takes.
#[tactic(auto, using(crate::proofs::Machine::reaching))]
fn read_lines(alloc: Global, text: &[u8]) -> Result<Reading, AllocError>
    requires { length text.now ≤ limit }
    ensures { IfOk result (λ r. IsReading HasText text.now r.line r.whole) }
{
    let mut stage = Stage::Start;
    let mut rest = text;
    let mut line = 1;
    'lines: while let Some((front, behind)) = first_line(rest) {
        let Some(next) = stage.step(alloc, front)? else {
            return Ok(Reading { line, whole: None });
        };
        stage = next;
        rest = behind;
        line += 1;
    }
    Ok(Reading {
        line,
        whole: finish(stage, rest),
    })
}

/// The certificate whose text the bytes are.
///
/// A text has at most 16,777,216 bytes, and each certificate has one text: `write_cert` writes it.
/// The text is read line by line; each line has one way to be read behind the lines before it.
///
/// # Errors
///
/// `BadText` where the bytes are no certificate's text, and only there, with its line; else
/// `NoMemory`, for want of memory alone.
pub fn read_cert(alloc: Global, text: &[u8]) -> Result<Certificate, ReadFault>
    ensures ranges { IfOk result (λ c. IsCertificate c) }
    ensures text { IfOk result (λ c. text_of c ≡ text.now) }
    ensures short { IfOk result (λ _. length text.now ≤ limit) }
    ensures fault { IfErr result (λ f. IsReadFault text.now f) }
{
    if text.len() > LIMIT {
        let reading = read_lines(alloc, &text[..LIMIT])?;
        return Err(ReadFault::BadText { line: reading.line });
    }
    let reading = read_lines(alloc, text)?;
    match reading.whole {
        Some(c) => Ok(c),
        None => Err(ReadFault::BadText { line: reading.line }),
    }
}
