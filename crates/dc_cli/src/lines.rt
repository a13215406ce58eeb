//! The lines of refusals.
ghost use Rattle.std.specs.Prelude.{◌≡◌, IfOk, MatchOption};
ghost use Rattle.std.specs.String.{string_bytes};
ghost use Rattle.dc_answers.specs.Lines.{line_of, unread_line, bad_line, source_line, large_line, pivot_line, fold_line, spent_line, rejected_line};
ghost use Rattle.dc_cli.specs.Reports.{IsBuilt};

use crate::words::{count_word, line_and_column, side_word, text_word, usage, wrong_word};
use dc_answers::{Refusal, Text, Wrong};
use dc_entail::Site;
use dc_syntax::{Count, Side};
use std::alloc::{AllocError, Global};

/// The line of a refusal that wants no memory for it.
pub fn fixed_line(refusal: &Refusal) -> Option<&'static str>
    ensures { MatchOption result (IsBuilt refusal.now) (λ line. line.now ≡ line_of refusal.now) }
{
    match refusal {
        Refusal::Usage => Some(usage()),
        Refusal::Unwritten => Some("write fault\n"),
        Refusal::NoMemory => Some("no memory\n"),
        Refusal::Unread(_) => None,
        Refusal::BadCertificate { .. } => None,
        Refusal::Source(_, _) => None,
        Refusal::TooLarge { .. } => None,
        Refusal::PastPivot { .. } => None,
        Refusal::PastFold { .. } => None,
        Refusal::Spent { .. } => None,
        Refusal::Rejected { .. } => None,
    }
}

/// The line of another refusal.
pub fn built_line(alloc: Global, refusal: &Refusal) -> Result<String, AllocError>
    requires { IsBuilt refusal.now }
    ensures { IfOk result (λ line. string_bytes line ≡ line_of refusal.now) }
{
    match refusal {
        Refusal::Usage => unreachable!(),
        Refusal::Unwritten => unreachable!(),
        Refusal::NoMemory => unreachable!(),
        Refusal::Unread(name) => unread(alloc, name.as_str()),
        Refusal::BadCertificate { line } => bad_certificate(alloc, *line),
        Refusal::Source(text, wrong) => source(alloc, *text, wrong),
        Refusal::TooLarge { side, what, count } => too_large(alloc, *side, *what, *count),
        Refusal::PastPivot { site, pivot } => past_pivot(alloc, *site, *pivot),
        Refusal::PastFold { clause, index } => past_fold(alloc, *clause, *index),
        Refusal::Spent { site } => budget_line(alloc, *site),
        Refusal::Rejected { clause, index } => rejection_line(alloc, *clause, *index),
    }
}

fn unread(alloc: Global, name: &str) -> Result<String, AllocError>
    ensures { IfOk result (λ text. string_bytes text ≡ unread_line name.now) }
{
    let text = format!(in alloc; "read fault: {name}\n")?;
    Ok(text)
}

fn bad_certificate(alloc: Global, line: u64) -> Result<String, AllocError>
    ensures { IfOk result (λ text. string_bytes text ≡ bad_line line) }
{
    let text = format!(in alloc; "bad certificate: line {line}\n")?;
    Ok(text)
}

fn source(alloc: Global, text: Text, wrong: &Wrong) -> Result<String, AllocError>
    ensures { IfOk result (λ line. string_bytes line ≡ source_line text wrong.now) }
{
    let text = text_word(text);
    let (line, column) = line_and_column(wrong);
    let word = wrong_word(wrong);
    let whole = format!(in alloc; "source fault: {text} {line}:{column} {word}\n")?;
    Ok(whole)
}

fn too_large(
    alloc: Global,
    side: Option<Side>,
    what: Count,
    count: u64,
) -> Result<String, AllocError>
    ensures { IfOk result (λ text. string_bytes text ≡ large_line side what count) }
{
    let what = count_word(what);
    match side {
        Some(side) => {
            let side = side_word(side);
            let text = format!(in alloc; "too large: {side} {what} {count}\n")?;
            Ok(text)
        }
        None => {
            let text = format!(in alloc; "too large: {what} {count}\n")?;
            Ok(text)
        }
    }
}

fn past_pivot(alloc: Global, site: Site, pivot: u64) -> Result<String, AllocError>
    ensures { IfOk result (λ text. string_bytes text ≡ pivot_line site pivot) }
{
    let text = format!(in alloc; "past 128 bits: {site} pivot {pivot}\n")?;
    Ok(text)
}

fn past_fold(alloc: Global, clause: u8, index: u64) -> Result<String, AllocError>
    ensures { IfOk result (λ text. string_bytes text ≡ fold_line clause index) }
{
    let text = format!(in alloc; "past 128 bits: check clause {clause} index {index}\n")?;
    Ok(text)
}

fn budget_line(alloc: Global, site: Site) -> Result<String, AllocError>
    ensures { IfOk result (λ text. string_bytes text ≡ spent_line site) }
{
    let text = format!(in alloc; "pivots spent: {site}\n")?;
    Ok(text)
}

fn rejection_line(alloc: Global, clause: u8, index: u64) -> Result<String, AllocError>
    ensures { IfOk result (λ text. string_bytes text ≡ rejected_line clause index) }
{
    let text = format!(in alloc; "rejected: clause {clause} index {index}\n")?;
    Ok(text)
}
