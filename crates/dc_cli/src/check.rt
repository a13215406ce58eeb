//! The command `check NEW OLD CERT`.
ghost use Rattle.std.specs.Prelude.{◌≡◌, ◌≤◌, None, IfOk, IfErr, length, option_map};
ghost use Rattle.dc_lp.specs.Meanings.{Meaning};
ghost use Rattle.dc_cert.specs.Ranges.{IsCertificate};
ghost use Rattle.dc_certtext.specs.Limits.{HasText, limit};
ghost use Rattle.dc_words.specs.Reading.{for_check};
ghost use Rattle.dc_answers.specs.Ends.{output, Printed, CheckEnds, CertificateEnds, of_check};
ghost use Rattle.dc_answers.specs.Claims.{accepted_text};
ghost use Rattle.dc_answers.specs.Outside.{visit_of};
ghost use Rattle.dc_cli.specs.Texts.{AreRead, IsNoCertificate};
ghost use Rattle.dc_cli.specs.Steps.{IsRefusedBy, IsOutputOf, IsRefusedOf};

use crate::claims;
use crate::fetch::{fetch_sources, fetch_text};
use crate::output::Output;
use crate::sources::{Versions, read_sources};
use dc_answers::Refusal;
use dc_cert::{Certificate, Claim};
use dc_certtext::{ReadFault, read_cert};
use dc_check::CheckFault;
use dc_host::Store;
use std::alloc::{AllocError, Global};

const CERTIFICATE_LIMIT: usize = 16777216;

/// Checks a certificate against two sources. What is accepted is the output.
pub fn check<S: Store>(
    alloc: Global,
    store: &mut S,
    new: &str,
    old: &str,
    cert: &str,
    when: Option<&str>,
) -> Result<Output, Refusal>
    ensures files { S.files store.new ≡ S.files store.old }
    ensures later { S.faults store.old ≤ S.faults store.new }
    ensures ok { IfOk result (λ o. (left : Meaning) → IsOutputOf (visit_of S.files S.faults S.call
        store.old store.new) (for_check new.now old.now cert.now (option_map (λ z. z.now)
        when.entry)) left o.status o.bytes.items) }
    ensures refused { IfErr result (IsRefusedOf (visit_of S.files S.faults S.call store.old
        store.new) (for_check new.now old.now cert.now (option_map (λ z. z.now) when.entry))) }
{
    let texts = fetch_sources(alloc, store, new, old)?;
    let cert = fetch_text(alloc, store, cert, CERTIFICATE_LIMIT)?;
    check_texts(
        alloc,
        texts.new.as_slice(),
        texts.old.as_slice(),
        cert.as_slice(),
        when,
    )
}

/// Checks a certificate's text against two texts.
fn check_texts(
    alloc: Global,
    new: &[u8],
    old: &[u8],
    cert: &[u8],
    when: Option<&str>,
) -> Result<Output, Refusal>
    ensures ok { IfOk result (λ o. CheckEnds new.now old.now cert.now (option_map (λ z. z.now)
        when.entry) (Printed (output o.status o.bytes.items None))) }
    ensures refused { IfErr result (IsRefusedBy (CheckEnds new.now old.now cert.now (option_map (λ
        z. z.now) when.entry))) }
{
    let c = certificate_in(alloc, cert)?;
    let versions = read_sources(alloc, new, old, when)?;
    judge(alloc, &versions, &c)
}

/// The certificate whose text the bytes are.
fn certificate_in(alloc: Global, text: &[u8]) -> Result<Certificate, Refusal>
    ensures text { IfOk result (λ c. HasText c text.now) }
    ensures short { IfOk result (λ _. length text.now ≤ limit) }
    ensures refused { IfErr result (IsNoCertificate text.now) }
{
    match read_cert(alloc, text) {
        Ok(c) => Ok(c),
        Err(ReadFault::BadText { line }) => Err(Refusal::BadCertificate { line }),
        Err(ReadFault::NoMemory) => Err(Refusal::NoMemory),
    }
}

/// Checks a certificate against two programs.
fn judge(alloc: Global, v: &Versions, c: &Certificate) -> Result<Output, Refusal>
    requires read { AreRead v.now.new v.now.old v.now.cases }
    requires ranges { IsCertificate c.now }
    ensures ok { IfOk result (λ o. CertificateEnds c.now v.now.new v.now.old v.now.cases (Printed
        (output o.status o.bytes.items None))) }
    ensures refused { IfErr result (IsRefusedBy (CertificateEnds c.now v.now.new v.now.old
        v.now.cases)) }
{
    match dc_check::check(alloc, &v.new, &v.old, v.cases.as_slice(), c) {
        Ok(claim) => acceptance_output(alloc, &claim),
        Err(fault) => Err(refusal_of(fault)),
    }
}

/// What is printed where a certificate is accepted.
fn acceptance_output(alloc: Global, claim: &Claim) -> Result<Output, Refusal>
    ensures ok { IfOk result (λ o. (o.status ≡ 0) × (o.bytes.items ≡ accepted_text claim.now)) }
    ensures refused { IfErr result (λ r. r ≡ Refusal.NoMemory) }
{
    match claims::acceptance(alloc, claim) {
        Ok(bytes) => Ok(Output { status: 0, bytes }),
        Err(AllocError) => Err(Refusal::NoMemory),
    }
}

/// The fault of a check as a refusal.
fn refusal_of(fault: CheckFault) -> Refusal
    ensures { result ≡ of_check fault }
{
    match fault {
        CheckFault::Rejected { clause, index } => Refusal::Rejected { clause, index },
        CheckFault::Past128 { clause, index } => Refusal::PastFold { clause, index },
        CheckFault::TooLarge { side, what, count } => Refusal::TooLarge { side, what, count },
        CheckFault::NoMemory => Refusal::NoMemory,
    }
}
