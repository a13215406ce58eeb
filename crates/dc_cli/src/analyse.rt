//! The command `analyse NEW OLD`.
ghost use Rattle.std.specs.Prelude.{◌≡◌, ◌≤◌, Some, IfOk, IfErr, option_map};
ghost use Rattle.dc_lp.specs.Meanings.{Meaning};
ghost use Rattle.dc_cert.specs.Ranges.{IsCertificate};
ghost use Rattle.dc_cert.specs.Settings.{AreSettings};
ghost use Rattle.dc_session.specs.Answers.{TellsCertificate};
ghost use Rattle.dc_sparse.specs.Meanings.{cross_meaning};
ghost use Rattle.dc_words.specs.Reading.{for_analyse};
ghost use Rattle.dc_answers.specs.Ends.{output, Printed, AnalyseEnds, IsWritten, input_of, of_analysis};
ghost use Rattle.dc_answers.specs.Outside.{visit_of};
ghost use Rattle.dc_cli.specs.Texts.{AreRead};
ghost use Rattle.dc_cli.specs.Analysed.{IsAnalysed, IsHalted, IsUnanalysed};
ghost use Rattle.dc_cli.specs.Steps.{IsRefusedBy, IsOutputOf, IsRefusedOf};

use crate::claims;
use crate::fetch::fetch_sources;
use crate::output::Output;
use crate::sources::{Versions, read_sources};
use dc_answers::Refusal;
use dc_cert::{Certificate, Settings};
use dc_certtext::{WriteFault, write_cert};
use dc_engine::analyse_on;
use dc_host::Store;
use dc_session::{AnalyseFault, PastAt};
use dc_sparse::Cross;
use dc_syntax::Count;
use std::alloc::Global;

/// Analyses two sources. The whole text of the certificate is the output.
pub fn analyse<S: Store>(
    alloc: Global,
    store: &mut S,
    new: &str,
    old: &str,
    when: Option<&str>,
    settings: &Settings,
    tableau: &mut Cross,
) -> Result<Output, Refusal>
    requires { AreSettings settings.now }
    ensures files { S.files store.new ≡ S.files store.old }
    ensures later { S.faults store.old ≤ S.faults store.new }
    ensures ok { IfOk result (λ o. IsOutputOf (visit_of S.files S.faults S.call store.old store.new)
        (for_analyse new.now old.now (option_map (λ z. z.now) when.entry) settings.now)
        (cross_meaning tableau.new) o.status o.bytes.items) }
    ensures refused { IfErr result (IsRefusedOf (visit_of S.files S.faults S.call store.old
        store.new) (for_analyse new.now old.now (option_map (λ z. z.now) when.entry)
        settings.now)) }
{
    let texts = fetch_sources(alloc, store, new, old)?;
    analyse_texts(
        alloc,
        texts.new.as_slice(),
        texts.old.as_slice(),
        when,
        settings,
        tableau,
    )
}

/// Analyses two texts.
fn analyse_texts(
    alloc: Global,
    new: &[u8],
    old: &[u8],
    when: Option<&str>,
    settings: &Settings,
    tableau: &mut Cross,
) -> Result<Output, Refusal>
    requires { AreSettings settings.now }
    ensures ok { IfOk result (λ o. AnalyseEnds new.now old.now (option_map (λ z. z.now) when.entry)
        settings.now (Printed (output o.status o.bytes.items (Some (cross_meaning tableau.new))))) }
    ensures refused { IfErr result (IsRefusedBy (AnalyseEnds new.now old.now (option_map (λ z.
        z.now) when.entry) settings.now)) }
{
    let c = certificate_of(alloc, new, old, when, settings, tableau)?;
    output_of(alloc, &c)
}

/// The certificate of what two texts say.
pub fn certificate_of(
    alloc: Global,
    new: &[u8],
    old: &[u8],
    when: Option<&str>,
    settings: &Settings,
    tableau: &mut Cross,
) -> Result<Certificate, Refusal>
    requires { AreSettings settings.now }
    ensures ok { IfOk result (IsAnalysed new.now old.now (option_map (λ z. z.now) when.entry)
        settings.now (cross_meaning tableau.new)) }
    ensures refused { IfErr result (IsUnanalysed new.now old.now (option_map (λ z. z.now)
        when.entry) settings.now) }
{
    let versions = read_sources(alloc, new, old, when)?;
    certify(alloc, &versions, settings, tableau)
}

/// The certificate of two programs.
fn certify(
    alloc: Global,
    v: &Versions,
    settings: &Settings,
    tableau: &mut Cross,
) -> Result<Certificate, Refusal>
    requires read { AreRead v.now.new v.now.old v.now.cases }
    requires settings { AreSettings settings.now }
    ensures ok { IfOk result (TellsCertificate (input_of settings.now v.now.new v.now.old
        v.now.cases) (cross_meaning tableau.new)) }
    ensures ranges { IfOk result IsCertificate }
    ensures refused { IfErr result (IsHalted (input_of settings.now v.now.new v.now.old
        v.now.cases)) }
{
    let cases = v.cases.as_slice();
    match analyse_on(alloc, &v.new, &v.old, cases, settings, tableau) {
        Ok(c) => Ok(c),
        Err(fault) => Err(refusal_of(fault)),
    }
}

/// The fault of an analysis as a refusal.
fn refusal_of(fault: AnalyseFault) -> Refusal
    ensures { result ≡ of_analysis fault }
{
    match fault {
        AnalyseFault::TooLarge { side, what, count } => Refusal::TooLarge { side, what, count },
        AnalyseFault::Past128(PastAt::Pivot { site, pivot }) => {
            Refusal::PastPivot { site, pivot }
        }
        AnalyseFault::Past128(PastAt::Fold { clause, index }) => {
            Refusal::PastFold { clause, index }
        }
        AnalyseFault::Budget { site } => Refusal::Spent { site },
        AnalyseFault::NoMemory => Refusal::NoMemory,
    }
}

/// The text of a certificate, with the status of its claim.
fn output_of(alloc: Global, c: &Certificate) -> Result<Output, Refusal>
    requires { IsCertificate c.now }
    ensures ok { IfOk result (λ o. (left : Meaning) → IsWritten left c.now (Printed (output o.status
        o.bytes.items (Some left)))) }
    ensures refused { IfErr result (λ r. (left : Meaning) → IsRefusedBy (IsWritten left c.now) r) }
{
    let status = claims::status(&c.body.claim());
    match write_cert(alloc, c) {
        Ok(bytes) => Ok(Output { status, bytes }),
        Err(WriteFault::TooLarge { count }) => Err(Refusal::TooLarge {
            side: None,
            what: Count::Certificate,
            count,
        }),
        Err(WriteFault::NoMemory) => Err(Refusal::NoMemory),
    }
}
