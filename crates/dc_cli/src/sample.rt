//! The command `sample SEED COUNT`.
ghost use Rattle.std.specs.Prelude.{◌≡◌, ◌≤◌, Some, IfOk, IfErr};
ghost use Rattle.dc_sparse.specs.Meanings.{cross_meaning};
ghost use Rattle.dc_answers.specs.Ends.{output, Printed, SampleEnds, sample_text, new_source, old_source, sample_settings};
ghost use Rattle.dc_answers.specs.Claims.{claim_status};
ghost use Rattle.dc_cli.specs.Steps.{IsRefusedBy};

use crate::analyse::certificate_of;
use crate::claims;
use crate::output::Output;
use dc_answers::Refusal;
use dc_cert::{Claim, Settings};
use dc_sample::sample_pair;
use dc_sparse::Cross;
use std::alloc::{AllocError, Global};

const CONDITION: &str = "0 <= n && n <= 50";

/// Analyses the generated pair of a seed. The output has the seed and the count, the lengths of
/// both sources, and the claim.
pub fn sample(alloc: Global, seed: u32, count: u32, tableau: &mut Cross) -> Result<Output, Refusal>
    requires seed { seed ≤ 2147483647 }
    requires some { 1 ≤ count }
    requires few { count ≤ 8 }
    ensures ok { IfOk result (λ o. SampleEnds seed count (Printed (output o.status o.bytes.items
        (Some (cross_meaning tableau.new))))) }
    ensures refused { IfErr result (IsRefusedBy (SampleEnds seed count)) }
{
    let pair = match sample_pair(alloc, seed, count) {
        Ok(pair) => pair,
        Err(AllocError) => return Err(Refusal::NoMemory),
    };
    let (new, old) = (pair.new_text.as_slice(), pair.old_text.as_slice());
    let c = certificate_of(alloc, new, old, Some(CONDITION), &settings(), tableau)?;
    let claim = c.body.claim();
    match summary(alloc, seed, count, new, old, &claim) {
        Ok(bytes) => Ok(Output {
            status: claims::status(&claim),
            bytes,
        }),
        Err(AllocError) => Err(Refusal::NoMemory),
    }
}

/// How the bound of a sample is sought.
fn settings() -> Settings
    ensures { result ≡ sample_settings }
{
    Settings {
        degree: 1,
        products: 1,
        pairs: true,
        pivots: 100000,
    }
}

/// The four lines.
fn summary(
    alloc: Global,
    seed: u32,
    count: u32,
    new: &[u8],
    old: &[u8],
    claim: &Claim,
) -> Result<Vec<u8>, AllocError>
    requires new { new.now ≡ new_source seed count }
    requires old { old.now ≡ old_source seed count }
    ensures { IfOk result (λ v. v.items ≡ sample_text seed count claim.now) }
{
    let (new, old) = (new.len(), old.len());
    let before = format!(in alloc; "sample {seed} {count}\nnew bytes {new}\nold bytes {old}\n")?;
    claims::line_behind(alloc, before.as_str().as_bytes(), claim)
}
