//! The claim of a certificate: its status, and its line behind a text.
ghost use Rattle.std.specs.Prelude.{◌≡◌, ◌++◌, [], ◌∷◌, IfOk, codes};
ghost use Rattle.dc_certtext.specs.Text.{claim_line};
ghost use Rattle.dc_answers.specs.Claims.{claim_status, accepted_text};

use dc_cert::Claim;
use dc_certtext::write_claim_line;
use std::alloc::{AllocError, Global};

/// The status of an analysis that shows this.
pub fn status(claim: &Claim) -> u8
    ensures { result ≡ claim_status claim.now }
{
    match claim {
        Claim::Threshold(_) => 0,
        Claim::Nothing => 1,
        Claim::Vacuous => 2,
    }
}

/// A line between a text before it and its line feed.
pub fn line_behind(alloc: Global, before: &[u8], claim: &Claim) -> Result<Vec<u8>, AllocError>
    ensures { IfOk result (λ v. v.items ≡ before.now ++ (claim_line claim.now ++ codes "\n")) }
{
    let line = write_claim_line(alloc, claim)?;
    let mut whole = Vec::new(alloc);
    whole.extend_from_slice(before)?;
    whole.extend_from_slice(line.as_slice())?;
    whole.extend_from_slice(b"\n")?;
    Ok(whole)
}

/// What is printed where a certificate is accepted.
pub fn acceptance(alloc: Global, claim: &Claim) -> Result<Vec<u8>, AllocError>
    ensures { IfOk result (λ v. v.items ≡ accepted_text claim.now) }
{
    line_behind(alloc, b"accepted ", claim)
}
