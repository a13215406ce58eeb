//! Laws of the text of a certificate. The function has no code: what it ensures is the law.
ghost use Rattle.dc_certtext.specs.Limits.{HasText, limit};
ghost use Rattle.dc_lines.specs.Texts.{HasOneOutcome};

/// A text is a certificate's, within the limit, or has its line; it is one certificate's at most,
/// has one line at most, and never both.
pub fn one_outcome(text: &[u8])
    ensures { HasOneOutcome HasText limit text.now }
{
    let _ = text;
}
