//! Laws of the text of a trace. The function has no code: what it ensures is the law.
ghost use Rattle.dc_lines.specs.Texts.{HasOneOutcome};
ghost use Rattle.dc_tracetext.specs.Text.{HasText, limit};

/// A text is a trace's, within the limit, or has its line; it is one trace's at most, has one line
/// at most, and never both.
pub fn one_outcome(text: &[u8])
    ensures { HasOneOutcome HasText limit text.now }
{
    let _ = text;
}
