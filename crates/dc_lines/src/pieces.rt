//! Texts that are cut: at a byte, behind a word, at the end of a line.
ghost use Rattle.std.specs.Prelude.{ℕ, List, ◌∷◌, ◌≡◌, ◌≢◌, ◌++◌, MatchBool, MatchOption};
ghost use Rattle.dc_lines.specs.Cuts.{Lacks, onward, until};

/// The text up to the first byte that is `at`, and from there on: all of the text and nothing where
/// there is none.
pub fn cut(text: &[u8], at: u8) -> (&[u8], &[u8])
    ensures front { result.0.now ≡ until at text.now }
    ensures rest { result.1.now ≡ onward at text.now }
{
    for (k, byte) in text.iter().enumerate() {
        if *byte == at {
            return (&text[..k], &text[k..]);
        }
    }
    (text, &[])
}

/// What follows a word at the beginning of a text, `None` where the text doesn't begin so.
pub fn strip<'a>(text: &'a [u8], key: &[u8]) -> Option<&'a [u8]>
    ensures { MatchOption result ((r : List ℕ) → text.now ≢ key.now ++ r)
        (λ r. text.now ≡ key.now ++ r.now) }
{
    text.strip_prefix(key)
}

/// Whether a line is this text.
pub fn is_same(line: &[u8], text: &[u8]) -> bool
    ensures { MatchBool result (text.now ≡ line.now) (text.now ≢ line.now) }
{
    text == line
}

/// The first line of a text without its line feed, and what stands behind it; `None` where there is
/// no line feed.
pub fn first_line(text: &[u8]) -> Option<(&[u8], &[u8])>
    ensures { MatchOption result (Lacks 10 text.now)
        (λ p. Lacks 10 p.0.now × (p.0.now ++ 10 ∷ p.1.now ≡ text.now)) }
{
    let (front, back) = cut(text, b'\n');
    match strip(back, b"\n") {
        Some(rest) => Some((front, rest)),
        None => None,
    }
}
