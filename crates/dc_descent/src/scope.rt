//! The names that a text may use.
ghost use Rattle.std.specs.Prelude.{◌≡◌, MatchOption, map, None, Some, slice_range};
ghost use Rattle.std.specs.String.{string_bytes};
ghost use Rattle.dc_syntax.specs.Names.{place_of};
ghost use Rattle.dc_descent.specs.Scopes.{spelled, places};

use dc_tokens::Token;

/// The bytes of a token.
pub fn spelling(text: &[u8], token: Token) -> &[u8]
    ensures { result.now ≡ spelled text.now token }
{
    let end = token.end.min(text.len());
    let at = token.at.min(end);
    &text[at..end]
}

/// The place of a name.
pub fn place_of(names: &[String], name: &[u8]) -> Option<usize>
    ensures { result ≡ place_of (map string_bytes names.now) name.now }
{
    for (place, known) in names.iter().enumerate() {
        if name == known.as_bytes() {
            return Some(place);
        }
    }
    None
}

/// A text, and the names that it may use, each of which stands for its place.
#[derive(Drop)]
pub struct Scope<'a> {
    pub text: &'a [u8],
    pub names: &'a [String],
}

impl<'a> Scope<'a> {
    /// The place of a name; 0 where the text may not use it.
    pub fn place(&self, token: Token) -> usize
        ensures { result ≡ places self.now token }
    {
        match place_of(self.names, spelling(self.text, token)) {
            Some(place) => place,
            None => 0,
        }
    }
}
