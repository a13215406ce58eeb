//! Whole numbers from a text: digits without leading zeros, `-` in front of a negative one, no `-0`.
ghost use Rattle.std.specs.Prelude.{ℕ, ℤ, List, ◌∷◌, ◌≡◌, ◌<◌, ◌^◌, ◌++◌, unsigned_abs, MatchOption};
ghost use Rattle.std.specs.Fmt.{decimal, signed_decimal};
ghost use Rattle.dc_lines.specs.Cuts.{Starts};

use crate::pieces::{cut, strip};

// The greatest number that is read.
const GREATEST: u128 = 0x7fff_ffff_ffff_ffff_ffff_ffff_ffff_ffff;

// The greatest size of the number of a field.
const MOST_FIELD: u128 = 0x7fff_ffff_ffff_ffff;

/// The number below 2^127 that a word spells, `None` exactly where it spells none.
#[tactic(auto, using(crate::proofs::Numerals::reading))]
pub fn natural(word: &[u8]) -> Option<u128>
    ensures { MatchOption result ((n : ℕ) → n < 2 ^ 127 → ¬ (decimal n ≡ word.now))
        (λ n. (n < 2 ^ 127) × (decimal n ≡ word.now)) }
{
    if word.is_empty() {
        return None;
    }
    let mut n: u128 = 0;
    for (k, byte) in word.iter().enumerate() {
        if *byte < b'0' || *byte > b'9' {
            return None;
        }
        if k > 0 && n == 0 {
            return None;
        }
        let digit = (*byte - b'0') as u128;
        if n > (GREATEST - digit) / 10 {
            return None;
        }
        n = 10 * n + digit;
    }
    Some(n)
}

/// The whole number of size below 2^127 that a word spells, `None` exactly where it spells none.
#[tactic(auto, using(crate::proofs::Numerals::wholes))]
pub fn whole(word: &[u8]) -> Option<i128>
    ensures { MatchOption result
        ((z : ℤ) → unsigned_abs z < 2 ^ 127 → ¬ (signed_decimal z ≡ word.now))
        (λ z. (unsigned_abs z < 2 ^ 127) × (signed_decimal z ≡ word.now)) }
{
    match strip(word, b"-") {
        Some(rest) => {
            let size = natural(rest)?;
            if size == 0 {
                return None;
            }
            Some(-(size as i128))
        }
        None => Some(natural(word)? as i128),
    }
}

/// The first field of a text, a space and a whole number of size at most 2^63 - 1, and the text
/// behind it, which is empty or begins with a space; `None` exactly where no such number stands
/// there.
pub fn next_field(text: &[u8]) -> Option<(i64, &[u8])>
    ensures { MatchOption result
        ((z : ℤ) (r : List ℕ) → unsigned_abs z < 2 ^ 63 → Starts 32 r
        → ¬ (32 ∷ (signed_decimal z ++ r) ≡ text.now))
        (λ p. (unsigned_abs p.0 < 2 ^ 63) × Starts 32 p.1.now
        × (32 ∷ (signed_decimal p.0 ++ p.1.now) ≡ text.now)) }
{
    let Some(inside) = strip(text, b" ") else {
        return None;
    };
    let (word, more) = cut(inside, b' ');
    let Some(next) = whole(word) else {
        return None;
    };
    if next.unsigned_abs() > MOST_FIELD {
        return None;
    }
    Some((narrow(&next), more))
}

// The same number.
fn narrow(z: &i128) -> i64
    requires { unsigned_abs z.now < 2 ^ 63 }
    ensures { result ≡ z.now }
{
    *z as i64
}
