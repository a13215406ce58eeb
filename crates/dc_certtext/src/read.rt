//! Numbers, fractions and vectors from a text.
ghost use Rattle.std.specs.Prelude.{ℕ, ℤ, List, ◌≡◌, ◌≢◌, ◌≤◌, ◌<◌, ◌^◌, ◌++◌, ◌≤ℤ◌, pos, unsigned_abs, MatchOption};
ghost use Rattle.std.specs.Fmt.{decimal, signed_decimal};
ghost use Rattle.dc_math.specs.Gcd.{gcd};
ghost use Rattle.dc_frac.specs.declared.Frac.{Frac as Fraction};
ghost use Rattle.dc_frac.specs.Fits.{IsSmall};
ghost use Rattle.dc_cert.specs.declared.sparse.Item.{Item as Entry};
ghost use Rattle.dc_cert.specs.Vectors.{IsItem};
ghost use Rattle.dc_lines.specs.Cuts.{onward, until};
ghost use Rattle.dc_certtext.specs.Words.{den_text, frac_text, item_text};

use dc_cert::Item;
use dc_frac::{Frac, gcd128};
use dc_lines::{cut, natural, strip, whole};

// The greatest index of an item.
const MOST_INDEX: u128 = 8191;

// The denominator that `/D` spells, 1 where there is nothing.
#[tactic(auto, using(crate::proofs::Fractions::dens))]
fn denominator(text: &[u8]) -> Option<i128>
    ensures { MatchOption result ((n : ℕ) → 1 ≤ n → n < 2 ^ 127 → ¬ (den_text n ≡ text.now))
        (λ d. (pos 1 ≤ℤ d) × (unsigned_abs d < 2 ^ 127) × (den_text (unsigned_abs d) ≡ text.now)) }
{
    if text.is_empty() {
        return Some(1);
    }
    let den = natural(strip(text, b"/")?)?;
    if den < 2 {
        return None;
    }
    Some(den as i128)
}

// The fraction that a word spells.
#[tactic(auto, using(crate::proofs::Fractions::fractions))]
pub(crate) fn fraction(word: &[u8]) -> Option<Frac>
    ensures { MatchOption result ((f : Fraction) → IsSmall f.den → ¬ (frac_text f ≡ word.now))
        (λ f. IsSmall f.den × (frac_text f ≡ word.now)) }
{
    let (front, rest) = cut(word, b'/');
    let Some(num) = whole(front) else {
        return None;
    };
    let Some(den) = denominator(rest) else {
        return None;
    };
    lowest_terms(&num, &den)
}

// The fraction of two parts in lowest terms.
fn lowest_terms(num: &i128, den: &i128) -> Option<Frac>
    requires num_small { unsigned_abs num.now < 2 ^ 127 }
    requires den_small { unsigned_abs den.now < 2 ^ 127 }
    requires positive { pos 1 ≤ℤ den.now }
    ensures { MatchOption result (¬ (gcd (unsigned_abs num.now) (unsigned_abs den.now) ≡ 1))
        (λ f. (f.num ≡ num.now) × (f.den ≡ den.now)) }
{
    if gcd128(*num, *den) != 1 {
        return None;
    }
    Some(Frac {
        num: *num,
        den: *den,
    })
}

// The item that a word spells.
#[tactic(auto, using(crate::proofs::Fractions::items))]
pub(crate) fn item(word: &[u8]) -> Option<Item>
    ensures { MatchOption result ((i : Entry) → IsItem i → ¬ (item_text i ≡ word.now))
        (λ i. IsItem i × (item_text i ≡ word.now)) }
{
    let (front, rest) = cut(word, b':');
    let Some(index) = natural(front) else {
        return None;
    };
    let Some(digits) = strip(rest, b":") else {
        return None;
    };
    let Some(value) = fraction(digits) else {
        return None;
    };
    if index > MOST_INDEX {
        return None;
    }
    if value.is_zero() {
        return None;
    }
    Some(Item {
        index: index as usize,
        value,
    })
}
