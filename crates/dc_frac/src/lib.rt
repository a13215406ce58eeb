//! Exact fractions of 128 bits.
//!
//! A [`Frac`] is a rational number in lowest terms whose parts have a size of at most [`MAX`]. Sums
//! and products are exact, and `None` where they do not fit; nothing is rounded, nothing overflows,
//! and no call allocates. The methods are those of Knuth, The Art of Computer Programming, volume
//! 2, section 4.5.1.
#![tactic(auto)]

mod gcd;
pub mod laws;
mod ops;
mod order;
mod parts;

ghost use Rattle.std.specs.Prelude.{◌≡◌, ◌<◌, ◌^◌, pos, ◌≤ℤ◌, unsigned_abs};
ghost use Rattle.dc_math.specs.Gcd.{gcd};

pub use crate::gcd::gcd128;

/// The greatest size of a numerator and of a denominator: 2^127 - 1.
pub const MAX: i128 = i128::MAX;

/// A fraction in lowest terms: the denominator is at least 1, zero is 0/1, and both parts have a
/// size of at most `MAX`.
#[derive(Clone, Copy, Debug, PartialEq, Eq)]
pub struct Frac {
    pub num: i128,
    pub den: i128,
    pub ghost positive: { pos 1 ≤ℤ den },
    pub ghost reduced: { gcd (unsigned_abs num) (unsigned_abs den) ≡ 1 },
    pub ghost small: { unsigned_abs num < 2 ^ 127 },
}
