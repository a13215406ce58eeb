//! The greatest common divisor.

ghost use Rattle.std.specs.Prelude.{◌≡◌, ◌<◌, ◌%◌, ◌^◌, min, pos, ◌≤ℤ◌, ◌+ℤ◌, ◌*ℤ◌, SomeIff, int_div};
ghost use Rattle.dc_math.specs.Gcd.{gcd};
ghost use Rattle.dc_math.specs.Quotients.{gcd_ℤ};
ghost use Rattle.std.specs.Int.{w64, trailing_zeros};
ghost use Rattle.dc_frac.specs.Fits.{IsSmall};
ghost use Rattle.dc_frac.specs.Parts.{IsOddPart};

pub(crate) const WORD: u128 = 0xffff_ffff_ffff_ffff;

// what is left of a number that is halved until it is odd
fn odd_part(a: u64) -> u64
    requires { 0 < a }
    ensures { IsOddPart a (trailing_zeros w64 a) result }
{
    a >> a.trailing_zeros()
}

fn lesser(a: u64, b: u64) -> u64
    ensures { result ≡ min a b }
{
    if a < b { a } else { b }
}

// The difference of two odd numbers is even, and what divides both divides its odd part. No step
// divides.
fn gcd_odd(a: u64, b: u64) -> u64
    requires a { a % 2 ≡ 1 }
    requires b { b % 2 ≡ 1 }
    ensures { result ≡ gcd a b }
{
    let mut x = a;
    let mut y = b;
    while x != y {
        let apart = x.abs_diff(y);
        y = lesser(x, y);
        x = odd_part(apart);
    }
    x
}

// The twos that both numbers have are taken out, and put back at the end.
fn gcd_nonzero(a: u64, b: u64) -> u64
    requires a { 0 < a }
    requires b { 0 < b }
    ensures { result ≡ gcd a b }
{
    let odd = gcd_odd(odd_part(a), odd_part(b));
    let left = a.trailing_zeros();
    let right = b.trailing_zeros();
    if left < right {
        odd << left
    } else {
        odd << right
    }
}

// One division first: it brings numbers of very different sizes together, and is often the whole work.
fn gcd_ordered(a: u64, b: u64) -> u64
    ensures { result ≡ gcd a b }
{
    if b == 0 {
        return a;
    }
    let rest = a % b;
    if rest == 0 { b } else { gcd_nonzero(b, rest) }
}

fn gcd_words(a: u64, b: u64) -> u64
    ensures { result ≡ gcd a b }
{
    if a < b {
        gcd_ordered(b, a)
    } else {
        gcd_ordered(a, b)
    }
}

// Euclid's steps. A 128-bit division is a call of a routine, a 64-bit one an instruction: once both
// numbers fit 64 bits the steps go on there.
fn gcd_sizes(a: u128, b: u128) -> u128
    ensures { result ≡ gcd a b }
{
    let mut x = a;
    let mut y = b;
    while y > WORD {
        let rest = x % y;
        x = y;
        y = rest;
    }
    if x <= WORD {
        gcd_words(x as u64, y as u64) as u128
    } else if y == 0 {
        x
    } else {
        gcd_words(y as u64, (x % y) as u64) as u128
    }
}

/// The greatest common divisor of two numbers of size at most `MAX`, never negative; 0 for 0 and 0.
/// By Euclid's steps, and by binary ones once both fit 64 bits.
pub fn gcd128(a: i128, b: i128) -> i128
    requires a_small { IsSmall a }
    requires b_small { IsSmall b }
    ensures value { result ≡ gcd_ℤ a b }
    // the divisor of anything and a positive number is positive
    ensures positive { pos 1 ≤ℤ b → pos 1 ≤ℤ result }
{
    gcd_sizes(a.unsigned_abs(), b.unsigned_abs()) as i128
}
