//! The pair of a seed.
ghost use Rattle.std.specs.Prelude.{◌≡◌, ◌≤◌, ◌++◌, IfOk, OnOk};
ghost use Rattle.std.specs.String.{string_bytes};
ghost use Rattle.dc_sample.specs.Sample.{next_number, cost_of, new_costs, old_costs, block_text, source_text};

use std::alloc::{AllocError, Global};

/// Two versions of a source, as texts.
#[derive(Debug, Drop)]
pub struct Pair {
    pub new_text: Vec<u8>,
    pub old_text: Vec<u8>,
}

/// The lines in front of the loops.
const HEAD: &str = "proc s(n) {\nvar i;\n";

// The number behind another one.
fn advance(number: u64) -> u64
    requires { number ≤ 2147483647 }
    ensures next { result ≡ next_number number }
    ensures small { result ≤ 2147483647 }
{
    (1103515245 * number + 12345) % 2147483648
}

// What a turn costs by a number.
fn cost(number: u64) -> u64
    ensures { result ≡ cost_of number }
{
    1 + number / 65536 % 9
}

// The lines of a loop.
fn put_block(out: &mut String, cost: u64) -> Result<(), AllocError>
    ensures { OnOk result (string_bytes out.new ≡ string_bytes out.old ++ block_text cost) }
{
    write!(
        out,
        "i = 0;\nwhile (i < n) {{\ntick {cost};\ni = i + 1;\n}}\n"
    )
}

/// The pair of a seed, with so many loops in each source.
///
/// The seed begins a row of numbers `x`, in which `(1103515245 * x + 12345) mod 2^31` follows `x`.
/// Each number behind the seed gives the cost `1 + (x div 65536) mod 9`: the first one that of the
/// new version's first loop, the second one that of the old version's, and so on in turn. Each loop
/// counts `i` from 0 up to `n` and pays its cost at every turn.
///
/// # Errors
///
/// `AllocError` for want of memory.
pub fn sample_pair(alloc: Global, seed: u32, count: u32) -> Result<Pair, AllocError>
    requires seed { seed ≤ 2147483647 }
    requires some { 1 ≤ count }
    requires few { count ≤ 8 }
    ensures new { IfOk result (λ p. p.new_text.items ≡ source_text (new_costs seed count)) }
    ensures old { IfOk result (λ p. p.old_text.items ≡ source_text (old_costs seed count)) }
{
    let mut new_text = String::from_str(alloc, HEAD)?;
    let mut old_text = String::from_str(alloc, HEAD)?;
    let mut number = seed as u64;
    for _block in 0..count {
        number = advance(number);
        put_block(&mut new_text, cost(number))?;
        number = advance(number);
        put_block(&mut old_text, cost(number))?;
    }
    new_text.push_str("}\n")?;
    old_text.push_str("}\n")?;
    Ok(Pair {
        new_text: new_text.into_bytes(),
        old_text: old_text.into_bytes(),
    })
}
