//! The arguments that the commands are made of.
ghost use Rattle.std.specs.Prelude.{◌≡◌, ◌≤◌, ◌<◌, Some, pos, false};
ghost use Rattle.clap.specs.Walk.{rule_of};
ghost use Rattle.clap.specs.declared.builder.value_parser.ValueParser.TheVariants as vp;
ghost use Rattle.dc_words.specs.Rules.{required, option, read_by, with_default, rows_rule, IsRowNames, Lent};

use clap::builder::ValueParser;
use clap::{Arg, ArgAction, value_parser};
use std::alloc::Global;

/// A positional that has to be there.
pub fn positional<'a>(alloc: Global, id: &'a str) -> Arg<'a>
    ensures rule { rule_of result ≡ required id.entry.now }
    ensures local { result.global ≡ false }
{
    Arg::new(alloc, id).required(true).action(ArgAction::Set)
}

/// A number that has to be there.
pub fn required_number<'a>(alloc: Global, id: &'a str, parser: ValueParser<'a>) -> Arg<'a>
    ensures rule { rule_of result ≡ read_by parser.entry (required id.entry.now) }
    ensures local { result.global ≡ false }
{
    positional(alloc, id).value_parser(parser)
}

/// An option `--id` that takes a value.
pub fn option<'a>(alloc: Global, id: &'a str) -> Arg<'a>
    ensures rule { rule_of result ≡ option id.entry.now }
    ensures local { result.global ≡ false }
{
    Arg::new(alloc, id).long(id).action(ArgAction::Set)
}

/// An option `--id` that takes a number, or else is its default.
pub fn number<'a>(alloc: Global, id: &'a str, parser: ValueParser<'a>, default: &'a str) -> Arg<'a>
    ensures rule { rule_of result
        ≡ with_default default.entry.now (read_by parser.entry (option id.entry.now)) }
    ensures local { result.global ≡ false }
{
    option(alloc, id)
        .value_parser(parser)
        .default_value(default)
}

const ROWS: [&str; 2] = ["intervals", "pairs"];

/// The option `--rows`, which takes one of the two kinds of rows, or else is `pairs`.
pub fn rows<'a>(alloc: Global) -> Arg<'a>
    ensures rule { (names : Lent) × IsRowNames names × (rule_of result ≡ rows_rule names) }
    ensures local { result.global ≡ false }
{
    option(alloc, "rows")
        .value_parser(ROWS.as_slice())
        .default_value("pairs")
}

/// Numbers of 8 bits from `least` to `most`.
pub fn numbers_u8<'a>(least: u8, most: u8) -> ValueParser<'a>
    ensures { result ≡ vp.Signed (pos least) (pos most) }
{
    value_parser!(u8).range(i64::from(least)..=i64::from(most))
}

/// Numbers of 32 bits from `least` to `most`.
pub fn numbers_u32<'a>(least: u32, most: u32) -> ValueParser<'a>
    ensures { result ≡ vp.Signed (pos least) (pos most) }
{
    value_parser!(u32).range(i64::from(least)..=i64::from(most))
}

/// Numbers of 64 bits from `least` to `most`.
pub fn numbers_u64<'a>(least: u32, most: u32) -> ValueParser<'a>
    ensures { result ≡ vp.Unsigned least most }
{
    value_parser!(u64).range(i64::from(least)..=i64::from(most))
}
