//! The `clap` command of each first word.
ghost use Rattle.std.specs.Prelude.{◌≡◌, IfOk};
ghost use Rattle.clap.specs.Simple.{app_of};
ghost use Rattle.dc_words.specs.Rules.{HasRows, with_rules, sources_rules, settings_rules, analyse_with, check, sample};

use crate::arguments::{
    number, numbers_u8, numbers_u32, numbers_u64, option, positional, required_number, rows,
};
use clap::Command;
use std::alloc::{AllocError, Global};

/// `analyse NEW OLD [--when TEXT]` and the settings.
pub fn analyse<'a>(alloc: Global) -> Result<Command<'a>, AllocError>
    ensures { IfOk result (λ c. HasRows analyse_with (app_of c)) }
{
    let command = with_sources(alloc, Command::new(alloc, "analyse"))?;
    with_settings(alloc, command)
}

/// `check NEW OLD CERT [--when TEXT]`.
pub fn check<'a>(alloc: Global) -> Result<Command<'a>, AllocError>
    ensures { IfOk result (λ c. app_of c ≡ check) }
{
    with_sources(alloc, Command::new(alloc, "check"))?.arg(positional(alloc, "CERT"))
}

/// `sample SEED COUNT`.
pub fn sample<'a>(alloc: Global) -> Result<Command<'a>, AllocError>
    ensures { IfOk result (λ c. app_of c ≡ sample) }
{
    Command::new(alloc, "sample")
        .arg(required_number(alloc, "SEED", numbers_u32(0, 2147483647)))?
        .arg(required_number(alloc, "COUNT", numbers_u32(1, 8)))
}

/// The command with `NEW OLD [--when TEXT]`.
fn with_sources<'a>(alloc: Global, command: Command<'a>) -> Result<Command<'a>, AllocError>
    ensures { IfOk result (λ c. app_of c ≡ with_rules sources_rules (app_of command.entry)) }
{
    command
        .arg(positional(alloc, "NEW"))?
        .arg(positional(alloc, "OLD"))?
        .arg(option(alloc, "when"))
}

/// The command with the options that say how a bound is sought.
fn with_settings<'a>(alloc: Global, command: Command<'a>) -> Result<Command<'a>, AllocError>
    ensures { IfOk result
        (λ c. HasRows (λ names. with_rules (settings_rules names) (app_of command.entry))
        (app_of c)) }
{
    command
        .arg(number(alloc, "degree", numbers_u8(0, 3), "2"))?
        .arg(number(alloc, "products", numbers_u8(1, 3), "2"))?
        .arg(rows(alloc))?
        .arg(number(alloc, "pivots", numbers_u64(1, 1_000_000), "100000"))
}
