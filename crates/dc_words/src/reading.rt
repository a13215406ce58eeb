//! What each command asks for.
ghost use Rattle.std.specs.Prelude.{◌≡◌, IfOk, IsErrOf, map, true, false, codes};
ghost use Rattle.std.specs.String.{string_bytes};
ghost use Rattle.clap.specs.Matches.{found_of};
ghost use Rattle.clap.specs.Walk.{rows_of};
ghost use Rattle.dc_words.specs.Rules.{Lent, IsRowNames, settings_rules, analyse, check, sample};
ghost use Rattle.dc_words.specs.Held.{IsFilled};
ghost use Rattle.dc_words.specs.Taken.{takes_line, line_rows};
ghost use Rattle.dc_words.specs.Reading.{reading_of, IsSettings, IsAnalyse, IsCheck, IsSample, IsLine};

use crate::matching::{
    is_value, matches_of, number_u8, number_u32, number_u64, text, text_if_given,
};
use crate::{Words, WordsFault, commands};
use clap::ArgMatches;
use dc_cert::Settings;
use std::alloc::Global;

/// `analyse NEW OLD` with its options.
pub fn read_analyse(alloc: Global, words: &[String]) -> Result<Words, WordsFault>
    ensures ok { IfOk result
        (λ w. (takes_line analyse (map string_bytes words.now) ≡ true)
        × IsAnalyse (line_rows analyse (map string_bytes words.now)) (reading_of w)) }
    ensures usage { IsErrOf result WordsFault.Usage
        → takes_line analyse (map string_bytes words.now) ≡ false }
{
    let matches = matches_of(commands::analyse(alloc)?, words)?;
    Ok(Words::Analyse {
        new_name: text(alloc, &matches, "NEW")?,
        old_name: text(alloc, &matches, "OLD")?,
        when: text_if_given(alloc, &matches, "when")?,
        settings: settings_of(&matches),
    })
}

/// `check NEW OLD CERT` with its option.
pub fn read_check(alloc: Global, words: &[String]) -> Result<Words, WordsFault>
    ensures ok { IfOk result
        (λ w. (takes_line check (map string_bytes words.now) ≡ true)
        × IsCheck (line_rows check (map string_bytes words.now)) (reading_of w)) }
    ensures usage { IsErrOf result WordsFault.Usage
        → takes_line check (map string_bytes words.now) ≡ false }
{
    let matches = matches_of(commands::check(alloc)?, words)?;
    Ok(Words::Check {
        new_name: text(alloc, &matches, "NEW")?,
        old_name: text(alloc, &matches, "OLD")?,
        cert_name: text(alloc, &matches, "CERT")?,
        when: text_if_given(alloc, &matches, "when")?,
    })
}

/// `sample SEED COUNT`.
pub fn read_sample(alloc: Global, words: &[String]) -> Result<Words, WordsFault>
    ensures ok { IfOk result
        (λ w. (takes_line sample (map string_bytes words.now) ≡ true)
        × IsSample (line_rows sample (map string_bytes words.now)) (reading_of w)) }
    ensures usage { IsErrOf result WordsFault.Usage
        → takes_line sample (map string_bytes words.now) ≡ false }
{
    let matches = matches_of(commands::sample(alloc)?, words)?;
    Ok(Words::Sample {
        seed: number_u32(&matches, "SEED"),
        count: number_u32(&matches, "COUNT"),
    })
}

/// How a bound is sought.
fn settings_of(matches: &ArgMatches<'_>) -> Settings
    requires { (names : Lent) × IsRowNames names
        × IsFilled (found_of matches.now) (settings_rules names) }
    ensures { IsSettings (rows_of (found_of matches.now)) result }
{
    Settings {
        degree: number_u8(matches, "degree"),
        products: number_u8(matches, "products"),
        pairs: is_value(matches, "rows", "pairs"),
        pivots: number_u64(matches, "pivots"),
    }
}
