//! A parse by `clap`, and its values.
ghost use Rattle.std.specs.Prelude.{◌≡◌, ◌^◌, IfOk, IsErrOf, Some, true, false, map, is_some, option_map, codes};
ghost use Rattle.std.specs.String.{string_bytes};
ghost use Rattle.std.specs.Str.{bytes_eq};
ghost use Rattle.clap.specs.Simple.{app_of};
ghost use Rattle.clap.specs.Matches.{first_value, found_of, one_text};
ghost use Rattle.dc_words.specs.Rules.{is_plain_command};
ghost use Rattle.dc_words.specs.Taken.{takes_line, number_of, IsTaken, IsNumber};

use crate::WordsFault;
use clap::error::ErrorKind;
use clap::{ArgMatches, Command};
use std::alloc::{AllocError, Global};

/// Parses the words by a command, of which the first word is the command's own name.
pub fn matches_of<'a>(
    command: Command<'a>,
    words: &'a [String],
) -> Result<ArgMatches<'a>, WordsFault>
    requires { is_plain_command (app_of command) ≡ true }
    ensures ok { IfOk result (IsTaken (app_of command.entry) (map string_bytes words.entry.now)) }
    ensures usage { IsErrOf result WordsFault.Usage
        → takes_line (app_of command.entry) (map string_bytes words.entry.now) ≡ false }
{
    match command.try_get_matches_from(words) {
        Ok(matches) => Ok(matches),
        Err(e) => {
            if e.kind() == ErrorKind::OutOfMemory {
                Err(WordsFault::NoMemory)
            } else {
                Err(WordsFault::Usage)
            }
        }
    }
}

/// The text of an argument that is there.
pub fn text(alloc: Global, matches: &ArgMatches<'_>, id: &str) -> Result<String, AllocError>
    requires { is_some (first_value (found_of matches.now) id.now) ≡ true }
    ensures { IfOk result (λ s. first_value (found_of matches.now) id.now ≡ Some (string_bytes s)) }
{
    String::from_str(alloc, matches.get_str(id).unwrap())
}

/// The text of an option, if it was given.
pub fn text_if_given(
    alloc: Global,
    matches: &ArgMatches<'_>,
    id: &str,
) -> Result<Option<String>, AllocError>
    ensures { IfOk result (λ o. first_value (found_of matches.now) id.now ≡ option_map string_bytes o) }
{
    match matches.get_str(id) {
        Some(text) => Ok(Some(String::from_str(alloc, text)?)),
        None => Ok(None),
    }
}

/// Whether an argument that is there has this value.
pub fn is_value(matches: &ArgMatches<'_>, id: &str, value: &str) -> bool
    requires { is_some (first_value (found_of matches.now) id.now) ≡ true }
    ensures { option_map (λ t. bytes_eq t value.now) (first_value (found_of matches.now) id.now)
        ≡ Some result }
{
    matches.get_str(id).unwrap() == value
}

/// A number of 8 bits.
pub fn number_u8(matches: &ArgMatches<'_>, id: &str) -> u8
    requires { IsNumber (found_of matches.now) id.now (2 ^ 8) }
    ensures { option_map number_of (one_text (found_of matches.now) id.now) ≡ Some result }
{
    matches.get_one::<u8>(id).unwrap()
}

/// A number of 32 bits.
pub fn number_u32(matches: &ArgMatches<'_>, id: &str) -> u32
    requires { IsNumber (found_of matches.now) id.now (2 ^ 32) }
    ensures { option_map number_of (one_text (found_of matches.now) id.now) ≡ Some result }
{
    matches.get_one::<u32>(id).unwrap()
}

/// A number of 64 bits.
pub fn number_u64(matches: &ArgMatches<'_>, id: &str) -> u64
    requires { IsNumber (found_of matches.now) id.now (2 ^ 64) }
    ensures { option_map number_of (one_text (found_of matches.now) id.now) ≡ Some result }
{
    matches.get_one::<u64>(id).unwrap()
}
