//! The command words: what a user asks for, as `clap` reads it.
//!
//! The first word names a command, and the words after it go to that command's own [`clap`]
//! command, which has no subcommands. What is refused is exactly what `clap` refuses.
#![tactic(auto)]

ghost use Rattle.std.specs.Prelude.{◌≡◌, IfOk, IsErrOf, map, true, false};
ghost use Rattle.std.specs.String.{string_bytes};
ghost use Rattle.dc_words.specs.Reading.{takes_words, reading_of, IsReading};

mod arguments;
mod commands;
pub mod laws;
mod matching;
mod reading;

use dc_cert::Settings;
use reading::{read_analyse, read_check, read_sample};
use std::alloc::{AllocError, Global};
use thiserror::Error;

/// What the words ask for, with the defaults filled in.
#[derive(Debug, Drop)]
pub enum Words {
    /// `analyse NEW OLD [--when TEXT] [--degree D] [--products K] [--rows intervals|pairs]
    /// [--pivots N]`: bound the difference of the costs of two sources.
    Analyse {
        /// The file of the new version.
        new_name: String,
        /// The file of the old version.
        old_name: String,
        /// The condition on the inputs, if there is one.
        when: Option<String>,
        /// How a bound is sought: the degree of the templates, 0 to 3; how many factors a product
        /// has at most, 1 to 3; whether the candidates bound sums and differences of two variables
        /// too; how many pivots a problem may take, 1 to 1,000,000.
        settings: Settings,
    },
    /// `check NEW OLD CERT [--when TEXT]`: check a certificate against two sources.
    Check {
        /// The file of the new version.
        new_name: String,
        /// The file of the old version.
        old_name: String,
        /// The file of the certificate.
        cert_name: String,
        /// The condition on the inputs, if there is one.
        when: Option<String>,
    },
    /// `sample SEED COUNT`: analyse a generated pair.
    Sample {
        /// The seed of the generator, 0 to 2147483647.
        seed: u32,
        /// How many loops each of the two sources has, 1 to 8.
        count: u32,
    },
}

/// Why there is no reading.
#[derive(Debug, Drop, Error)]
pub enum WordsFault {
    /// The first word is no command, or the command has no reading of the rest.
    #[error("the words are no command line")]
    Usage,
    /// Memory ran out.
    #[error("no memory")]
    NoMemory,
}

impl From<AllocError> for WordsFault {
    ghost use Rattle.std.specs.Prelude.{◌≡◌};
    ghost use Rattle.dc_words.specs.declared.WordsFault.{WordsFault};

    ghost from_gives = { λ _ fault. fault ≡ WordsFault.NoMemory };

    fn from(_: AllocError) -> WordsFault {
        WordsFault::NoMemory
    }
}

/// Reads the words after the program's name. Contracts see the reading as bytes and numbers
/// (`reading_of`), of which the words have one at most.
///
/// # Errors
///
/// `Usage` exactly where the first word is no command, or the `clap` command of the first word has
/// no reading of the rest; its help counts as a refusal. `NoMemory` where memory ran out, and
/// nowhere else.
pub fn read_words(alloc: Global, words: &Vec<String>) -> Result<Words, WordsFault>
    ensures taken { IfOk result (λ w. takes_words (map string_bytes words.now.items) ≡ true) }
    ensures reading { IfOk result (λ w. IsReading (map string_bytes words.now.items) (reading_of w)) }
    ensures usage { IsErrOf result WordsFault.Usage
        → takes_words (map string_bytes words.now.items) ≡ false }
{
    let Some(first) = words.first() else {
        return Err(WordsFault::Usage);
    };
    match first.as_str() {
        "analyse" => read_analyse(alloc, words.as_slice()),
        "check" => read_check(alloc, words.as_slice()),
        "sample" => read_sample(alloc, words.as_slice()),
        _ => Err(WordsFault::Usage),
    }
}
