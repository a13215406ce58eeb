//! From the words to the output.
ghost use Rattle.std.specs.Prelude.{◌≡◌, ◌≤◌, IfOk, IfErr, map, option_map};
ghost use Rattle.std.specs.String.{string_bytes};
ghost use Rattle.dc_sparse.specs.Meanings.{cross_meaning};
ghost use Rattle.dc_words.specs.Reading.{reading_of};
ghost use Rattle.dc_answers.specs.Outside.{visit_of};
ghost use Rattle.dc_cli.specs.Steps.{IsInRange, IsOutputOf, IsRefusedOf, IsOutputFor, IsRefusedFor};

use crate::analyse::analyse;
use crate::check::check;
use crate::output::Output;
use crate::sample::sample;
use dc_answers::Refusal;
use dc_host::Store;
use dc_sparse::Cross;
use dc_words::{Words, WordsFault, read_words};
use std::alloc::Global;

/// The whole output that is due. All files are fetched before any is read.
pub fn output<S: Store>(
    alloc: Global,
    words: &Vec<String>,
    store: &mut S,
    tableau: &mut Cross,
) -> Result<Output, Refusal>
    ensures files { S.files store.new ≡ S.files store.old }
    ensures later { S.faults store.old ≤ S.faults store.new }
    ensures ok { IfOk result (λ o. IsOutputFor (visit_of S.files S.faults S.call store.old
        store.new) (map string_bytes words.now.items) (cross_meaning tableau.new) o.status
        o.bytes.items) }
    ensures refused { IfErr result (IsRefusedFor (visit_of S.files S.faults S.call store.old
        store.new) (map string_bytes words.now.items)) }
{
    match read_words(alloc, words) {
        Ok(asked) => answer(alloc, &asked, store, tableau),
        Err(WordsFault::Usage) => Err(Refusal::Usage),
        Err(WordsFault::NoMemory) => Err(Refusal::NoMemory),
    }
}

/// The output of a command.
fn answer<S: Store>(
    alloc: Global,
    asked: &Words,
    store: &mut S,
    tableau: &mut Cross,
) -> Result<Output, Refusal>
    requires { IsInRange (reading_of asked.now) }
    ensures files { S.files store.new ≡ S.files store.old }
    ensures later { S.faults store.old ≤ S.faults store.new }
    ensures ok { IfOk result (λ o. IsOutputOf (visit_of S.files S.faults S.call store.old store.new)
        (reading_of asked.now) (cross_meaning tableau.new) o.status o.bytes.items) }
    ensures refused { IfErr result (IsRefusedOf (visit_of S.files S.faults S.call store.old
        store.new) (reading_of asked.now)) }
{
    match asked {
        Words::Analyse {
            new_name,
            old_name,
            when,
            settings,
        } => {
            let (new, old) = (new_name.as_str(), old_name.as_str());
            analyse(alloc, store, new, old, text_in(when), settings, tableau)
        }
        Words::Check {
            new_name,
            old_name,
            cert_name,
            when,
        } => {
            let (new, old, cert) = (new_name.as_str(), old_name.as_str(), cert_name.as_str());
            check(alloc, store, new, old, cert, text_in(when))
        }
        Words::Sample { seed, count } => sample(alloc, *seed, *count, tableau),
    }
}

/// The text of an option, where there is one.
fn text_in(text: &Option<String>) -> Option<&str>
    ensures { option_map (λ z. z.now) result ≡ option_map string_bytes text.now }
{
    match text {
        Some(text) => Some(text.as_str()),
        None => None,
    }
}
