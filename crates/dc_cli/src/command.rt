//! The top call: from the words of the command line to a status.
ghost use Rattle.std.specs.Prelude.{◌≡◌, ◌≢◌, ◌≤◌, IfOk, IfErr, map};
ghost use Rattle.std.specs.String.{string_bytes};
ghost use Rattle.dc_sparse.specs.Meanings.{cross_meaning};
ghost use Rattle.dc_answers.specs.Statuses.{write_fault};
ghost use Rattle.dc_answers.specs.Outside.{outside, visit_of, stream_of};
ghost use Rattle.dc_answers.specs.Promise.{IsAnswered, SaysHeadline, Prints, Refuses, Completes, FindsMissing};
ghost use Rattle.dc_cli.specs.Written.{IsPrinted, IsUnprinted, IsEarly};

use crate::answer::output;
use crate::report::report;
use dc_answers::Refusal;
use dc_host::{Sink, Store, put_all};
use dc_sparse::Cross;
use std::alloc::Global;

/// Runs the command that the words after the program's name give, and answers the status of the
/// program.
///
/// - `analyse NEW OLD [--when TEXT] [--degree 0..3] [--products 1..3] [--rows intervals|pairs]
///   [--pivots 1..1000000]` prints the text of a certificate, whose first line is `threshold T`,
///   `none` or `vacuous`; the status is 0, 1 or 2.
/// - `check NEW OLD CERT [--when TEXT]` prints `accepted` and the certificate's first line; the
///   status is 0.
/// - `sample SEED COUNT` analyses a generated pair, and prints four lines, the last of which is the
///   claim; the status is as for `analyse`.
///
/// The whole output is built before the first write. Where there is none, its cause has its line on
/// `err`, the first of these:
///
/// - 3, the usage: the words are no command;
/// - 8, `read fault: NAME`: the store handed out no text for NEW, else for OLD, else for CERT;
/// - 12, `bad certificate: line L`: the text of CERT is no certificate's;
/// - 4, `source fault: WHICH L:C KIND`: the first of the new version's text, the old one's, the
///   parameters, and the condition that is wrong;
/// - 5, `too large: ..`, 6, `past 128 bits: ..`, 7, `pivots spent: ..` and 11, `rejected: ..`: the
///   first step of the analysis or of the check that is refused;
/// - 9, `write fault`: `out` has gained a proper prefix of the output alone;
/// - 10, `no memory`: `out` is as before.
///
/// A command that analyses leaves the tableau at the table at which the run of the main problem
/// ends. A fault of `err` changes neither the status nor anything else.
pub fn top<S: Store, O: Sink, E: Sink>(
    alloc: Global,
    words: &Vec<String>,
    store: &mut S,
    out: &mut O,
    err: &mut E,
    tableau: &mut Cross,
) -> u8
    ensures headline { IsAnswered result → SaysHeadline
        (outside (map string_bytes words.now.items)
        (visit_of S.files S.faults S.call store.old store.new)
        (stream_of O.written O.faults out.old out.new)
        (stream_of E.written E.faults err.old err.new)) result }
    ensures printed { IsAnswered result → Prints
        (outside (map string_bytes words.now.items)
        (visit_of S.files S.faults S.call store.old store.new)
        (stream_of O.written O.faults out.old out.new)
        (stream_of E.written E.faults err.old err.new))
        (cross_meaning tableau.new) result }
    ensures refused { ¬ IsAnswered result → Refuses
        (outside (map string_bytes words.now.items)
        (visit_of S.files S.faults S.call store.old store.new)
        (stream_of O.written O.faults out.old out.new)
        (stream_of E.written E.faults err.old err.new)) result }
    ensures complete { Completes
        (outside (map string_bytes words.now.items)
        (visit_of S.files S.faults S.call store.old store.new)
        (stream_of O.written O.faults out.old out.new)
        (stream_of E.written E.faults err.old err.new)) result }
    ensures missing { FindsMissing
        (outside (map string_bytes words.now.items)
        (visit_of S.files S.faults S.call store.old store.new)
        (stream_of O.written O.faults out.old out.new)
        (stream_of E.written E.faults err.old err.new)) result }
    ensures untouched { ¬ IsAnswered result → result ≢ write_fault → out.new ≡ out.old }
    ensures quiet { IsAnswered result → err.new ≡ err.old }
    ensures files { S.files store.new ≡ S.files store.old }
    ensures counts { (S.faults store.old ≤ S.faults store.new)
        × (O.faults out.old ≤ O.faults out.new) × (E.faults err.old ≤ E.faults err.new) }
{
    match print_answer(alloc, words, store, out, tableau) {
        Ok(status) => status,
        Err(refusal) => report(alloc, &refusal, err),
    }
}

/// Writes the output that is due, or says why there is none.
fn print_answer<S: Store, O: Sink>(
    alloc: Global,
    words: &Vec<String>,
    store: &mut S,
    out: &mut O,
    tableau: &mut Cross,
) -> Result<u8, Refusal>
    ensures ok { IfOk result (IsPrinted (map string_bytes words.now.items) (visit_of S.files
        S.faults S.call store.old store.new) (stream_of O.written O.faults out.old out.new)
        (cross_meaning tableau.new)) }
    ensures refused { IfErr result (IsUnprinted (map string_bytes words.now.items) (visit_of S.files
        S.faults S.call store.old store.new) (stream_of O.written O.faults out.old out.new)) }
    ensures untouched { IfErr result (λ r. IsEarly r → out.new ≡ out.old) }
    ensures files { S.files store.new ≡ S.files store.old }
    ensures store_later { S.faults store.old ≤ S.faults store.new }
    ensures out_later { O.faults out.old ≤ O.faults out.new }
{
    let output = output(alloc, words, store, tableau)?;
    match put_all(out, output.bytes.as_slice()) {
        Ok(()) => Ok(output.status),
        Err(_) => Err(Refusal::Unwritten),
    }
}
