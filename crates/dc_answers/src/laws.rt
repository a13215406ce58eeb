//! Laws of answers. Each function has no code: what it ensures is the law.
ghost use Rattle.dc_answers.specs.Laws.{OneList, OneAnswer, OutputsMean, PrintedIsAccepted};

/// Words name one list of files, and words and texts have one answer: the status, the bytes of the
/// output or the line of the refusal, and where a lent tableau is left.
pub fn answers_are_one()
    ensures list { OneList }
    ensures answer { OneAnswer }
{}

/// What is printed means what the headline says: of a threshold, that it bounds the difference of
/// every two finished runs on the same allowed input and that no certificate shows less; of `none`,
/// that there is no certificate; of `vacuous`, that no allowed input has a finished run of both.
pub fn outputs_mean_what_they_say()
    ensures { OutputsMean }
{}

/// What `analyse` prints, `check` accepts on the same texts.
pub fn what_is_printed_is_accepted()
    ensures { PrintedIsAccepted }
{}
