//! Laws of the answers that are there. Each function has no code: what it ensures is the law.
ghost use Rattle.dc_existence.specs.Laws.{HasAnswer, HasNames, SamplesAreSound, WantIsNoAnswer};

/// Words name some list of files. For words, the files that they name and as many texts there is an
/// answer, whatever the texts are: an output with its status, or a refusal. It is never want of
/// memory.
pub fn words_have_answers()
    ensures names { HasNames }
    ensures answer { HasAnswer }
    ensures memory { WantIsNoAnswer }
{}

/// Of a generated pair of at most eight loops no text is wrong: `sample` is never refused for a
/// fault of a source, of the condition or of the parameters.
pub fn generated_pairs_are_sound()
    ensures { SamplesAreSound }
{}
