//! Laws of what texts say. The functions have no code: what they ensure is the law.
ghost use Rattle.dc_parse.specs.Laws.{OneOutcomeEach, SaysByTree, SaysPrograms, SaysConditions, SaysItsCases, HaveOffsets};

/// A text has exactly one outcome as a source, and exactly one as a condition over any names: what
/// it says, or what is wrong first.
pub fn one_outcome(text: &[u8])
    ensures { OneOutcomeEach text.now }
{
    let _ = text;
}

/// A text says the procedure of its derivation, where its tokens derive a source and nothing is
/// wrong with its names and forms.
pub fn texts_say_their_trees(text: &[u8])
    ensures { SaysByTree text.now }
{
    let _ = text;
}

/// What a text says is a program, and what it says over names is a condition over as many places.
pub fn texts_say_programs(text: &[u8])
    ensures programs { SaysPrograms text.now }
    ensures conditions { SaysConditions text.now }
{
    let _ = text;
}

/// The cases that a text says hold at a state exactly where the text's condition is true.
pub fn cases_hold_where_the_condition_is_true(text: &[u8])
    ensures { SaysItsCases text.now }
{
    let _ = text;
}

/// Each statement of a source has the offset at which it begins.
pub fn statements_have_offsets(text: &[u8])
    ensures { HaveOffsets text.now }
{
    let _ = text;
}
