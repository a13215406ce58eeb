//! Laws of printed texts. Each function has no code: what it ensures is the law.

ghost use Rattle.dc_printed.specs.Laws.{DeepWhereMany, FewestBrackets, HaveTexts, PrintedHasTree, PrintedReadsBack};

/// What the parser gives has a text: its names can be written, and its places and numbers are in range.
pub fn programs_have_texts()
    ensures { HaveTexts }
{}

/// The printed text has the tree of the procedure by the grammar.
pub fn a_printed_text_has_its_tree()
    ensures { PrintedHasTree }
{}

/// No text with fewer brackets has that tree.
pub fn a_printed_text_has_the_fewest_brackets()
    ensures { FewestBrackets }
{}

/// What the parser reads from a text, it reads from the printed text again, where that has at most
/// 65,536 bytes.
pub fn a_printed_text_reads_back()
    ensures { PrintedReadsBack }
{}

/// The tokens of a source nest too deep exactly where an expression or a condition has more than 64
/// operators, or more than 64 brackets are open.
pub fn a_source_is_too_deep_where_its_parts_are()
    ensures { DeepWhereMany }
{}
