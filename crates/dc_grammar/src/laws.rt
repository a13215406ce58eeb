//! Laws of the grammar.
ghost use Rattle.dc_grammar.specs.Depth.{IsDeep};
ghost use Rattle.dc_grammar.specs.Language.{language};
ghost use Rattle.dc_grammar.specs.Laws.{ReadsRight};
ghost use Rattle.dc_grammar.specs.Lookahead.{LooksAhead};
ghost use Rattle.dc_grammar.specs.Nesting.{CountsOpen};
ghost use Rattle.dc_grammar.specs.Readers.{language_reader};
ghost use Rattle.dc_grammar.specs.Standing.{CountsOperators};
ghost use Rattle.dc_grammar.specs.Trees.{HasOneTree};
ghost use Rattle.dc_grammar.specs.Verdicts.{HasOneVerdict};

use dc_tokens::Token;

/// The reader of the whole language needs to look one token ahead, and no more.
pub fn language_looks_ahead()
    ensures { LooksAhead language_reader }
{}

/// The reader of the whole language reads right: it answers once, what it reads is a text, a text
/// is read whole, and where it stops is the first token with which no text goes on.
pub fn language_reads_right()
    ensures { ReadsRight language_reader }
{}

/// Each name of the grammar of the language derives the tokens in one way at most.
pub fn one_language_tree(tokens: &[Token])
    ensures { HasOneTree language tokens.now }
{
    let _ = tokens;
}

/// For each name of the grammar of the language the tokens have one verdict: their tree, or what is
/// wrong first.
pub fn one_language_verdict(tokens: &[Token])
    ensures { HasOneVerdict language IsDeep tokens.now }
{
    let _ = tokens;
}

/// In what begins a text of a name each closing bracket closes the last one that is open, and the
/// scan counts those that stay open.
pub fn the_scan_counts_open_brackets()
    ensures { CountsOpen }
{}

/// In an expression, a condition or a choice of a text the scan counts the operators since its
/// start, and each operator stands in one. So what begins a text is too deep first with a token
/// that opens a 65th bracket, or that is the 65th operator of its expression, condition or choice,
/// and with each such token it is too deep.
pub fn the_scan_counts_operators()
    ensures { CountsOperators }
{}
