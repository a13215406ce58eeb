//! The fixed words of lines.
ghost use Rattle.std.specs.Prelude.{◌≡◌};
ghost use Rattle.dc_entail.specs.Sites.{side_text};
ghost use Rattle.dc_answers.specs.Lines.{text_name, count_text, kind_text, line_in, column_in, wrong_text, usage_text};

use dc_answers::{Text, Wrong};
use dc_parse::Kind;
use dc_syntax::{Count, Side};

#[tactic(auto, unfolding(dc_answers::specs::Lines::usage_text))]
pub fn usage() -> &'static str
    ensures { result.now ≡ usage_text }
{
    "usage: diffcost analyse NEW OLD [--when TEXT] [--degree 0..3] [--products 1..3] [--rows intervals|pairs] [--pivots 1..1000000]\nusage: diffcost check NEW OLD CERT [--when TEXT]\nusage: diffcost sample SEED COUNT\n"
}

pub fn side_word(side: Side) -> &'static str
    ensures { result.now ≡ side_text side }
{
    match side {
        Side::New => "new",
        Side::Old => "old",
    }
}

pub fn text_word(text: Text) -> &'static str
    ensures { result.now ≡ text_name text }
{
    match text {
        Text::New => "new",
        Text::Old => "old",
        Text::When => "when",
    }
}

pub fn count_word(count: Count) -> &'static str
    ensures { result.now ≡ count_text count }
{
    match count {
        Count::Locations => "locations",
        Count::Edges => "edges",
        Count::Rows => "rows",
        Count::Bounds => "bounds",
        Count::Columns => "columns",
        Count::Equations => "equations",
        Count::Certificate => "certificate",
    }
}

/// The line and the column at which a text is wrong.
pub fn line_and_column(wrong: &Wrong) -> (u32, u32)
    ensures line { result.0 ≡ line_in wrong.now }
    ensures column { result.1 ≡ column_in wrong.now }
{
    match wrong {
        Wrong::Parse(fault) => (fault.line, fault.col),
        Wrong::ParametersDiffer => (1, 1),
    }
}

pub fn wrong_word(wrong: &Wrong) -> &'static str
    ensures { result.now ≡ wrong_text wrong.now }
{
    match wrong {
        Wrong::Parse(fault) => kind_word(fault.kind),
        Wrong::ParametersDiffer => "ParametersDiffer",
    }
}

fn kind_word(kind: Kind) -> &'static str
    ensures { result.now ≡ kind_text kind }
{
    match kind {
        Kind::TooLong => "TooLong",
        Kind::NotAscii => "NotAscii",
        Kind::BadCharacter => "BadCharacter",
        Kind::LiteralTooWide => "LiteralTooWide",
        Kind::Unexpected => "Unexpected",
        Kind::Unclosed => "Unclosed",
        Kind::TooDeep => "TooDeep",
        Kind::TooManyNames => "TooManyNames",
        Kind::NameTwice => "NameTwice",
        Kind::UnknownName => "UnknownName",
        Kind::NotAffine => "NotAffine",
        Kind::DegreeTooHigh => "DegreeTooHigh",
        Kind::CoefficientRange => "CoefficientRange",
        Kind::ConditionTooWide => "ConditionTooWide",
        Kind::NoMemory => "NoMemory",
    }
}
