//! What is wrong first in a text, over all phases.
ghost use Rattle.std.specs.Prelude.{◌≡◌};
ghost use Rattle.dc_parse.specs.Faults.{want};
ghost use Rattle.dc_parse.specs.Faults.{kind_of as kind_from, raised as raised_from};

use std::alloc::AllocError;

/// Why a text is refused.
#[derive(Clone, Copy, Debug, PartialEq)]
pub enum Kind {
    /// The text has more than 65,536 bytes.
    TooLong,
    /// A byte of 128 or more.
    NotAscii,
    /// A byte that begins no token.
    BadCharacter,
    /// A number above 2147483647.
    LiteralTooWide,
    /// A token with which no text of the grammar goes on.
    Unexpected,
    /// The text ends too soon.
    Unclosed,
    /// More than 64 brackets are open, or more than 64 operators stand in one expression or condition.
    TooDeep,
    /// More than ten names are declared.
    TooManyNames,
    /// A name is declared twice.
    NameTwice,
    /// A name is used that isn't declared.
    UnknownName,
    /// A form that must be affine has degree 2.
    NotAffine,
    /// A form has a degree above 2.
    DegreeTooHigh,
    /// A coefficient of a form passes 2147483647 in size.
    CoefficientRange,
    /// A condition has more than 64 conjunctions.
    ConditionTooWide,
    /// Memory ran out.
    NoMemory,
}

/// Why a text is refused, and the byte at which.
#[derive(Clone, Copy, Debug)]
pub struct Fault {
    pub kind: Kind,
    pub at: usize,
}

impl Fault {
    /// Want of memory, which has no offset.
    pub fn want() -> Fault
        ensures { result ≡ want }
    {
        Fault {
            kind: Kind::NoMemory,
            at: 0,
        }
    }
}

impl From<AllocError> for Fault {
    ghost use Rattle.dc_parse.specs.Faults.{want};

    ghost from_gives = { λ _ f. f ≡ want };

    fn from(_error: AllocError) -> Fault {
        Fault::want()
    }
}

fn kind_of(kind: dc_descent::Kind) -> Kind
    ensures { result ≡ kind_from kind }
{
    match kind {
        dc_descent::Kind::Unexpected => Kind::Unexpected,
        dc_descent::Kind::Unclosed => Kind::Unclosed,
        dc_descent::Kind::TooDeep => Kind::TooDeep,
        dc_descent::Kind::TooManyNames => Kind::TooManyNames,
        dc_descent::Kind::NameTwice => Kind::NameTwice,
        dc_descent::Kind::UnknownName => Kind::UnknownName,
        dc_descent::Kind::NoMemory => Kind::NoMemory,
    }
}

/// The same fault of the tokens or the names, among those of all phases.
pub fn raise(fault: dc_descent::Fault) -> Fault
    ensures { result ≡ raised_from fault }
{
    Fault {
        kind: kind_of(fault.kind),
        at: fault.at,
    }
}
