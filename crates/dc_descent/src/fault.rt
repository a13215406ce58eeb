//! What is wrong first in a text.
ghost use Rattle.std.specs.Prelude.{◌≡◌};
ghost use Rattle.dc_descent.specs.Wants.{want};

use std::alloc::AllocError;
use thiserror::Error;

/// What is wrong with the tokens or the names of a text.
#[derive(Clone, Copy, Debug, PartialEq)]
pub enum Kind {
    /// A token with which no text of the grammar goes on.
    Unexpected,
    /// The text ends too soon.
    Unclosed,
    /// More than 64 brackets are open, or more than 64 operators stand in one expression or
    /// condition.
    TooDeep,
    /// More than ten names are declared.
    TooManyNames,
    /// A name is declared twice.
    NameTwice,
    /// A name is used that isn't declared.
    UnknownName,
    /// Memory ran out.
    NoMemory,
}

/// What is wrong first with the tokens or the names of a text, and the byte at which.
#[derive(Clone, Copy, Debug, Error)]
#[error("the text is refused")]
pub struct Fault {
    pub kind: Kind,
    pub at: usize,
}

impl Fault {
    /// Want of memory, which has no offset.
    pub fn want() -> Fault
        ensures { result ≡ want }
    {
        Fault {
            kind: Kind::NoMemory,
            at: 0,
        }
    }
}

impl From<AllocError> for Fault {
    ghost use Rattle.dc_descent.specs.Wants.{want};

    ghost from_gives = { λ _ f. f ≡ want };

    fn from(_error: AllocError) -> Fault {
        Fault::want()
    }
}
