//! Why a command ends without its answer.
use dc_entail::Site;
use dc_parse::ParseFault;
use dc_syntax::{Count, Side};

/// Which text is wrong.
#[derive(Clone, Copy, Debug, PartialEq)]
pub enum Text {
    New,
    Old,
    When,
}

/// What is wrong with a text.
#[derive(Debug, Drop)]
pub enum Wrong {
    /// It says no program, or no condition.
    Parse(ParseFault),
    /// The parameters of the program that it says are not those of the new version.
    ParametersDiffer,
}

/// Why a command ends without its answer.
#[derive(Debug, Drop)]
pub enum Refusal {
    /// The words are no command.
    Usage,
    /// The file of this name was not handed out.
    Unread(String),
    /// The certificate's text is none; this line is the first with which none goes on.
    BadCertificate {
        line: u64,
    },
    /// A text is wrong.
    Source(Text, Wrong),
    /// A count of one program, of the main problem where no side is named, or of the certificate's
    /// bytes passes its limit.
    TooLarge {
        side: Option<Side>,
        what: Count,
        count: u64,
    },
    /// A pivot of the problem at a site doesn't fit 128 bits.
    PastPivot {
        site: Site,
        pivot: u64,
    },
    /// A sum of the checker doesn't fit 128 bits.
    PastFold {
        clause: u8,
        index: u64,
    },
    /// The problem at a site wants more pivots than it may take.
    Spent {
        site: Site,
    },
    /// A clause of the checker is false.
    Rejected {
        clause: u8,
        index: u64,
    },
    /// The output was not taken whole.
    Unwritten,
    /// Memory ran out.
    NoMemory,
}
