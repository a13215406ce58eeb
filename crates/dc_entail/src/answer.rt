//! Answers, and which problem of an analysis one answers: its site.
ghost use Rattle.std.specs.Prelude.{◌≡◌, Some};
ghost use Rattle.dc_entail.specs.Sites.{side_text, site_text};

use dc_frac::Frac;
use dc_syntax::Side;
use std::fmt;

/// Whether any rational point meets a list of atoms.
#[derive(Debug, Drop)]
pub enum Emptiness {
    /// None does: `mult`, one for each atom and at least 0, combines the atoms to -1.
    Dead { mult: Vec<Frac> },
    /// One does, which `y` names: its coordinates are the parts of `y` but for the last one,
    /// divided by that one, which is negative.
    Live { y: Vec<Frac> },
}

/// From which number on a form is entailed.
#[derive(Debug, Drop)]
pub enum Sup {
    /// From `value` on: `mult`, one for each atom and at least 0, combines the atoms to the form
    /// and `value` more.
    At { value: Frac, mult: Vec<Frac> },
    /// From none on: `y`, one for each place, refutes the problem of the form.
    NoBound { y: Vec<Frac> },
}

/// Which problem of an analysis. Cases, rows, edges, locations and atoms are numbered from 0.
///
/// It is written as the words of its line: `when 0`, `new edge 2 row 1`, `old kept entry case 0
/// atom 3`, `main`.
#[derive(Clone, Copy, Debug, PartialEq)]
pub enum Site {
    /// Whether a case of the condition is dead.
    When {
        case: usize,
    },
    /// The bound of a row at the entry, by a case.
    EntryRow {
        side: Side,
        case: usize,
        row: usize,
    },
    /// Whether an edge is dead, in a round.
    Edge {
        side: Side,
        edge: usize,
    },
    /// The bound of a row after an edge, in a round.
    EdgeRow {
        side: Side,
        edge: usize,
        row: usize,
    },
    /// The bound of an atom's row over the other atoms of its location.
    Prune {
        side: Side,
        location: usize,
        row: usize,
    },
    /// How a case shows a printed atom of the entry.
    KeptEntry {
        side: Side,
        case: usize,
        atom: usize,
    },
    /// Whether an edge is dead, over printed atoms.
    KeptEdge {
        side: Side,
        edge: usize,
    },
    /// How an edge shows a printed atom of its target.
    KeptAtom {
        side: Side,
        edge: usize,
        atom: usize,
    },
    /// Whether the exit is dead.
    Exit {
        side: Side,
    },
    /// The main problem.
    Main,
}

/// The word for a side.
fn side_word(side: Side) -> &'static str
    ensures { result.now ≡ side_text side }
{
    match side {
        Side::New => "new",
        Side::Old => "old",
    }
}

impl fmt::Display for Site {
    ghost output = { λ site. Some (site_text site) };

    fn fmt<W: fmt::Write>(&self, f: &mut fmt::Formatter<W>) -> fmt::Result {
        match *self {
            Site::When { case } => write!(f, "when {case}"),
            Site::EntryRow { side, case, row } => {
                let side = side_word(side);
                write!(f, "{side} entry case {case} row {row}")
            }
            Site::Edge { side, edge } => {
                let side = side_word(side);
                write!(f, "{side} edge {edge}")
            }
            Site::EdgeRow { side, edge, row } => {
                let side = side_word(side);
                write!(f, "{side} edge {edge} row {row}")
            }
            Site::Prune {
                side,
                location,
                row,
            } => {
                let side = side_word(side);
                write!(f, "{side} prune {location} row {row}")
            }
            Site::KeptEntry { side, case, atom } => {
                let side = side_word(side);
                write!(f, "{side} kept entry case {case} atom {atom}")
            }
            Site::KeptEdge { side, edge } => {
                let side = side_word(side);
                write!(f, "{side} kept edge {edge}")
            }
            Site::KeptAtom { side, edge, atom } => {
                let side = side_word(side);
                write!(f, "{side} kept edge {edge} atom {atom}")
            }
            Site::Exit { side } => {
                let side = side_word(side);
                write!(f, "{side} exit")
            }
            Site::Main => f.write_str("main"),
        }
    }
}
