//! What potentials owe, and what they are made of.
use dc_syntax::Side;

/// What potentials owe.
#[derive(Clone, Copy)]
pub enum Duty {
    /// Along the edge of a side with this number.
    Along(Side, usize),
    /// At the exit of a side.
    AtExit(Side),
    /// At the entries of both sides, on the inputs of the case with this number.
    AtEntry(usize),
}

/// An unknown of the main problem.
#[derive(Clone, Copy)]
pub enum Unknown {
    /// The threshold.
    Bound,
    /// The coefficient of a side's potential at a location for the monomial with this number.
    Coefficient(Side, usize, usize),
}
