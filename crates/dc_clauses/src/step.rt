//! Numbered tests.
ghost use Rattle.std.specs.Prelude.{◌≡◌, ◌∷◌, []};
ghost use Rattle.dc_clauses.specs.Steps.{counted, first_failure, is_true};

/// A test of a clause, with its index there: true, false, or nothing where a sum that it wants
/// passes 128 bits.
#[derive(Clone, Copy, Debug, PartialEq, Eq)]
pub struct Step {
    pub clause: u8,
    pub index: u64,
    pub test: Option<bool>,
}

/// How far a walk over the tests of a clause came.
#[derive(Clone, Copy, Debug, PartialEq, Eq)]
pub enum Walk {
    /// All are true; `next` is the index of the test behind them.
    Passed { next: usize },
    /// This is the first step that does not hold.
    Stopped { step: Step },
}

/// Whether a test is true.
pub fn passes(test: Option<bool>) -> bool
    ensures { result ≡ is_true test }
{
    matches!(test, Some(true))
}

/// The step of a test that isn't true.
pub fn failure(clause: u8, index: usize, test: Option<bool>) -> Option<Step>
    ensures { result ≡ first_failure (counted clause index (test ∷ [])) }
{
    match test {
        Some(true) => None,
        other => Some(Step {
            clause,
            index: index as u64,
            test: other,
        }),
    }
}
