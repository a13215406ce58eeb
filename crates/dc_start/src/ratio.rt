//! The ratio test's comparison of rows.
#![tactic(auto)]

ghost use Rattle.std.specs.Prelude.{◌≡◌, ℕ, ◌<◌, length};
ghost use Rattle.dc_math.specs.Rational.{ℚ};
ghost use Rattle.dc_lp.specs.Tables.{Table};
ghost use Rattle.dc_start.specs.Ratios.{IsCandidate, AreCandidates, AreWithin, IsBetter, goes_before};

use dc_frac::Frac;
use std::cmp::Ordering;

/// A row that may leave, with its quotient of right side by entry.
#[derive(Clone, Copy)]
pub struct Candidate {
    pub row: usize,
    pub ratio: Frac,
}

/// The better of the next row and the best before it, in each table with this basis.
pub fn better(basis: &[usize], next: Candidate, best: Option<Candidate>) -> Candidate
    requires next { next.row < length basis.now }
    requires best { AreWithin (length basis.now) best }
    ensures { (t : Table ℚ) (j : ℕ) → basis.now ≡ t.basis → IsCandidate t j next
        → AreCandidates t j best → IsBetter t j next best result }
{
    match best {
        None => next,
        Some(best) => {
            if goes_before(basis, next, best) {
                next
            } else {
                best
            }
        }
    }
}

/// Whether a row goes before another: its quotient is less, or they tie and its basic column is less.
fn goes_before(basis: &[usize], next: Candidate, best: Candidate) -> bool
    requires next { next.row < length basis.now }
    requires best { best.row < length basis.now }
    ensures { (t : Table ℚ) (j : ℕ) → basis.now ≡ t.basis → IsCandidate t j next
        → IsCandidate t j best → result ≡ goes_before t j next.row best.row }
{
    match next.ratio.cmp(&best.ratio) {
        Ordering::Less => true,
        Ordering::Equal => basis[next.row] < basis[best.row],
        Ordering::Greater => false,
    }
}
