//! Laws of monomials and entries. Each function has no code: what it ensures is the law.
ghost use Rattle.dc_coefficients.specs.Laws.{EntriesHaveNumbers, MonosAreThose};

/// The monomials of several polynomials are those that have a coefficient in one of them, each
/// once, in graded order.
pub fn monomials_are_those_with_a_coefficient()
    ensures { MonosAreThose }
{}

/// The entries of numbers have rising rows and no zero, and give these numbers.
pub fn entries_have_their_numbers()
    ensures { EntriesHaveNumbers }
{}
