//! Laws of polynomials. Each function has no code: what it ensures is the law.
ghost use Rattle.dc_poly.specs.Laws.{AtRationalPoints, CoefOfSum, CombinationsVanish, FewTerms, IsGradedOrder, SameByCoefficients, SameByValues, ValueByMonomials, VanishingCombines, Vanishes};

/// A polynomial in n variables, of degree at most D in each, that is 0 on every point of `{0..D}^n`
/// has only zero coefficients.
pub fn vanishing_on_a_grid()
    ensures { Vanishes }
{}

/// Polynomials of the same places with equal values at every point, or with equal coefficients, are
/// equal.
pub fn equal_values_are_equal_lists()
    ensures values { SameByValues }
    ensures coefficients { SameByCoefficients }
{}

/// The coefficients of a sum are the sums of the coefficients.
pub fn coefficients_add_up()
    ensures { CoefOfSum }
{}

/// Of two different monomials exactly one is before the other, as comparing them says.
pub fn graded_order_is_strict()
    ensures { IsGradedOrder }
{}

/// A sum of polynomials with rational factors is 0 at every point exactly where its coefficients are 0.
pub fn vanishing_combinations()
    ensures values { CombinationsVanish }
    ensures coefficients { VanishingCombines }
{}

/// The value is the sum of coefficient times monomial, over any ordered list that has its monomials.
pub fn values_by_monomials()
    ensures { ValueByMonomials }
{}

/// A polynomial of degree at most 2 in at most 11 places has at most 78 terms.
pub fn few_terms()
    ensures { FewTerms }
{}

/// An affine form at a rational point, given as whole numbers over one denominator.
pub fn forms_at_rational_points()
    ensures { AtRationalPoints }
{}
