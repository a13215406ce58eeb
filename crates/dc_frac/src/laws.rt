//! Laws of pairs of whole numbers that need not be reduced, and of what fits. Each function has no
//! code: what it ensures is the law.

ghost use Rattle.dc_frac.specs.Laws.{Equality, Sums, Products, Order, Numbers, LowestTerms, Floors, CommonDivisors, ZeroSums, SmallNumbers};

/// Equality of pairs is one, and sums, products and order go by it.
pub fn equality()
    ensures { Equality }
{}

/// Sums are commutative and associative; 0/1 is zero, and the negation is opposite.
pub fn sums()
    ensures { Sums }
{}

/// Products are commutative and associative and distribute over sums; 1/1 is one.
pub fn products()
    ensures { Products }
{}

/// The order is total, and kept by sums and by products with what is at least 0.
pub fn order()
    ensures { Order }
{}

/// A rational number is a class of equal pairs; its sums, products and order are those of the pairs.
pub fn numbers()
    ensures { Numbers }
{}

/// A number has one pair in lowest terms, and a fraction's parts are that pair: a fraction is fixed
/// by its value.
pub fn lowest_terms()
    ensures { LowestTerms }
{}

/// The floor is at most its number, which is below the next whole number.
pub fn floors()
    ensures { Floors }
{}

/// The greatest common divisor divides both numbers, and each common divisor divides it.
pub fn common_divisors()
    ensures { CommonDivisors }
{}

/// A sum or a difference with 0 fits exactly where the other number does, as each fraction does.
pub fn sums_with_zero()
    ensures { ZeroSums }
{}

/// Lowest terms are no larger than the parts of any pair of their number: where parts are small,
/// reduced or not, products, quotients, sums and differences fit.
pub fn small_numbers()
    ensures { SmallNumbers }
{}
