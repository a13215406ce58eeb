//! Laws of products. Each function has no code: what it ensures is the law.
ghost use Rattle.dc_handelman.specs.Choices.{AreFixed, IsTheList};
ghost use Rattle.dc_handelman.specs.Products.{EachIsSorted, EachProductStands, HaveValues, HoldTogether, OrderIsFree, StayAboveZero};

/// One list alone has each choice of at most so many numbers and nothing else, in order, and it is the
/// list whose products `products` makes.
pub fn the_choices_are_fixed()
    ensures fixed { AreFixed }
    ensures list { IsTheList }
{}

/// The value of a product at a point is the product of the values of its factors, so it is at least 0
/// where they are, and each product is where all the atoms hold.
pub fn products_have_values()
    ensures values { HaveValues }
    ensures nonnegative { StayAboveZero }
    ensures together { HoldTogether }
{}

/// A product does not depend on the order of its factors. At most k numbers in any order are a
/// choice of the list in another order, so the product of at most k of the atoms stands among the
/// products.
pub fn the_order_is_free()
    ensures order { OrderIsFree }
    ensures sorted { EachIsSorted }
    ensures listed { EachProductStands }
{}
