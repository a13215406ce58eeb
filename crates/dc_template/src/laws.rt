//! Laws of templates. Each function has no code: what it ensures is the law.
ghost use Rattle.dc_template.specs.Monomials.{AreFixed, IsTheList};

/// One list alone has each monomial of the places and of at most the degree, and nothing else, in
/// graded order, and it is the list that `monomials` makes.
pub fn the_monomials_are_fixed()
    ensures fixed { AreFixed }
    ensures list { IsTheList }
{}
