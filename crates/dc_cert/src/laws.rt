//! Laws of sparse vectors. Each function has no code: what it ensures is the law.
ghost use Rattle.dc_cert.specs.Vectors.{ItemsReturn, KeepsEach};

/// The items that `sparse_of` keeps have each value at its index: what `dense_of` makes of them has the
/// values of the vector.
pub fn items_keep_each_value()
    ensures { KeepsEach }
{}

/// What `sparse_of` keeps of a vector that `dense_of` made are the items that it was made of.
pub fn items_return()
    ensures { ItemsReturn }
{}
