//! The parameters of a procedure.
ghost use Rattle.dc_syntax.specs.Params.{HaveSameParams};
ghost use Rattle.std.specs.Prelude.{◌≡◌, ◌↔◌, IsTrue, map, take, drop};
ghost use Rattle.std.specs.String.{string_bytes};

use crate::names::Names;
use crate::tree::Proc;

/// The first `count` names, or all of them where there are fewer.
pub(crate) fn first_names(names: &Names, count: usize) -> &[String]
    ensures { map string_bytes result.now ≡ take count names.now }
{
    let all = names.as_slice();
    if count < all.len() {
        &all[..count]
    } else {
        all
    }
}

/// The names after the first `count`.
#[tactic(auto, using(crate::proofs::Texts::later))]
pub(crate) fn later_names(names: &Names, count: usize) -> &[String]
    ensures { map string_bytes result.now ≡ drop count names.now }
{
    let all = names.as_slice();
    if count < all.len() {
        &all[count..]
    } else {
        &[]
    }
}

/// Whether two procedures have equal numbers of parameters and equal names of them, in order.
pub fn same_params(a: &Proc, b: &Proc) -> bool
    ensures { IsTrue result ↔ HaveSameParams a.now b.now }
{
    a.params == b.params && first_names(&a.names, a.params) == first_names(&b.names, b.params)
}
