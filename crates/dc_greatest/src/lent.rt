//! What a search is lent.
use dc_affine::Atom;
use dc_rows::Candidates;
use dc_syntax::Side;
use dc_system::System;
use sqlite_items::Items;

/// A program's system with its side, the cases of the condition and whether each is live, the
/// candidates, and the budget of pivots of each problem.
#[derive(Clone, Copy)]
pub(crate) struct Lent<'a> {
    pub side: Side,
    pub system: &'a System,
    pub cases: &'a [Items<Atom>],
    pub live: &'a [bool],
    pub candidates: &'a Candidates,
    pub budget: u64,
}
