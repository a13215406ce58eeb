//! What an analysis is lent, and what it has made so far.
use dc_affine::Atom;
use dc_cert::{Liveness, Settings, SideCert};
use dc_rows::Candidates;
use dc_syntax::Proc;
use dc_system::System;
use sqlite_items::Items;

/// Two programs, the cases of the condition, and the settings.
#[derive(Clone, Copy)]
pub(crate) struct Lent<'a> {
    pub new: &'a Proc,
    pub old: &'a Proc,
    pub cases: &'a [Items<Atom>],
    pub settings: &'a Settings,
}

/// The folded system of a program, and the candidates of its system before folding.
#[derive(Drop)]
pub(crate) struct Version {
    pub system: System,
    pub candidates: Candidates,
}

/// Both versions.
#[derive(Drop)]
pub(crate) struct Versions {
    pub new: Version,
    pub old: Version,
}

/// What the problems before the main one give: a line for each case, and both sides of the certificate.
#[derive(Drop)]
pub(crate) struct Early {
    pub when: Items<Liveness>,
    pub new_side: SideCert,
    pub old_side: SideCert,
}
