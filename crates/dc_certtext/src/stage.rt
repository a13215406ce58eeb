//! What of a certificate is read after some of its lines.
//!
//! The drops are by hand, so that a function that drops a stage does so in one step.
ghost use Rattle.std.specs.Prelude.{◌≡◌, IfOk, IfErr};
ghost use Rattle.dc_cert.specs.declared.certificate.Certificate.{Certificate as Whole};
ghost use Rattle.dc_certtext.specs.Stages.{Steps, closed_by};
ghost use Rattle.dc_certtext.specs.Due.{certificate as certificate_of, due as due_word, nothing_found, with_vector as stage_with};

use crate::step::{
    between, cases, edges, end, entries, floor, heads, locations, main_line, main_vector,
    open_side, sizes, start, version,
};
use dc_affine::Atom;
use dc_cert::{Body, Certificate, Claim, EdgeCert, Liveness, SideCert, Sparse};
use dc_frac::Frac;
use sqlite_items::Items;
use std::alloc::{AllocError, Global};

/// The lines up to the cases of the condition; `cases` says how many there will be.
pub struct Head {
    pub claim: Claim,
    pub version: u8,
    pub degree: u8,
    pub products: u8,
    pub cases: usize,
    pub when: Items<Liveness>,
}

impl Drop for Head {
    fn drop(self) {
        let Head {
            claim: _,
            version: _,
            degree: _,
            products: _,
            cases: _,
            when: _when,
        } = self;
    }
}

/// The lines up to a side: the new side is there while the old one is read.
pub struct Front {
    pub head: Head,
    pub new: Option<SideCert>,
}

impl Drop for Front {
    fn drop(self) {
        let Front {
            head: _head,
            new: _new,
        } = self;
    }
}

/// The vectors of the main problem that are read so far: the claim, and the last vector where there
/// is one.
pub enum Found {
    Threshold(Frac),
    ThresholdUnknown(Frac, Sparse),
    ThresholdLambda(Frac, Sparse, Sparse),
    Nothing,
    Vacuous,
    VacuousUnknown(Sparse),
    VacuousLambda(Sparse, Sparse),
    VacuousRay(Sparse, Sparse, Sparse),
}

impl Drop for Found {
    fn drop(self) {
        match self {
            Found::Threshold(_) => {}
            Found::ThresholdUnknown(_, _u) => {}
            Found::ThresholdLambda(_, _u, _l) => {}
            Found::Nothing => {}
            Found::Vacuous => {}
            Found::VacuousUnknown(_u) => {}
            Found::VacuousLambda(_u, _l) => {}
            Found::VacuousRay(_u, _l, _r) => {}
        }
    }
}

/// What is read so far. The last list of a variant is the one that the next line may make longer.
pub enum Stage {
    Start,
    Whole(Frac),
    Version(Claim),
    Sizes(Claim, u8),
    Cases(Claim, u8, u8),
    Heads(Head),
    Opened(Front),
    Locations(Front, Items<Items<Atom>>, Items<Atom>),
    Entries(Front, Items<Items<Atom>>, Items<Items<Sparse>>, Items<Sparse>),
    Edges(
        Front,
        Items<Items<Atom>>,
        Items<Items<Sparse>>,
        Items<EdgeCert>,
        Liveness,
        Items<Sparse>,
    ),
    Between(Head, SideCert),
    Closed(Head, SideCert, SideCert),
    Main(Head, SideCert, SideCert, Found),
    End(Certificate),
    Done(Certificate),
}

impl Drop for Stage {
    fn drop(self) {
        match self {
            Stage::Start => {}
            Stage::Whole(_) => {}
            Stage::Version(_) => {}
            Stage::Sizes(_, _) => {}
            Stage::Cases(_, _, _) => {}
            Stage::Heads(_head) => {}
            Stage::Opened(_front) => {}
            Stage::Locations(_front, _done, _last) => {}
            Stage::Entries(_front, _families, _done, _last) => {}
            Stage::Edges(_front, _families, _entries, _done, _live, _last) => {}
            Stage::Between(_head, _new) => {}
            Stage::Closed(_head, _new, _old) => {}
            Stage::Main(_head, _new, _old, _found) => {}
            Stage::End(_c) => {}
            Stage::Done(_c) => {}
        }
    }
}

impl Head {
    // The certificate of what is read.
    fn certificate(self, new_side: SideCert, old_side: SideCert, body: Body) -> Certificate
        ensures { result ≡ certificate_of self new_side old_side body }
    {
        let Head {
            claim: _,
            version,
            degree,
            products,
            cases: _,
            when,
        } = self;
        Certificate {
            version,
            body,
            degree,
            products,
            when,
            new_side,
            old_side,
        }
    }
}

impl Front {
    // The stage behind a side.
    pub(crate) fn close(self, side: SideCert) -> Stage
        ensures { result ≡ closed_by self.head self.new side }
    {
        let Front { head, new } = self;
        match new {
            None => Stage::Between(head, side),
            Some(new) => Stage::Closed(head, new, side),
        }
    }
}

impl Found {
    // No vector yet.
    pub(crate) fn nothing(claim: &Claim) -> Found
        ensures { result ≡ nothing_found claim.now }
    {
        match claim {
            Claim::Threshold(t) => Found::Threshold(*t),
            Claim::Nothing => Found::Nothing,
            Claim::Vacuous => Found::Vacuous,
        }
    }

    // The word of the vector that is due.
    pub(crate) fn due(&self) -> &'static [u8]
        ensures { result.now ≡ due_word self.now }
    {
        match self {
            Found::Threshold(_) | Found::Vacuous => b"unknown",
            Found::ThresholdUnknown(_, _) | Found::VacuousUnknown(_) => b"lambda",
            Found::ThresholdLambda(_, _, _) | Found::Nothing => b"dual",
            Found::VacuousLambda(_, _) => b"ray unknown",
            Found::VacuousRay(_, _, _) => b"ray lambda",
        }
    }

    // What is read with one vector more.
    pub(crate) fn with_vector(self, head: Head, new: SideCert, old: SideCert, s: Sparse) -> Stage
        ensures { result ≡ stage_with head new old self s }
    {
        let found = match self {
            Found::Threshold(t) => Found::ThresholdUnknown(t, s),
            Found::ThresholdUnknown(t, unknown) => Found::ThresholdLambda(t, unknown, s),
            Found::ThresholdLambda(t, unknown, lambda) => {
                let body = Body::Threshold {
                    t,
                    unknown,
                    lambda,
                    dual: s,
                };
                return Stage::End(head.certificate(new, old, body));
            }
            Found::Nothing => {
                return Stage::End(head.certificate(new, old, Body::Nothing { dual: s }));
            }
            Found::Vacuous => Found::VacuousUnknown(s),
            Found::VacuousUnknown(unknown) => Found::VacuousLambda(unknown, s),
            Found::VacuousLambda(unknown, lambda) => Found::VacuousRay(unknown, lambda, s),
            Found::VacuousRay(unknown, lambda, ray_unknown) => {
                let body = Body::Vacuous {
                    unknown,
                    lambda,
                    ray_unknown,
                    ray_lambda: s,
                };
                return Stage::End(head.certificate(new, old, body));
            }
        };
        Stage::Main(head, new, old, found)
    }
}

impl Stage {
    /// The stage that a line leads to, with `None` exactly where no certificate's text has it there.
    pub(crate) fn step(self, alloc: Global, line: &[u8]) -> Result<Option<Stage>, AllocError>
        ensures { IfOk result (λ o. Steps self line.now o) }
    {
        match self {
            Stage::Start => Ok(start(line)),
            Stage::Whole(t) => floor(alloc, line, t),
            Stage::Version(claim) => Ok(version(line, claim)),
            Stage::Sizes(claim, number) => Ok(sizes(alloc, line, claim, number)),
            Stage::Cases(claim, degree, products) => Ok(cases(
                alloc, line, claim, degree, products,
            )),
            Stage::Heads(head) => heads(alloc, line, head),
            Stage::Opened(front) => open_side(alloc, line, front),
            Stage::Locations(front, done, last) => locations(alloc, line, front, done, last),
            Stage::Entries(front, families, done, last) => {
                entries(alloc, line, front, families, done, last)
            }
            Stage::Edges(front, families, keeps, done, live, last) => {
                edges(alloc, line, front, families, keeps, done, live, last)
            }
            Stage::Between(head, new) => Ok(between(line, head, new)),
            Stage::Closed(head, new, old) => Ok(main_line(line, head, new, old)),
            Stage::Main(head, new, old, found) => main_vector(alloc, line, head, new, old, found),
            Stage::End(c) => Ok(end(line, c)),
            Stage::Done(_c) => Ok(None),
        }
    }

    /// The certificate of the last stage, else the stage.
    pub(crate) fn certificate(self) -> Result<Certificate, Stage>
        ensures done { IfOk result (λ c. self ≡ Stage.Done c) }
        ensures under_way { IfErr result (λ _. (c : Whole) → ¬ (self ≡ Stage.Done c)) }
    {
        match self {
            Stage::Done(c) => Ok(c),
            other => Err(other),
        }
    }
}
