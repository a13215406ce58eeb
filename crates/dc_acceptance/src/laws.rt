//! Laws of the certificate that an analysis makes. Each function has no code: what it ensures is
//! the law.
ghost use Rattle.dc_acceptance.specs.Laws.{AcceptedAreTold, FaultsAreFolds, MadeAreCertificates, MadeAreNarrow};
ghost use Rattle.dc_acceptance.specs.Laws.{MadeAreTrue, MadeHaveSystems};

/// The certificate is within the ranges that the checker asks for, and the systems that it speaks
/// of are those of the analysis.
pub fn made_are_certificates()
    ensures ranges { MadeAreCertificates }
    ensures systems { MadeHaveSystems }
{}

/// The checker finds no count past its limit in it, and no clause false.
pub fn made_are_accepted()
    ensures narrow { MadeAreNarrow }
    ensures no_false { MadeAreTrue }
{}

/// So what the checker answers is an answer of the analysis: the certificate, or the first refusal.
pub fn checks_are_answers()
    ensures certificate { AcceptedAreTold }
    ensures fault { FaultsAreFolds }
{}
