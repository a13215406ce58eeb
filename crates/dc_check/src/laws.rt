//! What the clauses of a certificate show. Each function has no code: what it ensures is the law.
ghost use Rattle.dc_check.specs.Laws.{AcceptedFit, CertificatesSpeakOfRuns, ClausesShowFamilies};

/// Where clauses 1 to 6 hold, the atoms of each program are an inductive family, the lines tell
/// rightly what is live, and each state that a path reaches from an allowed input meets the atoms
/// of its location.
pub fn clauses_show_families()
    ensures { ClausesShowFamilies }
{}

/// So what is certified over these atoms bounds the difference of the costs of two finished runs on
/// each allowed input, and where every threshold is certified, no allowed input has a finished run
/// of both programs.
pub fn certificates_speak_of_runs()
    ensures { CertificatesSpeakOfRuns }
{}

/// Such atoms, cases and flags are of the sizes that the main problem asks for.
pub fn accepted_certificates_fit()
    ensures { AcceptedFit }
{}
