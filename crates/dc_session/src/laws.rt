//! Laws of analyses. Each function has no code: what it ensures is the law.
ghost use Rattle.dc_session.specs.Laws.{AreOfGreatest, AsksOne, CertificatesExclude, HasAnalysis, MadeRepeats};
ghost use Rattle.dc_session.specs.Laws.{OneAnalysis, OneCertificate, OneMade, OneRefusal, ThroughOrRefused};

/// Two programs whose counts are within their limits have one analysis: one list of problems with
/// their sites. Its printed atoms are those of the greatest families, and its flags tell which
/// duties over these are owed.
pub fn analyses_are_one()
    ensures some { HasAnalysis }
    ensures one { OneAnalysis }
    ensures asked { AsksOne }
    ensures greatest { AreOfGreatest }
{}

/// Of two programs, either every problem comes to its end within all limits, or there is a first
/// refusal; there is no second one.
pub fn refusals_are_one()
    ensures some { ThroughOrRefused }
    ensures one { OneRefusal }
{}

/// The outcomes give one certificate. It has the analysis' atoms, and says rightly what is live.
pub fn certificates_are_one()
    ensures one { OneMade }
    ensures repeats { MadeRepeats }
{}

/// So there is one answer but want of memory: one certificate, with which the tableau is left at
/// one table, or the first refusal.
pub fn answers_are_one()
    ensures certificate { OneCertificate }
    ensures excludes { CertificatesExclude }
{}
