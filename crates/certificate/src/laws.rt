//! Laws of certificates: functions that do nothing, whose contracts are the laws.
ghost use Rattle.certificate.specs.Laws.{FirstLineTells, OneCertificate};

/// Bytes are the certificate of one list of evidence at most.
pub fn one_certificate()
    ensures { OneCertificate }
{}

/// The first line alone tells whether there are refutations.
pub fn first_line_tells()
    ensures { FirstLineTells }
{}
