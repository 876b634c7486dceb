//! Laws of the texts of reports and certificates of transition faults: functions that do nothing, whose contracts are the laws.
ghost use Rattle.transition_report.specs.Laws.{OneTransitionCertificate, TransitionTextsTellReports};

/// At most one report has a given text.
pub fn transition_texts_tell_reports()
    ensures { TransitionTextsTellReports }
{}

/// Bytes are the certificate of one list of evidence at most.
pub fn one_transition_certificate()
    ensures { OneTransitionCertificate }
{}
