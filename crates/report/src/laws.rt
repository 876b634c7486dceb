//! The law of reports' texts: a function that does nothing, whose contract is the law.
ghost use Rattle.report.specs.Laws.{TextsTellReports};

/// At most one report has a given text.
pub fn texts_tell_reports()
    ensures { TextsTellReports }
{}
