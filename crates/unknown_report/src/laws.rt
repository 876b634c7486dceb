//! The law of the texts of reports: a function that does nothing, whose contract is the law.
ghost use Rattle.unknown_report.specs.Laws.{UnknownTextsTellReports};

/// At most one report has a given text.
pub fn unknown_texts_tell_reports()
    ensures { UnknownTextsTellReports }
{}
