//! Reports, read and written again.
use case_text::{Pushed, Said, changed, show};
use report::{ReportFault, read_report, write_report};
use std::alloc::{AllocError, Global};

/// What is written of the report that was read.
fn written(alloc: Global, text: &[u8]) -> Result<Option<Vec<u8>>, AllocError> {
    let report = match read_report(alloc, text) {
        Ok(report) => report,
        Err(ReportFault::NotReport) => return Ok(None),
        Err(ReportFault::NoMemory) => return Err(AllocError),
    };
    match write_report(alloc, &report) {
        Ok(text) => Ok(Some(text)),
        Err(_) => Err(AllocError),
    }
}

/// `report TEXT`: the text of the report that was read.
pub fn push_report(to: &mut Said, text: &[u8]) -> Pushed {
    match written(to.alloc, text)? {
        Some(text) => show(to, &text),
        None => to.push("NotReport\n"),
    }
    Ok(())
}

/// `report-with TEXT OLD|NEW`: whether the text with this change is read, and is written as it was given.
pub fn push_changed(to: &mut Said, text: &[u8], change: &str) -> Pushed {
    let given = changed(to.alloc, text, change)?;
    match written(to.alloc, &given)? {
        Some(text) if text.as_slice() == given.as_slice() => to.push("as given\n"),
        Some(text) => show(to, &text),
        None => to.push("NotReport\n"),
    }
    Ok(())
}
