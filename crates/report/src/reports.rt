//! Reports.
ghost use Rattle.std.specs.Prelude.{◌≡◌};
ghost use Rattle.report.specs.Reports.{IsReport};

use crate::counts::ReportCounts;
use crate::fault_lines::FaultLines;
use crate::hold_lines::HoldLines;
use crate::times::Times;
use std::marker::Model;

/// The counts, coverage and efficiency in hundredths of a percent, how often faults are detected, the inputs that are held, and a line for each fault.
#[derive(Drop)]
pub struct Report {
    counts: ReportCounts,
    coverage: u128,
    efficiency: u128,
    times: Times,
    holds: HoldLines,
    lines: FaultLines,
}

impl Model for Report {
    ghost use Rattle.report.specs.Reports.{Report, IsReport};

    ghost Value = { Report };

    ghost view = { λ r. record { counts = r.counts; coverage = r.coverage; efficiency = r.efficiency; times = r.times; holds = r.holds; lines = r.lines } };

    ghost invariant = { λ r. IsReport (record { counts = r.counts; coverage = r.coverage; efficiency = r.efficiency; times = r.times; holds = r.holds; lines = r.lines }) };
}

impl Report {
    pub fn new(
        counts: ReportCounts,
        coverage: u128,
        efficiency: u128,
        times: Times,
        holds: HoldLines,
        lines: FaultLines,
    ) -> Report
        requires { IsReport (record { counts = counts; coverage = coverage; efficiency = efficiency; times = times; holds = holds; lines = lines }) }
        ensures { result ≡ record { counts = counts; coverage = coverage; efficiency = efficiency; times = times; holds = holds; lines = lines } }
    {
        Report {
            counts,
            coverage,
            efficiency,
            times,
            holds,
            lines,
        }
    }

    /// What every report is.
    pub fn sound(&self)
        ensures { IsReport self.now }
    {
        let _ = &self.counts;
    }

    pub fn counts(&self) -> ReportCounts
        ensures { result ≡ self.now.counts }
    {
        self.counts
    }

    pub fn coverage(&self) -> u128
        ensures { result ≡ self.now.coverage }
    {
        self.coverage
    }

    pub fn efficiency(&self) -> u128
        ensures { result ≡ self.now.efficiency }
    {
        self.efficiency
    }

    pub fn times(&self) -> &Times
        ensures { result.now ≡ self.now.times }
    {
        &self.times
    }

    pub fn holds(&self) -> &HoldLines
        ensures { result.now ≡ self.now.holds }
    {
        &self.holds
    }

    pub fn lines(&self) -> &FaultLines
        ensures { result.now ≡ self.now.lines }
    {
        &self.lines
    }
}
