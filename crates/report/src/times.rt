//! How often faults are detected.
ghost use Rattle.std.specs.Prelude.{◌≡◌, ◌↔◌, [], IsTrue};
ghost use Rattle.report.specs.Reports.{AreCounted};

use std::alloc::Global;
use std::marker::Model;

/// How many patterns detect each fault, where no more than a most are counted; the most is 0 where nothing is counted.
#[derive(Drop)]
pub struct Times {
    most: u64,
    of: Vec<u64>,
}

impl Model for Times {
    ghost use Rattle.report.specs.Reports.{Times};

    ghost Value = { Times };

    ghost view = { λ t. record { most = t.most; of = t.of.items } };
}

impl Times {
    /// Nothing is counted.
    pub fn none(alloc: Global) -> Times
        ensures { result ≡ record { most = 0; of = [] } }
    {
        Times {
            most: 0,
            of: Vec::new(alloc),
        }
    }

    /// These numbers, counted to this most.
    pub fn new(most: u64, of: Vec<u64>) -> Times
        ensures { result ≡ record { most = most; of = of.items } }
    {
        Times { most, of }
    }

    /// To how many each number is counted, and 0 where nothing is.
    pub fn most(&self) -> u64
        ensures { result ≡ self.now.most }
    {
        self.most
    }

    /// How many patterns detect each fault, in the order of faults.
    pub fn of(&self) -> &[u64]
        ensures { result.now ≡ self.now.of }
    {
        self.of.as_slice()
    }

    /// Whether a report can say so.
    pub(crate) fn are_counted(&self) -> bool
        ensures { IsTrue result ↔ AreCounted self.now }
    {
        let most = self.most;
        match most {
            0 => self.of.is_empty(),
            1 => false,
            _ => self.of.iter().all(|number| *number <= most),
        }
    }
}
