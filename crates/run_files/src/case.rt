//! What the texts of a run are about.
use crate::asked::RunPlan;
use netlist::{Core, Holds, Netlist};
use run_report::Subject;
use scan_insert::Chains;
use std::alloc::Global;

/// A design with its held inputs and its chains, its faults and which of them are asked for, and the plan.
#[derive(Clone, Copy)]
pub(crate) struct Case<'a> {
    pub alloc: Global,
    pub core: &'a Core,
    pub netlist: &'a Netlist,
    pub holds: &'a Holds,
    pub plan: RunPlan,
    pub chains: &'a Chains,
    pub subject: &'a Subject,
    pub asked: &'a [bool],
}
