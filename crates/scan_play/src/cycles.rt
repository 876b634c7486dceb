//! Cycles of a tester, and vectors: lists of them.
ghost use Rattle.std.specs.Prelude.{◌≡◌, ◌+◌, ◌*◌, ◌≤◌, ◌<◌, ◌++◌, [], ◌∷◌, length, map, IfOk, OnOk};
ghost use Rattle.statement.specs.Values.{known};

use netlist::Tri;
use std::alloc::{AllocError, Global};
use std::marker::Model;
use tri::known;

/// A bit for each input, a strobe for each output, and whether the clock has a pulse.
#[derive(Drop)]
pub struct Cycle {
    pub drive: Vec<bool>,
    pub strobe: Vec<Tri>,
    pub pulse: bool,
}

impl Model for Cycle {
    ghost use Rattle.statement.specs.Runs.{Cycle};

    ghost Value = { Cycle };

    ghost view = { λ c. record { drive = c.drive.items; strobe = c.strobe.items; pulse = c.pulse } };
}

/// Cycles one behind the other, in which all inputs but the last few keep their bits, and all outputs but as many their strobes.
#[derive(Drop)]
pub struct Burst {
    /// The bits of the inputs that keep them, and so the strobes and the pulse.
    pub drive: Vec<bool>,
    pub strobe: Vec<Tri>,
    pub pulse: bool,
    /// How many inputs and outputs change.
    pub width: usize,
    /// Their bits and strobes, cycle by cycle.
    pub ins: Vec<bool>,
    pub outs: Vec<Tri>,
    pub count: usize,
    pub ghost ins_enough: { count * width ≤ length ins.items },
    pub ghost outs_enough: { count * width ≤ length outs.items },
}

/// A list of cycles.
#[derive(Drop)]
pub struct Vectors {
    bursts: Vec<Burst>,
}

impl Model for Vectors {
    ghost use Rattle.std.specs.Prelude.{List};
    ghost use Rattle.statement.specs.Runs.{Cycle};

    ghost Value = { List Cycle };

    ghost use Rattle.scan_play.specs.Bursts.{all_cycles};

    ghost view = { λ v. all_cycles v.bursts.items };
}

impl Vectors {
    ghost use Rattle.scan_play.specs.Bursts.{all_cycles, cycles_of};

    pub fn new(bursts: Vec<Burst>) -> Vectors
        ensures { result ≡ all_cycles bursts.items }
    {
        Vectors { bursts }
    }

    pub fn bursts(&self) -> &[Burst]
        ensures { self.now ≡ all_cycles result.now }
    {
        &self.bursts
    }
}

/// Adds these bits as values.
pub fn push_known(bits: &[bool], values: &mut Vec<Tri>) -> Result<(), AllocError>
    ensures { OnOk result (values.new.items ≡ values.old.items ++ map known bits.now) }
{
    for bit in bits {
        values.push(known(*bit))?;
    }
    Ok(())
}

/// Strobes for these bits.
pub fn strobes_of(alloc: Global, bits: &[bool]) -> Result<Vec<Tri>, AllocError>
    ensures strobes { IfOk result (λ v. v.items ≡ map known bits.now) }
    ensures size { IfOk result (λ v. length v.items ≡ length bits.now) }
{
    let mut strobes = Vec::new(alloc);
    push_known(bits, &mut strobes)?;
    Ok(strobes)
}

impl Burst {
    ghost use Rattle.scan_play.specs.Bursts.{cycle_of};

    /// What the inputs are driven with in a cycle.
    pub(crate) fn read_drive(&self, t: usize, drive: &mut Vec<Tri>) -> Result<(), AllocError>
        requires { t < self.now.count }
        ensures { OnOk result (drive.new.items ≡ map known (cycle_of self.now t).drive) }
    {
        drive.clear();
        push_known(&self.drive, drive)?;
        let start = t * self.width;
        push_known(&self.ins[start..start + self.width], drive)?;
        Ok(())
    }

    /// What the outputs are strobed for in a cycle.
    pub fn read_strobe(&self, t: usize, strobe: &mut Vec<Tri>) -> Result<(), AllocError>
        requires { t < self.now.count }
        ensures { OnOk result (strobe.new.items ≡ (cycle_of self.now t).strobe) }
    {
        strobe.clear();
        strobe.extend_from_slice(&self.strobe)?;
        let start = t * self.width;
        strobe.extend_from_slice(&self.outs[start..start + self.width])?;
        Ok(())
    }

    /// One cycle written out, for who wants it by itself: a player reads the burst.
    pub fn cycle(&self, alloc: Global, t: usize) -> Result<Cycle, AllocError>
        requires { t < self.now.count }
        ensures { IfOk result (λ c. c ≡ cycle_of self.now t) }
    {
        let start = t * self.width;
        let mut drive = Vec::from_slice(alloc, &self.drive)?;
        drive.extend_from_slice(&self.ins[start..start + self.width])?;
        let mut strobe = Vec::new(alloc);
        self.read_strobe(t, &mut strobe)?;
        Ok(Cycle {
            drive,
            strobe,
            pulse: self.pulse,
        })
    }
}
