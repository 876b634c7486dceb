//! Observed points by number: the outputs in order, then the cells.
ghost use Rattle.std.specs.Prelude.{◌≡◌, ◌++◌, ◌+◌, ◌<◌, ◌≤◌, ◌^◌, ℕ, length, map, slice_index, IfOk, OnOk, MatchOption};
ghost use Rattle.std.specs.List.{All};
ghost use Rattle.netlist.specs.Conditions.{IsSound};
ghost use Rattle.netlist.specs.Lines.{IsLineOf};
ghost use Rattle.statement.specs.Netlists.{Definition as Equation, cells, signals};
ghost use Rattle.events.specs.Stuck.{IsObservedOnly};
ghost use Rattle.observed_points.specs.Points.{AreCellPoints, AreFirst, ArePoints, IsReadAt, point_of, points, watched};

use netlist::{Core, Line, Netlist, Point, SignalId};
use std::alloc::{AllocError, Global};

/// What is kept of a netlist's points.
#[derive(Drop)]
pub struct Points {
    /// The signal that each point reads.
    pub seen: Vec<SignalId>,
    /// For each signal the first point that reads it, or the count of points.
    pub first: Vec<u32>,
    /// For each cell its number as a point, and for every other signal the count of points.
    pub numbers: Vec<u32>,
}

/// Adds the signals at the cells' pins.
fn push_pins(netlist: &Netlist, seen: &mut Vec<SignalId>) -> Result<(), AllocError>
    requires { IsSound netlist.now }
    ensures { OnOk result (seen.new.items ≡ seen.old.items ++ map (λ (d : Equation). slice_index d.pins 0) (cells netlist.now)) }
{
    for cell in netlist.cells() {
        let pin = netlist.definition(*cell).pins()[0];
        seen.push(pin)?;
    }
    Ok(())
}

/// The signal that each point reads.
fn seen_of(alloc: Global, netlist: &Netlist) -> Result<Vec<SignalId>, AllocError>
    ensures { IfOk result (λ v. v.items ≡ watched netlist.now) }
{
    netlist.sound();
    let mut seen = Vec::from_slice(alloc, netlist.outputs())?;
    push_pins(netlist, &mut seen)?;
    Ok(seen)
}

/// The first point that reads each signal.
fn first_of(alloc: Global, seen: &[SignalId], count: usize) -> Result<Vec<u32>, AllocError>
    requires within { All (λ x. x < count) seen.now }
    requires few { length seen.now < 2 ^ 32 }
    ensures { IfOk result (λ v. AreFirst seen.now count 0 v.items) }
{
    let mut first = vec![in alloc; seen.len() as u32; count]?;
    for k in (0..seen.len()).rev() {
        first[seen[k].index()] = k as u32;
    }
    Ok(first)
}

/// The number of each cell as a point.
fn numbers_of(alloc: Global, netlist: &Netlist) -> Result<Vec<u32>, AllocError>
    requires few { length (points netlist.now) < 2 ^ 32 }
    ensures { IfOk result (λ v. AreCellPoints netlist.now v.items (length (cells netlist.now))) }
{
    netlist.sound();
    let count = netlist.inputs().len() + netlist.definitions().len();
    let ids = netlist.cells();
    let outputs = netlist.outputs().len();
    let mut numbers = vec![in alloc; (outputs + ids.len()) as u32; count]?;
    for j in 0..ids.len() {
        numbers[ids[j].index()] = (outputs + j) as u32;
    }
    Ok(numbers)
}

impl Points {
    /// The points of a netlist.
    pub fn of(alloc: Global, core: &Core) -> Result<Points, AllocError>
        ensures { IfOk result (λ p. ArePoints core.now p.seen.items p.first.items p.numbers.items) }
    {
        let netlist = core.netlist();
        netlist.sound();
        let count = netlist.inputs().len() + netlist.definitions().len();
        let seen = seen_of(alloc, netlist)?;
        let first = first_of(alloc, &seen, count)?;
        let numbers = numbers_of(alloc, netlist)?;
        Ok(Points {
            seen,
            first,
            numbers,
        })
    }

    /// The point that alone reads a line; none where the line enters an equation.
    pub fn sole(&self, netlist: &Netlist, line: &Line) -> Option<u32>
        requires points { ArePoints netlist.now self.now.seen.items self.now.first.items self.now.numbers.items }
        requires line { IsLineOf netlist.now line.now }
        ensures { MatchOption result (¬ IsObservedOnly netlist.now line.now) (IsReadAt netlist.now line.now) }
    {
        netlist.sound();
        match line {
            Line::Stem(_) => None,
            Line::Out(y) => Some(self.first[y.index()]),
            Line::Pin(z, _) => {
                let number = self.numbers[z.index()];
                if (number as usize) < self.seen.len() {
                    Some(number)
                } else {
                    None
                }
            }
        }
    }
}

/// The point of a number: outputs in order, and then cells.
pub fn point_at(netlist: &Netlist, number: usize) -> Point
    requires { number < 2 ^ 32 }
    ensures { result ≡ point_of netlist.now number }
{
    let outputs = netlist.outputs().len();
    if number < outputs {
        Point::Output(number as u32)
    } else {
        Point::Cell((number - outputs) as u32)
    }
}
