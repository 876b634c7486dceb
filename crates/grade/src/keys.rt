//! When observed points are strobed, as numbers that have the order of strobes: by the cycle, and in a cycle by the output.
ghost use Rattle.std.specs.Prelude.{◌≡◌, ◌^◌, ◌<◌, IfOk, length, slice_index, slice_set};
ghost use Rattle.scan_insert.specs.Scanned.{AreChainsOf};
ghost use Rattle.observed_points.specs.Points.{ArePoints, points as points_of, point_of};
ghost use Rattle.grade.specs.inner.Keys.{AreLeastKeys, IsKeyOf, IsTimingOf, key_at, lesser, most_key};

use netlist::{Core, Netlist};
use observed_points::{Points, point_at};
use run_report::{Strobe, strobe_of};
use scan_insert::Chains;
use std::alloc::{AllocError, Global};

/// When what is observed of a design is strobed: its chains, its observed points, and for each signal the least key of those that read it.
#[derive(Drop)]
pub(crate) struct Timing<'a> {
    pub chains: &'a Chains,
    pub points: Points,
    pub keys: Vec<u64>,
}

/// A number for a strobe.
fn key_at(strobe: Strobe) -> u64
    requires { strobe.cycle < 2 ^ 31 }
    ensures key { result ≡ key_at strobe.cycle strobe.output }
    ensures small { result < most_key }
{
    strobe.cycle * 4294967296 + strobe.output as u64
}

/// The strobe of a number.
pub(crate) fn strobe_at(key: u64) -> Strobe
    ensures key { key ≡ key_at result.cycle result.output }
    ensures few { result.output < 2 ^ 32 }
{
    Strobe {
        cycle: key / 4294967296,
        output: (key % 4294967296) as u32,
    }
}

/// The key of an observed point: when it is strobed for the first pattern.
pub(crate) fn key_of(netlist: &Netlist, chains: &Chains, number: usize) -> u64
    requires chains { AreChainsOf netlist.now chains.now }
    requires within { number < length (points_of netlist.now) }
    ensures { IsKeyOf netlist.now chains.now (point_of netlist.now number) result }
{
    netlist.sound();
    let strobe = strobe_of(netlist, chains, 0, point_at(netlist, number));
    key_at(strobe)
}

fn lesser(one: u64, other: u64) -> u64
    ensures { result ≡ lesser one other }
{
    if other < one { other } else { one }
}

/// The least of the keys so far becomes no greater than one more.
fn lower(keys: &mut Vec<u64>, signal: usize, key: u64)
    requires { signal < length keys.old.items }
    ensures { keys.new.items ≡ slice_set keys.old.items signal (lesser (slice_index keys.old.items signal) key) }
{
    keys[signal] = lesser(keys[signal], key);
}

/// For each signal the least key of the points that read it, or the greatest number where none does.
fn least_keys(
    alloc: Global,
    core: &Core,
    chains: &Chains,
    points: &Points,
) -> Result<Vec<u64>, AllocError>
    requires chains { AreChainsOf core.now chains.now }
    requires points { ArePoints core.now points.now.seen.items points.now.first.items points.now.numbers.items }
    ensures { IfOk result (λ keys. AreLeastKeys core.now chains.now (length (points_of core.now)) keys.items) }
{
    let netlist = core.netlist();
    netlist.sound();
    let count = netlist.inputs().len() + netlist.definitions().len();
    let mut keys = vec![in alloc; u64::MAX; count]?;
    for number in 0..points.seen.len() {
        let key = key_of(netlist, chains, number);
        lower(&mut keys, points.seen[number].index(), key);
    }
    Ok(keys)
}

/// When what is observed of a design with these chains is strobed.
pub(crate) fn timing_of<'a>(
    alloc: Global,
    core: &Core,
    chains: &'a Chains,
) -> Result<Timing<'a>, AllocError>
    requires { AreChainsOf core.now chains.now }
    ensures timing { IfOk result (λ t. IsTimingOf core.now t) }
    ensures chains { IfOk result (λ t. t.chains.now ≡ chains.now) }
{
    let points = Points::of(alloc, core)?;
    let keys = least_keys(alloc, core, chains, &points)?;
    Ok(Timing {
        chains,
        points,
        keys,
    })
}
