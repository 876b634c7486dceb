//! What a run is asked for, and what that asks of each class.
ghost use Rattle.std.specs.Prelude.{◌≡◌, ◌<◌, ◌+◌, ◌-◌, ◌^◌, ◌&&◌, ◌==◌, ℕ, cond, IfOk, length, map, slice_index, vec_len};
ghost use Rattle.std.specs.List.{All};
ghost use Rattle.run_files.specs.Runs.{count_true};
ghost use Rattle.run_files.specs.inner.Classes.{AreAskedClasses, AreWeights, is_zero};

use crate::spreading::unmarked_weights;
use cubes::Pattern;
use fault_collapse::Classes;
use netlist::Fault;
use std::alloc::{AllocError, Global};
use word_sim::unmarked;

/// How a run goes: at most so many chains, so many workers, at most so many closed ends a search, the seed of the bits that cubes leave open,
/// where fewer than all are enough how many in a hundred of the faults that are asked for are to be detected, so many rounds that make the
/// patterns fewer, and by how many patterns each fault is to be detected.
#[derive(Clone, Copy)]
pub struct RunPlan {
    pub chains: u32,
    pub workers: u32,
    pub limit: u32,
    pub seed: u64,
    pub percent: Option<u32>,
    pub rounds: u32,
    pub times: u32,
}

/// For each fault of the netlist whether it is asked for, and the patterns that the run begins with.
#[derive(Drop)]
pub struct Wanted {
    pub faults: Vec<bool>,
    pub first: Vec<Pattern>,
}

/// The classes of which a fault is asked for.
#[derive(Drop)]
pub(crate) struct AskedClasses {
    /// Marks each class of which none is.
    pub others: Vec<bool>,
    /// The representatives of those of which one is.
    pub faults: Vec<Fault>,
    /// How many faults of each of these are asked for.
    pub weights: Vec<u32>,
    /// How many faults are asked for.
    pub count: u32,
}

/// How many are asked for.
fn asked_count(faults: &[bool]) -> u32
    requires { length faults.now < 2 ^ 32 }
    ensures { result ≡ count_true faults.now }
{
    let mut count = 0u32;
    for asked in faults {
        count += *asked as u32;
    }
    count
}

/// Counts a fault of the class, where it is asked for.
fn count_fault(weights: &mut Vec<u32>, class: u32, asked: bool)
    requires class { class < vec_len weights.old }
    requires fits { slice_index weights.old.items class < 2 ^ 32 - 1 }
    ensures size { vec_len weights.new ≡ vec_len weights.old }
    ensures counted { (k : ℕ) → slice_index weights.new.items k ≡ cond (asked && (class == k)) 1 0 + slice_index weights.old.items k }
{
    weights[class as usize] += asked as u32;
}

/// How many faults of each class are asked for.
fn class_weights(alloc: Global, classes: &Classes, faults: &[bool]) -> Result<Vec<u32>, AllocError>
    requires size { (length faults.now ≡ length classes.now.numbers) × (length faults.now < 2 ^ 32) }
    requires within { All (λ class. class < length classes.now.representatives) classes.now.numbers }
    ensures { IfOk result (λ v. AreWeights classes.now faults.now v.items) }
{
    let mut weights = vec![in alloc; 0u32; classes.count() as usize]?;
    for i in 0..faults.len() {
        count_fault(&mut weights, classes.class_of(i as u32), faults[i]);
    }
    Ok(weights)
}

/// Marks the classes that weigh nothing.
fn weightless(alloc: Global, weights: &[u32]) -> Result<Vec<bool>, AllocError>
    ensures { IfOk result (λ v. v.items ≡ map is_zero weights.now) }
{
    let mut marks = Vec::with_capacity(alloc, weights.len())?;
    for weight in weights {
        marks.push(*weight == 0)?;
    }
    Ok(marks)
}

/// The classes of which one of these faults at least is asked for.
pub(crate) fn asked_classes(
    alloc: Global,
    classes: &Classes,
    faults: &[bool],
) -> Result<AskedClasses, AllocError>
    requires size { (length faults.now ≡ length classes.now.numbers) × (length faults.now < 2 ^ 32) }
    requires within { All (λ class. class < length classes.now.representatives) classes.now.numbers }
    ensures { IfOk result (AreAskedClasses classes.now faults.now) }
{
    let weights = class_weights(alloc, classes, faults)?;
    let others = weightless(alloc, &weights)?;
    Ok(AskedClasses {
        faults: unmarked(alloc, classes.representatives(), &others)?,
        weights: unmarked_weights(alloc, &weights, &others)?,
        others,
        count: asked_count(faults),
    })
}
