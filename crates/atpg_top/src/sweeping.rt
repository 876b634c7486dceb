//! `sweep`: a run of a sample netlist, whose test is read back and played.
//!
//! No file is read or written. The texts of a run are good, so it is proved, and no answer, that the test is read back and that
//! the scanned netlist passes it.
ghost use Rattle.std.specs.Prelude.{◌≡◌, ◌≤◌, ◌++◌, [], IfOk, None, OnOk, length};
ghost use Rattle.plain_text.specs.Limits.{fewest_gates, most_gates};
ghost use Rattle.commands.specs.Rows.{CommandRow};
ghost use Rattle.commands.specs.Worked.{IsWorked};
ghost use Rattle.commands.specs.World.{world};
ghost use Rattle.net_gen.specs.Samples.{sample, words_from_seed};
ghost use Rattle.netlist.specs.Designs.{IsDesign};
ghost use Rattle.scan_insert.specs.Scanned.{scanned_of};
ghost use Rattle.scan_play.specs.Playing.{PlaysAs};
ghost use Rattle.scan_play.specs.declared.played.Played.{Played as PlayedOf};
ghost use Rattle.scan_play.specs.declared.played.Played.TheVariants.{Passes};
ghost use Rattle.good_files.specs.ScanOff.{design_chains};
ghost use Rattle.stil_read.specs.Reading.{StandsFor};
ghost use Rattle.statement.specs.Tests.{vectors_in};
ghost use Rattle.stil_vectors.specs.Fitting.{FitsNetlist};
ghost use Rattle.statement.specs.Stils.{StilFile as File};
ghost use Rattle.atpg_top.specs.Commands.{sweep_due};
ghost use Rattle.test_commands.specs.Plays.{IsPlay};
ghost use Rattle.atpg_top.specs.Sweeps.{IsPlayedBack, IsSweep, IsSweepRun, number_line, sweep_chains, sweep_text};
ghost use Rattle.atpg_top.specs.inner.Swept.{IsPassedText, IsPlayedText, IsSweepShown, outcomes_text, sizes_text, test_text};

use crate::cores::core_with;
use asked_run::{Task, all_faults, by_trees};
use command_line::{EngineName, RunOptions, SearchNumbers, TreeEngine};
use command_steps::{Refusal, core_of, push_count, scanned_of};
use commands::{Ending, Finding, Product, Stop, deliver};
use net_gen::{generate, samples_are_designs};
use netlist::{Core, Holds, Netlist, NoMemory};
use outside::{Gate, Shelf, Sink};
use report::{Report, ReportCounts};
use run_files::{RunFiles, Wanted};
use scan_play::{Played, vectors_decide};
use std::alloc::{AllocError, Global};
use std::sync::Wait;
use std::thread::Threads;
use stil_patterns::laws::{file_vectors, files_fit};
use stil_read::laws::at_most_one;
use stil_read::{StilFault, read_stil};
use stil_write::StilFile;
use test_commands::answer_of;

const CHAINS: u32 = 1;

const LIMIT: u32 = 100;

const ROUNDS: u32 = 3;

/// The netlist of a seed, with so many gates.
fn sample_core(alloc: Global, seed: u64, gates: u32) -> Result<Core, NoMemory>
    requires least { fewest_gates ≤ gates }
    requires most { gates ≤ most_gates }
    ensures sample { IfOk result (λ core. core ≡ sample gates (words_from_seed seed)) }
    ensures design { IfOk result IsDesign }
{
    samples_are_designs();
    let netlist = generate(alloc, seed, gates)?;
    core_with(alloc, netlist)
}

/// The texts of a run by one worker.
fn run_sample<R: Threads + Wait + Sync, G: Gate + Sync>(
    rt: &R,
    alloc: Global,
    core: &Core,
    seed: u64,
    stage: &G,
) -> Result<RunFiles, NoMemory>
    requires { IsDesign core.now }
    ensures { IfOk result (IsSweepRun core.now) }
{
    let numbers = SearchNumbers {
        chains: CHAINS,
        workers: 1,
        limit: LIMIT,
        seed,
    };
    let engine = TreeEngine::Podem;
    let options = RunOptions {
        engine: EngineName::Trees(engine),
        numbers,
        percent: None,
        rounds: ROUNDS,
        times: 1,
    };
    let holds = Holds::none(alloc, core)?;
    let faults = all_faults(alloc, core.netlist())?;
    let first = Vec::new(alloc);
    let wanted = Wanted { faults, first };
    let task = Task {
        rt,
        alloc,
        core,
        holds: &holds,
        stage,
    };
    by_trees(&task, engine, options, wanted)
}

/// The scanned netlist of a design, in one chain.
fn scanned_core(alloc: Global, netlist: &Netlist) -> Result<Core, NoMemory>
    requires { IsDesign netlist.now }
    ensures { IfOk result (λ core. core ≡ scanned_of netlist.now (design_chains netlist.now sweep_chains)) }
{
    let scanned = scanned_of(alloc, netlist, CHAINS)?;
    let core = core_of(alloc, &scanned);
    drop(scanned);
    core
}

/// The file that the text stands for.
fn read_back(alloc: Global, text: &[u8]) -> Result<StilFile, NoMemory>
    requires { (file : File) × StandsFor text.now file }
    ensures { IfOk result (StandsFor text.now) }
{
    match read_stil(alloc, text) {
        Ok(file) => Ok(file),
        Err(StilFault::NotStil) => unreachable!(),
        Err(StilFault::NoMemory) => Err(NoMemory),
    }
}

/// Plays a file on a netlist that passes it.
fn play_passing(alloc: Global, core: &Core, file: &StilFile) -> Result<(), NoMemory>
    requires fits { FitsNetlist file.now core.now }
    requires passes { (answer : PlayedOf) → PlaysAs core.now None (vectors_in file.now) answer → answer ≡ Passes }
    ensures { OnOk result (IsPlay core.now None (vectors_in file.now) Passes) }
{
    let answer = answer_of(alloc, core, None, file)?;
    match answer {
        Played::Passes => Ok(()),
        _ => unreachable!(),
    }
}

/// Reads the text of a test that the netlist passes, and plays it.
fn play_text(alloc: Global, core: &Core, text: &[u8]) -> Result<(), NoMemory>
    requires { IsPassedText core.now text.now }
    ensures { OnOk result (IsPlayedText core.now text.now) }
{
    let file = read_back(alloc, text)?;
    let played = play_passing(alloc, core, &file);
    drop(file);
    played
}

/// Reads the test of a run back, and plays it.
fn play_back(alloc: Global, core: &Core, made: &RunFiles) -> Result<(), NoMemory>
    requires design { IsDesign core.now }
    requires run { IsSweepRun core.now made.now }
    ensures { OnOk result (IsPlayedBack core.now made.now.stil.items) }
{
    let netlist = core.netlist();
    netlist.sound();
    at_most_one();
    files_fit();
    file_vectors();
    vectors_decide();
    let scanned = scanned_core(alloc, netlist)?;
    let played = play_text(alloc, &scanned, made.stil.as_slice());
    drop(scanned);
    played
}

/// Adds a line with a word and a number.
fn push_line(text: &mut Vec<u8>, word: &[u8], number: u64) -> Result<(), AllocError>
    ensures { OnOk result (text.new.items ≡ text.old.items ++ number_line word.now number) }
{
    push_count(text, word, number)?;
    text.extend_from_slice(b"\n")?;
    Ok(())
}

/// Adds the lines on the netlist and its faults.
fn push_sizes(text: &mut Vec<u8>, counts: &ReportCounts) -> Result<(), AllocError>
    ensures { OnOk result (text.new.items ≡ text.old.items ++ sizes_text counts.now) }
{
    push_line(text, b"gates ", counts.gates)?;
    push_line(text, b"cells ", counts.cells)?;
    push_line(text, b"faults ", counts.faults)?;
    push_line(text, b"classes ", counts.classes)
}

/// Adds the lines on what became of the classes.
fn push_outcomes(text: &mut Vec<u8>, counts: &ReportCounts) -> Result<(), AllocError>
    ensures { OnOk result (text.new.items ≡ text.old.items ++ outcomes_text counts.now) }
{
    push_line(text, b"detected ", counts.detected)?;
    push_line(text, b"redundant ", counts.redundant)?;
    push_line(text, b"aborted ", counts.aborted)
}

/// Adds the lines on a test that passes.
fn push_test(text: &mut Vec<u8>, counts: &ReportCounts) -> Result<(), AllocError>
    ensures { OnOk result (text.new.items ≡ text.old.items ++ test_text counts.now) }
{
    push_line(text, b"patterns ", counts.patterns)?;
    push_line(text, b"cycles ", counts.cycles)?;
    text.extend_from_slice(b"play ok\n")?;
    Ok(())
}

/// What is shown of a run whose test passes.
fn text_of(alloc: Global, said: &Report) -> Result<Vec<u8>, AllocError>
    ensures { IfOk result (λ t. t.items ≡ sweep_text said.now) }
{
    let counts = said.counts();
    let mut text = Vec::new(alloc);
    push_sizes(&mut text, &counts)?;
    push_outcomes(&mut text, &counts)?;
    push_test(&mut text, &counts)?;
    Ok(text)
}

/// What is shown of a run, once its test has been played.
fn shown_of(alloc: Global, core: &Core, made: &RunFiles) -> Result<Vec<u8>, NoMemory>
    requires design { IsDesign core.now }
    requires run { IsSweepRun core.now made.now }
    ensures { IfOk result (λ text. IsSweep core.now made.now × (text.items ≡ sweep_text made.now.said)) }
{
    play_back(alloc, core, made)?;
    match text_of(alloc, &made.said) {
        Ok(text) => Ok(text),
        Err(_) => Err(NoMemory),
    }
}

/// The same where the run may have been refused memory. Its files are let go as a whole.
fn shown_by(
    alloc: Global,
    core: &Core,
    made: Result<RunFiles, NoMemory>,
) -> Result<Vec<u8>, NoMemory>
    requires design { IsDesign core.now }
    requires run { IfOk made (IsSweepRun core.now) }
    ensures { IfOk result (IsSweepShown core.now) }
{
    match made {
        Ok(made) => {
            let shown = shown_of(alloc, core, &made);
            drop(made);
            shown
        }
        Err(error) => Err(error),
    }
}

/// Runs the netlist of a seed, plays its test, and says how it went.
fn swept<R: Threads + Wait + Sync, G: Gate + Sync>(
    rt: &R,
    alloc: Global,
    seed: u64,
    gates: u32,
    stage: &G,
) -> Result<Vec<u8>, NoMemory>
    requires least { fewest_gates ≤ gates }
    requires most { gates ≤ most_gates }
    ensures { IfOk result (IsSweepShown (sample gates (words_from_seed seed))) }
{
    let core = sample_core(alloc, seed, gates)?;
    let made = run_sample(rt, alloc, &core, seed, stage);
    let shown = shown_by(alloc, &core, made);
    drop(core);
    shown
}

/// The work of `sweep`, which waits for its worker.
fn work<R: Threads + Wait + Sync, G: Gate + Sync>(
    rt: &R,
    alloc: Global,
    seed: u64,
    gates: u32,
    stage: &G,
) -> Result<Product, Stop<Refusal>>
    requires least { fewest_gates ≤ gates }
    requires most { gates ≤ most_gates }
    ensures { IsWorked (sweep_due seed gates []) 0 result }
{
    match swept(rt, alloc, seed, gates, stage) {
        Ok(shown) => Ok(Product {
            texts: Vec::new(alloc),
            shown,
            finding: Finding::Fine,
        }),
        Err(_) => Err(Stop::NoMemory),
    }
}

/// Runs the netlist of a seed, with so many gates, and shows the numbers of the run.
pub fn sweep_sample<'a, R: Threads + Wait + Sync, S: Shelf, T: Sink, G: Gate + Sync>(
    rt: &R,
    alloc: Global,
    shelf: &mut S,
    out: &mut T,
    stage: &G,
    seed: u64,
    gates: u32,
) -> Ending<'a, Refusal>
    requires least { fewest_gates ≤ gates }
    requires most { gates ≤ most_gates }
    ensures { CommandRow [] [] (sweep_due seed gates)
        (world (S.files shelf.old) (S.failures shelf.old) (T.taken out.old) (T.failures out.old))
        (world (S.files shelf.new) (S.failures shelf.new) (T.taken out.new) (T.failures out.new)) result }
{
    let worked = work(rt, alloc, seed, gates, stage);
    deliver(alloc, shelf, out, &[], worked)
}
