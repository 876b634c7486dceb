//! What `run` is asked for: a design, its held inputs, the faults that a list names, and the patterns of a STIL file.
ghost use Rattle.std.specs.Prelude.{◌≡◌, ◌≤◌, ◌<◌, ◌^◌, IfOk, IfSome, None, Some, length, map, option_map, true};
ghost use Rattle.std.specs.List.{All};
ghost use Rattle.netlist.specs.Designs.{IsDesign};
ghost use Rattle.netlist.specs.Holds.{AreHoldsOf};
ghost use Rattle.cubes.specs.Cubes.{IsPatternOf};
ghost use Rattle.statement.specs.Faults.{universe_of};
ghost use Rattle.commands.specs.Contents.{most_bytes};
ghost use Rattle.commands.specs.Names.{texts_of};
ghost use Rattle.command_line.specs.CommandLine.{hold_of};
ghost use Rattle.asked_run.specs.Asked.{all_faults, chains_of_file, first_patterns, marked_faults, run_read, IsWanted};
ghost use Rattle.command_steps.specs.Answers.{AnswersList};
ghost use Rattle.asked_run.specs.inner.Asking.{HaveCount, IsReady, ReadsHeld, ReadsTexts, ReadsWanted, applied_step, run_texts_of};

use bench_text::Names;
use command_line::Held;
use command_steps::{Refusal, faults_of, fitting, holds_of, netlist_of, stil_of};
use commands::Stop;
use cubes::Pattern;
use fault_marks::{MarksRefusal, read_marks};
use fault_universe::FaultSet;
use netlist::{Core, Holds, Netlist, NoMemory};
use run_files::Wanted;
use scan_insert::{Chains, insert, stitch};
use std::alloc::{AllocError, Global};
use stil_patterns::applied_patterns;
use stil_read::laws::items_take_bytes;
use stil_write::StilFile;

/// A design whose faults are searched, its held inputs, and what is asked for.
#[derive(Drop)]
pub(crate) struct RunCase {
    pub core: Core,
    pub holds: Holds,
    pub wanted: Wanted,
}

/// The texts that a run has read: the netlist's, and where they are read that of a list of faults and that of a STIL file.
#[derive(Clone, Copy)]
struct RunTexts<'a> {
    net: &'a [u8],
    list: Option<&'a [u8]>,
    stil: Option<&'a [u8]>,
}

/// Which text is which, by the files that the words name.
fn run_texts<'a>(texts: &'a [Vec<u8>], list: Option<&str>, first: Option<&str>) -> RunTexts<'a>
    requires { HaveCount None (option_map (λ t. t.now) list) (option_map (λ t. t.now) first) (length texts.now) }
    ensures { run_read (option_map (λ t. t.now) list.entry) (option_map (λ t. t.now) first.entry) (texts_of texts.entry.now) ≡ Some (run_texts_of result) }
{
    let net = texts[0].as_slice();
    match (list, first) {
        (None, None) => RunTexts {
            net,
            list: None,
            stil: None,
        },
        (Some(_), None) => RunTexts {
            net,
            list: Some(texts[1].as_slice()),
            stil: None,
        },
        (None, Some(_)) => RunTexts {
            net,
            list: None,
            stil: Some(texts[1].as_slice()),
        },
        (Some(_), Some(_)) => RunTexts {
            net,
            list: Some(texts[1].as_slice()),
            stil: Some(texts[2].as_slice()),
        },
    }
}

/// The marks of a list that names all faults.
pub fn all_faults(alloc: Global, netlist: &Netlist) -> Result<Vec<bool>, NoMemory>
    requires { IsDesign netlist.now }
    ensures { IfOk result (λ marks. marks.items ≡ all_faults netlist.now) }
{
    let faults = faults_of(alloc, netlist)?;
    let marks = vec![in alloc; true; faults.len() as usize]?;
    Ok(marks)
}

/// The marks of the faults that a list names.
fn listed_faults(alloc: Global, netlist: &Netlist, text: &[u8]) -> Result<Vec<bool>, Stop<Refusal>>
    requires { IsDesign netlist.now }
    ensures { AnswersList (marked_faults netlist.now (Some text.now)) result }
{
    let Ok(faults) = faults_of(alloc, netlist) else {
        return Err(Stop::NoMemory);
    };
    match read_marks(alloc, netlist, &faults, text) {
        Ok(marks) => Ok(marks),
        Err(MarksRefusal::NotFault(stranger)) => {
            Err(Stop::Refused(Refusal::NoFaultAt(stranger.number)))
        }
        Err(MarksRefusal::NoMemory) => Err(Stop::NoMemory),
    }
}

/// The marks of the faults that are asked for: those that the list names, or all where there is none.
fn marks_of(
    alloc: Global,
    netlist: &Netlist,
    list: Option<&[u8]>,
) -> Result<Vec<bool>, Stop<Refusal>>
    requires { IsDesign netlist.now }
    ensures { AnswersList (marked_faults netlist.now (option_map (λ t. t.now) list.entry)) result }
{
    match list {
        Some(text) => listed_faults(alloc, netlist, text),
        None => match all_faults(alloc, netlist) {
            Ok(marks) => Ok(marks),
            Err(_) => Err(Stop::NoMemory),
        },
    }
}

/// The chains of a design, as many as the file has.
fn chains_of_file(alloc: Global, netlist: &Netlist, file: &StilFile) -> Result<Chains, NoMemory>
    requires { IsDesign netlist.now }
    ensures { IfOk result (λ chains. chains ≡ chains_of_file netlist.now file.now) }
{
    netlist.sound();
    let cells = netlist.cells();
    let asked = file.chains().len().min(cells.len()).max(1);
    stitch(alloc, cells, asked as u32)
}

/// What a file applies of patterns that obey the held inputs, if it fits the design.
fn applied_by(
    alloc: Global,
    netlist: &Netlist,
    holds: &Holds,
    file: &StilFile,
) -> Result<Vec<Pattern>, Stop<Refusal>>
    requires design { IsDesign netlist.now }
    requires held { AreHoldsOf netlist.now holds.now }
    ensures applied { AnswersList (applied_step netlist.now holds.now file.now) result }
    ensures obey { IfOk result (λ patterns. All (IsPatternOf netlist.now holds.now) patterns.items) }
{
    let chains = match chains_of_file(alloc, netlist, file) {
        Ok(chains) => chains,
        Err(_) => return Err(Stop::NoMemory),
    };
    let scanned = match insert(alloc, netlist, &chains) {
        Ok(scanned) => scanned,
        Err(_) => return Err(Stop::NoMemory),
    };
    let fits = fitting(alloc, file, scanned.netlist());
    drop(scanned);
    match fits {
        Ok(()) => match applied_patterns(alloc, netlist, &chains, holds, file) {
            Ok(patterns) => Ok(patterns),
            Err(_) => Err(Stop::NoMemory),
        },
        Err(stop) => Err(stop),
    }
}

/// The patterns that come first: those of the STIL file, or none where there is none.
fn first_of(
    alloc: Global,
    netlist: &Netlist,
    holds: &Holds,
    stil: Option<&[u8]>,
) -> Result<Vec<Pattern>, Stop<Refusal>>
    requires design { IsDesign netlist.now }
    requires held { AreHoldsOf netlist.now holds.now }
    requires short { IfSome stil (λ text. length text.now ≤ most_bytes) }
    ensures first { AnswersList (first_patterns netlist.now holds.now (option_map (λ t. t.now) stil.entry)) result }
    ensures obey { IfOk result (λ patterns. All (IsPatternOf netlist.now holds.now) patterns.items) }
    ensures few { IfOk result (λ patterns. length patterns.items < 2 ^ 27) }
{
    items_take_bytes();
    match stil {
        Some(text) => match stil_of(alloc, text) {
            Ok(file) => applied_by(alloc, netlist, holds, &file),
            Err(stop) => Err(stop),
        },
        None => Ok(Vec::new(alloc)),
    }
}

/// The faults and the first patterns that the texts name.
fn wanted_of(
    alloc: Global,
    netlist: &Netlist,
    holds: &Holds,
    list: Option<&[u8]>,
    stil: Option<&[u8]>,
) -> Result<Wanted, Stop<Refusal>>
    requires design { IsDesign netlist.now }
    requires held { AreHoldsOf netlist.now holds.now }
    requires short { IfSome stil (λ text. length text.now ≤ most_bytes) }
    ensures reads { ReadsWanted netlist.now holds.now (option_map (λ t. t.now) list.entry) (option_map (λ t. t.now) stil.entry) result }
    ensures wanted { IfOk result (IsWanted netlist.now holds.now) }
{
    let faults = match marks_of(alloc, netlist, list) {
        Ok(faults) => faults,
        Err(stop) => return Err(stop),
    };
    match first_of(alloc, netlist, holds, stil) {
        Ok(first) => Ok(Wanted { faults, first }),
        Err(stop) => Err(stop),
    }
}

/// What is asked for of a design.
fn held_case(
    alloc: Global,
    netlist: Netlist,
    named: &[Held<'_>],
    list: Option<&[u8]>,
    stil: Option<&[u8]>,
) -> Result<RunCase, Stop<Refusal>>
    requires design { IsDesign netlist }
    requires short { IfSome stil (λ text. length text.now ≤ most_bytes) }
    ensures reads { ReadsHeld (map hold_of named.now) (option_map (λ t. t.now) list.entry) (option_map (λ t. t.now) stil.entry) netlist result }
    ensures ready { IfOk result IsReady }
{
    let core = match Core::of(alloc, netlist) {
        Ok(core) => core,
        Err(_) => return Err(Stop::NoMemory),
    };
    let holds = match holds_of(alloc, &core, named) {
        Ok(holds) => holds,
        Err(stop) => {
            drop(core);
            return Err(stop);
        }
    };
    match wanted_of(alloc, core.netlist(), &holds, list, stil) {
        Ok(wanted) => Ok(RunCase {
            core,
            holds,
            wanted,
        }),
        Err(stop) => {
            drop(core);
            Err(stop)
        }
    }
}

/// What is asked for by the texts that were read, where the words name such files. The texts are let go.
pub(crate) fn case_of(
    alloc: Global,
    texts: Vec<Vec<u8>>,
    list: Option<&str>,
    first: Option<&str>,
    named: &[Held<'_>],
) -> Result<RunCase, Stop<Refusal>>
    requires count { HaveCount None (option_map (λ t. t.now) list) (option_map (λ t. t.now) first) (length texts.items) }
    requires within { All (λ text. length text ≤ most_bytes) (texts_of texts.items) }
    ensures reads { ReadsTexts (map hold_of named.now) (run_read (option_map (λ t. t.now) list.entry) (option_map (λ t. t.now) first.entry) (texts_of texts.items)) result }
    ensures ready { IfOk result IsReady }
{
    let read = run_texts(texts.as_slice(), list, first);
    match netlist_of(alloc, read.net, Names::Design) {
        Ok(netlist) => held_case(alloc, netlist, named, read.list, read.stil),
        Err(stop) => Err(stop),
    }
}
