//! `play`: what a STIL file shows of a netlist, with a fault or none.
ghost use Rattle.std.specs.Prelude.{◌≡◌, ◌≤◌, ◌<◌, ◌++◌, ◌∷◌, [], ⊤, IfOk, OnOk, decimal, codes, length, option_map};
ghost use Rattle.commands.specs.Contents.{most_bytes};
ghost use Rattle.commands.specs.Rows.{CommandRow};
ghost use Rattle.commands.specs.Worked.{IsWorked};
ghost use Rattle.commands.specs.World.{world};
ghost use Rattle.statement.specs.Tests.{vectors_in};
ghost use Rattle.stil_vectors.specs.Fitting.{FitsNetlist};
ghost use Rattle.test_commands.specs.Plays.{play_due, IsPlay, played_finding, played_line, strobe_text, IsShown};
ghost use Rattle.test_commands.specs.inner.Trials.{ReadsTrial, answer_due, trial_due};

use bench_text::Names;
use command_steps::{Refusal, fault_of, fitting, netlist_of, stil_of};
use commands::{Ending, FileName, Finding, Product, Stop, Work, run_command};
use itoa::Buffer;
use netlist::{Core, Fault, Netlist, NoMemory};
use outside::{Shelf, Sink};
use scan_insert::pin_name;
use scan_play::{Played, play_tells_the_truth};
use std::alloc::{AllocError, Global};
use stil_vectors::{fitting_cycles, play_file};
use stil_write::StilFile;

#[derive(Drop)]
struct Trial {
    netlist: Netlist,
    fault: Option<Fault>,
    file: StilFile,
}

/// Reads the netlist, the fault and the file.
fn trial_of(
    alloc: Global,
    net: &[u8],
    stil: &[u8],
    fault: Option<&str>,
) -> Result<Trial, Stop<Refusal>>
    requires { length net.now ≤ most_bytes }
    ensures { ReadsTrial (option_map (λ t. t.now) fault.entry) net.now stil.now result }
{
    let netlist = match netlist_of(alloc, net, Names::Scanned) {
        Ok(netlist) => netlist,
        Err(stop) => return Err(stop),
    };
    let fault = match fault_of(&netlist, fault) {
        Ok(fault) => fault,
        Err(stop) => {
            drop(netlist);
            return Err(stop);
        }
    };
    match stil_of(alloc, stil) {
        Ok(file) => Ok(Trial {
            netlist,
            fault,
            file,
        }),
        Err(stop) => {
            drop(netlist);
            Err(stop)
        }
    }
}

/// Plays the file, which fits the netlist.
pub fn answer_of(
    alloc: Global,
    core: &Core,
    fault: Option<Fault>,
    file: &StilFile,
) -> Result<Played, NoMemory>
    requires { FitsNetlist file.now core.now }
    ensures plays { IfOk result (IsPlay core.now fault (vectors_in file.now)) }
    ensures shown { IfOk result (IsShown core.now) }
{
    core.netlist().sound();
    file.sound();
    fitting_cycles();
    play_tells_the_truth();
    play_file(alloc, core, fault, file)
}

fn finding_of(answer: Played) -> Finding
    ensures { result ≡ played_finding answer }
{
    match answer {
        Played::Passes => Finding::Fine,
        Played::Fails(_, _) => Finding::Differs,
        Played::Unknown(_, _) => Finding::Differs,
    }
}

/// Adds where a strobe is not met.
fn push_strobe(text: &mut Vec<u8>, cycle: u64, signal: &[u8]) -> Result<(), AllocError>
    ensures { OnOk result (text.new.items ≡ text.old.items ++ (codes " at cycle " ++ (decimal cycle ++ (codes " signal " ++ (signal.now ++ codes "\n"))))) }
{
    text.extend_from_slice(b" at cycle ")?;
    text.extend_from_slice(Buffer::new().format(cycle).as_bytes())?;
    text.extend_from_slice(b" signal ")?;
    text.extend_from_slice(signal)?;
    text.extend_from_slice(b"\n")?;
    Ok(())
}

/// A word, and where a strobe is not met.
fn strobe_line(
    alloc: Global,
    word: &[u8],
    netlist: &Netlist,
    cycle: u64,
    output: u32,
) -> Result<Vec<u8>, NoMemory>
    requires { output < length netlist.now.outputs }
    ensures { IfOk result (λ t. t.items ≡ word.now ++ strobe_text netlist.now cycle output) }
{
    let signal = pin_name(alloc, netlist, output)?;
    let mut text = Vec::new(alloc);
    if text.extend_from_slice(word).is_err() {
        return Err(NoMemory);
    }
    match push_strobe(&mut text, cycle, signal.as_slice()) {
        Ok(()) => Ok(text),
        Err(_) => Err(NoMemory),
    }
}

/// The line that `play` prints.
fn line_of(alloc: Global, netlist: &Netlist, answer: Played) -> Result<Vec<u8>, NoMemory>
    requires { IsShown netlist.now answer }
    ensures { IfOk result (λ t. t.items ≡ played_line netlist.now answer) }
{
    match answer {
        Played::Passes => match Vec::from_slice(alloc, b"passes\n") {
            Ok(text) => Ok(text),
            Err(_) => Err(NoMemory),
        },
        Played::Fails(cycle, output) => strobe_line(alloc, b"fails", netlist, cycle, output),
        Played::Unknown(cycle, output) => strobe_line(alloc, b"unknown", netlist, cycle, output),
    }
}

/// Plays a file on a core that it fits, and says what it shows.
fn played_on(
    alloc: Global,
    core: &Core,
    fault: Option<Fault>,
    file: &StilFile,
) -> Result<Product, Stop<Refusal>>
    requires { FitsNetlist file.now core.now }
    ensures { IsWorked (answer_due core.now fault file.now) 0 result }
{
    let Ok(answer) = answer_of(alloc, core, fault, file) else {
        return Err(Stop::NoMemory);
    };
    match line_of(alloc, core.netlist(), answer) {
        Ok(shown) => Ok(Product {
            texts: Vec::new(alloc),
            shown,
            finding: finding_of(answer),
        }),
        Err(_) => Err(Stop::NoMemory),
    }
}

/// Plays a file on a netlist that it fits, and says what it shows.
fn played(
    alloc: Global,
    netlist: Netlist,
    fault: Option<Fault>,
    file: &StilFile,
) -> Result<Product, Stop<Refusal>>
    requires { FitsNetlist file.now netlist }
    ensures { IsWorked (answer_due netlist fault file.now) 0 result }
{
    match Core::of(alloc, netlist) {
        Ok(core) => {
            let product = played_on(alloc, &core, fault, file);
            drop(core);
            product
        }
        Err(refused) => {
            drop(refused);
            Err(Stop::NoMemory)
        }
    }
}

/// Plays a file, if it fits the netlist.
fn fitted(
    alloc: Global,
    netlist: Netlist,
    fault: Option<Fault>,
    file: &StilFile,
) -> Result<Product, Stop<Refusal>>
    ensures { IsWorked (trial_due netlist fault file.now) 0 result }
{
    match fitting(alloc, file, &netlist) {
        Ok(()) => played(alloc, netlist, fault, file),
        Err(stop) => {
            drop(netlist);
            Err(stop)
        }
    }
}

/// Plays the file, if it fits the netlist.
fn tried(alloc: Global, trial: Trial) -> Result<Product, Stop<Refusal>>
    ensures { IsWorked (trial_due trial.netlist trial.fault trial.file) 0 result }
{
    let Trial {
        netlist,
        fault,
        file,
    } = trial;
    let product = fitted(alloc, netlist, fault, &file);
    drop(file);
    product
}

/// Shows what the file `stil` shows of the netlist of the file `net`, with the fault of this text or none.
pub fn play_test<'a, S: Shelf, T: Sink>(
    alloc: Global,
    shelf: &mut S,
    out: &mut T,
    net: &'a str,
    stil: &'a str,
    fault: Option<&'a str>,
) -> Ending<'a, Refusal>
    ensures { CommandRow (net.now ∷ stil.now ∷ []) [] (play_due (option_map (λ t. t.now) fault.entry))
        (world (S.files shelf.old) (S.failures shelf.old) (T.taken out.old) (T.failures out.old))
        (world (S.files shelf.new) (S.failures shelf.new) (T.taken out.new) (T.failures out.new)) result }
{
    let reads = [FileName::of(net), FileName::of(stil)];
    run_command(alloc, shelf, out, &reads, &[], &Play { fault })
}

/// The work of `play`, with the fault of this text or none.
#[derive(Clone, Copy)]
struct Play<'a> {
    fault: Option<&'a str>,
}

impl Work for Play<'_> {
    type Refusal = Refusal;

    ghost can_work = { λ _. Unit {0} };

    ghost reads = { λ _. 2 };

    ghost writes = { λ _. 0 };

    ghost due = { λ play. play_due (option_map (λ t. t.now) play.fault) };

    fn work(&self, alloc: Global, texts: Vec<Vec<u8>>) -> Result<Product, Stop<Refusal>> {
        let net = texts[0].as_slice();
        let stil = texts[1].as_slice();
        match trial_of(alloc, net, stil, self.fault) {
            Ok(trial) => {
                drop(texts);
                tried(alloc, trial)
            }
            Err(stop) => Err(stop),
        }
    }
}
