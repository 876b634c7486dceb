//! `run`: the five files of a file's netlist.
ghost use Rattle.std.specs.Prelude.{◌≡◌, ◌≤◌, ◌||◌, false, true, IfOk, None, length, map, option_map};
ghost use Rattle.std.specs.List.{All};
ghost use Rattle.commands.specs.Contents.{most_bytes};
ghost use Rattle.commands.specs.Due.{Deliver};
ghost use Rattle.commands.specs.Names.{run_files, texts_of};
ghost use Rattle.commands.specs.Reads.{ReadRow};
ghost use Rattle.commands.specs.Rows.{CommandRow};
ghost use Rattle.commands.specs.Worked.{IsWorked};
ghost use Rattle.commands.specs.World.{world};
ghost use Rattle.commands.specs.declared.ending.Finding.TheVariants.{Fine};
ghost use Rattle.command_line.specs.CommandLine.{AreInRunRange, hold_of, run_reads};
ghost use Rattle.run_files.specs.Runs.{IsRun, asked_by};
ghost use Rattle.asked_run.specs.Asked.{asked_of, made_due, ordered_run_due, run_due, texts_made, with_chains, MayAsk, plan_of};
ghost use Rattle.command_steps.specs.Runs.{tests_line};
ghost use Rattle.asked_run.specs.inner.Asking.{HaveCount, IsReady};

use crate::asking::{RunCase, case_of};
use clauses::{Clauses, Then};
use command_line::{EngineName, Held, RunNames, RunOptions, SearchNumbers, TreeEngine, run_reads};
use command_steps::{Refusal, five_files_product, in_order, tests_line};
use commands::{Ending, Product, Stop, deliver, file_names, read_in_order};
use evidence::Engine;
use fan::Fan;
use netlist::{Core, Holds, NoMemory};
use outside::{Gate, Shelf, Sink};
use podem::Podem;
use run_files::{RunFiles, RunPlan, Wanted, make_files};
use std::alloc::{AllocError, Global};
use std::sync::Wait;
use std::thread::Threads;
use worker::Errand;

/// What a run is given, whichever engine searches: threads, memory, the netlist with its held inputs, and where it passes.
#[derive(Drop)]
pub struct Task<'a, G: Gate, R> {
    pub rt: &'a R,
    pub alloc: Global,
    pub core: &'a Core,
    pub holds: &'a Holds,
    pub stage: &'a G,
}

/// What the words of `run` ask for: the files that they name, the options, and the inputs that are held.
#[derive(Clone, Copy)]
pub struct RunWords<'a, 'h> {
    pub names: RunNames<'a>,
    pub options: RunOptions,
    pub named: &'h [Held<'h>],
}

/// What is written and shown of a run.
fn product_by(alloc: Global, made: RunFiles) -> Result<Product, AllocError>
    ensures texts { IfOk result (λ p. texts_of p.texts.items ≡ texts_made made) }
    ensures count { IfOk result (λ p. length p.texts.items ≡ 5) }
    ensures shown { IfOk result (λ p. p.shown.items ≡ tests_line made.said.counts) }
    ensures fine { IfOk result (λ p. p.finding ≡ Fine) }
{
    let RunFiles {
        net,
        scan,
        stil,
        certificate,
        report,
        said,
    } = made;
    let shown = tests_line(alloc, said.counts());
    drop(said);
    let shown = shown?;
    let product = five_files_product(alloc, net, scan, stil, certificate, report, shown)?;
    Ok(product)
}

/// The plan of a run.
fn plan_of(options: RunOptions) -> RunPlan
    ensures { result ≡ plan_of options }
{
    let numbers = options.numbers;
    RunPlan {
        chains: numbers.chains,
        workers: numbers.workers,
        limit: numbers.limit,
        seed: numbers.seed,
        percent: options.percent,
        rounds: options.rounds,
        times: options.times,
    }
}

/// The five files, as this engine finds them.
fn made_by<R: Threads + Wait + Sync, E: Engine + Sync, G: Gate + Sync>(
    task: &Task<'_, G, R>,
    engine: &E,
    options: RunOptions,
    wanted: Wanted,
) -> Result<RunFiles, NoMemory>
    requires { MayAsk task.now.core.now task.now.holds.now options wanted }
    ensures { IfOk result (IsRun task.now.core.now (asked_by (plan_of options) wanted task.now.holds.now E.refutes)) }
{
    let errand = Errand {
        rt: task.rt,
        alloc: task.alloc,
        core: task.core,
        engine,
        stage: task.stage,
        holds: task.holds,
    };
    make_files(&errand, plan_of(options), wanted)
}

/// The five files, by a tree of decisions for each class.
pub fn by_trees<R: Threads + Wait + Sync, G: Gate + Sync>(
    task: &Task<'_, G, R>,
    engine: TreeEngine,
    options: RunOptions,
    wanted: Wanted,
) -> Result<RunFiles, NoMemory>
    requires { MayAsk task.now.core.now task.now.holds.now options wanted }
    ensures { IfOk result (IsRun task.now.core.now (asked_by (plan_of options) wanted task.now.holds.now false)) }
{
    match engine {
        TreeEngine::Podem => {
            let podem = Podem::of(task.alloc, task.core)?;
            made_by(task, &podem, options, wanted)
        }
        TreeEngine::Fan => {
            let fan = Fan::of(task.alloc, task.core)?;
            made_by(task, &fan, options, wanted)
        }
    }
}

/// The five files, by clauses that are learned.
fn by_clauses<R: Threads + Wait + Sync, G: Gate + Sync>(
    task: &Task<'_, G, R>,
    options: RunOptions,
    wanted: Wanted,
) -> Result<RunFiles, NoMemory>
    requires { MayAsk task.now.core.now task.now.holds.now options wanted }
    ensures { IfOk result (IsRun task.now.core.now (asked_by (plan_of options) wanted task.now.holds.now true)) }
{
    let clauses = Clauses::of(task.alloc, task.core)?;
    made_by(task, &clauses, options, wanted)
}

/// The five files, by this engine, or, where it gives up, by clauses.
fn then_clauses<R: Threads + Wait + Sync, E: Engine + Sync + Drop, G: Gate + Sync>(
    task: &Task<'_, G, R>,
    first: E,
    options: RunOptions,
    wanted: Wanted,
) -> Result<RunFiles, NoMemory>
    requires { MayAsk task.now.core.now task.now.holds.now options wanted }
    ensures { IfOk result (IsRun task.now.core.now (asked_by (plan_of options) wanted task.now.holds.now (E.refutes || true))) }
{
    let second = Clauses::of(task.alloc, task.core)?;
    let few = options.numbers.limit;
    made_by(task, &Then { first, few, second }, options, wanted)
}

/// The five files, by a tree of decisions for each class, or, where the search gives up, by clauses.
fn by_trees_then_clauses<R: Threads + Wait + Sync, G: Gate + Sync>(
    task: &Task<'_, G, R>,
    engine: TreeEngine,
    options: RunOptions,
    wanted: Wanted,
) -> Result<RunFiles, NoMemory>
    requires { MayAsk task.now.core.now task.now.holds.now options wanted }
    ensures { IfOk result (IsRun task.now.core.now (asked_by (plan_of options) wanted task.now.holds.now true)) }
{
    match engine {
        TreeEngine::Podem => {
            let first = Podem::of(task.alloc, task.core)?;
            then_clauses(task, first, options, wanted)
        }
        TreeEngine::Fan => {
            let first = Fan::of(task.alloc, task.core)?;
            then_clauses(task, first, options, wanted)
        }
    }
}

/// The five files, as the engine that was asked for finds them.
fn made_of<R: Threads + Wait + Sync, G: Gate + Sync>(
    task: &Task<'_, G, R>,
    options: RunOptions,
    wanted: Wanted,
) -> Result<RunFiles, NoMemory>
    requires { MayAsk task.now.core.now task.now.holds.now options wanted }
    ensures { IfOk result (IsRun task.now.core.now (asked_of options task.now.holds.now wanted.faults.items wanted.first.items)) }
{
    match options.engine {
        EngineName::Trees(engine) => by_trees(task, engine, options, wanted),
        EngineName::Clauses => by_clauses(task, options, wanted),
        EngineName::TreesThenClauses(engine) => {
            by_trees_then_clauses(task, engine, options, wanted)
        }
    }
}

/// What is written and shown of what is made, as the engine that was asked for finds it.
fn product_of<R: Threads + Wait + Sync, G: Gate + Sync>(
    task: &Task<'_, G, R>,
    options: RunOptions,
    wanted: Wanted,
) -> Result<Product, NoMemory>
    requires { MayAsk task.now.core.now task.now.holds.now options wanted }
    ensures due { IfOk result (λ p. made_due options task.now.core.now task.now.holds.now wanted.faults.items wanted.first.items (Deliver (texts_of p.texts.items) p.shown.items p.finding)) }
    ensures count { IfOk result (λ p. length p.texts.items ≡ 5) }
{
    let made = made_of(task, options, wanted)?;
    let product = product_by(task.alloc, made)?;
    Ok(product)
}

/// What `run` makes of what is asked for.
fn run_case<R: Threads + Wait + Sync, G: Gate + Sync>(
    rt: &R,
    alloc: Global,
    case: RunCase,
    options: RunOptions,
    stage: &G,
) -> Result<Product, Stop<Refusal>>
    requires ready { IsReady case }
    requires range { AreInRunRange options }
    ensures { IsWorked (made_due options case.core case.holds case.wanted.faults.items case.wanted.first.items) 5 result }
{
    let RunCase {
        core,
        holds,
        wanted,
    } = case;
    let task = Task {
        rt,
        alloc,
        core: &core,
        holds: &holds,
        stage,
    };
    let product = product_of(&task, options, wanted);
    drop(core);
    drop(holds);
    match product {
        Ok(product) => Ok(product),
        Err(_) => Err(Stop::NoMemory),
    }
}

/// The work of `run`, which waits for its workers.
fn work<R: Threads + Wait + Sync, G: Gate + Sync>(
    rt: &R,
    alloc: Global,
    texts: Vec<Vec<u8>>,
    names: RunNames<'_>,
    options: RunOptions,
    named: &[Held<'_>],
    stage: &G,
) -> Result<Product, Stop<Refusal>>
    requires count { HaveCount None (option_map (λ t. t.now) names.list) (option_map (λ t. t.now) names.first) (length texts.items) }
    requires within { All (λ text. length text ≤ most_bytes) (texts_of texts.items) }
    requires range { AreInRunRange options }
    ensures { IsWorked (run_due (option_map (λ t. t.now) names.entry.list) (option_map (λ t. t.now) names.entry.first) options (map hold_of named.now) (texts_of texts.items)) 5 result }
{
    match case_of(alloc, texts, names.list, names.first, named) {
        Ok(case) => run_case(rt, alloc, case, options, stage),
        Err(stop) => Err(stop),
    }
}

/// The same options with so many chains.
fn with_chains(options: RunOptions, chains: u32) -> RunOptions
    ensures { result ≡ with_chains options chains }
{
    RunOptions {
        numbers: SearchNumbers {
            chains,
            ..options.numbers
        },
        ..options
    }
}

/// The work of `run`, where an order of the cells may be given.
fn ordered_work<R: Threads + Wait + Sync, G: Gate + Sync>(
    rt: &R,
    alloc: Global,
    texts: Vec<Vec<u8>>,
    names: RunNames<'_>,
    options: RunOptions,
    named: &[Held<'_>],
    stage: &G,
) -> Result<Product, Stop<Refusal>>
    requires count { HaveCount (option_map (λ t. t.now) names.order) (option_map (λ t. t.now) names.list) (option_map (λ t. t.now) names.first) (length texts.items) }
    requires within { All (λ text. length text ≤ most_bytes) (texts_of texts.items) }
    requires range { AreInRunRange options }
    ensures { IsWorked (ordered_run_due (option_map (λ t. t.now) names.entry.order) (option_map (λ t. t.now) names.entry.list) (option_map (λ t. t.now) names.entry.first) options (map hold_of named.now) (texts_of texts.items)) 5 result }
{
    match in_order(alloc, texts, names.order, options.numbers.chains) {
        Ok(ordered) => {
            let options = with_chains(options, ordered.chains);
            work(rt, alloc, ordered.texts, names, options, named, stage)
        }
        Err(stop) => Err(stop),
    }
}

/// The texts of the files that the words name, or how the call ends without them.
fn read_texts<'a, S: Shelf, F>(
    alloc: Global,
    shelf: &mut S,
    names: RunNames<'a>,
) -> Result<Vec<Vec<u8>>, Ending<'a, F>>
    ensures { ReadRow (run_reads names.entry.net.now (option_map (λ t. t.now) names.entry.order) (option_map (λ t. t.now) names.entry.list) (option_map (λ t. t.now) names.entry.first))
        (S.files shelf.old) (S.failures shelf.old) (S.files shelf.new) (S.failures shelf.new) result }
{
    match run_reads(alloc, names) {
        Ok(reads) => read_in_order(alloc, shelf, reads.as_slice()),
        Err(_) => Err(Ending::Memory),
    }
}

/// Writes the five files of the netlist of the file that is named, under the names that begin as is asked.
pub fn run_netlist<'a, R: Threads + Wait + Sync, S: Shelf, T: Sink, G: Gate + Sync>(
    rt: &R,
    alloc: Global,
    shelf: &mut S,
    out: &mut T,
    stage: &G,
    words: RunWords<'a, '_>,
) -> Ending<'a, Refusal>
    requires { AreInRunRange words.options }
    ensures { CommandRow (run_reads words.entry.names.net.now (option_map (λ t. t.now) words.entry.names.order) (option_map (λ t. t.now) words.entry.names.list) (option_map (λ t. t.now) words.entry.names.first)) (run_files words.entry.names.prefix.now)
        (ordered_run_due (option_map (λ t. t.now) words.entry.names.order) (option_map (λ t. t.now) words.entry.names.list) (option_map (λ t. t.now) words.entry.names.first) words.entry.options (map hold_of words.entry.named.now))
        (world (S.files shelf.old) (S.failures shelf.old) (T.taken out.old) (T.failures out.old))
        (world (S.files shelf.new) (S.failures shelf.new) (T.taken out.new) (T.failures out.new)) result }
{
    let RunWords {
        names,
        options,
        named,
    } = words;
    let texts = match read_texts(alloc, shelf, names) {
        Ok(texts) => texts,
        Err(ending) => return ending,
    };
    let writes = file_names(names.prefix);
    let worked = ordered_work(rt, alloc, texts, names, options, named, stage);
    deliver(alloc, shelf, out, &writes, worked)
}
