//! `transition`: the five files of the slow lines of a file's netlist.
ghost use Rattle.std.specs.Prelude.{◌≡◌, ◌≤◌, ◌||◌, ◌∷◌, [], false, IfOk, length, map, true};
ghost use Rattle.std.specs.List.{All};
ghost use Rattle.netlist.specs.Designs.{IsDesign};
ghost use Rattle.netlist.specs.Holds.{AreHoldsOf};
ghost use Rattle.commands.specs.Contents.{most_bytes};
ghost use Rattle.commands.specs.Names.{run_files, texts_of};
ghost use Rattle.commands.specs.Rows.{CommandRow};
ghost use Rattle.commands.specs.Worked.{IsWorked};
ghost use Rattle.commands.specs.World.{world};
ghost use Rattle.commands.specs.declared.ending.Finding.TheVariants.{Fine};
ghost use Rattle.command_line.specs.CommandLine.{AreInRange, hold_of};
ghost use Rattle.transition_run.specs.Runs.{IsTransitionRun, transition_files_of};
ghost use Rattle.atpg_top.specs.Commands.{named_slow_due, slow_due, transition_due};
ghost use Rattle.asked_run.specs.Asked.{may_refute};
ghost use Rattle.command_steps.specs.Runs.{tests_line, texts_in};

use crate::cores::core_with;
use clauses::{Clauses, Then};
use command_line::{EngineName, Held, SlowOptions, TreeEngine};
use command_steps::{Refusal, design_of, five_files_product, holds_of, tests_line};
use commands::{Ending, FileName, Product, Stop, deliver, file_names, read_in_order};
use evidence::Engine;
use fan::Fan;
use netlist::{Core, Fault, Holds, Line, Netlist, NoMemory};
use outside::{Gate, Shelf, Sink};
use podem::Podem;
use std::alloc::{AllocError, Global};
use std::thread::Threads;
use transition::{SearchPlan, Trees};
use transition_frames::frames;
use transition_run::{TransitionFiles, TransitionPlan, transition_files};
use worker::Errand;

/// What `transition` is asked for: a netlist's file, how the names of the five files begin, the inputs that are held, and how lines are searched.
#[derive(Clone, Copy)]
pub(crate) struct SlowAsked<'a, 'b> {
    pub net: &'a str,
    pub prefix: &'a str,
    pub named: &'b [Held<'a>],
    pub options: SlowOptions,
}

/// A design with its held inputs, and all that its slow lines are searched with but the engine.
#[derive(Drop)]
struct Ground<'a, R, G: Gate> {
    rt: &'a R,
    alloc: Global,
    stage: &'a G,
    core: &'a Core,
    holds: &'a Holds,
    options: SlowOptions,
}

/// What is written of a test for slow lines, and shown so.
fn product_with(alloc: Global, made: TransitionFiles, shown: Vec<u8>) -> Result<Product, AllocError>
    ensures texts { IfOk result (λ p. texts_of p.texts.items ≡ texts_in (transition_files_of made)) }
    ensures count { IfOk result (λ p. length p.texts.items ≡ 5) }
    ensures shown { IfOk result (λ p. p.shown ≡ shown) }
    ensures fine { IfOk result (λ p. p.finding ≡ Fine) }
{
    let TransitionFiles {
        net,
        scan,
        stil,
        certificate,
        report,
        said,
    } = made;
    drop(said);
    five_files_product(alloc, net, scan, stil, certificate, report, shown)
}

/// What is written and shown of a test for slow lines.
fn product_by(alloc: Global, made: TransitionFiles) -> Result<Product, AllocError>
    ensures texts { IfOk result (λ p. texts_of p.texts.items ≡ texts_in (transition_files_of made)) }
    ensures count { IfOk result (λ p. length p.texts.items ≡ 5) }
    ensures shown { IfOk result (λ p. p.shown.items ≡ tests_line made.said.counts) }
    ensures fine { IfOk result (λ p. p.finding ≡ Fine) }
{
    match tests_line(alloc, made.said.counts) {
        Ok(shown) => product_with(alloc, made, shown),
        Err(error) => {
            drop(made);
            Err(error)
        }
    }
}

/// The two frames of a design with its first input slow to rise. The frames of every slow line have the same signals, so what guides a search
/// is measured once, here.
fn some_frames(alloc: Global, netlist: &Netlist) -> Result<Core, NoMemory>
    requires { IsDesign netlist.now }
{
    netlist.sound();
    let fault = Fault {
        line: Line::Stem(netlist.inputs()[0]),
        value: false,
    };
    let (two, _) = frames(alloc, netlist, fault)?;
    core_with(alloc, two)
}

/// The five files, as this engine finds them.
fn made_by<R: Threads + Sync, E: Engine + Sync, G: Gate + Sync>(
    ground: &Ground<'_, R, G>,
    engine: &E,
    trees: Trees,
) -> Result<TransitionFiles, NoMemory>
    requires { IsDesign ground.now.core.now × AreHoldsOf ground.now.core.now ground.now.holds.now × AreInRange ground.now.options.numbers }
    ensures { IfOk result (IsTransitionRun ground.now.core.now ground.now.holds.now ground.now.options.numbers.chains ground.now.options.numbers.limit E.refutes) }
{
    let errand = Errand {
        rt: ground.rt,
        alloc: ground.alloc,
        core: ground.core,
        engine,
        stage: ground.stage,
        holds: ground.holds,
    };
    let numbers = ground.options.numbers;
    let search = SearchPlan {
        limit: numbers.limit,
        trees,
        workers: numbers.workers,
    };
    let plan = TransitionPlan {
        chains: numbers.chains,
        seed: numbers.seed,
        search,
    };
    transition_files(&errand, plan)
}

/// The five files, as this engine finds them, which is let go then.
fn made_with<R: Threads + Sync, E: Engine + Sync + Drop, G: Gate + Sync>(
    ground: &Ground<'_, R, G>,
    engine: E,
    trees: Trees,
) -> Result<TransitionFiles, NoMemory>
    requires { IsDesign ground.now.core.now × AreHoldsOf ground.now.core.now ground.now.holds.now × AreInRange ground.now.options.numbers }
    ensures { IfOk result (IsTransitionRun ground.now.core.now ground.now.holds.now ground.now.options.numbers.chains ground.now.options.numbers.limit E.refutes) }
{
    let made = made_by(ground, &engine, trees);
    drop(engine);
    made
}

/// The five files, by a tree of decisions for each line. Those of FAN keep its rule on the line's own frames.
fn by_trees<R: Threads + Sync, G: Gate + Sync>(
    ground: &Ground<'_, R, G>,
    guide: &Core,
    engine: TreeEngine,
) -> Result<TransitionFiles, NoMemory>
    requires { IsDesign ground.now.core.now × AreHoldsOf ground.now.core.now ground.now.holds.now × AreInRange ground.now.options.numbers }
    ensures { IfOk result (IsTransitionRun ground.now.core.now ground.now.holds.now ground.now.options.numbers.chains ground.now.options.numbers.limit false) }
{
    match engine {
        TreeEngine::Podem => {
            let podem = Podem::of(ground.alloc, guide)?;
            made_with(ground, podem, Trees::OfFrames)
        }
        TreeEngine::Fan => {
            let fan = Fan::of(ground.alloc, guide)?;
            made_with(ground, fan, Trees::OnPlaces)
        }
    }
}

/// The five files, by clauses that are learned.
fn by_clauses<R: Threads + Sync, G: Gate + Sync>(
    ground: &Ground<'_, R, G>,
    guide: &Core,
) -> Result<TransitionFiles, NoMemory>
    requires { IsDesign ground.now.core.now × AreHoldsOf ground.now.core.now ground.now.holds.now × AreInRange ground.now.options.numbers }
    ensures { IfOk result (IsTransitionRun ground.now.core.now ground.now.holds.now ground.now.options.numbers.chains ground.now.options.numbers.limit true) }
{
    let clauses = Clauses::of(ground.alloc, guide)?;
    made_with(ground, clauses, Trees::OfFrames)
}

/// The five files, by this engine, unless it was refused memory, or, where it gives up, by clauses. What these settle may be by a tree of PODEM, so
/// FAN's rule isn't asked of any.
fn by_both<R: Threads + Sync, E: Engine + Sync + Drop, G: Gate + Sync>(
    ground: &Ground<'_, R, G>,
    first: Result<E, NoMemory>,
    second: Clauses,
) -> Result<TransitionFiles, NoMemory>
    requires { IsDesign ground.now.core.now × AreHoldsOf ground.now.core.now ground.now.holds.now × AreInRange ground.now.options.numbers }
    ensures { IfOk result (IsTransitionRun ground.now.core.now ground.now.holds.now ground.now.options.numbers.chains ground.now.options.numbers.limit (E.refutes || true)) }
{
    let few = ground.options.numbers.limit;
    match first {
        Ok(first) => made_with(ground, Then { first, few, second }, Trees::OfFrames),
        Err(error) => {
            drop(second);
            Err(error)
        }
    }
}

/// The five files, by a tree of decisions for each line, or, where the search gives up, by clauses.
fn by_trees_then_clauses<R: Threads + Sync, G: Gate + Sync>(
    ground: &Ground<'_, R, G>,
    guide: &Core,
    engine: TreeEngine,
) -> Result<TransitionFiles, NoMemory>
    requires { IsDesign ground.now.core.now × AreHoldsOf ground.now.core.now ground.now.holds.now × AreInRange ground.now.options.numbers }
    ensures { IfOk result (IsTransitionRun ground.now.core.now ground.now.holds.now ground.now.options.numbers.chains ground.now.options.numbers.limit true) }
{
    let second = Clauses::of(ground.alloc, guide)?;
    match engine {
        TreeEngine::Podem => by_both(ground, Podem::of(ground.alloc, guide), second),
        TreeEngine::Fan => by_both(ground, Fan::of(ground.alloc, guide), second),
    }
}

/// The five files, as the engine that was asked for finds them, led by what these frames measure.
fn led_by<R: Threads + Sync, G: Gate + Sync>(
    ground: &Ground<'_, R, G>,
    guide: &Core,
) -> Result<TransitionFiles, NoMemory>
    requires { IsDesign ground.now.core.now × AreHoldsOf ground.now.core.now ground.now.holds.now × AreInRange ground.now.options.numbers }
    ensures { IfOk result (IsTransitionRun ground.now.core.now ground.now.holds.now ground.now.options.numbers.chains ground.now.options.numbers.limit (may_refute ground.now.options.engine)) }
{
    match ground.options.engine {
        EngineName::Trees(engine) => by_trees(ground, guide, engine),
        EngineName::Clauses => by_clauses(ground, guide),
        EngineName::TreesThenClauses(engine) => by_trees_then_clauses(ground, guide, engine),
    }
}

/// The five files, as the engine that was asked for finds them.
fn made_of<R: Threads + Sync, G: Gate + Sync>(
    ground: &Ground<'_, R, G>,
) -> Result<TransitionFiles, NoMemory>
    requires { IsDesign ground.now.core.now × AreHoldsOf ground.now.core.now ground.now.holds.now × AreInRange ground.now.options.numbers }
    ensures { IfOk result (IsTransitionRun ground.now.core.now ground.now.holds.now ground.now.options.numbers.chains ground.now.options.numbers.limit (may_refute ground.now.options.engine)) }
{
    let guide = some_frames(ground.alloc, ground.core.netlist())?;
    let made = led_by(ground, &guide);
    drop(guide);
    made
}

/// What `transition` makes of a design with held inputs.
fn test_held<R: Threads + Sync, G: Gate + Sync>(
    ground: &Ground<'_, R, G>,
) -> Result<Product, Stop<Refusal>>
    requires { IsDesign ground.now.core.now × AreHoldsOf ground.now.core.now ground.now.holds.now × AreInRange ground.now.options.numbers }
    ensures { IsWorked (slow_due ground.now.options ground.now.core.now ground.now.holds.now) 5 result }
{
    let Ok(made) = made_of(ground) else {
        return Err(Stop::NoMemory);
    };
    match product_by(ground.alloc, made) {
        Ok(product) => Ok(product),
        Err(_) => Err(Stop::NoMemory),
    }
}

/// What `transition` makes of a core, its inputs of these names held.
fn test_core<R: Threads + Sync, G: Gate + Sync>(
    rt: &R,
    alloc: Global,
    stage: &G,
    core: &Core,
    asked: &SlowAsked<'_, '_>,
) -> Result<Product, Stop<Refusal>>
    requires { IsDesign core.now × AreInRange asked.now.options.numbers }
    ensures { IsWorked (named_slow_due asked.now.options (map hold_of asked.now.named.now) core.now) 5 result }
{
    match holds_of(alloc, core, asked.named) {
        Ok(holds) => {
            let ground = Ground {
                rt,
                alloc,
                stage,
                core,
                holds: &holds,
                options: asked.options,
            };
            test_held(&ground)
        }
        Err(stop) => Err(stop),
    }
}

/// What `transition` makes of a design, its inputs of these names held.
fn test_design<R: Threads + Sync, G: Gate + Sync>(
    rt: &R,
    alloc: Global,
    stage: &G,
    netlist: Netlist,
    asked: &SlowAsked<'_, '_>,
) -> Result<Product, Stop<Refusal>>
    requires design { IsDesign netlist }
    requires range { AreInRange asked.now.options.numbers }
    ensures { IsWorked (named_slow_due asked.now.options (map hold_of asked.now.named.now) netlist) 5 result }
{
    let Ok(core) = core_with(alloc, netlist) else {
        return Err(Stop::NoMemory);
    };
    let worked = test_core(rt, alloc, stage, &core, asked);
    drop(core);
    worked
}

/// The work of `transition`.
fn work<R: Threads + Sync, G: Gate + Sync>(
    rt: &R,
    alloc: Global,
    stage: &G,
    texts: Vec<Vec<u8>>,
    asked: &SlowAsked<'_, '_>,
) -> Result<Product, Stop<Refusal>>
    requires count { length texts.items ≡ 1 }
    requires within { All (λ text. length text ≤ most_bytes) (texts_of texts.items) }
    requires range { AreInRange asked.now.options.numbers }
    ensures { IsWorked (transition_due asked.now.options (map hold_of asked.now.named.now) (texts_of texts.items)) 5 result }
{
    match design_of(alloc, texts) {
        Ok(netlist) => test_design(rt, alloc, stage, netlist, asked),
        Err(stop) => Err(stop),
    }
}

/// Writes the five files of the slow lines of a file's netlist.
pub fn test_slow_lines<'a, R: Threads + Sync, S: Shelf, T: Sink, G: Gate + Sync>(
    rt: &R,
    alloc: Global,
    shelf: &mut S,
    out: &mut T,
    stage: &G,
    asked: &SlowAsked<'a, '_>,
) -> Ending<'a, Refusal>
    requires { AreInRange asked.now.options.numbers }
    ensures { CommandRow (asked.now.net.now ∷ []) (run_files asked.now.prefix.now) (transition_due asked.now.options (map hold_of asked.now.named.now))
        (world (S.files shelf.old) (S.failures shelf.old) (T.taken out.old) (T.failures out.old))
        (world (S.files shelf.new) (S.failures shelf.new) (T.taken out.new) (T.failures out.new)) result }
{
    let reads = [FileName::of(asked.net)];
    let writes = file_names(asked.prefix);
    let texts = match read_in_order(alloc, shelf, &reads) {
        Ok(texts) => texts,
        Err(ending) => return ending,
    };
    let worked = work(rt, alloc, stage, texts, asked);
    deliver(alloc, shelf, out, &writes, worked)
}
