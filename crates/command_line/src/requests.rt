//! The request that a command and its values make.
ghost use Rattle.std.specs.Prelude.{◌≡◌, IfOk, IfSome, codes, option_map};
ghost use Rattle.clap.specs.Words.{first_of, found_of, rows_of, subcommand_rows_of};
ghost use Rattle.command_line.specs.CommandLine.{
  AreInRange,
  AreInRunRange,
  IfIn,
  IsInRange,
  chaintest_of,
  check_of,
  diagnose_of,
  engine_alone_given,
  engine_given,
  faults_line_of,
  grade_of,
  holds_given,
  order_of,
  command_line_at,
  line_by,
  line_from,
  command_line_of,
  number_if,
  numbers_of,
  play_of,
  run_of,
  run_options_of,
  run_options_with,
  scan_of,
  scan_with,
  search_of,
  sweep_of,
  transition_of,
  tree_engine_given,
};
ghost use Rattle.command_line.specs.Table.{most_percent};
ghost use Rattle.command_line.specs.inner.Errors.{IsAsked};
ghost use Rattle.command_line.specs.inner.Held.{AreHeld};
ghost use Rattle.command_line.specs.inner.Searches.{AreOptions, AreRunNames, IsSearch};

use crate::holds::{Held, holds_in};
use crate::values::{MOST_PERCENT, MOST_ROUNDS, MOST_TIMES, number_if, number_of, number_or, text};
use clap::ArgMatches;
use plain_text::{FEWEST_GATES, MOST_CHAINS, MOST_GATES, MOST_LIMIT, MOST_WORKERS};
use std::alloc::Global;

/// A search by a tree of decisions.
#[derive(Clone, Copy, PartialEq, Eq)]
pub enum TreeEngine {
    Podem,
    Fan,
}

/// How tests are searched.
#[derive(Clone, Copy, PartialEq, Eq)]
pub enum EngineName {
    /// By a tree of decisions alone.
    Trees(TreeEngine),
    /// By clauses that are learned.
    Clauses,
    /// What a tree of decisions gives up by clauses.
    TreesThenClauses(TreeEngine),
}

/// The numbers of a command that searches.
#[derive(Clone, Copy, PartialEq, Eq)]
pub struct SearchNumbers {
    /// How many chains at most.
    pub chains: u32,
    pub workers: u32,
    /// The backtrack limit: how many ends a search may close before it gives up.
    pub limit: u32,
    /// What the bits that no search asks for are drawn from.
    pub seed: u64,
}

/// The engine and the numbers of `run`.
#[derive(Clone, Copy, PartialEq, Eq)]
pub struct RunOptions {
    pub engine: EngineName,
    pub numbers: SearchNumbers,
    /// The run may stop once so many in a hundred of the faults that are asked for are detected.
    pub percent: Option<u32>,
    /// How many rounds make the patterns fewer.
    pub rounds: u32,
    /// How many patterns are to detect each fault, where so many are found.
    pub times: u32,
}

/// The engine and the numbers of `transition`.
#[derive(Clone, Copy, PartialEq, Eq)]
pub struct SlowOptions {
    pub engine: EngineName,
    pub numbers: SearchNumbers,
}

/// The numbers of `diagnose`.
#[derive(Clone, Copy, PartialEq, Eq)]
pub struct DiagnoseOptions {
    /// How many chains at most.
    pub chains: u32,
    pub workers: u32,
    /// How many of the faults that come nearest to the log are listed, in place of those that explain it.
    pub rank: Option<u64>,
}

/// The files of `run`, by the words that name them.
#[derive(Clone, Copy, PartialEq, Eq)]
pub struct RunNames<'a> {
    /// The netlist.
    pub net: &'a str,
    /// What the names of the files written begin with.
    pub prefix: &'a str,
    /// The order of the cells, which then says how many chains there are.
    pub order: Option<&'a str>,
    /// The list of the faults that are asked for, where not all are.
    pub list: Option<&'a str>,
    /// The STIL file whose patterns come first, or what its name begins with.
    pub first: Option<&'a str>,
}

/// What the words ask the program to do.
#[derive(Drop)]
pub enum Request<'a> {
    /// Write to the file `out` the netlist of the file `net` with scan cells in at most `chains`
    /// chains.
    Scan {
        net: &'a str,
        out: &'a str,
        chains: u32,
        /// The file of the order of the cells, which then says how many chains there are.
        order: Option<&'a str>,
    },
    /// Print the list of faults of the netlist of the file `net`, each with its class.
    Faults {
        net: &'a str,
    },
    /// Search tests for a netlist, its inputs of these names held, and write five files.
    Run {
        names: RunNames<'a>,
        options: RunOptions,
        holds: Vec<Held<'a>>,
    },
    /// Play the file `stil` on the netlist of the file `net`, with the fault of this text or none.
    Play {
        net: &'a str,
        stil: &'a str,
        fault: Option<&'a str>,
    },
    /// Check the files whose names begin with `prefix`.
    Check {
        prefix: &'a str,
    },
    /// Search tests for a sample netlist of so many gates, and play them.
    Sweep {
        seed: u64,
        gates: u32,
    },
    /// Say what the file `stil` shows of the faults in the scan hardware of the netlist of the file
    /// `net`, scanned in at most `chains` chains.
    ChainTest {
        net: &'a str,
        stil: &'a str,
        chains: u32,
    },
    /// List the faults of the netlist of the file `net` that explain what failed, by the file `log`,
    /// when the file `stil` was played on the chip, or those that come nearest to it.
    Diagnose {
        net: &'a str,
        stil: &'a str,
        log: &'a str,
        options: DiagnoseOptions,
    },
    /// Search tests for the slow lines of the netlist of the file `net`, its inputs of these names
    /// held, and write the files whose names begin with `prefix`.
    Transition {
        net: &'a str,
        prefix: &'a str,
        options: SlowOptions,
        holds: Vec<Held<'a>>,
    },
    /// Say which stuck lines of the netlist of the file `net`, scanned in at most `chains` chains,
    /// the file `stil` detects, in the file whose name begins with `prefix`.
    Grade {
        net: &'a str,
        stil: &'a str,
        prefix: &'a str,
        chains: u32,
    },
}

// What `run` and `transition` are given alike.
#[derive(Clone, Copy)]
struct SearchLine<'a> {
    net: &'a str,
    prefix: &'a str,
    numbers: SearchNumbers,
}

/// Why the values of a command make no request.
#[derive(Clone, Copy)]
pub(crate) enum NoRequest {
    BadNumber,
    BadEngine,
    BadOrder,
    BadHold,
    NoMemory,
}

// The file of an order, if it is given without a number of chains.
fn order<'a>(found: &ArgMatches<'a>) -> Option<Option<&'a str>>
    ensures { option_map (λ o. option_map (λ t. t.now) o) result ≡ order_of (rows_of (found_of found.now)) }
{
    match (text(found, "chains"), text(found, "order")) {
        (_, None) => Some(None),
        (None, Some(order)) => Some(Some(order)),
        (Some(_), Some(_)) => None,
    }
}

fn scan_with<'a>(found: &ArgMatches<'a>, order: Option<&'a str>) -> Option<Request<'a>>
    ensures line { option_map command_line_of result ≡ scan_with (rows_of (found_of found.now)) (option_map (λ t. t.now) order.entry) }
    ensures in_range { IfSome result IsInRange }
{
    let net = text(found, "NET")?;
    let out = text(found, "OUT")?;
    let chains = number_or(found, "chains", 1, 1, MOST_CHAINS)?;
    Some(Request::Scan {
        net,
        out,
        chains: chains as u32,
        order,
    })
}

fn scan<'a>(found: &ArgMatches<'a>) -> Result<Request<'a>, NoRequest>
    ensures line { IsAsked (line_from (scan_of (rows_of (found_of found.now)))) result }
    ensures in_range { IfOk result IsInRange }
{
    let Some(order) = order(found) else {
        return Err(NoRequest::BadOrder);
    };
    taken(scan_with(found, order))
}

fn faults<'a>(found: &ArgMatches<'a>) -> Option<Request<'a>>
    ensures line { option_map command_line_of result ≡ faults_line_of (rows_of (found_of found.now)) }
    ensures in_range { IfSome result IsInRange }
{
    let net = text(found, "NET")?;
    Some(Request::Faults { net })
}

fn play<'a>(found: &ArgMatches<'a>) -> Option<Request<'a>>
    ensures line { option_map command_line_of result ≡ play_of (rows_of (found_of found.now)) }
    ensures in_range { IfSome result IsInRange }
{
    let net = text(found, "NET")?;
    let stil = text(found, "STIL")?;
    let fault = text(found, "fault");
    Some(Request::Play { net, stil, fault })
}

fn check<'a>(found: &ArgMatches<'a>) -> Option<Request<'a>>
    ensures line { option_map command_line_of result ≡ check_of (rows_of (found_of found.now)) }
    ensures in_range { IfSome result IsInRange }
{
    let prefix = text(found, "PREFIX")?;
    Some(Request::Check { prefix })
}

fn sweep<'a>(found: &ArgMatches<'a>) -> Option<Request<'a>>
    ensures line { option_map command_line_of result ≡ sweep_of (rows_of (found_of found.now)) }
    ensures in_range { IfSome result IsInRange }
{
    let seed = number_of(found, "SEED", 0, u64::MAX)?;
    let gates = number_of(found, "GATES", FEWEST_GATES, MOST_GATES)?;
    Some(Request::Sweep {
        seed,
        gates: gates as u32,
    })
}

fn chaintest<'a>(found: &ArgMatches<'a>) -> Option<Request<'a>>
    ensures line { option_map command_line_of result ≡ chaintest_of (rows_of (found_of found.now)) }
    ensures in_range { IfSome result IsInRange }
{
    let net = text(found, "NET")?;
    let stil = text(found, "STIL")?;
    let chains = number_or(found, "chains", 1, 1, MOST_CHAINS)?;
    Some(Request::ChainTest {
        net,
        stil,
        chains: chains as u32,
    })
}

fn diagnose<'a>(found: &ArgMatches<'a>) -> Option<Request<'a>>
    ensures line { option_map command_line_of result ≡ diagnose_of (rows_of (found_of found.now)) }
    ensures in_range { IfSome result IsInRange }
{
    let net = text(found, "NET")?;
    let stil = text(found, "STIL")?;
    let log = text(found, "LOG")?;
    let chains = number_or(found, "chains", 1, 1, MOST_CHAINS)?;
    let workers = number_or(found, "workers", 1, 1, MOST_WORKERS)?;
    let rank = number_if(found, "rank", 1, u64::MAX)?;
    let options = DiagnoseOptions {
        chains: chains as u32,
        workers: workers as u32,
        rank,
    };
    Some(Request::Diagnose {
        net,
        stil,
        log,
        options,
    })
}

fn grade<'a>(found: &ArgMatches<'a>) -> Option<Request<'a>>
    ensures line { option_map command_line_of result ≡ grade_of (rows_of (found_of found.now)) }
    ensures in_range { IfSome result IsInRange }
{
    let net = text(found, "NET")?;
    let stil = text(found, "STIL")?;
    let prefix = text(found, "PREFIX")?;
    let chains = number_or(found, "chains", 1, 1, MOST_CHAINS)?;
    Some(Request::Grade {
        net,
        stil,
        prefix,
        chains: chains as u32,
    })
}

fn numbers(found: &ArgMatches<'_>) -> Option<SearchNumbers>
    ensures value { result ≡ numbers_of (rows_of (found_of found.now)) }
    ensures in_range { IfSome result AreInRange }
{
    let chains = number_or(found, "chains", 1, 1, MOST_CHAINS)?;
    let workers = number_or(found, "workers", 1, 1, MOST_WORKERS)?;
    let limit = number_or(found, "limit", 100, 1, MOST_LIMIT)?;
    let seed = number_or(found, "seed", 1, 0, u64::MAX)?;
    Some(SearchNumbers {
        chains: chains as u32,
        workers: workers as u32,
        limit: limit as u32,
        seed,
    })
}

// The search by a tree of decisions that has this name.
fn tree_engine(name: Option<&str>) -> Option<TreeEngine>
    ensures { result ≡ tree_engine_given (option_map (λ t. t.now) name.entry) }
{
    match name {
        Some("podem") => Some(TreeEngine::Podem),
        Some("fan") => Some(TreeEngine::Fan),
        Some(_) => None,
        None => Some(TreeEngine::Podem),
    }
}

// The search alone that has this name.
fn engine_alone(name: Option<&str>) -> Option<EngineName>
    ensures { result ≡ engine_alone_given (option_map (λ t. t.now) name.entry) }
{
    match name {
        Some("clauses") => Some(EngineName::Clauses),
        _ => Some(EngineName::Trees(tree_engine(name)?)),
    }
}

// How tests are searched, if it is a way that there is.
fn engine(name: Option<&str>, then: Option<&str>) -> Option<EngineName>
    ensures { result ≡ engine_given (option_map (λ t. t.now) name.entry) (option_map (λ t. t.now) then.entry) }
{
    match then {
        None => engine_alone(name),
        Some("clauses") => Some(EngineName::TreesThenClauses(tree_engine(name)?)),
        Some(_) => None,
    }
}

// The inputs that are held.
fn holds<'a>(alloc: Global, found: &ArgMatches<'a>) -> Result<Vec<Held<'a>>, NoRequest>
    ensures { AreHeld (holds_given (first_of (codes "hold") (rows_of (found_of found.now)))) result }
{
    match text(found, "hold") {
        Some(list) => holds_in(alloc, list),
        None => Ok(Vec::new(alloc)),
    }
}

// What a command that searches is given, or what is in the way.
fn search_line<'a>(found: &ArgMatches<'a>) -> Result<SearchLine<'a>, NoRequest>
    ensures value { IsSearch (search_of (rows_of (found_of found.now))) result }
    ensures in_range { IfOk result (λ line. AreInRange line.numbers) }
{
    let Some(net) = text(found, "NET") else {
        return Err(NoRequest::BadNumber);
    };
    let Some(prefix) = text(found, "PREFIX") else {
        return Err(NoRequest::BadNumber);
    };
    match numbers(found) {
        Some(numbers) => Ok(SearchLine {
            net,
            prefix,
            numbers,
        }),
        None => Err(NoRequest::BadNumber),
    }
}

// How many in a hundred of the faults are enough.
fn percent(found: &ArgMatches<'_>) -> Option<Option<u32>>
    ensures value { result ≡ number_if (codes "coverage") 1 most_percent (rows_of (found_of found.now)) }
    ensures in_range { IfSome result (IfIn 1 most_percent) }
{
    match number_if(found, "coverage", 1, MOST_PERCENT)? {
        Some(percent) => Some(Some(percent as u32)),
        None => Some(None),
    }
}

// How `run` searches, with this engine and these numbers.
fn options_with(
    found: &ArgMatches<'_>,
    numbers: SearchNumbers,
    engine: EngineName,
) -> Option<RunOptions>
    requires { AreInRange numbers }
    ensures value { result ≡ run_options_with (rows_of (found_of found.now)) numbers engine }
    ensures in_range { IfSome result AreInRunRange }
{
    let percent = percent(found)?;
    let rounds = number_or(found, "compact", 3, 0, MOST_ROUNDS)?;
    let times = number_or(found, "detect", 1, 1, MOST_TIMES)?;
    Some(RunOptions {
        engine,
        numbers,
        percent,
        rounds: rounds as u32,
        times: times as u32,
    })
}

// How `run` searches, with these numbers, or what is in the way.
fn run_options(found: &ArgMatches<'_>, numbers: SearchNumbers) -> Result<RunOptions, NoRequest>
    requires { AreInRange numbers }
    ensures value { AreOptions (run_options_of (rows_of (found_of found.now)) numbers) result }
    ensures in_range { IfOk result AreInRunRange }
{
    let Some(engine) = engine(text(found, "engine"), text(found, "then")) else {
        return Err(NoRequest::BadEngine);
    };
    options_with(found, numbers, engine).ok_or(NoRequest::BadNumber)
}

// The files of `run`.
fn run_names<'a>(
    found: &ArgMatches<'a>,
    order: Option<&'a str>,
    line: SearchLine<'a>,
) -> RunNames<'a>
    ensures { AreRunNames (rows_of (found_of found.now)) order.entry line.entry result }
{
    RunNames {
        net: line.net,
        prefix: line.prefix,
        order,
        list: text(found, "faults"),
        first: text(found, "with"),
    }
}

fn run<'a>(alloc: Global, found: &ArgMatches<'a>) -> Result<Request<'a>, NoRequest>
    ensures line { IsAsked (run_of (rows_of (found_of found.now))) result }
    ensures in_range { IfOk result IsInRange }
{
    let Some(order) = order(found) else {
        return Err(NoRequest::BadOrder);
    };
    let line = match search_line(found) {
        Ok(line) => line,
        Err(none) => return Err(none),
    };
    let options = match run_options(found, line.numbers) {
        Ok(options) => options,
        Err(none) => return Err(none),
    };
    match holds(alloc, found) {
        Ok(holds) => Ok(Request::Run {
            names: run_names(found, order, line),
            options,
            holds,
        }),
        Err(none) => Err(none),
    }
}

fn transition<'a>(alloc: Global, found: &ArgMatches<'a>) -> Result<Request<'a>, NoRequest>
    ensures line { IsAsked (transition_of (rows_of (found_of found.now))) result }
    ensures in_range { IfOk result IsInRange }
{
    let Some(engine) = engine(text(found, "engine"), text(found, "then")) else {
        return Err(NoRequest::BadEngine);
    };
    let line = match search_line(found) {
        Ok(line) => line,
        Err(none) => return Err(none),
    };
    match holds(alloc, found) {
        Ok(holds) => Ok(Request::Transition {
            net: line.net,
            prefix: line.prefix,
            options: SlowOptions {
                engine,
                numbers: line.numbers,
            },
            holds,
        }),
        Err(none) => Err(none),
    }
}

// A request, or a number is in the way: `clap` has seen to the rest.
fn taken<'a>(request: Option<Request<'a>>) -> Result<Request<'a>, NoRequest>
    ensures line { IsAsked (line_from (option_map command_line_of request.entry)) result }
    ensures in_range { IfSome request.entry IsInRange → IfOk result IsInRange }
{
    request.ok_or(NoRequest::BadNumber)
}

// The command that was used, by its name, and what was found of its arguments.
fn command<'b, 'a>(found: &'b ArgMatches<'a>) -> Option<(&'a str, &'b ArgMatches<'a>)>
    ensures { option_map (λ p. (p.0.now, rows_of (found_of p.1.now))) result
        ≡ subcommand_rows_of found.now }
{
    found.subcommand()
}

// What the command of this name asks for, by what was found of its arguments.
fn request_by<'a>(
    alloc: Global,
    name: &str,
    found: &ArgMatches<'a>,
) -> Result<Request<'a>, NoRequest>
    ensures line { IsAsked (line_by name.now (rows_of (found_of found.now))) result }
    ensures in_range { IfOk result IsInRange }
{
    match name {
        "scan" => scan(found),
        "faults" => taken(faults(found)),
        "run" => run(alloc, found),
        "play" => taken(play(found)),
        "check" => taken(check(found)),
        "sweep" => taken(sweep(found)),
        "chaintest" => taken(chaintest(found)),
        "diagnose" => taken(diagnose(found)),
        "transition" => transition(alloc, found),
        "grade" => taken(grade(found)),
        _ => Err(NoRequest::BadNumber),
    }
}

/// What was asked for, or why nothing was.
pub(crate) fn request_of<'a>(
    alloc: Global,
    found: &ArgMatches<'a>,
) -> Result<Request<'a>, NoRequest>
    ensures line { IsAsked (command_line_at (subcommand_rows_of found.now)) result }
    ensures in_range { IfOk result IsInRange }
{
    match command(found) {
        Some(used) => request_by(alloc, used.0, used.1),
        None => Err(NoRequest::BadNumber),
    }
}
