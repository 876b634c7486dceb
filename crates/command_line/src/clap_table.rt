//! The table of commands, as `clap` takes it.
ghost use Rattle.std.specs.Prelude.{◌≡◌, ◌≤◌, IfOk, false, map};
ghost use Rattle.clap.specs.Words.{app_of, rule_of};
ghost use Rattle.clap.specs.declared.builder.command.Command.TheViews.{out-Command as fields_of};
ghost use Rattle.command_line.specs.Table.{command_table, program};
ghost use Rattle.command_line.specs.inner.Arguments.{Adds, Grows, IsShaped, asked_by, command_shapes, shape_by, with_subcommands};

use crate::values::{MOST_PERCENT, MOST_ROUNDS, MOST_TIMES};
use clap::builder::ValueParser;
use clap::{Arg, Command};
use plain_text::{FEWEST_GATES, MOST_CHAINS, MOST_GATES, MOST_LIMIT, MOST_WORKERS};
use std::alloc::{AllocError, Global};

/// An argument of a command: its name, the least and the greatest of a number, and its help.
#[derive(Clone, Copy)]
enum Argument<'a> {
    /// A value that must be there, known by its place.
    Required(&'a str, &'a str),
    /// A number that must be there, known by its place.
    RequiredNumber(&'a str, u64, u64, &'a str),
    /// `--name text`.
    Text(&'a str, &'a str),
    /// `--name number`.
    Number(&'a str, u64, u64, &'a str),
}

use Argument::{Number, Required, RequiredNumber, Text};

/// A command of the table: its name, what it does, and its arguments.
#[derive(Clone, Copy)]
struct Listed<'a> {
    name: &'a str,
    about: &'a str,
    arguments: &'a [Argument<'a>],
}

const NET: Argument<'static> = Required("NET", "The netlist, a .bench file");

const STIL: Argument<'static> = Required("STIL", "The test, a STIL file");

const RUN_PREFIX: Argument<'static> = Required(
    "PREFIX",
    "What the names of the five files begin with",
);

const CHAINS: Argument<'static> = Number(
    "chains",
    1,
    MOST_CHAINS,
    "How many chains at most, 1 to 256 [default: 1]",
);

const WORKERS: Argument<'static> = Number(
    "workers",
    1,
    MOST_WORKERS,
    "How many workers, 1 to 64 [default: 1]",
);

const LIMIT: Argument<'static> = Number(
    "limit",
    1,
    MOST_LIMIT,
    "The backtrack limit: how many ends a search may close, 1 to 100000 [default: 100]",
);

const SEED: Argument<'static> = Number(
    "seed",
    0,
    u64::MAX,
    "What free bits are drawn from [default: 1]",
);

const ENGINE: Argument<'static> = Text(
    "engine",
    "The search: podem, fan or clauses [default: podem]",
);

const THEN: Argument<'static> = Text("then", "What settles what podem or fan gives up: clauses");

const HOLD: Argument<'static> = Text("hold", "Inputs that are held, as NAME=0,NAME=1");

const ORDER: Argument<'static> = Text(
    "order",
    "A file with a line for each chain, the names of its cells",
);

const SCAN: Listed<'static> = Listed {
    name: "scan",
    about: "Puts scan cells into a netlist",
    arguments: &[
        NET,
        Required("OUT", "The file for the scanned netlist"),
        CHAINS,
        ORDER,
    ],
};

const FAULTS: Listed<'static> = Listed {
    name: "faults",
    about: "Lists the faults of a netlist and their classes",
    arguments: &[NET],
};

const RUN: Listed<'static> = Listed {
    name: "run",
    about: "Searches tests for the faults of a netlist",
    arguments: &[
        NET,
        RUN_PREFIX,
        CHAINS,
        WORKERS,
        LIMIT,
        SEED,
        ENGINE,
        THEN,
        HOLD,
        Text("faults", "A file that lists the faults that are asked for"),
        Number(
            "coverage",
            1,
            MOST_PERCENT,
            "Stop once so many in a hundred of the faults are detected",
        ),
        Text(
            "with",
            "A STIL file, or the prefix of one, whose patterns come first",
        ),
        Number(
            "compact",
            0,
            MOST_ROUNDS,
            "How many rounds make the patterns fewer, 0 to 100 [default: 3]",
        ),
        Number(
            "detect",
            1,
            MOST_TIMES,
            "How many patterns are to detect each fault, 1 to 100 [default: 1]",
        ),
        ORDER,
    ],
};

const PLAY: Listed<'static> = Listed {
    name: "play",
    about: "Plays a test on a netlist",
    arguments: &[
        Required("NET", "The scanned netlist, a .bench file"),
        STIL,
        Text("fault", "A fault that the netlist has, as stem q/0"),
    ],
};

const CHECK: Listed<'static> = Listed {
    name: "check",
    about: "Checks the files of a run",
    arguments: &[RUN_PREFIX],
};

const SWEEP: Listed<'static> = Listed {
    name: "sweep",
    about: "Searches tests for a sample netlist and plays them",
    arguments: &[
        RequiredNumber(
            "SEED",
            0,
            u64::MAX,
            "What the netlist and free bits are drawn from",
        ),
        RequiredNumber(
            "GATES",
            FEWEST_GATES,
            MOST_GATES,
            "How many gates, 16 to 20000",
        ),
    ],
};

const CHAINTEST: Listed<'static> = Listed {
    name: "chaintest",
    about: "Says what a test shows of the faults in the scan hardware",
    arguments: &[NET, STIL, CHAINS],
};

const DIAGNOSE: Listed<'static> = Listed {
    name: "diagnose",
    about: "Lists the faults that explain a tester's log",
    arguments: &[
        NET,
        STIL,
        Required("LOG", "What failed on the tester"),
        CHAINS,
        WORKERS,
        Number(
            "rank",
            1,
            u64::MAX,
            "List so many faults that come nearest to the log",
        ),
    ],
};

const TRANSITION: Listed<'static> = Listed {
    name: "transition",
    about: "Searches tests for the slow lines of a netlist",
    arguments: &[
        NET, RUN_PREFIX, CHAINS, WORKERS, LIMIT, SEED, ENGINE, THEN, HOLD,
    ],
};

const GRADE: Listed<'static> = Listed {
    name: "grade",
    about: "Says which stuck lines a test detects",
    arguments: &[
        NET,
        STIL,
        Required("PREFIX", "What the name of the file of grades begins with"),
        CHAINS,
    ],
};

fn commands<'a>() -> [Listed<'a>; 10]
    ensures { map shape_by result ≡ command_shapes }
{
    [
        SCAN, FAULTS, RUN, PLAY, CHECK, SWEEP, CHAINTEST, DIAGNOSE, TRANSITION, GRADE,
    ]
}

// The argument in the terms of `clap`.
fn arg<'a>(alloc: Global, argument: Argument<'a>) -> Arg<'a>
    ensures rule { rule_of result ≡ asked_by argument.entry }
    ensures local { result.global ≡ false }
{
    match argument {
        Required(name, help) => Arg::new(alloc, name).required(true).help(help),
        RequiredNumber(name, low, high, help) => Arg::new(alloc, name)
            .required(true)
            .help(help)
            .value_parser(ValueParser::unsigned(low, high)),
        Text(name, help) => Arg::new(alloc, name).long(name).help(help),
        Number(name, low, high, help) => Arg::new(alloc, name)
            .long(name)
            .help(help)
            .value_parser(ValueParser::unsigned(low, high)),
    }
}

// The command with more arguments.
fn with_arguments<'a>(
    alloc: Global,
    command: Command<'a>,
    arguments: &[Argument<'a>],
) -> Result<Command<'a>, AllocError>
    ensures { IfOk result (Grows command.entry (map asked_by arguments.now)) }
{
    let mut command = command;
    for it in arguments {
        command = command.arg(arg(alloc, *it))?;
    }
    Ok(command)
}

fn command<'a>(alloc: Global, listed: Listed<'a>) -> Result<Command<'a>, AllocError>
    ensures { IfOk result (IsShaped (shape_by listed.entry)) }
{
    let command = Command::new(alloc, listed.name).about(listed.about);
    with_arguments(alloc, command, listed.arguments)
}

// The table with one more command. Where there was no memory for that, the table is let go as a
// whole: a command is many lists, and where `?` lets it go, each is let go apart.
fn with_command<'a>(
    table: Command<'a>,
    command: Result<Command<'a>, AllocError>,
) -> Result<Command<'a>, AllocError>
    ensures { Adds table.entry command.entry result }
{
    match command {
        Ok(command) => table.subcommand(command),
        Err(error) => {
            drop(table);
            Err(error)
        }
    }
}

// The program's own words, before its commands. Its texts call it by this name, however it is
// started.
fn program<'a>(alloc: Global) -> Result<Command<'a>, AllocError>
    ensures { IfOk result (λ c. app_of c ≡ program) }
{
    Command::new(alloc, "atpg")
        .version("0.1")
        .disable_help_subcommand(true)
        .subcommand_required(true)
        .bin_name("atpg")
}

// The program with these commands.
fn with_commands<'a>(alloc: Global, commands: &[Listed<'a>]) -> Result<Command<'a>, AllocError>
    ensures { IfOk result (λ c. app_of c ≡ with_subcommands program (map shape_by commands.now)) }
{
    let program = program(alloc)?;
    let mut table = program;
    for it in commands {
        table = with_command(table, command(alloc, *it))?;
    }
    Ok(table)
}

pub(crate) fn table<'a>(alloc: Global) -> Result<Command<'a>, AllocError>
    ensures { IfOk result (λ c. app_of c ≡ command_table) }
{
    with_commands(alloc, &commands())
}
