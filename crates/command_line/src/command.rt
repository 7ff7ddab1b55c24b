//! The command line, as clap reads it.
ghost use Rattle.std.specs.Prelude.{IfOk, codes};
ghost use Rattle.clap.specs.Words.{App, Rule, new_app, with_rule, with_subcommand};
ghost use Rattle.command_line.specs.CommandLine.{bare_app, check_app, file_rule, flag_rule, history_app, limit_rule, outcomes_app, ringrun, run_app, table_rule, tables_rule, times_rule, turns_rule, with_search, workers_rule, IsApp, IsRead};

use crate::job::TIMES;
use clap::{Arg, ArgAction, Command, value_parser};
use limits::WORKERS;
use std::alloc::{AllocError, Global};

/// A command, or that there was no memory for it.
type Made<'a> = Result<Command<'a>, AllocError>;

/// The program's commands.
pub fn command<'a>(alloc: Global) -> Result<Command<'a>, AllocError>
    ensures { IfOk result (λ c. IsApp c ringrun) }
{
    let command = with_command(Ok(bare(alloc)), run(alloc));
    let command = with_command(command, outcomes(alloc));
    let command = with_command(command, history(alloc));
    with_command(command, check(alloc))
}

/// The program without its commands.
fn bare<'a>(alloc: Global) -> Command<'a>
    ensures { IsApp result bare_app }
{
    Command::new(alloc, "ringrun")
        .version("0.1.0")
        .about(
            "Carries scripts of submissions out on a ring runtime with the behaviour of io_uring.",
        )
        .after_help("Example:\n  ringrun run examples/first.ring\nprints\n  a 0")
        .subcommand_required(true)
        .arg_required_else_help(true)
}

/// The command with another one within it.
fn with_command<'a>(command: Made<'a>, other: Made<'a>) -> Made<'a>
    ensures { (app one : App) → IfOk command.entry (λ c. IsApp c app) → IfOk other.entry (λ c. IsApp c one) → IfOk result (λ c. IsApp c (with_subcommand app one.top)) }
{
    command?.subcommand(other?)
}

/// The command with another word.
fn with_arg<'a>(command: Made<'a>, arg: Arg<'a>) -> Made<'a>
    ensures { (app : App) (rule : Rule) → IfOk command.entry (λ c. IsApp c app) → IsRead arg.entry rule → IfOk result (λ c. IsApp c (with_rule app rule)) }
{
    command?.arg(arg)
}

/// A command with its texts, of which the second is a longer one.
fn described<'a>(
    alloc: Global,
    name: &'a str,
    about: &'a str,
    more: &'a str,
    example: &'a str,
) -> Command<'a>
    ensures { IsApp result (new_app name.now) }
{
    Command::new(alloc, name)
        .about(about)
        .long_about(more)
        .after_help(example)
}

/// The command with the words that each search has.
fn with_search<'a>(alloc: Global, command: Made<'a>) -> Made<'a>
    ensures { (app : App) → IfOk command.entry (λ c. IsApp c app) → IfOk result (λ c. IsApp c (with_search app)) }
{
    let command = with_arg(command, limit(alloc));
    let command = with_arg(command, progress(alloc));
    let command = with_arg(command, json(alloc));
    with_arg(command, file(alloc))
}

/// The command `run`.
fn run<'a>(alloc: Global) -> Made<'a>
    ensures { IfOk result (λ c. IsApp c run_app) }
{
    let command = described(
        alloc,
        "run",
        "Carries a script out by threads, and prints its table of completions.",
        "Carries a script out by threads, and prints its table of completions: a line for each entry, with its label and \
             its reply. Each ring has a thread of its own, and so have the poller, which carries out the clock's lines, and \
             each of several workers.",
        "Example:\n  printf 'ring 4\\non 0\\nnop a\\nsubmit\\nwait a\\n' | ringrun run -\nprints\n  a 0\n\nStatus 0: the table was printed. 1: one line 'fault: ..' says why not. 2: the script has a fault, printed as\n'line N: ..'. 3: a line ran out of turns, printed as\n'stuck L' with the label that it waits for, or of the first entry that it submits.",
    );
    let command = with_arg(Ok(command), workers(alloc));
    let command = with_arg(command, turns(alloc));
    let command = with_arg(command, times(alloc));
    let command = with_arg(command, json(alloc));
    with_arg(command, file(alloc))
}

/// The command `outcomes`.
fn outcomes<'a>(alloc: Global) -> Made<'a>
    ensures { IfOk result (λ c. IsApp c outcomes_app) }
{
    let command = Command::new(alloc, "outcomes")
        .about("Lists every table of completions that a script can have, whatever the schedule.")
        .after_help(
            "Example:\n  printf 'ring 4\\non 0\\nnop a\\nsubmit\\nwait a\\n' | ringrun outcomes -\nprints\n  a 0\n\n  tables 1",
        );
    let first = flag(
        alloc,
        "stats",
        "Prints the number of states met, and the states a second, to standard error",
    );
    let second = flag(
        alloc,
        "explain",
        "Prints after each table a history that leads to it",
    );
    let command = with_arg(with_arg(Ok(command), first), second);
    with_search(alloc, command)
}

/// The command `history`.
fn history<'a>(alloc: Global) -> Made<'a>
    ensures { IfOk result (λ c. IsApp c history_app) }
{
    let command = Command::new(alloc, "history")
        .about(
            "Prints one legal history of a script that ends in a given table, or that there is none.",
        )
        .after_help(
            "Example: with the line `a 0` in the file TABLE,\n  printf 'ring 4\\non 0\\nnop a\\nsubmit\\nwait a\\n' | ringrun history - TABLE\nprints\n  submit a\n  begin a\n  reply a 0\n  shut",
        );
    let first = flag(
        alloc,
        "lanes",
        "Prints the history as a table with a column for each that takes steps",
    );
    let second = flag(
        alloc,
        "mermaid",
        "Prints the history as a sequence diagram for Mermaid; counts before --lanes",
    );
    let command = with_arg(with_arg(Ok(command), first), second);
    with_arg(with_search(alloc, command), table(alloc))
}

/// The command `check`.
fn check<'a>(alloc: Global) -> Made<'a>
    ensures { IfOk result (λ c. IsApp c check_app) }
{
    let command = described(
        alloc,
        "check",
        "Says of each table whether it is one of those that a script can have.",
        "Says of each file whether its table is one of those that a script can have, by one search: a line 'FILE: yes' or \
             'FILE: no'. A file may have several tables, each followed by an empty line; then it is 'yes' where all are.",
        "Example: with the line `a 0` in the file TABLE,\n  printf 'ring 4\\non 0\\nnop a\\nsubmit\\nwait a\\n' | ringrun check - TABLE\nprints\n  TABLE: yes\n\nStatus 0: each is. 3: one isn't.",
    );
    with_arg(with_search(alloc, Ok(command)), tables(alloc))
}

fn workers<'a>(alloc: Global) -> Arg<'a>
    ensures { IsRead result workers_rule }
{
    Arg::new(alloc, "workers")
        .long("workers")
        .value_name("N")
        .value_parser(value_parser!(u32).range(1..=i64::from(WORKERS)))
        .default_value("2")
        .help("How many workers the board has, 1 to 64; each of several has a thread")
}

fn turns<'a>(alloc: Global) -> Arg<'a>
    ensures { IsRead result turns_rule }
{
    Arg::new(alloc, "turns")
        .long("turns")
        .value_name("N")
        .value_parser(value_parser!(u32).range(1..))
        .default_value("10000000")
        .help("How often a line that waits is tried, 1 to 4294967295")
}

fn times<'a>(alloc: Global) -> Arg<'a>
    ensures { IsRead result times_rule }
{
    Arg::new(alloc, "times")
        .long("times")
        .value_name("N")
        .value_parser(value_parser!(u32).range(1..=i64::from(TIMES)))
        .help(
            "Carries the script out N times, 1 to 10000, and prints each table that came, with how often",
        )
}

fn limit<'a>(alloc: Global) -> Arg<'a>
    ensures { IsRead result limit_rule }
{
    Arg::new(alloc, "limit")
        .long("limit")
        .value_name("N")
        .value_parser(value_parser!(u32).range(1..))
        .default_value("200000")
        .help("How many states a search may meet, 1 to 4294967295")
}

fn progress<'a>(alloc: Global) -> Arg<'a>
    ensures { IsRead result (flag_rule (codes "progress")) }
{
    flag(
        alloc,
        "progress",
        "Prints to standard error how many states a search has met, after two seconds and then once a second",
    )
}

fn json<'a>(alloc: Global) -> Arg<'a>
    ensures { IsRead result (flag_rule (codes "json")) }
{
    flag(alloc, "json", "Prints the answer as one JSON value")
}

/// A flag with this name and this help.
fn flag<'a>(alloc: Global, name: &'a str, help: &'a str) -> Arg<'a>
    ensures { IsRead result (flag_rule name.now) }
{
    Arg::new(alloc, name)
        .long(name)
        .action(ArgAction::SetTrue)
        .help(help)
}

fn file<'a>(alloc: Global) -> Arg<'a>
    ensures { IsRead result file_rule }
{
    Arg::new(alloc, "FILE")
        .required(true)
        .action(ArgAction::Set)
        .help("The file with the script; - is standard input")
}

fn table<'a>(alloc: Global) -> Arg<'a>
    ensures { IsRead result table_rule }
{
    Arg::new(alloc, "TABLE")
        .required(true)
        .action(ArgAction::Set)
        .help("The file with the table")
}

fn tables<'a>(alloc: Global) -> Arg<'a>
    ensures { IsRead result tables_rule }
{
    Arg::new(alloc, "TABLE")
        .required(true)
        .action(ArgAction::Append)
        .help("The files with the tables")
}
