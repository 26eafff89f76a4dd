//! The subcommands and their arguments, with the texts that help prints.

ghost use Rattle.std.specs.Prelude.{IfOk, codes};
ghost use Rattle.mm_arguments.specs.CommandLine as line;
ghost use Rattle.mm_arguments.specs.CommandLine.{IsArgument, IsCommand};

use crate::texts;
use clap::{Arg, ArgAction, Command, value_parser};
use mm_definitions::limits::LAST_ID;
use std::alloc::{AllocError, Global};

fn file_argument<'a>(alloc: Global) -> Arg<'a>
    ensures { IsArgument line.file result }
{
    Arg::new(alloc, "FILE").required(true).help(
        "The package's file; its journal FILE-wal stands beside it",
    )
}

fn at_argument<'a>(alloc: Global) -> Arg<'a>
    ensures { IsArgument line.at result }
{
    Arg::new(alloc, "at")
        .long("at")
        .value_name("MS")
        .help(
            "The moment of all changes, in milliseconds since 1970-01-01T00:00:00Z [default: the clock's]",
        )
        .value_parser(value_parser!(i64).range(0..=253402300799999))
}

fn edition_argument<'a>(alloc: Global) -> Arg<'a>
    ensures { IsArgument (line.word (codes "EDITION")) result }
{
    Arg::new(alloc, "EDITION")
        .required(true)
        .help("The name of the open edition that takes the kit's pieces")
}

fn folder_argument<'a>(alloc: Global) -> Arg<'a>
    ensures { IsArgument (line.word (codes "FOLDER")) result }
{
    Arg::new(alloc, "FOLDER").required(true).help(
        "The folder of the kit: its list kit.csv and the files that the list names",
    )
}

fn table_argument<'a>(alloc: Global) -> Arg<'a>
    ensures { IsArgument (line.word (codes "TABLE")) result }
{
    Arg::new(alloc, "TABLE")
        .required(true)
        .help("The name of a table of kind attributes")
}

fn id_argument<'a>(alloc: Global) -> Arg<'a>
    ensures { IsArgument line.id result }
{
    Arg::new(alloc, "ID")
        .help("The number of one row, from 1 to 9007199254740992 [default: all rows]")
        .value_parser(value_parser!(i64).range(1..=LAST_ID as i64))
}

fn port_argument<'a>(alloc: Global) -> Arg<'a>
    ensures { IsArgument line.port result }
{
    Arg::new(alloc, "port")
        .long("port")
        .value_name("P")
        .required(true)
        .help("The TCP port of 127.0.0.1 to listen on, from 1 to 65535")
        .value_parser(value_parser!(u16).range(1..=65535))
}

fn count_argument<'a>(alloc: Global) -> Arg<'a>
    ensures { IsArgument line.count result }
{
    Arg::new(alloc, "count")
        .long("count")
        .value_name("N")
        .default_value("1000000")
        .help("How many connections to serve before the end, from 1 to 1000000")
        .value_parser(value_parser!(u32).range(1..=1000000))
}

fn words_argument<'a>(alloc: Global) -> Arg<'a>
    ensures { IsArgument line.words result }
{
    Arg::new(alloc, "words")
        .long("words")
        .action(ArgAction::SetTrue)
        .help("Write to standard error what each refusal says, and which field or file it is about")
}

fn progress_argument<'a>(alloc: Global) -> Arg<'a>
    ensures { IsArgument line.progress result }
{
    Arg::new(alloc, "progress")
        .long("progress")
        .action(ArgAction::SetTrue)
        .help("Write to standard error what is being done, and how far it is")
}

fn answer_argument<'a>(alloc: Global) -> Arg<'a>
    ensures { IsArgument line.answer result }
{
    Arg::new(alloc, "ANSWER")
        .required(true)
        .num_args(1..=8)
        .help("A number, a rule, or a whole line as it was printed, whose last word counts")
}

fn page_argument<'a>(alloc: Global) -> Arg<'a>
    ensures { IsArgument line.page result }
{
    Arg::new(alloc, "page")
        .long("page")
        .value_name("TABLE")
        .help("The media table whose items a browser may run as pages, as `viewer`")
}

fn init_command<'a>(alloc: Global) -> Result<Command<'a>, AllocError>
    ensures { IfOk result (IsCommand line.init) }
{
    Command::new(alloc, "init")
        .about("Makes a new package with no table, in a file that is missing or empty")
        .after_long_help(texts::INIT)
        .arg(file_argument(alloc))
}

fn run_command<'a>(alloc: Global) -> Result<Command<'a>, AllocError>
    ensures { IfOk result (IsCommand line.run_subcommand) }
{
    Command::new(alloc, "run")
        .about("Applies the CSV records of standard input, and answers each with a line")
        .after_help(texts::SHORT_RUN)
        .after_long_help(texts::RUN)
        .arg(file_argument(alloc))?
        .arg(at_argument(alloc))?
        .arg(words_argument(alloc))?
        .arg(progress_argument(alloc))
}

fn kit_command<'a>(alloc: Global) -> Result<Command<'a>, AllocError>
    ensures { IfOk result (IsCommand line.kit) }
{
    Command::new(alloc, "kit")
        .about(
            "Stages the pieces of a kit in an open edition; an import that was stopped is done again",
        )
        .after_help(texts::SHORT_KIT)
        .after_long_help(texts::KIT)
        .arg(file_argument(alloc))?
        .arg(edition_argument(alloc))?
        .arg(folder_argument(alloc))?
        .arg(at_argument(alloc))?
        .arg(words_argument(alloc))?
        .arg(progress_argument(alloc))
}

fn check_command<'a>(alloc: Global) -> Result<Command<'a>, AllocError>
    ensures { IfOk result (IsCommand line.check) }
{
    Command::new(alloc, "check")
        .about("Checks the whole package against its rules, and changes nothing in it")
        .after_help("Prints `package ok`, or `rule Qk` for the rule that fails.")
        .after_long_help(texts::CHECK)
        .arg(file_argument(alloc))?
        .arg(progress_argument(alloc))
}

fn migrate_command<'a>(alloc: Global) -> Result<Command<'a>, AllocError>
    ensures { IfOk result (IsCommand line.migrate) }
{
    Command::new(alloc, "migrate")
        .about("Brings a package of profile 1, in whole millimetres, to whole micrometres")
        .after_help(texts::SHORT_MIGRATE)
        .arg(file_argument(alloc))
}

fn list_command<'a>(alloc: Global) -> Result<Command<'a>, AllocError>
    ensures { IfOk result (IsCommand line.list) }
{
    Command::new(alloc, "list")
        .about("Lists the tables and editions of the package")
        .after_help(texts::SHORT_LIST)
        .arg(file_argument(alloc))
}

fn show_command<'a>(alloc: Global) -> Result<Command<'a>, AllocError>
    ensures { IfOk result (IsCommand line.show) }
{
    Command::new(alloc, "show")
        .about("Prints rows of a table as the CSV records that write them")
        .after_help(texts::SHORT_SHOW)
        .after_long_help(texts::SHOW)
        .arg(file_argument(alloc))?
        .arg(table_argument(alloc))?
        .arg(id_argument(alloc))
}

fn serve_command<'a>(alloc: Global) -> Result<Command<'a>, AllocError>
    ensures { IfOk result (IsCommand line.serve) }
{
    Command::new(alloc, "serve")
        .about(
            "Serves tiles, media and lists of the package over HTTP, one connection after another",
        )
        .after_help(texts::SHORT_SERVE)
        .after_long_help(texts::SERVE)
        .arg(file_argument(alloc))?
        .arg(port_argument(alloc))?
        .arg(count_argument(alloc))?
        .arg(progress_argument(alloc))
}

fn desk_command<'a>(alloc: Global) -> Result<Command<'a>, AllocError>
    ensures { IfOk result (IsCommand line.desk) }
{
    Command::new(alloc, "desk")
        .about("Shows the package in a browser and takes records from it, in one session")
        .after_help(texts::SHORT_DESK)
        .after_long_help(texts::DESK)
        .arg(file_argument(alloc))?
        .arg(port_argument(alloc))?
        .arg(count_argument(alloc))?
        .arg(page_argument(alloc))?
        .arg(progress_argument(alloc))
}

fn explain_command<'a>(alloc: Global) -> Result<Command<'a>, AllocError>
    ensures { IfOk result (IsCommand line.explain) }
{
    Command::new(alloc, "explain")
        .about("Tells what a number says, and what to do then")
        .after_help(
            "Examples: mmpkg explain 34\n          mmpkg explain fault 91\n          mmpkg explain Q7",
        )
        .arg(answer_argument(alloc))
}

/// The program, before its subcommands.
fn program_command<'a>(alloc: Global) -> Command<'a>
    ensures { IsCommand line.start result }
{
    Command::new(alloc, "mmpkg")
        .version(texts::VERSION)
        .about(
            "Edits offline map packages: GeoPackage tables with coordinates in whole micrometres",
        )
        .after_help(texts::PROGRAM)
        .subcommand_required(true)
        .arg_required_else_help(true)
}

/// The program with its first subcommands: those that make a package and fill it.
fn with_changes<'a>(alloc: Global) -> Result<Command<'a>, AllocError>
    ensures { IfOk result (IsCommand line.with_changes) }
{
    program_command(alloc)
        .subcommand(init_command(alloc)?)?
        .subcommand(run_command(alloc)?)?
        .subcommand(kit_command(alloc)?)
}

/// The same with those that look at a package.
fn with_looks<'a>(alloc: Global) -> Result<Command<'a>, AllocError>
    ensures { IfOk result (IsCommand line.with_looks) }
{
    with_changes(alloc)?
        .subcommand(check_command(alloc)?)?
        .subcommand(list_command(alloc)?)?
        .subcommand(show_command(alloc)?)
}

/// The whole command line.
pub(crate) fn command<'a>(alloc: Global) -> Result<Command<'a>, AllocError>
    ensures { IfOk result (IsCommand line.command_line) }
{
    with_looks(alloc)?
        .subcommand(serve_command(alloc)?)?
        .subcommand(desk_command(alloc)?)?
        .subcommand(migrate_command(alloc)?)?
        .subcommand(explain_command(alloc)?)
}
