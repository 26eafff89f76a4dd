//! What the words ask for.

ghost use Rattle.std.specs.Prelude.{◌≡◌, ◌⊎◌, IfOk, IfSome, codes, map};
ghost use Rattle.clap.specs.Words.{FailsBy, fault_of, found_of, kind_of, rows_of};
ghost use Rattle.mm_definitions.specs.Bounds.{IsId};
ghost use Rattle.mm_arguments.specs.CommandLine.{command_line};
ghost use Rattle.mm_arguments.specs.Requests.{WordsAsk, AsksFor, IsGivenId, IsGivenMoment, IsRequestWithin, IsGivenWord, IsLastWord, IsMaybeWord, Wants};
ghost use Rattle.mm_arguments.specs.Requests as spec;

use crate::commands::command;
use clap::error::ErrorKind;
use clap::{ArgMatches, Error};
use mm_definitions::limits::LAST_ID;
use mm_definitions::moments::Moment;
use std::alloc::{AllocError, Global};

/// What the words ask for. Where no moment is given it is the clock's.
#[derive(Clone, Copy, Debug)]
pub enum Request<'a> {
    Init {
        file: &'a str,
    },
    Run {
        file: &'a str,
        at: Option<Moment>,
    },
    Kit {
        file: &'a str,
        edition: &'a str,
        folder: &'a str,
        at: Option<Moment>,
    },
    Check {
        file: &'a str,
    },
    List {
        file: &'a str,
    },
    /// The number of a row is from 1 to 2^53; without one all rows are meant.
    Show {
        file: &'a str,
        table: &'a str,
        id: Option<i64>,
    },
    /// The port is from 1 to 65535, and the number of connections from 1 to 1,000,000.
    Serve {
        file: &'a str,
        port: u16,
        count: u32,
    },
    /// The same limits as of `Serve`, and the media table whose items run as pages, where one is named.
    Desk {
        file: &'a str,
        port: u16,
        count: u32,
        page: Option<&'a str>,
    },
    Migrate {
        file: &'a str,
    },
    /// The last of the words that were given.
    Explain {
        answer: &'a str,
    },
}

/// What is told to people beside the answers, on standard error.
#[derive(Clone, Copy, Debug)]
pub struct Aids {
    /// What each refusal says.
    pub words: bool,
    /// What is being done, and how far it is.
    pub progress: bool,
}

/// A value that `clap` let pass is outside its range.
#[derive(Drop)]
struct Unfit;

// `clap` has tested the range, for the message that it prints. The clause rests on the test of `Moment::new`.
fn moment_of(matches: &ArgMatches) -> Result<Option<Moment>, Unfit>
    ensures { IfOk result (IsGivenMoment (rows_of (found_of matches.now))) }
{
    if !matches.contains_id("at") {
        return Ok(None);
    }
    let Some(milliseconds) = matches.get_one::<i64>("at") else {
        return Err(Unfit);
    };
    match Moment::new(milliseconds) {
        Some(moment) => Ok(Some(moment)),
        None => Err(Unfit),
    }
}

/// The word of an argument.
fn word_of<'a>(matches: &ArgMatches<'a>, id: &str) -> Option<&'a str>
    ensures { IfSome result (IsGivenWord (rows_of (found_of matches.now)) id.now) }
{
    matches.get_str(id)
}

fn kit_of<'a>(file: &'a str, matches: &ArgMatches<'a>) -> Option<Request<'a>>
    requires { IsGivenWord (rows_of (found_of matches.now)) (codes "FILE") file }
    ensures within { IfSome result IsRequestWithin }
    ensures asks { IfSome result (AsksFor (codes "kit") (rows_of (found_of matches.now))) }
{
    Some(Request::Kit {
        file,
        edition: word_of(matches, "EDITION")?,
        folder: word_of(matches, "FOLDER")?,
        at: moment_of(matches).ok()?,
    })
}

// `clap` has tested the ranges, for the message that it prints. The clause rests on this test.
fn serve_of<'a>(file: &'a str, matches: &ArgMatches<'a>) -> Option<Request<'a>>
    requires { IsGivenWord (rows_of (found_of matches.now)) (codes "FILE") file }
    ensures within { IfSome result IsRequestWithin }
    ensures asks { IfSome result (AsksFor (codes "serve") (rows_of (found_of matches.now))) }
{
    let port = matches.get_one::<u16>("port")?;
    let count = matches.get_one::<u32>("count")?;
    if port == 0 || count == 0 || count > 1000000 {
        return None;
    }
    Some(Request::Serve { file, port, count })
}

/// The word of an argument that need not stand.
fn maybe_word<'a>(matches: &ArgMatches<'a>, id: &str) -> Result<Option<&'a str>, Unfit>
    ensures { IfOk result (IsMaybeWord (rows_of (found_of matches.now)) id.now) }
{
    if !matches.contains_id(id) {
        return Ok(None);
    }
    match word_of(matches, id) {
        Some(word) => Ok(Some(word)),
        None => Err(Unfit),
    }
}

fn desk_of<'a>(file: &'a str, matches: &ArgMatches<'a>) -> Option<Request<'a>>
    requires { IsGivenWord (rows_of (found_of matches.now)) (codes "FILE") file }
    ensures within { IfSome result IsRequestWithin }
    ensures asks { IfSome result (AsksFor (codes "desk") (rows_of (found_of matches.now))) }
{
    let port = matches.get_one::<u16>("port")?;
    let count = matches.get_one::<u32>("count")?;
    if port == 0 || count == 0 || count > 1000000 {
        return None;
    }
    match maybe_word(matches, "page") {
        Ok(page) => Some(Request::Desk {
            file,
            port,
            count,
            page,
        }),
        Err(_) => None,
    }
}

/// The last of the words of an argument.
fn last_word<'a>(matches: &ArgMatches<'a>, id: &str) -> Option<&'a str>
    ensures { IfSome result (IsLastWord (rows_of (found_of matches.now)) id.now) }
{
    matches.get_strs(id)?.last().copied()
}

// `clap` has tested the range, for the message that it prints. The clause rests on this test.
fn id_of(matches: &ArgMatches) -> Result<Option<i64>, Unfit>
    ensures within { IfOk result (λ id. IfSome id IsId) }
    ensures given { IfOk result (IsGivenId (rows_of (found_of matches.now))) }
{
    if !matches.contains_id("ID") {
        return Ok(None);
    }
    let Some(id) = matches.get_one::<i64>("ID") else {
        return Err(Unfit);
    };
    if id < 1 || id > LAST_ID as i64 {
        return Err(Unfit);
    }
    Ok(Some(id))
}

fn show_of<'a>(file: &'a str, matches: &ArgMatches<'a>) -> Option<Request<'a>>
    requires { IsGivenWord (rows_of (found_of matches.now)) (codes "FILE") file }
    ensures within { IfSome result IsRequestWithin }
    ensures asks { IfSome result (AsksFor (codes "show") (rows_of (found_of matches.now))) }
{
    Some(Request::Show {
        file,
        table: word_of(matches, "TABLE")?,
        id: id_of(matches).ok()?,
    })
}

fn request_of<'a>(name: &str, matches: &ArgMatches<'a>) -> Option<Request<'a>>
    ensures within { IfSome result IsRequestWithin }
    ensures asks { IfSome result (AsksFor name.now (rows_of (found_of matches.now))) }
{
    if name == "explain" {
        return Some(Request::Explain {
            answer: last_word(matches, "ANSWER")?,
        });
    }
    let file = word_of(matches, "FILE")?;
    match name {
        "init" => Some(Request::Init { file }),
        "run" => Some(Request::Run {
            file,
            at: moment_of(matches).ok()?,
        }),
        "kit" => kit_of(file, matches),
        "check" => Some(Request::Check { file }),
        "list" => Some(Request::List { file }),
        "show" => show_of(file, matches),
        "serve" => serve_of(file, matches),
        "desk" => desk_of(file, matches),
        "migrate" => Some(Request::Migrate { file }),
        _ => None,
    }
}

/// What the words ask for, as `clap` reads them on the command line that is defined. The first word is the program's name,
/// as the usage line shows it.
///
/// # Errors
///
/// Help that was asked for, wrong arguments, and want of memory: `status_of` tells them apart, and the error prints
/// itself, with a line end behind it. But for want of memory it comes only where the command line has a fault on the
/// words, and is of its kind.
pub fn read_arguments<'a>(alloc: Global, words: &'a [&'a str]) -> Result<Request<'a>, Error>
    ensures within { IfOk result IsRequestWithin }
    ensures asks { IfOk result (WordsAsk (map (λ word. word.now) words.entry.now)) }
    ensures fails { FailsBy
        (fault_of command_line (map (λ word. word.now) words.entry.now)) result }
{
    let matches = command(alloc)?.try_get_matches_from(words)?;
    let asked = match matches.subcommand() {
        Some((name, inner)) => request_of(name, inner),
        None => None,
    };
    match asked {
        Some(request) => Ok(request),
        None => Err(AllocError.into()),
    }
}

/// What the words want told on standard error, as `clap` reads them on the command line that is defined.
///
/// # Errors
///
/// As of `read_arguments`: on words that it reads, want of memory alone.
pub fn read_aids<'a>(alloc: Global, words: &'a [&'a str]) -> Result<Aids, Error>
    ensures wants { IfOk result (Wants (map (λ word. word.now) words.entry.now)) }
    ensures fails { FailsBy
        (fault_of command_line (map (λ word. word.now) words.entry.now)) result }
{
    let matches = command(alloc)?.try_get_matches_from(words)?;
    match matches.subcommand() {
        Some((_, inner)) => Ok(Aids {
            words: inner.get_flag("words"),
            progress: inner.get_flag("progress"),
        }),
        None => Err(AllocError.into()),
    }
}

/// The exit status of an error: 0 for help that was asked for, 2 for wrong arguments, and none for want of memory,
/// which is a fault and no matter of the words.
pub fn status_of(error: &Error) -> Option<u8>
    ensures told { result ≡ spec.status_of (kind_of error.now) }
    ensures status { IfSome result (λ status. (status ≡ 0) ⊎ (status ≡ 2)) }
{
    if matches!(error.kind(), ErrorKind::OutOfMemory) {
        return None;
    }
    if error.exit_code() == 0 {
        return Some(0);
    }
    Some(2)
}
