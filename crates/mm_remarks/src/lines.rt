//! What an answer line says.

ghost use Rattle.std.specs.Prelude.{IfSome};
ghost use Rattle.mm_remarks.specs.Words.{IsOfItsText};

use crate::explaining::explanation_of;

/// A line that says that something was not accepted.
#[derive(Clone, Copy, Debug)]
pub enum Told<'a> {
    /// A record was refused with this number.
    Refused(&'a str),
    /// An edition was, at this piece, with this number.
    PieceRefused { piece: &'a str, number: &'a str },
    /// A kit was, at this piece, with this number.
    KitRefused { piece: &'a str, number: &'a str },
    /// A fault, or what a file is: a number, a rule, or `empty`.
    Stopped(&'a str),
}

fn refused_of(rest: &str) -> Option<Told<'_>> {
    match rest.strip_prefix("53 ") {
        Some(rest) => {
            let (piece, number) = rest.split_once(' ')?;
            Some(Told::PieceRefused { piece, number })
        }
        None => Some(Told::Refused(rest)),
    }
}

fn stop_of(line: &str) -> Option<Told<'_>> {
    if let Some((_, number)) = line.split_once("fault ") {
        return Some(Told::Stopped(number));
    }
    if let Some(number) = line.strip_prefix("not a package ") {
        return Some(Told::Stopped(number));
    }
    if let Some(rule) = line.strip_prefix("rule ") {
        return Some(Told::Stopped(rule));
    }
    if line == "not empty" {
        return Some(Told::Stopped("empty"));
    }
    None
}

/// What an answer line, without its end, says was not accepted, and none where all was.
pub fn told_of(line: &str) -> Option<Told<'_>> {
    if let Some(rest) = line.strip_prefix("kit refused ") {
        let (piece, number) = rest.split_once(' ')?;
        return Some(Told::KitRefused { piece, number });
    }
    match line.split_once("refused ") {
        Some((_, rest)) => refused_of(rest),
        None => stop_of(line),
    }
}

/// What a number or a rule says, in a line: the first line of its text, behind the colon.
pub fn meaning_of(word: &str) -> Option<&'static str>
    ensures { IfSome result (λ meaning. IsOfItsText word.now meaning.now) }
{
    let (line, _) = explanation_of(word)?.split_once('\n')?;
    let (_, meaning) = line.split_once(": ")?;
    Some(meaning)
}
