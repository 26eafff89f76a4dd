//! Records that are taken, and are hardly meant as they are: a note's word with @ that is no place, a map of less than a metre.

use std::fmt;
use std::fmt::{Display, Formatter};

/// The micrometres of a metre.
const METRE: i64 = 1_000_000;

/// What of a record is hardly meant as it is.
#[derive(Clone, Copy, Debug)]
pub enum Slip<'a> {
    /// This word of a note begins with @, and no word of the note is a place.
    NoPlace(&'a str),
    /// A map is less than a metre wide or high, as one is whose metres were told as micrometres.
    Tiny,
}

impl Display for Slip<'_> {
    fn fmt<W: fmt::Write>(&self, f: &mut Formatter<W>) -> fmt::Result {
        match self {
            Slip::NoPlace(word) => write!(
                f,
                "{word:?} of its note is no place: that is @SYSTEM:EAST/NORTH in metres, as @25832:500400.5/5600500"
            ),
            Slip::Tiny => write!(
                f,
                "the map is less than a metre wide or high: an extent is told in micrometres"
            ),
        }
    }
}

/// Whether a text is 1 to so many digits.
fn are_digits(text: &str, most: usize) -> bool {
    (1..=most).contains(&text.len()) && text.bytes().all(|byte| byte.is_ascii_digit())
}

fn is_system(text: &str) -> bool {
    text == "-1" || (are_digits(text, 16) && !text.starts_with('0'))
}

fn are_metres(text: &str) -> bool {
    let digits = text.strip_prefix('-').unwrap_or(text);
    match digits.split_once('.') {
        Some((whole, part)) => are_digits(whole, 9) && are_digits(part, 6),
        None => are_digits(digits, 9),
    }
}

/// Whether a word of a note is a place.
fn is_place(word: &str) -> bool {
    let Some(text) = word.strip_prefix('@') else {
        return false;
    };
    let metres = match text.split_once(':') {
        Some((system, _)) if !is_system(system) => return false,
        Some((_, metres)) => metres,
        None => text,
    };
    match metres.split_once('/') {
        Some((east, north)) => are_metres(east) && are_metres(north),
        None => false,
    }
}

/// The first word of a note that is meant for a place, where none is one.
fn slip_of_note(note: &str) -> Option<Slip<'_>> {
    if note.split_whitespace().any(is_place) {
        return None;
    }
    let word = note.split_whitespace().find(|word| word.starts_with('@'))?;
    Some(Slip::NoPlace(word))
}

/// Whether less than a metre lies between two coordinates.
fn is_short(from: &str, to: &str) -> bool {
    match (from.parse::<i64>(), to.parse::<i64>()) {
        (Ok(from), Ok(to)) => to.saturating_sub(from) < METRE,
        _ => false,
    }
}

/// What of a record that was taken is hardly meant as it is.
pub fn slip_of<'a>(fields: &[&'a str]) -> Option<Slip<'a>> {
    match *fields {
        ["row", _, _, _, note, _] | ["stage", _, _, "row", _, _, _, note, _] => slip_of_note(note),
        ["pyramid", _, _, _, left, low, right, high, _] => {
            (is_short(left, right) || is_short(low, high)).then_some(Slip::Tiny)
        }
        _ => None,
    }
}
