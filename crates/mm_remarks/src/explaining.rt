//! What `explain` prints of a word.

ghost use Rattle.std.specs.Prelude.{◌≡◌, map, option_map};
ghost use Rattle.mm_remarks.specs.Words as words;
ghost use Rattle.mm_remarks.specs.Words.{found_in, text_of};

use crate::entries::{CONTENT, EDITIONS, Entry, FAULTS, LAYOUT, OPENINGS, RECORDS, RULES};

/// What is printed of a word that no entry has.
pub const UNKNOWN: &str =
    "no such number. Try `mmpkg explain 34`, `mmpkg explain fault 91` or `mmpkg explain Q7`.\n";

/// The text of the first entry of a table that has this name.
fn lookup(mut table: &[Entry], word: &str) -> Option<&'static str>
    ensures { option_map (λ text. text.now) result
        ≡ found_in (map (λ entry. (entry.0.now, entry.1.now)) table.entry.now) word.now }
{
    while let [entry, rest @ ..] = table {
        if entry.0 == word {
            return Some(entry.1);
        }
        table = rest;
    }
    None
}

/// Of the table of what a record is refused for.
fn of_records(word: &str) -> Option<&'static str>
    ensures { option_map (λ text. text.now) result ≡ words.of_records word.now }
{
    lookup(&RECORDS, word)
}

/// Of the table of what systems, tables, matrices and tiles are refused for.
fn of_layout(word: &str) -> Option<&'static str>
    ensures { option_map (λ text. text.now) result ≡ words.of_layout word.now }
{
    lookup(&LAYOUT, word)
}

/// Of the table of what rows, media, relations and mapping rows are refused for.
fn of_content(word: &str) -> Option<&'static str>
    ensures { option_map (λ text. text.now) result ≡ words.of_content word.now }
{
    lookup(&CONTENT, word)
}

/// Of the table of what editions and kits are refused for.
fn of_editions(word: &str) -> Option<&'static str>
    ensures { option_map (λ text. text.now) result ≡ words.of_editions word.now }
{
    lookup(&EDITIONS, word)
}

/// Of the table of what ends the work.
fn of_faults(word: &str) -> Option<&'static str>
    ensures { option_map (λ text. text.now) result ≡ words.of_faults word.now }
{
    lookup(&FAULTS, word)
}

/// Of the table of what a file is, where it is no package.
fn of_openings(word: &str) -> Option<&'static str>
    ensures { option_map (λ text. text.now) result ≡ words.of_openings word.now }
{
    lookup(&OPENINGS, word)
}

/// Of the table of the sixteen rules.
fn of_rules(word: &str) -> Option<&'static str>
    ensures { option_map (λ text. text.now) result ≡ words.of_rules word.now }
{
    lookup(&RULES, word)
}

/// The text of the entry that has this name: a number, `Q1` to `Q16`, or `empty`.
pub fn explanation_of(word: &str) -> Option<&'static str>
    ensures { option_map (λ text. text.now) result ≡ text_of word.now }
{
    of_records(word)
        .or(of_layout(word))
        .or(of_content(word))
        .or(of_editions(word))
        .or(of_faults(word))
        .or(of_openings(word))
        .or(of_rules(word))
}
