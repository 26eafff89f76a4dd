//! Questions to a package, and their answers: a line each, with a bar behind each value.

use crate::commands::{fields_of, number, place};
use crate::rows::add_bytes;
use mm_check::verify;
use mm_content::{contents, media, row, tile};
use mm_definitions::answers::{Fault, Open, RuleNumber};
use mm_definitions::commands::Kind;
use mm_definitions::entries::{Entry, Media, Related, Row};
use mm_definitions::names::Name;
use mm_definitions::units::CURRENT;
use mm_meta::{init, look};
use mm_relate::related;
use sqlite::{Alter, Connection};
use std::alloc::Global;
use std::fmt::Write;

/// The answer where nothing stands: `none`, or the number of the fault.
fn add_nothing(text: &mut String, fault: Option<Fault>) -> Option<()> {
    match fault {
        None => text.push_str("none|\n").ok(),
        Some(fault) => writeln!(text, "fault {}|", fault.number()).ok(),
    }
}

fn add_tile(text: &mut String, found: &Result<Option<Vec<u8>>, Fault>) -> Option<()> {
    match found {
        Ok(Some(bytes)) => {
            add_bytes(text, bytes.as_slice())?;
            text.push_str("|\n").ok()
        }
        Ok(None) => add_nothing(text, None),
        Err(fault) => add_nothing(text, Some(*fault)),
    }
}

fn add_medium(text: &mut String, found: &Result<Option<Media>, Fault>) -> Option<()> {
    match found {
        Ok(Some(medium)) => {
            write!(text, "{}|", medium.content_type.as_str()).ok()?;
            add_bytes(text, medium.bytes.as_slice())?;
            text.push_str("|\n").ok()
        }
        Ok(None) => add_nothing(text, None),
        Err(fault) => add_nothing(text, Some(*fault)),
    }
}

fn add_row(text: &mut String, found: &Result<Option<Row>, Fault>) -> Option<()> {
    match found {
        Ok(Some(row)) => writeln!(
            text,
            "{}|{}|{}|",
            row.title.as_str(),
            row.note.as_str(),
            row.amount
        )
        .ok(),
        Ok(None) => add_nothing(text, None),
        Err(fault) => add_nothing(text, Some(*fault)),
    }
}

fn add_items(text: &mut String, items: &[Related]) -> Option<()> {
    for item in items {
        writeln!(
            text,
            "{}|{}|{}|{}|",
            item.mapping.as_str(),
            item.name.as_str(),
            item.table.as_str(),
            item.id
        )
        .ok()?;
    }
    Some(())
}

fn add_related(text: &mut String, found: &Result<Option<Vec<Related>>, Fault>) -> Option<()> {
    match found {
        Ok(Some(items)) => add_items(text, items.as_slice()),
        Ok(None) => add_nothing(text, None),
        Err(fault) => add_nothing(text, Some(*fault)),
    }
}

fn kind_word(kind: Kind) -> &'static str {
    match kind {
        Kind::Two => "two",
        Kind::Other => "other",
        Kind::Attributes => "attributes",
        Kind::Media => "media",
    }
}

fn add_entry(text: &mut String, entry: &Entry) -> Option<()> {
    write!(
        text,
        "{}|{}|{}|{}|",
        entry.table.as_str(),
        kind_word(entry.kind),
        entry.last_change.as_str(),
        entry.identifier.as_str()
    )
    .ok()?;
    if let Some((system, extent)) = &entry.place {
        write!(
            text,
            "{}|{}|{}|{}|{}|",
            system,
            extent.min_x(),
            extent.min_y(),
            extent.max_x(),
            extent.max_y()
        )
        .ok()?;
    }
    text.push_str("\n").ok()
}

fn add_entries(text: &mut String, entries: &[Entry]) -> Option<()> {
    for entry in entries {
        add_entry(text, entry)?;
    }
    Some(())
}

fn add_contents(text: &mut String, found: &Result<Vec<Entry>, Fault>) -> Option<()> {
    match found {
        Ok(entries) => add_entries(text, entries.as_slice()),
        Err(fault) => add_nothing(text, Some(*fault)),
    }
}

fn add_look(text: &mut String, found: Result<(), Open>) -> Option<()> {
    match found {
        Ok(()) => text.push_str("a package|\n").ok(),
        Err(why) => match why {
            Open::Version(version) => writeln!(text, "version {version}|").ok(),
            Open::NoProfile => text.push_str("no profile|\n").ok(),
            Open::BadProfile => text.push_str("bad profile|\n").ok(),
            Open::BadBlobs => text.push_str("bad blobs|\n").ok(),
            Open::Rule(rule) => writeln!(text, "rule {}|", rule.get()).ok(),
            Open::Fault(fault) => add_nothing(text, Some(fault)),
        },
    }
}

fn add_made(text: &mut String, made: Result<(), Fault>) -> Option<()> {
    match made {
        Ok(()) => text.push_str("done|\n").ok(),
        Err(fault) => add_nothing(text, Some(fault)),
    }
}

fn add_verdict(text: &mut String, found: Result<Option<RuleNumber>, Fault>) -> Option<()> {
    match found {
        Ok(Some(rule)) => writeln!(text, "{}|", rule.get()).ok(),
        Ok(None) => add_nothing(text, None),
        Err(fault) => add_nothing(text, Some(fault)),
    }
}

/// The answer to a question about a tile.
fn ask_tile<S: Alter>(conn: &mut Connection<S>, fields: &[&str], text: &mut String) -> Option<()> {
    let [table, level, column, line] = fields else {
        return None;
    };
    let place = place(level, column, line)?;
    let table = Name::read(table)?;
    if !conn.is_autocommit() {
        return None;
    }
    add_tile(text, &tile(conn, &table, place))
}

/// The answer to a question about an attribute row or a medium.
fn ask_item<S: Alter>(
    alloc: Global,
    conn: &mut Connection<S>,
    word: &str,
    fields: &[&str],
    text: &mut String,
) -> Option<()> {
    let [table, id] = fields else {
        return None;
    };
    let id = number(id)?;
    let table = Name::read(table)?;
    if !conn.is_autocommit() {
        return None;
    }
    match word {
        "row" => add_row(text, &row(conn, &table, id)),
        "media" => add_medium(text, &media(conn, &table, id)),
        "related" => add_related(text, &related(alloc, conn, &table, id)),
        _ => None,
    }
}

/// The answer to a question about the whole package.
fn ask_whole<S: Alter>(
    alloc: Global,
    conn: &mut Connection<S>,
    word: &str,
    text: &mut String,
) -> Option<()> {
    if !conn.is_autocommit() {
        return None;
    }
    match word {
        "contents" => add_contents(text, &contents(alloc, conn)),
        "look" => add_look(text, look(conn)),
        "init" => add_made(text, init(conn)),
        "verify" => add_verdict(text, verify(conn, CURRENT)),
        _ => None,
    }
}

/// The answer to `tile TABLE ZOOM COLUMN ROW`, `row TABLE ID`, `media TABLE ID`, `related TABLE ID`, `contents`, `look`, `init` or `verify`.
pub(crate) fn ask<S: Alter>(
    alloc: Global,
    conn: &mut Connection<S>,
    question: &str,
    text: &mut String,
) -> Option<()> {
    let fields = fields_of(alloc, question, ' ')?;
    let (word, fields) = fields.split_first()?;
    match *word {
        "tile" => ask_tile(conn, fields, text),
        "row" | "media" | "related" => ask_item(alloc, conn, word, fields, text),
        _ => ask_whole(alloc, conn, word, text),
    }
}
