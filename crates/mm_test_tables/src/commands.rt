//! Records, and the calls of their commands.

use mm_content::{drop_media, drop_row, drop_tile, put_media, put_row, put_tile};
use mm_definitions::answers::{Fault, Outcome};
use mm_definitions::bounded::{Coordinate, MatrixSide, PixelSize, TileSide};
use mm_definitions::bytes::{MediaBytes, TileBytes};
use mm_definitions::commands::{Matrix, PlainKind, RelationName, Step};
use mm_definitions::extents::Bounds;
use mm_definitions::names::Name;
use mm_definitions::places::TilePlace;
use mm_meta::{add_matrix, add_pyramid, add_srs, add_table, drop_table, touch};
use mm_relate::{add_map, add_relation, drop_map, drop_relation};
use sqlite::{Alter, Connection, Transaction};
use std::alloc::Global;
use std::fmt::Write;

pub(crate) const FIRST: &str = "1970-01-01T00:00:00.000Z";

pub(crate) const LATER: &str = "2000-02-29T23:59:59.999Z";

/// 0 for done, else the number of the refusal or of the fault; None for a refusal of a piece.
fn number_of(outcome: Result<Outcome, Fault>) -> Option<u8> {
    match outcome {
        Ok(outcome) => match outcome {
            Outcome::Done => Some(0),
            Outcome::Refused(refusal) => match refusal.piece() {
                None => Some(refusal.number()),
                Some(_) => None,
            },
        },
        Err(fault) => Some(fault.number()),
    }
}

pub(crate) fn fields_of(alloc: Global, text: &str, separator: char) -> Option<Vec<&str>> {
    let mut fields = Vec::new(alloc);
    for field in text.split(separator) {
        fields.push(field).ok()?;
    }
    Some(fields)
}

pub(crate) fn number(field: &str) -> Option<i64> {
    field.parse::<i64>().ok()
}

fn zoom(field: &str) -> Option<u8> {
    field.parse::<u8>().ok()
}

pub(crate) fn place(zoom: &str, column: &str, row: &str) -> Option<TilePlace> {
    TilePlace::new(number(zoom)?, number(column)?, number(row)?)
}

fn step(field: &str) -> Option<Step> {
    match field {
        "two" => Some(Step::Two),
        "other" => Some(Step::Other),
        _ => None,
    }
}

fn plain_kind(field: &str) -> Option<PlainKind> {
    match field {
        "attributes" => Some(PlainKind::Attributes),
        "media" => Some(PlainKind::Media),
        _ => None,
    }
}

fn relation_name(field: &str) -> Option<RelationName> {
    match field {
        "media" => Some(RelationName::Media),
        "simple_attributes" => Some(RelationName::SimpleAttributes),
        _ => None,
    }
}

fn coordinate(field: &str) -> Option<Coordinate> {
    Coordinate::new(number(field)?)
}

fn matrix(fields: &[&str]) -> Option<Matrix> {
    let [mw, mh, tw, th, px, py] = fields else {
        return None;
    };
    Some(Matrix {
        mw: MatrixSide::new(number(mw)?)?,
        mh: MatrixSide::new(number(mh)?)?,
        tw: TileSide::new(number(tw)?)?,
        th: TileSide::new(number(th)?)?,
        px: PixelSize::new(number(px)?)?,
        py: PixelSize::new(number(py)?)?,
    })
}

fn call_srs<S: Alter>(tx: &mut Transaction<'_, S>, fields: &[&str]) -> Option<u8> {
    let [
        id,
        name,
        organization,
        organization_id,
        definition,
        description,
    ] = fields
    else {
        return None;
    };
    let id = number(id)?;
    let organization_id = number(organization_id)?;
    number_of(add_srs(
        tx,
        id,
        name,
        organization,
        organization_id,
        definition,
        description,
    ))
}

fn call_pyramid<S: Alter>(
    tx: &mut Transaction<'_, S>,
    fields: &[&str],
    last_change: &str,
) -> Option<u8> {
    let [table, identifier, srs, min_x, min_y, max_x, max_y, kind] = fields else {
        return None;
    };
    let srs = number(srs)?;
    let (min_x, min_y) = (coordinate(min_x)?, coordinate(min_y)?);
    let (max_x, max_y) = (coordinate(max_x)?, coordinate(max_y)?);
    let kind = step(kind)?;
    let table = Name::read(table)?;
    number_of(add_pyramid(
        tx,
        &table,
        identifier,
        srs,
        &Bounds {
            min_x,
            min_y,
            max_x,
            max_y,
        },
        kind,
        last_change,
    ))
}

fn call_matrix<S: Alter>(
    tx: &mut Transaction<'_, S>,
    fields: &[&str],
    last_change: &str,
) -> Option<u8> {
    let [table, level, sizes @ ..] = fields else {
        return None;
    };
    let level = zoom(level)?;
    let matrix = matrix(sizes)?;
    number_of(add_matrix(tx, &Name::read(table)?, level, &matrix, last_change))
}

fn call_table<S: Alter>(
    tx: &mut Transaction<'_, S>,
    fields: &[&str],
    last_change: &str,
) -> Option<u8> {
    let [table, kind, identifier] = fields else {
        return None;
    };
    let kind = plain_kind(kind)?;
    number_of(add_table(tx, &Name::read(table)?, kind, identifier, last_change))
}

fn call_tile<S: Alter>(
    alloc: Global,
    tx: &mut Transaction<'_, S>,
    fields: &[&str],
    last_change: &str,
) -> Option<u8> {
    let [table, level, column, row, bytes] = fields else {
        return None;
    };
    let place = place(level, column, row)?;
    let bytes = TileBytes::read(alloc, bytes).ok()?;
    let table = Name::read(table)?;
    number_of(put_tile(tx, &table, place, bytes.as_slice(), last_change))
}

fn call_tile_drop<S: Alter>(
    tx: &mut Transaction<'_, S>,
    fields: &[&str],
    last_change: &str,
) -> Option<u8> {
    let [table, level, column, row] = fields else {
        return None;
    };
    let place = place(level, column, row)?;
    let table = Name::read(table)?;
    number_of(drop_tile(tx, &table, place, last_change))
}

fn call_row<S: Alter>(
    tx: &mut Transaction<'_, S>,
    fields: &[&str],
    last_change: &str,
) -> Option<u8> {
    let [table, id, title, note, amount] = fields else {
        return None;
    };
    let (id, amount) = (number(id)?, number(amount)?);
    number_of(put_row(
        tx,
        &Name::read(table)?,
        id,
        title,
        note,
        amount,
        last_change,
    ))
}

fn call_media<S: Alter>(
    alloc: Global,
    tx: &mut Transaction<'_, S>,
    fields: &[&str],
    last_change: &str,
) -> Option<u8> {
    let [table, id, content_type, bytes] = fields else {
        return None;
    };
    let id = number(id)?;
    let bytes = MediaBytes::read(alloc, bytes).ok()?;
    let table = Name::read(table)?;
    number_of(put_media(tx, &table, id, content_type, bytes.as_slice(), last_change))
}

fn call_item_drop<S: Alter>(
    tx: &mut Transaction<'_, S>,
    word: &str,
    fields: &[&str],
    last_change: &str,
) -> Option<u8> {
    let [table, id] = fields else {
        return None;
    };
    let id = number(id)?;
    let table = Name::read(table)?;
    match word {
        "row-drop" => number_of(drop_row(tx, &table, id, last_change)),
        _ => number_of(drop_media(tx, &table, id, last_change)),
    }
}

fn call_relation<S: Alter>(tx: &mut Transaction<'_, S>, fields: &[&str]) -> Option<u8> {
    let [mapping, base, related, name] = fields else {
        return None;
    };
    let name = relation_name(name)?;
    let mapping = Name::read(mapping)?;
    let base = Name::read(base)?;
    let related = Name::read(related)?;
    number_of(add_relation(tx, &mapping, &base, &related, name))
}

fn call_map<S: Alter>(tx: &mut Transaction<'_, S>, word: &str, fields: &[&str]) -> Option<u8> {
    let [mapping, base, related] = fields else {
        return None;
    };
    let (base, related) = (number(base)?, number(related)?);
    let mapping = Name::read(mapping)?;
    match word {
        "map" => number_of(add_map(tx, &mapping, base, related)),
        _ => number_of(drop_map(tx, &mapping, base, related)),
    }
}

/// The calls that take a name alone.
fn call_named<S: Alter>(
    tx: &mut Transaction<'_, S>,
    word: &str,
    fields: &[&str],
    last_change: &str,
) -> Option<u8> {
    let [name] = fields else {
        return None;
    };
    let name = Name::read(name)?;
    match word {
        "drop" => number_of(drop_table(tx, &name)),
        "relation-drop" => number_of(drop_relation(tx, &name)),
        "touch" => number_of(touch(tx, &name, last_change)),
        _ => None,
    }
}

/// What the call of a record is answered: 0 where it is done, else a number. `touch,TABLE` stands for the call `touch`.
fn call<S: Alter>(
    alloc: Global,
    tx: &mut Transaction<'_, S>,
    record: &str,
    last_change: &str,
) -> Option<u8> {
    let fields = fields_of(alloc, record, ',')?;
    let (word, fields) = fields.split_first()?;
    match *word {
        "srs" => call_srs(tx, fields),
        "pyramid" => call_pyramid(tx, fields, last_change),
        "matrix" => call_matrix(tx, fields, last_change),
        "table" => call_table(tx, fields, last_change),
        "tile" => call_tile(alloc, tx, fields, last_change),
        "tile-drop" => call_tile_drop(tx, fields, last_change),
        "row" => call_row(tx, fields, last_change),
        "media" => call_media(alloc, tx, fields, last_change),
        "row-drop" | "media-drop" => call_item_drop(tx, word, fields, last_change),
        "relation" => call_relation(tx, fields),
        "map" | "map-drop" => call_map(tx, word, fields),
        _ => call_named(tx, word, fields, last_change),
    }
}

/// What a record is answered in a transaction of its own, which is committed.
pub(crate) fn answer<S: Alter>(
    alloc: Global,
    conn: &mut Connection<S>,
    record: &str,
    last_change: &str,
) -> Option<u8> {
    if !conn.is_autocommit() {
        return None;
    }
    let mut tx = conn.transaction();
    let number = call(alloc, &mut tx, record, last_change);
    tx.commit().ok()?;
    number
}

fn answers<S: Alter>(
    alloc: Global,
    tx: &mut Transaction<'_, S>,
    list: &str,
    last_change: &str,
) -> Option<String> {
    let mut text = String::new(alloc);
    for line in list.lines() {
        let (_, record) = line.split_once(' ')?;
        let number = call(alloc, tx, record, last_change)?;
        writeln!(text, "{number} {record}").ok()?;
    }
    Some(text)
}

/// What the records of a list of lines `NUMBER RECORD` are answered in one transaction, in the same form.
pub(crate) fn answers_in_one<S: Alter>(
    alloc: Global,
    conn: &mut Connection<S>,
    list: &str,
    last_change: &str,
) -> Option<String> {
    if !conn.is_autocommit() {
        return None;
    }
    let mut tx = conn.transaction();
    let text = answers(alloc, &mut tx, list, last_change);
    tx.commit().ok()?;
    text
}
