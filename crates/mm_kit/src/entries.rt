//! The records of a kit's list.

ghost use Rattle.std.specs.Prelude.{◌≡◌, ◌∷◌, IfOk, map};
ghost use Rattle.mm_kit.specs.Entries as entries;
ghost use Rattle.mm_definitions.specs.Reading.{ReadsTo};
ghost use Rattle.mm_definitions.specs.Records.{IsLeast, id_field};
ghost use Rattle.mm_definitions.specs.Fields.{HoldsValue, IsAgainst, Whole};
ghost use Rattle.mm_definitions.specs.declared.answers.ReadFault.TheVariants as faults;
ghost use Rattle.mm_kit.specs.Entries.{HoldsAgainstEntry, IsEntry, IsInForm, IsLeftToAsk, entry_of, file_of, file_read, without_file, text_of};

use crate::file_names::FileName;
use mm_base::read_piece;
use mm_definitions::answers::ReadFault;
use mm_definitions::bounded::Id;
use mm_definitions::commands::Piece;
use mm_definitions::content_types::ContentType;
use mm_definitions::limits::{LAST_ID, MOST_PIECES};
use mm_definitions::names::Name;
use mm_definitions::numbers::read_number;
use mm_definitions::places::TilePlace;
use mm_definitions::refusals::Reason;
use std::alloc::{AllocError, Global};

/// A record of a kit's list: a piece, or a tile or media item whose bytes a file holds.
#[derive(Drop)]
pub enum KitEntry {
    Ready(Piece),
    Tile {
        table: Name,
        place: TilePlace,
        file: FileName,
    },
    Media {
        table: Name,
        id: Id,
        content_type: ContentType,
        file: FileName,
    },
}

/// Takes out the last field where the record is one of a tile or a media item, and puts `00` in its place.
fn show<'a>(fields: &mut Vec<&'a str>) -> Result<Option<&'a str>, AllocError>
    ensures file { IfOk result
        (λ file. text_of file ≡ file_of (map (λ f. f.now) fields.old.items)) }
    ensures shown { IfOk result
        (λ file. map (λ f. f.now) fields.new.items
        ≡ without_file (map (λ f. f.now) fields.old.items)) }
{
    let Some(word) = fields.first() else {
        return Ok(None);
    };
    if *word != "tile" && *word != "media" {
        return Ok(None);
    }
    let Some(name) = fields.pop() else {
        return Ok(None);
    };
    fields.push("00")?;
    Ok(Some(name))
}

/// The entry of a piece and, where its bytes are a file's, of that file.
fn place_entry(piece: Piece, file: Option<FileName>) -> KitEntry
    ensures { result ≡ entry_of piece file }
{
    let Some(file) = file else {
        return KitEntry::Ready(piece);
    };
    match piece {
        Piece::Tile {
            table,
            place,
            bytes: _bytes,
        } => KitEntry::Tile { table, place, file },
        Piece::Media {
            table,
            id,
            content_type,
            bytes: _bytes,
        } => KitEntry::Media {
            table,
            id,
            content_type,
            file,
        },
        other => KitEntry::Ready(other),
    }
}

/// The name of a file that a field gives, if there is such a field: 57 where it is out of form.
fn read_file(field: Option<&str>) -> Result<Option<FileName>, Reason>
    ensures { file_read (text_of field.entry) result }
{
    let Some(text) = field else {
        return Ok(None);
    };
    match FileName::read(text) {
        Some(name) => Ok(Some(name)),
        None => Err(Reason::NO_FILE),
    }
}

/// The file's name, where nothing is against a record of a piece at this place: 54 where there are too many records, 56
/// where its number isn't its place, 57 where the file's name is out of form.
fn place_record(place: u32, number: i64, field: Option<&str>) -> Result<Option<FileName>, Reason>
    ensures { IsLeftToAsk place number (text_of field.entry) result }
{
    if place > MOST_PIECES {
        return Err(Reason::TOO_MANY_PIECES);
    }
    if number != i64::from(place) {
        return Err(Reason::NOT_THE_PLACE);
    }
    read_file(field)
}

/// The least number that is against a record whose number is refused.
fn least_fault(number: Reason, piece: Result<Piece, ReadFault>) -> ReadFault
    ensures { result ≡ entries.least_fault number piece }
{
    let Err(fault) = piece else {
        return ReadFault::refused(number);
    };
    match fault {
        ReadFault::Memory => ReadFault::Memory,
        ReadFault::Refused(why) => {
            if why.number() < number.get() {
                ReadFault::Refused(why)
            } else {
                ReadFault::refused(number)
            }
        }
    }
}

/// The entry of a number and the record of a piece.
fn read_record(
    alloc: Global,
    place: u32,
    number: &str,
    rest: Vec<&str>,
) -> Result<KitEntry, ReadFault>
    ensures { ReadsTo (IsEntry place (number.now ∷ map (λ f. f.now) rest.entry.items))
        (IsLeast (HoldsAgainstEntry place
        (number.now ∷ map (λ f. f.now) rest.entry.items))) result }
{
    let mut fields = rest;
    let Ok(file) = show(&mut fields) else {
        return Err(ReadFault::Memory);
    };
    let piece = read_piece(alloc, fields.as_slice());
    match read_number(number, 1, LAST_ID as i64) {
        Ok(number) => {
            let piece = piece?;
            match place_record(place, number, file) {
                Ok(file) => Ok(place_entry(piece, file)),
                Err(number) => Err(ReadFault::refused(number)),
            }
        }
        Err(number) => Err(least_fault(number, piece)),
    }
}

/// The entry of a record at a place, counted from 1. Else the least number that is against the record: 10 where it is
/// no record of a kit, 11 where a number or length is outside its limits, 12 where a name is none, 54 where it is behind the
/// 4,096th, 56 where its number isn't its place, 57 where the name of its file is out of form. Memory is answered only for
/// want of memory.
pub(crate) fn read_entry(alloc: Global, place: u32, fields: &[&str]) -> Result<KitEntry, ReadFault>
    ensures { ReadsTo (IsEntry place (map (λ f. f.now) fields.now))
        (IsLeast (HoldsAgainstEntry place (map (λ f. f.now) fields.now))) result }
{
    let [number, rest @ ..] = fields else {
        return Err(ReadFault::refused(Reason::NO_SUCH_RECORD));
    };
    let mut record = Vec::new(alloc);
    if record.extend_from_slice(rest).is_err() {
        return Err(ReadFault::Memory);
    }
    read_record(alloc, place, number, record)
}
