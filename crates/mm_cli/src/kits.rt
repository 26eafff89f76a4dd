//! Which record or file of a kit is refused, in words: the folder is looked at once more.

use csv::{ByteRecord, ReaderBuilder, StringRecord};
use mm_definitions::limits::{MOST_MEDIA_BYTES, MOST_TILE_BYTES};
use mm_definitions::refusals::{NO_FILE, OUT_OF_LIMITS};
use mm_kit::{FileName, MOST_LIST_BYTES};
use mm_remarks::{is_piece_with_file, remark_on_piece};
use std::io::Read;
use std::{fs, io};

/// The record at this place of the list.
fn record_at(rt: &HostRuntime, list: &str, place: u64) -> io::Result<Option<StringRecord>> {
    let file = fs::File::open(rt, list)?;
    let mut bytes = Vec::new(rt.alloc());
    let _count = file.take(MOST_LIST_BYTES).read_to_end(&mut bytes)?;
    let mut rows = ReaderBuilder::new()
        .has_headers(false)
        .flexible(true)
        .from_reader(rt.alloc(), bytes.as_slice());
    let mut row = ByteRecord::new(rt.alloc());
    for _ in 0..place {
        match rows.read_byte_record(&mut row) {
            Ok(true) => {}
            _ => return Ok(None),
        }
    }
    Ok(StringRecord::from_byte_record(row).ok())
}

/// Tells what is wrong with the list itself.
fn tell_list(rt: &HostRuntime, list: &str, number: u8) -> io::Result<()> {
    match number {
        NO_FILE => eprint!(rt; ": {list}"),
        OUT_OF_LIMITS => {
            let size = fs::metadata(rt, list)?.len();
            eprint!(rt; ": {list} has {size} bytes, wanted are at most {MOST_LIST_BYTES}")
        }
        _ => Ok(()),
    }
}

/// Tells what is wrong with a file.
fn tell_file(rt: &HostRuntime, folder: &str, kind: &str, name: &str, number: u8) -> io::Result<()> {
    if FileName::read(name).is_none() {
        return eprint!(rt; ": {name:?} is no name of a file");
    }
    if number == NO_FILE {
        return eprint!(rt; ": {folder}/{name} is missing");
    }
    let path = format!(in rt.alloc(); "{folder}/{name}")?;
    let size = fs::metadata(rt, path.as_str())?.len();
    let most = if kind == "tile" {
        MOST_TILE_BYTES
    } else {
        MOST_MEDIA_BYTES
    };
    eprint!(rt; ": {path} has {size} bytes, wanted are 1 to {most}")
}

/// Tells which field or file of a kit's record is refused with this number, where it is one.
pub fn tell_piece(rt: &HostRuntime, folder: &str, place: u64, number: u8) -> io::Result<()> {
    let list = format!(in rt.alloc(); "{folder}/kit.csv")?;
    if place == 0 {
        return tell_list(rt, list.as_str(), number);
    }
    let Some(text) = record_at(rt, list.as_str(), place)? else {
        return Ok(());
    };
    let mut fields = Vec::new(rt.alloc());
    for field in text.iter() {
        fields.push(field)?;
    }
    if let Some(remark) = remark_on_piece(fields.as_slice(), number) {
        return eprint!(rt; ": {remark}");
    }
    if let [_, kind, .., name] = fields.as_slice() {
        if is_piece_with_file(kind) && (number == NO_FILE || number == OUT_OF_LIMITS) {
            return tell_file(rt, folder, kind, name, number);
        }
    }
    Ok(())
}
