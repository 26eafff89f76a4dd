//! The records that were read and are not answered yet, for the words about their fields.

use csv::{ByteRecord, Reader, ReaderBuilder, StringRecord};
use mm_remarks::{Hears, Opening, remark_on};
use std::alloc::Global;
use std::cell::Cell;
use std::io::Read;
use std::{fs, io};

/// What is known of a run while it goes on.
#[derive(Drop)]
pub struct Run {
    alloc: Global,
    /// Bytes that were read, from the first that the words have not come to.
    bytes: Cell<Vec<u8>>,
    /// How many of these the words have come to.
    at: Cell<usize>,
    /// Memory was refused, so that records are missing from then on.
    lost: Cell<bool>,
    /// How many bytes the input has, where it is a file, else 0; and how many were read.
    pub of: u64,
    pub read: Cell<u64>,
    pub answered: Cell<u64>,
    pub refused: Cell<u64>,
    /// The package is open.
    pub open: Cell<bool>,
}

impl Run {
    /// A run of which nothing was read yet, of an input of so many bytes.
    pub fn new(alloc: Global, of: u64) -> Run {
        Run {
            alloc,
            of,
            bytes: Cell::new(Vec::new(alloc)),
            at: Cell::new(0),
            lost: Cell::new(false),
            read: Cell::new(0),
            answered: Cell::new(0),
            refused: Cell::new(0),
            open: Cell::new(false),
        }
    }

    /// Keeps bytes that were read.
    fn keep(&self, more: &[u8]) {
        let mut bytes = self.bytes.replace(Vec::new(self.alloc));
        if bytes.extend_from_slice(more).is_err() {
            self.lost.set(true);
        }
        self.bytes.set(bytes);
    }
}

/// How many bytes the input has, where it is a file, else 0.
pub fn length_of_input(rt: &HostRuntime) -> u64 {
    match fs::metadata(rt, "/dev/stdin") {
        Ok(found) => found.len(),
        Err(_) => 0,
    }
}

/// Hears what is read of the list.
#[derive(Drop)]
pub struct Ear<'a> {
    rt: &'a HostRuntime,
    run: &'a Run,
    /// The bytes are kept for the words.
    keeps: bool,
    /// What the opening took is told.
    opening: Option<&'a Opening<'a>>,
}

impl<'a> Ear<'a> {
    /// What hears a run, and tells people how far it is.
    pub fn new(
        rt: &'a HostRuntime,
        run: &'a Run,
        keeps: bool,
        opening: Option<&'a Opening<'a>>,
    ) -> Ear<'a> {
        Ear {
            rt,
            run,
            keeps,
            opening,
        }
    }
}

impl Hears for Ear<'_> {
    // The list is first asked for when the package is open.
    fn ask(&mut self) {
        if self.run.open.replace(true) {
            return;
        }
        if let Some(opening) = self.opening {
            let _told = eprintln!(self.rt; "opened in {}", opening.took());
        }
    }

    fn hear(&mut self, bytes: &[u8]) {
        let read = self.run.read.get();
        self.run.read.set(read.saturating_add(bytes.len() as u64));
        if self.keeps {
            self.run.keep(bytes);
        }
    }
}

/// The bytes that are kept, once more.
#[derive(Drop)]
struct Again<'a> {
    run: &'a Run,
}

impl Read for Again<'_> {
    fn read(&mut self, buf: &mut [u8]) -> io::Result<usize> {
        let bytes = self.run.bytes.replace(Vec::new(self.run.alloc));
        let at = self.run.at.get();
        let mut rest = bytes.get(at..).unwrap_or(b"");
        let result = rest.read(buf);
        if rest.is_empty() {
            self.run.at.set(0);
            return result;
        }
        if let Ok(count) = result {
            self.run.at.set(at.saturating_add(count));
        }
        self.run.bytes.set(bytes);
        result
    }
}

/// The records once more, one for each answer.
#[derive(Drop)]
pub struct Records<'a> {
    alloc: Global,
    run: &'a Run,
    rows: Reader<Again<'a>>,
}

impl<'a> Records<'a> {
    /// The records of a run from its first on.
    pub fn new(alloc: Global, run: &'a Run) -> Records<'a> {
        let rows = ReaderBuilder::new()
            .has_headers(false)
            .flexible(true)
            .from_reader(alloc, Again { run });
        Records { alloc, run, rows }
    }

    /// The record of the next answer.
    pub fn next(&mut self) -> Option<ByteRecord> {
        if self.run.lost.get() {
            return None;
        }
        let mut row = ByteRecord::new(self.alloc);
        match self.rows.read_byte_record(&mut row) {
            Ok(true) => Some(row),
            _ => None,
        }
    }
}

/// The fields of a record.
pub fn fields_of(alloc: Global, text: &StringRecord) -> io::Result<Vec<&str>> {
    let mut fields = Vec::new(alloc);
    for field in text.iter() {
        fields.push(field)?;
    }
    Ok(fields)
}

/// Tells which field of a record is refused with this number, where it is one.
pub fn tell_field(rt: &HostRuntime, row: ByteRecord, number: u8) -> io::Result<()> {
    let Ok(text) = StringRecord::from_byte_record(row) else {
        return eprint!(rt; ": a field isn't UTF-8");
    };
    match remark_on(fields_of(rt.alloc(), &text)?.as_slice(), number) {
        Some(remark) => eprint!(rt; ": {remark}"),
        None => Ok(()),
    }
}
