//! What is being done and how far it is, told on standard error.

use csv::{ByteRecord, ReaderBuilder};
use std::alloc::Global;
use std::fmt::Display;
use std::io::IsTerminal;
use std::time::{Duration, Instant};
use std::{fmt, fs, io};

/// How many milliseconds a line stands on a terminal before it is renewed.
const RENEWED: u64 = 200;

/// How many lie between two lines that go elsewhere, as into a file.
const BETWEEN: u64 = 10_000;

/// From how many bytes on the time of an opening is also told for a GB.
const LARGE: u64 = 10_000_000;

/// Tells how far something is: on a terminal by one line that is renewed, else by a line now and then.
#[derive(Drop)]
pub struct Progress<'a> {
    rt: &'a HostRuntime,
    is_terminal: bool,
    /// When the last line was told.
    last: Option<Instant>,
    /// A line stands on the terminal that the next takes the place of.
    stands: bool,
}

impl<'a> Progress<'a> {
    /// Nothing was told yet.
    pub fn new(rt: &'a HostRuntime) -> Progress<'a> {
        Progress {
            rt,
            is_terminal: rt.stderr().is_terminal(),
            last: None,
            stands: false,
        }
    }

    /// Whether it is time to tell more.
    fn is_due(&self) -> bool {
        let Some(last) = &self.last else {
            return true;
        };
        let least = if self.is_terminal { RENEWED } else { BETWEEN };
        match last.elapsed(self.rt) {
            Ok(gone) => gone >= Duration::from_millis(least),
            Err(_) => false,
        }
    }

    /// Tells how far it is, where it is time to.
    pub fn renew<D: Display + Drop>(&mut self, what: D) {
        if !self.is_due() {
            return;
        }
        self.last = Instant::now(self.rt).ok();
        if self.is_terminal {
            let _told = eprint!(self.rt; "\r{what}\x1b[K");
            self.stands = true;
        } else {
            let _told = eprintln!(self.rt; "{what}");
        }
    }

    /// Takes the line away that stands on the terminal, so that another can be written there.
    pub fn clear(&mut self) {
        if self.stands {
            let _told = eprint!(self.rt; "\r\x1b[K");
            self.stands = false;
        }
    }

    /// Tells something that stays.
    pub fn tell<D: Display + Drop>(&mut self, what: D) {
        self.clear();
        let _told = eprintln!(self.rt; "{what}");
    }
}

/// So many bytes, for people.
#[derive(Clone, Copy, Debug)]
pub struct Size(pub u64);

impl Display for Size {
    fn fmt<W: fmt::Write>(&self, f: &mut fmt::Formatter<W>) -> fmt::Result {
        if self.0 < 1_000_000 {
            return write!(f, "{} bytes", self.0);
        }
        write!(f, "{}.{} MB", self.0 / 1_000_000, self.0 / 100_000 % 10)
    }
}

/// So many milliseconds, for people.
#[derive(Clone, Copy, Debug)]
struct Seconds(u64);

impl Display for Seconds {
    fn fmt<W: fmt::Write>(&self, f: &mut fmt::Formatter<W>) -> fmt::Result {
        write!(f, "{}.{} s", self.0 / 1000, self.0 / 100 % 10)
    }
}

/// The opening of a package.
#[derive(Drop)]
pub struct Opening<'a> {
    rt: &'a HostRuntime,
    bytes: u64,
    start: Option<Instant>,
}

impl<'a> Opening<'a> {
    /// It begins now.
    pub fn new(rt: &'a HostRuntime, path: &str) -> Opening<'a> {
        let bytes = match fs::metadata(rt, path) {
            Ok(found) => found.len(),
            Err(_) => 0,
        };
        let start = Instant::now(rt).ok();
        Opening { rt, bytes, start }
    }

    /// How large the file is.
    pub fn size(&self) -> Size {
        Size(self.bytes)
    }

    /// What it took until now.
    pub fn took(&self) -> Took {
        let milliseconds = match &self.start {
            Some(start) => match start.elapsed(self.rt) {
                Ok(gone) => u64::try_from(gone.as_millis()).unwrap_or(0),
                Err(_) => 0,
            },
            None => 0,
        };
        let bytes = self.bytes;
        Took {
            milliseconds,
            bytes,
        }
    }
}

/// What an opening took.
#[derive(Clone, Copy, Debug)]
pub struct Took {
    milliseconds: u64,
    bytes: u64,
}

impl Display for Took {
    fn fmt<W: fmt::Write>(&self, f: &mut fmt::Formatter<W>) -> fmt::Result {
        write!(f, "{}", Seconds(self.milliseconds))?;
        if self.bytes < LARGE {
            return Ok(());
        }
        let thousand = self.milliseconds.saturating_mul(1_000);
        write!(f, ", {} a GB", Seconds(thousand / (self.bytes / 1_000_000)))
    }
}

/// The places of a list's records that have a file, and how many records there are.
fn places_of(alloc: Global, list: &[u8]) -> io::Result<(Vec<u64>, u64)> {
    let mut rows = ReaderBuilder::new()
        .has_headers(false)
        .flexible(true)
        .from_reader(alloc, list);
    let mut row = ByteRecord::new(alloc);
    let mut places = Vec::new(alloc);
    let mut count = 0u64;
    for _ in 0..list.len() {
        let Ok(true) = rows.read_byte_record(&mut row) else {
            break;
        };
        count = count.saturating_add(1);
        if matches!(row.get(1), Some(b"tile" | b"media")) {
            places.push(count)?;
        }
    }
    Ok((places, count))
}

/// The pieces of a kit, of which the files are read one after another.
#[derive(Drop)]
pub struct Pieces<'a> {
    opening: Opening<'a>,
    progress: Progress<'a>,
    places: Vec<u64>,
    of: u64,
    /// How many files were read, and whether the list was.
    read: usize,
    begun: bool,
}

impl<'a> Pieces<'a> {
    /// Nothing was read yet: the package at this path is to be opened first.
    pub fn new(rt: &'a HostRuntime, path: &str) -> Pieces<'a> {
        Pieces {
            opening: Opening::new(rt, path),
            progress: Progress::new(rt),
            places: Vec::new(rt.alloc()),
            of: 0,
            read: 0,
            begun: false,
        }
    }

    /// A file was read: the list first, once the package is open, and then the files of its records in turn.
    pub fn take(&mut self, alloc: Global, bytes: &[u8]) {
        if self.begun {
            self.take_file();
        } else {
            self.begun = true;
            self.take_list(alloc, bytes);
        }
    }

    fn take_list(&mut self, alloc: Global, list: &[u8]) {
        if let Ok((places, count)) = places_of(alloc, list) {
            self.places = places;
            self.of = count;
        }
        let took = self.opening.took();
        self.progress.tell(format_args!("opened in {took}; the kit has {} pieces", self.of));
    }

    fn take_file(&mut self) {
        let place = self.places.get(self.read).copied().unwrap_or(0);
        self.read = self.read.saturating_add(1);
        self.progress
            .renew(format_args!("piece {place} of {}", self.of));
    }

    /// All was read that is to be.
    pub fn end(&mut self) {
        self.progress.clear();
    }
}
