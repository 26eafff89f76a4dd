//! What is told to people on standard error, beside what is printed.

use crate::kits::tell_piece;
use crate::records::{Ear, Records, Run, fields_of, length_of_input, tell_field};
use crate::slips::slip_of;
use csv::{ByteRecord, StringRecord};
use mm_arguments::{Aids, Request, read_arguments};
use mm_definitions::ends::UntilEnd;
use mm_definitions::streams::Io;
use mm_program::program;
use mm_remarks::{Heard, Opening, Progress, Size, Told, Watched, Watches, meaning_of, told_of};
use std::fmt::{Display, Formatter};
use std::io::{BufReader, IsTerminal};
use std::{fmt, io};

/// From how many bytes on it is told what memory an opening wants.
const LARGE: u64 = 10_000_000;

/// The file that the words name, and the folder of a kit.
fn names_of<'a>(rt: &HostRuntime, words: &'a [&'a str]) -> Option<(&'a str, &'a str)> {
    match read_arguments(rt.alloc(), words) {
        Ok(Request::Kit { file, folder, .. }) => Some((file, folder)),
        Ok(Request::Run { file, .. } | Request::Check { file }) => Some((file, "")),
        Ok(Request::Serve { file, .. } | Request::Desk { file, .. }) => Some((file, "")),
        _ => None,
    }
}

/// Warns of a new package's name that GDAL and QGIS take for theirs.
pub fn warn_of_name(rt: &HostRuntime, words: &[&str]) {
    if let Ok(Request::Init { file }) = read_arguments(rt.alloc(), words) {
        if file.ends_with(".gpkg") {
            let _told = eprintln!(rt;
                "mmpkg: GDAL and QGIS write into files that are named *.gpkg, and what they wrote into is no package any more: name it *.mmpkg"
            );
        }
    }
}

/// So many bytes of so many, where it is known of how many.
#[derive(Clone, Copy, Debug)]
struct Part(u64, u64);

impl Display for Part {
    fn fmt<W: fmt::Write>(&self, f: &mut Formatter<W>) -> fmt::Result {
        write!(f, "{}", Size(self.0))?;
        if self.1 > 0 {
            write!(f, " of {}", Size(self.1))?;
        }
        Ok(())
    }
}

/// Tells that a package is about to be opened, and what a large one wants.
fn tell_opening(rt: &HostRuntime, file: &str, size: Size) -> io::Result<()> {
    let wants = if size.0 < LARGE {
        ""
    } else {
        ", and as much memory"
    };
    eprintln!(rt; "opening {file}: {size}{wants}")
}

/// Looks at what is printed.
#[derive(Drop)]
struct Eye<'a> {
    rt: &'a HostRuntime,
    run: &'a Run,
    /// The words are wanted; then these are the records of a list.
    records: Option<Records<'a>>,
    folder: &'a str,
    /// How far it is, where that is wanted.
    progress: Option<Progress<'a>>,
    opening: &'a Opening<'a>,
}

impl Eye<'_> {
    /// Tells what an answer says, and of what it says it.
    fn say(&mut self, line: &str, told: Told<'_>) -> io::Result<()> {
        let rt = self.rt;
        match told {
            Told::Stopped(number) => eprint!(rt; "{line}: {}", meaning_of(number).unwrap_or(""))?,
            Told::PieceRefused { piece, number } => {
                let whole = meaning_of("53").unwrap_or("");
                let part = meaning_of(number).unwrap_or("");
                eprint!(rt; "{line}: {whole}: piece {piece}: {part}")?;
            }
            Told::Refused(number) => {
                eprint!(rt; "{line}: {}", meaning_of(number).unwrap_or(""))?;
            }
            Told::KitRefused { piece, number } => {
                eprint!(rt; "{line}: {}", meaning_of(number).unwrap_or(""))?;
                if let (Ok(place), Ok(number)) = (piece.parse::<u64>(), number.parse::<u8>()) {
                    let _told = tell_piece(rt, self.folder, place, number);
                }
            }
        }
        Ok(())
    }

    /// Tells what of a record that was taken is hardly meant as it is.
    fn say_slip(&mut self, line: &str, row: ByteRecord) -> io::Result<()> {
        let Ok(text) = StringRecord::from_byte_record(row) else {
            return Ok(());
        };
        let fields = fields_of(self.rt.alloc(), &text)?;
        let Some(slip) = slip_of(fields.as_slice()) else {
            return Ok(());
        };
        if let Some(progress) = &mut self.progress {
            progress.clear();
        }
        eprintln!(self.rt; "{line}: {slip}")
    }

    /// Tells it with the field of the record that the line answers, where it is one's.
    fn say_all(&mut self, line: &str) {
        let is_answer = line
            .as_bytes()
            .first()
            .is_some_and(|byte| byte.is_ascii_digit());
        let row = match &mut self.records {
            Some(records) if is_answer => records.next(),
            Some(_) => None,
            None => return,
        };
        let Some(told) = told_of(line) else {
            if let Some(row) = row {
                let _told = self.say_slip(line, row);
            }
            return;
        };
        if let Some(progress) = &mut self.progress {
            progress.clear();
        }
        let _told = self.say(line, told);
        if let (Told::Refused(number), Some(row)) = (told, row) {
            if let Ok(number) = number.parse::<u8>() {
                let _told = tell_field(self.rt, row, number);
            }
        }
        let _told = eprintln!(self.rt);
    }

    /// Counts an answer, and tells how many there are.
    fn count(&mut self, line: &str) {
        let Some(progress) = &mut self.progress else {
            return;
        };
        if line.starts_with("package ok")
            || line.starts_with("serving")
            || line.starts_with("desk")
        {
            progress.tell(format_args!("opened in {}", self.opening.took()));
        }
        if !line
            .as_bytes()
            .first()
            .is_some_and(|byte| byte.is_ascii_digit())
        {
            return;
        }
        let answered = self.run.answered.get().saturating_add(1);
        self.run.answered.set(answered);
        if line.contains("refused") {
            self.run
                .refused
                .set(self.run.refused.get().saturating_add(1));
        }
        if !self.rt.stdout().is_terminal() {
            let refused = self.run.refused.get();
            let read = Part(self.run.read.get(), self.run.of);
            progress.renew(format_args!(
                "{answered} answered, {refused} of them refused, {read} read"
            ));
        }
    }
}

impl Watches for Eye<'_> {
    fn watch(&mut self, line: &str) {
        self.count(line);
        self.say_all(line);
    }
}

/// Tells how many records were answered.
fn tell_end(rt: &HostRuntime, run: &Run) {
    if run.answered.get() == 0 {
        return;
    }
    if rt.stderr().is_terminal() {
        let _told = eprint!(rt; "\r\x1b[K");
    }
    let _told = eprintln!(rt;
        "{} answered, {} of them refused",
        run.answered.get(),
        run.refused.get()
    );
}

/// Runs the program, and tells on standard error what is wanted there. What it prints is what it prints without.
pub fn run_told(rt: &HostRuntime, words: &[&str], aids: Aids) -> io::Result<u8> {
    let alloc = rt.alloc();
    let (file, folder) = names_of(rt, words).unwrap_or(("", ""));
    let opening = Opening::new(rt, file);
    if aids.progress {
        let _told = tell_opening(rt, file, opening.size());
    }
    let run = Run::new(alloc, length_of_input(rt));
    let ear = Ear::new(rt, &run, aids.words, aids.progress.then_some(&opening));
    let eye = Eye {
        rt,
        run: &run,
        records: aids.words.then(|| Records::new(alloc, &run)),
        folder,
        progress: aids.progress.then(|| Progress::new(rt)),
        opening: &opening,
    };
    let reader = UntilEnd::new(BufReader::new(alloc, rt.reader())?);
    let mut input = Io::new(Heard::new(reader, ear));
    let mut output = Io::new(Watched::new(io::writer(rt), eye));
    let status = program(rt, words, &mut input, &mut output);
    if aids.progress {
        tell_end(rt, &run);
    }
    Ok(status)
}
