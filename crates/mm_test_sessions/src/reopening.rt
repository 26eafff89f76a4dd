//! Sessions that have to be opened again: where they answer 92, and what they answer without the package.

use crate::kits::{import_text, put};
use crate::pages::name_of;
use mm_core::Session;
use mm_definitions::answers::Fault;
use mm_definitions::moments::Moment;
use mm_definitions::names::Name;
use mm_definitions::places::TilePlace;
use mm_definitions::streams::Io;
use mm_kit::{MemoryFolder, import_kit};
use mm_page::serve_one;
use mm_test_packages::{create, open, run, text_of};
use sqlite::{Alter, Files};
use sqlite_disk::{Disk, Fuse, Memory};
use std::alloc::Global;
use std::fmt::Write;
use std::test::Fail;

/// Two files in memory; the log takes so many calls and then none.
fn files_of(alloc: Global, calls: u64) -> Files<Fuse<Memory>> {
    Files {
        log: Fuse::new(Memory::new(alloc), calls),
        db: Fuse::new(Memory::new(alloc), u64::MAX),
    }
}

/// The lines that a run of records writes, with a semicolon at the end of each.
fn run_text<S: Alter>(alloc: Global, session: &mut Session<S>, records: &str) -> Option<String> {
    let records = records.replace(alloc, ';', "\n").ok()?;
    let mut reader = Io::new(records.as_bytes());
    let mut writer = Io::new(Vec::new(alloc));
    let _ = run(session, &mut reader, &mut writer, 0)?;
    let lines = text_of(alloc, writer.into_inner().as_slice())?;
    lines.replace(alloc, '\n', ";").ok()
}

/// What the import of a list into an edition comes to, and of a folder without one where there are no words.
fn import_list<S: Alter>(alloc: Global, session: &mut Session<S>, list: &str) -> Option<String> {
    let mut folder = MemoryFolder {
        files: Vec::new(alloc),
    };
    if !list.is_empty() {
        put(alloc, &mut folder, "kit.csv", list.as_bytes())?;
    }
    let name = Name::read("k")?;
    match import_kit(alloc, session, &name, &mut folder, Moment::new(0)?) {
        Ok(staged) => import_text(alloc, Ok(staged)),
        Err(stopped) => import_text(alloc, Err(stopped)),
    }
}

/// The fault of a request or 0, and the name of what is written: nothing with a fault. A bar stands for a line end.
fn page_text<S: Alter>(alloc: Global, session: &mut Session<S>, request: &str) -> Option<String> {
    let bytes = request.replace(alloc, '|', "\r\n").ok()?;
    let mut reader = Io::new(bytes.as_bytes());
    let mut writer = Io::new(Vec::new(alloc));
    let fault = match serve_one(alloc, session, &mut reader, &mut writer) {
        Ok(()) => 0,
        Err(why) => why.0.number(),
    };
    let written = writer.into_inner();
    format!(in alloc; "{fault} {}", name_of(written.as_slice())).ok()
}

/// Column 1, row 1 at zoom 1.
fn a_place() -> Option<TilePlace> {
    TilePlace::new(1, 1, 1)
}

/// The fault of a read.
fn read_fault<S: Alter>(alloc: Global, session: &mut Session<S>, read: &str) -> Option<Fault> {
    let table = Name::read("base")?;
    match read {
        "tile" => session.tile(&table, a_place()?).err(),
        "media" => session.media(&table, 3).err(),
        "row" => session.row(&table, 7).err(),
        "contents" => session.contents().err(),
        "related" => session.related(&table, 7).err(),
        "edition" => session.edition(&table).err(),
        "check" => session.check().err(),
        "list" => session.list(&mut Io::new(Vec::new(alloc))).err(),
        _ => None,
    }
}

/// What a line asks, by its first word, and what is told.
fn told_line<S: Alter>(alloc: Global, session: &mut Session<S>, line: &str) -> Option<String> {
    let (word, rest) = line.split_once(' ')?;
    match word {
        "run" => run_text(alloc, session, rest),
        "import" => import_list(alloc, session, rest),
        "page" => page_text(alloc, session, rest),
        "read" => {
            let fault = read_fault(alloc, session, rest)?;
            format!(in alloc; "fault {}", fault.number()).ok()
        }
        _ => None,
    }
}

/// The lines, each with what it is told behind ` > `.
fn told_lines<S: Alter>(alloc: Global, session: &mut Session<S>, lines: &str) -> Option<String> {
    let mut text = String::new(alloc);
    for line in lines.lines() {
        let (line, _) = line.split_once(" > ")?;
        let told = told_line(alloc, session, line)?;
        writeln!(text, "{line} > {}", told.as_str()).ok()?;
    }
    Some(text)
}

/// The same on a session whose first command meets a fault; None of another.
fn told_after<S: Alter + Drop>(alloc: Global, session: Session<S>, lines: &str) -> Option<String> {
    let mut session = session;
    let first = run_text(alloc, &mut session, "srs,5001,A,NONE,1,undefined,")?;
    if first.as_str() == "1 fault 91;" {
        told_lines(alloc, &mut session, lines)
    } else {
        None
    }
}

/// The same on a new package in these files; None where they take none.
fn told_on<D: Disk + Drop>(alloc: Global, files: Files<D>, lines: &str) -> Option<String> {
    told_after(alloc, create(alloc, open(alloc, files)?)?, lines)
}

/// What is told on the first log on which a session fails.
fn told(alloc: Global, lines: &str) -> Option<String> {
    for calls in 0..1000u64 {
        if let Some(told) = told_on(alloc, files_of(alloc, calls), lines) {
            return Some(told);
        }
    }
    None
}

// Records that spell no command are refused as ever, and so is a list that is no kit; a request that asks for no part of
// the package has its response.
const LINES: &str = "run srs,5002,A,NONE,1,undefined, > 1 fault 92;
run srs,5,A,NONE,1,undefined;srs,9007199254740993,A,NONE,1,undefined,;edition,k;drop > 1 refused 10;2 refused 11;3 fault 92;
run srs,5,A,NONE,1,undefined > 1 refused 10;
import 1,row,spots,8,Gate,,0 > fault 92 after 0
import 1,row,Spots,8,Gate,,0 > refused 1 12
import  > refused 0 57
page GET /tiles/base/1/0/1 HTTP/1.1|| > 92 nothing
page GET /media/photos/3 HTTP/1.1|| > 92 nothing
page GET /related/spots/7 HTTP/1.1|| > 92 nothing
page GET /contents HTTP/1.1|| > 92 nothing
page GET / HTTP/1.1|| > 0 not found
page POST /contents HTTP/1.1|| > 0 not allowed
page GET > 0 bad request
read tile > fault 92
read media > fault 92
read row > fault 92
read contents > fault 92
read related > fault 92
read edition > fault 92
read check > fault 92
read list > fault 92
";

#[test]
fn answers_92_where_the_package_is_needed(rt: HostRuntime) -> Result<(), Fail> {
    let text = told(rt.alloc(), LINES).expect(&rt, "a session that failed");
    assert_eq!(rt; text.as_str(), LINES);
    Ok(())
}
