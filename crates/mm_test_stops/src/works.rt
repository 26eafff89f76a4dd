//! What is done on a connection to any store, and what is then acknowledged.

use crate::cases::{Work, first_lines};
use crate::disks::Plans;
use mm_core::Session;
use mm_definitions::answers::{Answer, Fault, Open, Staged};
use mm_definitions::commands::Command;
use mm_definitions::moments::Moment;
use mm_definitions::names::Name;
use mm_definitions::places::TilePlace;
use mm_definitions::streams::Io;
use mm_desk::{Done, Gate, desk_one};
use mm_kit::{MemoryFile, MemoryFolder, import_kit};
use mm_test_packages::run;
use sqlite::{Alter, Connection};
use std::alloc::Global;

/// Column 1, row 1 at zoom 1.
fn a_place() -> Option<TilePlace> {
    TilePlace::new(1, 1, 1)
}

/// What the work told: how many of its steps, and whether it met no fault.
#[derive(Clone, Copy, PartialEq, Eq)]
pub(crate) struct Told {
    pub(crate) steps: usize,
    pub(crate) ended: bool,
}

/// The work met a fault behind so many steps.
pub(crate) fn stopped_behind(steps: usize) -> Told {
    Told {
        steps,
        ended: false,
    }
}

/// Whether a session answers 92 to a command, the listing, the check and each read.
fn answers_92<S: Alter>(alloc: Global, session: &mut Session<S>) -> Option<bool> {
    let at = Moment::new(0)?;
    let table = Name::read("base")?;
    let mut writer = Io::new(Vec::new(alloc));
    let ended = Fault::REOPEN;
    let all = session.list(&mut writer) == Err(ended)
        && session.check() == Err(ended)
        && session.tile(&table, a_place()?).err() == Some(ended)
        && session.media(&table, 3).err() == Some(ended)
        && session.row(&table, 7).err() == Some(ended)
        && session.contents().err() == Some(ended)
        && session.related(&table, 7).err() == Some(ended)
        && session.edition(&table).err() == Some(ended);
    let command = Command::Drop { table };
    let answer = session.apply(&command, at);
    Some(all && answer == Answer::Fault(ended) && writer.into_inner().is_empty())
}

/// Whether a session that met a fault has ended: all is answered 92, and neither file is asked for anything.
fn has_ended<S: Alter>(alloc: Global, session: &mut Session<S>, plans: &Plans) -> bool {
    let calls = plans.calls();
    answers_92(alloc, session) == Some(true) && plans.calls() == calls
}

/// Runs the first so many records.
fn run_first<S: Alter>(
    alloc: Global,
    session: &mut Session<S>,
    records: &str,
    lines: usize,
) -> Option<Told> {
    let mut reader = Io::new(first_lines(records, lines));
    let mut writer = Io::new(Vec::new(alloc));
    let (tally, ended) = match run(session, &mut reader, &mut writer, 0)? {
        Ok(tally) => (tally, true),
        Err(stopped) => (stopped.tally, false),
    };
    if tally.refused > 0 {
        return None;
    }
    let steps = usize::try_from(tally.accepted).ok()?;
    Some(Told { steps, ended })
}

/// Puts a file on a folder.
fn put(alloc: Global, files: &mut MemoryFolder, name: &str, bytes: &[u8]) -> Option<()> {
    let mut file = MemoryFile {
        name: String::new(alloc),
        bytes: Vec::new(alloc),
    };
    file.name.push_str(name).ok()?;
    file.bytes.extend_from_slice(bytes).ok()?;
    files.files.push(file).ok()
}

/// A folder of a kit with this list.
fn folder_of(alloc: Global, list: &[u8]) -> Option<MemoryFolder> {
    let mut files = MemoryFolder {
        files: Vec::new(alloc),
    };
    put(alloc, &mut files, "kit.csv", list)?;
    put(alloc, &mut files, "a.bin", b"\x01")?;
    put(alloc, &mut files, "b.bin", b"\x02")?;
    put(alloc, &mut files, "c.bin", b"\x03")?;
    Some(files)
}

/// Imports the kit of the first so many records into the edition `k`.
fn import_first<S: Alter>(
    alloc: Global,
    session: &mut Session<S>,
    records: &str,
    lines: usize,
) -> Option<Told> {
    let mut files = folder_of(alloc, first_lines(records, lines))?;
    let edition = Name::read("k")?;
    match import_kit(alloc, session, &edition, &mut files, Moment::new(0)?) {
        Ok(staged) => match staged {
            Staged::Complete(count) => Some(Told {
                steps: usize::try_from(count).ok()?,
                ended: true,
            }),
            Staged::Refused { .. } => None,
        },
        Err(stopped) => Some(stopped_behind(usize::try_from(stopped.staged).ok()?)),
    }
}

/// The request that posts records to a desk.
fn request_of(alloc: Global, records: &[u8]) -> Option<Vec<u8>> {
    let length = records.len();
    let head = format!(in alloc;
        "POST /0123456789abcdef/records HTTP/1.1\r\nHost: 127.0.0.1:8090\r\nContent-Type: text/csv\r\nContent-Length: {length}\r\n\r\n"
    ).ok()?;
    let mut request = Vec::new(alloc);
    request.extend_from_slice(head.as_bytes()).ok()?;
    request.extend_from_slice(records).ok()?;
    Some(request)
}

/// Posts the first so many records to a desk, in one request.
fn post_first<S: Alter>(
    alloc: Global,
    session: &mut Session<S>,
    records: &str,
    lines: usize,
) -> Option<Told> {
    let request = request_of(alloc, first_lines(records, lines))?;
    let mut reader = Io::new(request.as_slice());
    let mut writer = Io::new(Vec::new(alloc));
    let gate = Gate {
        port: 8090,
        front: "/0123456789abcdef",
        page: None,
    };
    let at = Moment::new(0)?;
    let (tally, ended) = match desk_one(alloc, session, gate, &mut reader, &mut writer, at) {
        Ok(Done::Ran(Ok(tally))) => (tally, true),
        Ok(Done::Ran(Err(stopped))) => (stopped.tally, false),
        Ok(Done::Shown) => return None,
        Ok(Done::Ended) => return None,
        Err(_fault) => return None,
    };
    let steps = usize::try_from(tally.accepted).ok()?;
    Some(Told { steps, ended })
}

/// Does the first so many steps of the work on a session. None where one is refused, or where a session that met a fault goes on.
fn work_on<S: Alter>(
    alloc: Global,
    session: &mut Session<S>,
    work: Work,
    steps: usize,
    plans: &Plans,
) -> Option<Told> {
    let told = match work {
        Work::Make | Work::Migrate => None,
        Work::Run(records) => run_first(alloc, session, records, steps),
        Work::Import(records) => import_first(alloc, session, records, steps),
        Work::Post(records) => post_first(alloc, session, records, steps),
    }?;
    if told.ended || has_ended(alloc, session, plans) {
        Some(told)
    } else {
        None
    }
}

/// What was told where a connection is handed back with or without a session on it. None where it is declined for another reason
/// than a fault.
fn told_by<S: Alter + Drop>(
    made: Result<Session<S>, (Connection<S>, Open)>,
) -> Option<(Connection<S>, Told)> {
    match made {
        Ok(session) => Some((
            session.close(),
            Told {
                steps: 1,
                ended: true,
            },
        )),
        Err((conn, Open::Fault(_))) => Some((conn, stopped_behind(0))),
        Err(_) => None,
    }
}

/// Makes a package.
fn make<S: Alter + Drop>(alloc: Global, conn: Connection<S>) -> Option<(Connection<S>, Told)> {
    if !conn.is_autocommit() {
        return None;
    }
    match Session::create(alloc, conn) {
        Ok(session) => told_by(Ok(session)),
        Err((conn, fault)) => told_by(Err((conn, Open::Fault(fault)))),
    }
}

/// Migrates a package.
fn migrate<S: Alter + Drop>(alloc: Global, conn: Connection<S>) -> Option<(Connection<S>, Told)> {
    if !conn.is_autocommit() {
        return None;
    }
    told_by(Session::migrate(alloc, conn))
}

/// Adopts a package, and does the first so many steps of the work on it.
fn adopt_and_work<S: Alter + Drop>(
    alloc: Global,
    conn: Connection<S>,
    work: Work,
    steps: usize,
    plans: &Plans,
) -> Option<(Connection<S>, Told)> {
    if !conn.is_autocommit() {
        return None;
    }
    match Session::adopt(alloc, conn) {
        Ok(session) => {
            let mut session = session;
            let told = work_on(alloc, &mut session, work, steps, plans)?;
            Some((session.close(), told))
        }
        Err((conn, Open::Fault(_))) => Some((conn, stopped_behind(0))),
        Err(_) => None,
    }
}

/// Does the first so many steps of the work, and tells what was told. None where something else came of it than that or a fault.
pub(crate) fn perform<S: Alter + Drop>(
    alloc: Global,
    conn: Connection<S>,
    work: Work,
    steps: usize,
    plans: &Plans,
) -> Option<(Connection<S>, Told)> {
    if steps == 0 {
        return Some((conn, stopped_behind(0)));
    }
    match work {
        Work::Make => make(alloc, conn),
        Work::Migrate => migrate(alloc, conn),
        Work::Run(_) | Work::Import(_) | Work::Post(_) => adopt_and_work(
            alloc, conn, work, steps, plans,
        ),
    }
}
