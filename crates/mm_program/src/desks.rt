//! The desk over sockets: one session that shows the package and takes records.

ghost use Rattle.std.specs.Prelude.{◌≡◌, ◌≤◌, ◌⊎◌, List, None, Some, false, true, IfErr, IfOk, IfSome, string_bytes};
ghost use Rattle.sqlite.specs.Held.{state};
ghost use Rattle.sqlite.specs.WalFiles.{image_at};
ghost use Rattle.mm_definitions.specs.Streams.{written};
ghost use Rattle.mm_definitions.specs.Streams as streams;
ghost use Rattle.mm_core.specs.Parts.{connection, must_reopen};
ghost use Rattle.mm_core.specs.Viewers.{LeavesPackage};
ghost use Rattle.mm_core.specs.Writing.{IsOut};
ghost use Rattle.mm_desk.specs.Answered.{page_of};
ghost use Rattle.mm_desk.specs.Sittings.{Sat, Visit};
ghost use Rattle.mm_program.specs.Desks.{IsAttended, IsDeskDone, LeavesDesk, NamesNone, Sits, TellsDesk, TellsSat};
ghost use Rattle.mm_program.specs.Desks.{address_text, table_of};
ghost use Rattle.mm_program.specs.Stops.{StopsAny};
ghost use Rattle.mm_program.specs.Told.{TellsSitting};
ghost use Rattle.mm_program.specs.Worked.{is_well};
ghost use Rattle.mm_work.specs.Told.{TellsFailure};

use crate::clock::{Now, moment_or_now};
use crate::files::ends_well;
use crate::keys::key_of;
use crate::outcomes::work_and_tell;
use crate::sittings::attend;
use crate::sockets::{Reading, next_stream, read_off};
use mm_core::Session;
use mm_definitions::answers::{Fault, PageFault};
use mm_definitions::names::{Name, is_name};
use mm_definitions::streams::Io;
use mm_desk::{Comes, Done, Gate, desk_one};
use mm_files::{Handed, Left, Works};
use mm_run::Apply;
use mm_work::{FAULT, REFUSED, Stop, adopt_package, is_printed, tell_bytes, tell_stop};
use sqlite::{Alter, Connection, FileFrom, Start};
use sqlite_disk::Disk;
use std::alloc::Global;
use std::io;
use std::io::{Read, Write};
use std::net::{Ipv4Addr, TcpListener, TcpStream};
use std::time::{Duration, Instant};

/// How many seconds a request may take to come whole, and each write of a response.
const PATIENCE: u64 = 20;

/// A stream whose reads end together: what comes later than its patience is an error.
#[derive(Drop)]
struct Timed<'a> {
    rt: &'a HostRuntime,
    stream: &'a TcpStream,
    start: Instant,
}

impl<'a> Read for Timed<'a> {
    fn read(&mut self, buf: &mut [u8]) -> io::Result<usize> {
        let gone = self.start.elapsed(self.rt)?;
        let most = Duration::from_secs(PATIENCE);
        let Some(rest) = most.checked_sub(gone) else {
            return Err(io::Error::from(io::ErrorKind::TimedOut));
        };
        if rest.is_zero() {
            return Err(io::Error::from(io::ErrorKind::TimedOut));
        }
        self.stream.set_read_timeout(Some(rest))?;
        let mut stream = self.stream;
        stream.read(buf)
    }
}

/// The connections of a port, each with one request.
#[derive(Drop)]
struct Doors<'a> {
    rt: &'a HostRuntime,
    listener: &'a TcpListener,
    gate: Gate<'a>,
}

impl<'a, S: Alter> Comes<Session<S>> for Doors<'a> {
    // Sockets tell none.
    ghost told = { λ doors. None };

    /// Answers the next connection. 96 where there is none to be had, where nothing came on it, and where the clock
    /// tells no moment.
    fn answer_next(&mut self, alloc: Global, session: &mut Session<S>) -> Result<Done, PageFault> {
        let Ok(stream) = next_stream(self.listener, PATIENCE) else {
            return Err(PageFault(Fault::INPUT));
        };
        let Ok(start) = Instant::now(self.rt) else {
            return Err(PageFault(Fault::INPUT));
        };
        let Now::At(at) = moment_or_now(self.rt, None) else {
            return Err(PageFault(Fault::INPUT));
        };
        let mut reader = Io::new(Timed {
            rt: self.rt,
            stream: &stream,
            start,
        });
        let mut writer = Io::new(Reading {
            rt: self.rt,
            stream: &stream,
            patience: PATIENCE,
        });
        let done = desk_one(alloc, session, self.gate, &mut reader, &mut writer, at);
        // The response is written, or has failed: what becomes of the connection behind it is no fault.
        let _ended = read_off(&stream);
        done
    }
}

/// The work of a desk.
#[derive(Drop)]
struct DeskWork<'a> {
    rt: &'a HostRuntime,
    port: u16,
    count: u32,
    key: &'a str,
    page: Option<&'a str>,
}

/// The line that tells where the desk is.
fn address_line(alloc: Global, port: u16, key: &str, page: Option<&str>) -> Result<String, Stop>
    ensures line { IfOk result (λ line. string_bytes line
        ≡ address_text port key.now (table_of page.entry)) }
    ensures stopped { IfErr result StopsAny }
{
    let made = match page {
        Some(table) => format!(in alloc; "desk http://127.0.0.1:{port}/{key}/media/{table}/1\n"),
        None => format!(in alloc; "desk http://127.0.0.1:{port}/{key}/\n"),
    };
    match made {
        Ok(line) => Ok(line),
        Err(_) => Err(Stop::Fault(Fault::MEMORY)),
    }
}

/// The table of pages that the words name, where that is a name.
fn page_named(page: Option<&str>) -> Option<Name>
    ensures named { IfSome result (λ name. table_of page.entry ≡ Some name) }
    ensures none { result ≡ None → NamesNone (table_of page.entry) ⊎ (table_of page.entry ≡ None) }
{
    match page {
        Some(table) => Name::read(table),
        None => None,
    }
}

/// The connections of a listener, for who has the key behind the slash.
fn doors_of<'a>(
    rt: &'a HostRuntime,
    listener: &'a TcpListener,
    port: u16,
    front: &'a str,
    named: &'a Option<Name>,
) -> Doors<'a>
    ensures port { result.gate.port ≡ port }
    ensures front { result.gate.front.now ≡ front.now }
    ensures page { page_of result.gate ≡ named.now }
{
    let page = named.as_ref();
    let gate = Gate { port, front, page };
    Doors { rt, listener, gate }
}

/// Answers requests by a key behind a slash.
fn attend_doors<S: Alter, W: Write>(
    work: &DeskWork<'_>,
    session: &mut Session<S>,
    listener: &TcpListener,
    front: &str,
    output: &mut Io<W>,
) -> u8
    ensures told { IsAttended work.now.count (written W.contents output.old)
        (written W.contents output.new) result }
    ensures out { IsOut output.old → IsOut output.new }
    ensures sat { must_reopen session.old ≡ false → (visits : List Visit)
        × Sat ⟦<Session<S> as Apply>⟧ session.old visits session.new }
{
    let named = page_named(work.page);
    let mut doors = doors_of(work.rt, listener, work.port, front, &named);
    attend(work.rt.alloc(), session, &mut doors, work.count, output)
}

/// Binds the port on the loopback address, tells where the desk is, and answers so many connections. 96 where the port
/// can't be bound, 90 for want of memory: then nothing was printed, and the session is as it was.
fn desk_port<S: Alter, W: Write>(
    work: &DeskWork<'_>,
    session: &mut Session<S>,
    output: &mut Io<W>,
) -> Result<u8, Stop>
    ensures done { IsDeskDone work.now.port work.now.count work.now.key.now
        (table_of work.now.page)
        (written W.contents output.old) (written W.contents output.new) result }
    ensures stopped { IfErr result StopsAny }
    ensures kept { IfErr result (λ why. LeavesPackage
        (state S.Store (connection session.old)) (state S.Store (connection session.new))) }
    ensures sat { IfOk result (λ status. must_reopen session.old ≡ false
        → Sits (state S.Store (connection session.old)) (state S.Store (connection session.new))) }
    ensures out { IsOut output.old → IsOut output.new }
{
    let line = address_line(work.rt.alloc(), work.port, work.key, work.page)?;
    let Ok(front) = format!(in work.rt.alloc(); "/{}", work.key) else {
        return Err(Stop::Fault(Fault::MEMORY));
    };
    let Ok(listener) = TcpListener::bind(work.rt, (Ipv4Addr::LOCALHOST, work.port)) else {
        return Err(Stop::Fault(Fault::INPUT));
    };
    if !is_printed(output, line.as_bytes()) {
        return Ok(FAULT);
    }
    Ok(attend_doors(work, session, &listener, front.as_str(), output))
}

impl<'a> Works for DeskWork<'a> {
    type Done = u8;

    type Why = Stop;

    const WRITES: bool = true;

    ghost comes_to = { λ work. IsDeskDone work.port work.count work.key.now (table_of work.page) };

    ghost tells = { λ work found old new done. TellsSat found done };

    ghost leaves = { λ work found after old new done. LeavesDesk found after done };

    ghost closes = { is_well };

    // The port is bound once the package is adopted.
    fn work<S: Alter + Drop, W: Write>(
        &mut self,
        alloc: Global,
        conn: Connection<S>,
        output: &mut Io<W>,
    ) -> Handed<S, u8, Stop> {
        let mut session = adopt_package(alloc, conn)?;
        match desk_port(self, &mut session, output) {
            Ok(status) => Ok((session.close(), status)),
            Err(why) => Err((session.close(), why)),
        }
    }

    fn closes(status: u8) -> bool
        ensures { result ≡ is_well status }
    {
        ends_well(status)
    }
}

/// Whether no table is named, or one by a name.
fn is_named(page: Option<&str>) -> bool
    ensures none { result ≡ false → NamesNone (table_of page.entry) }
    ensures named { result ≡ true → ¬ (NamesNone (table_of page.entry)) }
{
    match page {
        Some(table) => is_name(table),
        None => true,
    }
}

/// The subcommand `desk`. `refused 12` where the page's table is no name, `refused 11` where the environment's key is
/// none.
pub(crate) fn desk_told<'a, S: Start, W: Write>(
    rt: &HostRuntime,
    path: &'a str,
    start: S,
    port: u16,
    count: u32,
    page: Option<&str>,
    output: &mut Io<W>,
) -> (u8, Left<'a, FileFrom<S>, S>)
    ensures told { TellsDesk port count (table_of page.entry)
        (written W.contents output.old) (written W.contents output.new) result.0 }
    ensures sitting { TellsSitting ⟦<FileFrom<S> as Disk>⟧ (image_at S.Start) path.now
        (written W.contents output.old) (written W.contents output.new) result.0 result.1
        port count (table_of page.entry) }
    ensures status { result.0 ≤ 4 }
    ensures unprinted { TellsFailure (streams.has_failed output.old)
        (streams.has_failed output.new) result.0 }
    ensures out { IsOut output.old → IsOut output.new }
{
    if !is_named(page) {
        return (
            tell_bytes(output, b"refused 12\n", REFUSED),
            Left::Untouched(start),
        );
    }
    let key = match key_of(rt) {
        Ok(Some(key)) => key,
        Ok(None) => {
            return (
                tell_bytes(output, b"refused 11\n", REFUSED),
                Left::Untouched(start),
            );
        }
        Err(fault) => {
            return (
                tell_stop(output, Stop::Fault(fault)),
                Left::Untouched(start),
            );
        }
    };
    let mut work = DeskWork {
        rt,
        port,
        count,
        key: key.as_str(),
        page,
    };
    work_and_tell(rt, path, start, &mut work, output)
}
