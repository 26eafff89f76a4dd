//! The page served over sockets.

ghost use Rattle.std.specs.Prelude.{◌≡◌, ◌≤◌, ◌⊎◌, IfErr, IfOk, None};
ghost use Rattle.mm_definitions.specs.Faults as faults;
ghost use Rattle.mm_definitions.specs.Streams.{written};
ghost use Rattle.mm_definitions.specs.Streams as streams;
ghost use Rattle.mm_core.specs.Writing.{IsOut};
ghost use Rattle.mm_work.specs.Told.{TellsFailure};
ghost use Rattle.sqlite.specs.Held.{state};
ghost use Rattle.sqlite.specs.WalFiles.{image_at};
ghost use Rattle.mm_core.specs.Parts.{connection};
ghost use Rattle.mm_core.specs.Viewers.{LeavesPackage};
ghost use Rattle.mm_program.specs.Left.{LeavesSame, TellsServed};
ghost use Rattle.mm_program.specs.Served.{IsServing, TellsServe};
ghost use Rattle.mm_program.specs.Told.{TellsService};
ghost use Rattle.mm_program.specs.Worked.{IsPageServed, is_well};

use crate::connections::{Serves, serve_on};
use crate::files::ends_well;
use crate::outcomes::work_and_tell;
use crate::sockets::{Reading, next_stream, read_off};
use mm_core::Session;
use mm_definitions::answers::{Fault, PageFault};
use mm_definitions::streams::Io;
use mm_files::{Handed, Left, Works};
use mm_page::serve_one;
use mm_work::{FAULT, Stop, adopt_package, tell_serving};
use sqlite::{Alter, Connection, FileFrom, Start};
use sqlite_disk::Disk;
use std::alloc::Global;
use std::io::Write;
use std::net::{Ipv4Addr, TcpListener};

/// How many seconds a read or write of a connection may wait, so that a client that stops can't stop the page.
const PATIENCE: u64 = 10;

/// The connections of a port, one after another.
#[derive(Drop)]
struct Port<'a> {
    rt: &'a HostRuntime,
    listener: &'a TcpListener,
}

impl<'a, S: Alter> Serves<S> for Port<'a> {
    ghost outcomes = { λ port. None };

    /// Serves the next connection. 96 where there is none to be had, or nothing came on it.
    fn serve_next(&mut self, alloc: Global, session: &mut Session<S>) -> Result<(), PageFault> {
        let Ok(stream) = next_stream(self.listener, PATIENCE) else {
            return Err(PageFault(Fault::INPUT));
        };
        let mut reader = Io::new(&stream);
        let mut writer = Io::new(Reading {
            rt: self.rt,
            stream: &stream,
            patience: PATIENCE,
        });
        let served = serve_one(alloc, session, &mut reader, &mut writer);
        // The response is written, or has failed: what becomes of the connection behind it is no fault.
        let _ended = read_off(&stream);
        served
    }
}

/// Binds the port on the loopback address, and serves so many connections on it. 96 where it can't be bound.
fn serve_port<S: Alter, W: Write>(
    rt: &HostRuntime,
    session: &mut Session<S>,
    port: u16,
    count: u32,
    output: &mut Io<W>,
) -> Result<u8, Stop>
    ensures status { IfOk result (λ status. status ≤ 3) }
    ensures working { IfOk result
        (λ status. (status ≡ 3) ⊎ (streams.has_failed output.new ≡ streams.has_failed output.old)) }
    ensures served { IfOk result
        (IsServing port count (written W.contents output.old) (written W.contents output.new)) }
    ensures unused { IfErr result (λ why. output.new ≡ output.old) }
    ensures unbound { IfErr result (λ why. why ≡ Stop.Fault faults.input) }
    ensures kept { LeavesPackage
        (state S.Store (connection session.old)) (state S.Store (connection session.new)) }
    ensures out { IsOut output.old → IsOut output.new }
{
    let Ok(listener) = TcpListener::bind(rt, (Ipv4Addr::LOCALHOST, port)) else {
        return Err(Stop::Fault(Fault::INPUT));
    };
    if !tell_serving(output, port) {
        return Ok(FAULT);
    }
    let mut connections = Port {
        rt,
        listener: &listener,
    };
    Ok(serve_on(rt.alloc(), session, &mut connections, count, output))
}

/// The page of a package, served on a port to so many connections.
#[derive(Drop)]
struct Page<'a> {
    rt: &'a HostRuntime,
    port: u16,
    count: u32,
}

impl<'a> Works for Page<'a> {
    type Done = u8;

    type Why = Stop;

    const WRITES: bool = false;

    ghost comes_to = { λ work. IsPageServed work.port work.count };

    ghost tells = { λ work found old new done. TellsServed found done };

    ghost leaves = { λ work found after old new done. LeavesSame found after };

    ghost closes = { is_well };

    // The port is bound once the package is adopted.
    fn work<S: Alter + Drop, W: Write>(
        &mut self,
        alloc: Global,
        conn: Connection<S>,
        output: &mut Io<W>,
    ) -> Handed<S, u8, Stop> {
        let mut session = adopt_package(alloc, conn)?;
        match serve_port(self.rt, &mut session, self.port, self.count, output) {
            Ok(status) => Ok((session.close(), status)),
            Err(why) => Err((session.close(), why)),
        }
    }

    fn closes(status: u8) -> bool
        ensures { result ≡ is_well status }
    {
        ends_well(status)
    }
}

/// The subcommand `serve`.
pub(crate) fn serve_told<'a, S: Start, W: Write>(
    rt: &HostRuntime,
    path: &'a str,
    start: S,
    port: u16,
    count: u32,
    output: &mut Io<W>,
) -> (u8, Left<'a, FileFrom<S>, S>)
    ensures told { TellsServe port count (written W.contents output.old)
        (written W.contents output.new) result.0 }
    ensures served { TellsService ⟦<FileFrom<S> as Disk>⟧ (image_at S.Start) path.now
        (written W.contents output.old) (written W.contents output.new) result.0 result.1
        port count }
    ensures status { result.0 ≤ 4 }
    ensures unprinted { TellsFailure (streams.has_failed output.old)
        (streams.has_failed output.new) result.0 }
    ensures out { IsOut output.old → IsOut output.new }
{
    work_and_tell(rt, path, start, &mut Page { rt, port, count }, output)
}
