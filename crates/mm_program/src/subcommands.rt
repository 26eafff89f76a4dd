//! The program as a function of its words, its input and its output.

ghost use Rattle.std.specs.Prelude.{◌≡◌, ◌≤◌, false, true, IfErr, map, ⊤};
ghost use Rattle.sqlite.specs.WalFiles.{image_at};
ghost use Rattle.mm_definitions.specs.Streams.{has_failed, inside, written};
ghost use Rattle.clap.specs.Words.{kind_of};
ghost use Rattle.mm_arguments.specs.Requests as arguments;
ghost use Rattle.mm_core.specs.Writing.{IsOut};
ghost use Rattle.mm_files.specs.declared.left.Left as lefts;
ghost use Rattle.sqlite_disk.specs.declared.start.Wary.{Wary};
ghost use Rattle.mm_work.specs.Told.{TellsFailure};
ghost use Rattle.mm_program.specs.Files.{StopsStore};
ghost use Rattle.mm_program.specs.Left.{LeavesMade, LeavesRun, TellsRun};
ghost use Rattle.mm_program.specs.Told.{TellsDecline, TellsInit, TellsRan, TellsStatus, TellsWords};
ghost use Rattle.mm_program.specs.Worked.{RunEnds, is_well};

use crate::clock::{Now, moment_or_now};
use crate::desks::desk_told;
use crate::explaining::explain_told;
use crate::files::{ends_well, on_new};
use crate::kits::{SystemFolder, import_and_tell, pieces_wanted};
use crate::migrating::migrate_told;
use crate::outcomes::work_and_tell;
use crate::reporting::{check_told, list_told};
use crate::rows::show_told;
use crate::serving::serve_told;
use mm_arguments::{Request, read_arguments, status_of};
use mm_core::Session;
use mm_definitions::answers::Fault;
use mm_definitions::moments::Moment;
use mm_definitions::streams::Io;
use mm_files::{Handed, Left, Works};
use mm_work::{
    REFUSED, Stop, adopt_package, run_session, tell_bytes, tell_init, tell_stop, tell_text,
};
use sqlite::{Alter, Connection, FileFrom, Start, Wary};
use sqlite_disk::Disk;
use std::alloc::Global;
use std::io;
use std::io::{Read, Write};

/// The making of a package.
#[derive(Drop)]
struct Making;

impl Works for Making {
    type Done = ();

    type Why = Stop;

    const WRITES: bool = true;

    ghost comes_to = { λ work old new done. IfErr done StopsStore };

    ghost tells = { λ work found old new done. ⊤ };

    ghost leaves = { λ work found after old new done. LeavesMade found after done };

    ghost closes = { λ done. true };

    fn work<S: Alter + Drop, W: Write>(
        &mut self,
        alloc: Global,
        conn: Connection<S>,
        _output: &mut Io<W>,
    ) -> Handed<S, (), Stop> {
        match Session::create(alloc, conn) {
            Ok(session) => Ok((session.close(), ())),
            Err((conn, fault)) => Err((conn, Stop::Fault(fault))),
        }
    }

    fn closes(_done: ()) -> bool {
        true
    }
}

/// The run of the records of an input.
#[derive(Drop)]
struct Run<'a, R: Read> {
    input: &'a mut Io<R>,
    at: Moment,
}

impl<'a, R: Read> Works for Run<'a, R> {
    type Done = u8;

    type Why = Stop;

    const WRITES: bool = true;

    ghost comes_to = { λ work. RunEnds };

    ghost tells = { λ work found old new done. TellsRun found done };

    ghost leaves = { λ work. LeavesRun (R.remaining (inside work.input.now)) work.at };

    ghost closes = { is_well };

    fn work<S: Alter + Drop, W: Write>(
        &mut self,
        alloc: Global,
        conn: Connection<S>,
        output: &mut Io<W>,
    ) -> Handed<S, u8, Stop> {
        let mut session = adopt_package(alloc, conn)?;
        let status = run_session(&mut session, self.input, output, self.at);
        Ok((session.close(), status))
    }

    fn closes(status: u8) -> bool
        ensures { result ≡ is_well status }
    {
        ends_well(status)
    }
}

/// The subcommand `init`.
fn init_told<'a, S: Start, W: Write>(
    rt: &HostRuntime,
    path: &'a str,
    start: S,
    output: &mut Io<W>,
) -> (u8, Left<'a, FileFrom<S>, S>)
    ensures told { TellsInit ⟦<FileFrom<S> as Disk>⟧ (image_at S.Start) path.now
        (written W.contents output.old) (written W.contents output.new) result.0 result.1 }
    ensures status { result.0 ≤ 4 }
    ensures unprinted { TellsFailure (has_failed output.old) (has_failed output.new) result.0 }
    ensures out { IsOut output.old → IsOut output.new }
{
    let (outcome, left) = on_new(rt, path, start, &mut Making, &mut Io::new(io::sink()));
    (tell_init(output, outcome), left)
}

/// The subcommand `run`.
fn run_told<'a, S: Start, R: Read, W: Write>(
    rt: &HostRuntime,
    path: &'a str,
    start: S,
    at: Option<Moment>,
    input: &mut Io<R>,
    output: &mut Io<W>,
) -> (u8, Left<'a, FileFrom<S>, S>)
    ensures declined { TellsDecline (written W.contents output.old)
        (written W.contents output.new) result.0 }
    ensures ran { TellsRan ⟦<FileFrom<S> as Disk>⟧ (image_at S.Start) path.now
        (written W.contents output.old) (written W.contents output.new) result.0 result.1
        (R.remaining (inside input.old)) at }
    ensures status { result.0 ≤ 4 }
    ensures unprinted { TellsFailure (has_failed output.old) (has_failed output.new) result.0 }
    ensures out { IsOut output.old → IsOut output.new }
{
    let moment = match moment_or_now(rt, at) {
        Now::At(moment) => moment,
        Now::Outside => {
            return (
                tell_bytes(output, b"refused 11\n", REFUSED),
                Left::Untouched(start),
            );
        }
        Now::Unread => {
            return (
                tell_stop(output, Stop::Fault(Fault::INPUT)),
                Left::Untouched(start),
            );
        }
    };
    let mut run = Run { input, at: moment };
    work_and_tell(rt, path, start, &mut run, output)
}

/// Prints what the reader of the words answered in place of a request: help, or what is wrong with them.
fn tell_words<W: Write>(output: &mut Io<W>, error: clap::Error) -> u8
    ensures told { TellsStatus (arguments.status_of (kind_of error)) (written W.contents output.old)
        (written W.contents output.new) result }
    ensures status { result ≤ 4 }
    ensures unprinted { TellsFailure (has_failed output.old) (has_failed output.new) result }
    ensures out { IsOut output.old → IsOut output.new }
{
    match status_of(&error) {
        Some(status) => tell_text(output, error, status),
        None => tell_stop(output, Stop::Fault(Fault::MEMORY)),
    }
}

/// The whole program, of which the first word is its name, where `start` stands for what the files held that the words
/// name. It answers the exit status, with what is left of the files: 0 where all was accepted, 1 where something was
/// refused, 2 for wrong words, 3 for a fault, 4 where the file is no package. A print that fails ends with 3.
pub fn program_on<'a, S: Start, R: Read, W: Write>(
    rt: &HostRuntime,
    words: &'a [&'a str],
    start: S,
    input: &mut Io<R>,
    output: &mut Io<W>,
) -> (u8, Left<'a, FileFrom<S>, S>)
    requires { S.Start.is_mixing ≡ false }
    ensures told { TellsWords ⟦<FileFrom<S> as Disk>⟧ (image_at S.Start)
        (R.remaining (inside input.old)) (map (λ word. word.now) words.entry.now)
        (written W.contents output.old) (written W.contents output.new) result.0 result.1 }
    ensures status { result.0 ≤ 4 }
    ensures unprinted { TellsFailure (has_failed output.old) (has_failed output.new) result.0 }
    ensures out { IsOut output.old → IsOut output.new }
{
    match read_arguments(rt.alloc(), words) {
        Ok(Request::Init { file }) => init_told(rt, file, start, output),
        Ok(Request::Run { file, at }) => run_told(rt, file, start, at, input, output),
        Ok(Request::Check { file }) => check_told(rt, file, start, output),
        Ok(Request::List { file }) => list_told(rt, file, start, output),
        Ok(Request::Show { file, table, id }) => show_told(rt, file, start, table, id, output),
        Ok(Request::Migrate { file }) => migrate_told(rt, file, start, output),
        Ok(Request::Serve { file, port, count }) => {
            serve_told(rt, file, start, port, count, output)
        }
        Ok(
            Request::Desk {
                file,
                port,
                count,
                page,
            },
        ) => desk_told(rt, file, start, port, count, page, output),
        Ok(
            Request::Kit {
                file,
                edition,
                folder,
                at,
            },
        ) => {
            let folder = SystemFolder::new(rt, folder, pieces_wanted(rt, words, file));
            import_and_tell(rt, file, start, edition, folder, at, output)
        }
        Ok(Request::Explain { answer }) => (explain_told(answer, output), Left::Untouched(start)),
        Err(error) => (tell_words(output, error), Left::Untouched(start)),
    }
}

/// The whole program, on files that the system opens; what is left of them `program_on` says, which it calls. Of how a
/// crash mixes old bytes and new ones nothing is supposed: each commit is synced twice.
pub fn program<R: Read, W: Write>(
    rt: &HostRuntime,
    words: &[&str],
    input: &mut Io<R>,
    output: &mut Io<W>,
) -> u8
    ensures all { (left : lefts.Left _ Wary _)
        × TellsWords {S = Wary} ⟦<FileFrom<Wary> as Disk>⟧ (image_at ⟦<Wary as Start>⟧) (R.remaining (inside input.old))
        (map (λ word. word.now) words.entry.now) (written W.contents output.old)
        (written W.contents output.new) result left }
    ensures status { result ≤ 4 }
    ensures unprinted { TellsFailure (has_failed output.old) (has_failed output.new) result }
    ensures out { IsOut output.old → IsOut output.new }
{
    let (status, left) = program_on(rt, words, Wary, input, output);
    left.let_go();
    status
}
