//! Work on a file that is there, and what it came to, told.

ghost use Rattle.std.specs.Prelude.{◌≡◌, ◌≤◌, ℕ, Result};
ghost use Rattle.sqlite.specs.WalFiles.{image_at};
ghost use Rattle.mm_definitions.specs.Streams.{Written, has_failed, written};
ghost use Rattle.mm_core.specs.Writing.{IsOut};
ghost use Rattle.mm_work.specs.Told.{TellsFailure};
ghost use Rattle.mm_work.specs.declared.stop.Stop.{Stop as Why};
ghost use Rattle.mm_files.specs.Worked.{closes_behind};
ghost use Rattle.mm_program.specs.Told.{TellsDecline, TellsWork};
ghost use Rattle.mm_program.specs.Worked.{StatusEnds};

use crate::files::on_old;
use mm_definitions::streams::Io;
use mm_files::{Left, Works};
use mm_work::{DONE, Stop, tell_stop};
use sqlite::{FileFrom, Start};
use sqlite_disk::Disk;
use std::io::Write;

/// What work comes to that has an exit status of its own.
pub(crate) trait Exits: Copy {
    ghost status: { Self → ℕ };

    /// The exit status.
    fn status(self) -> u8
        ensures { result ≡ status self };
}

impl Exits for () {
    ghost status = { λ done. 0 };

    fn status(self) -> u8 {
        DONE
    }
}

impl Exits for u8 {
    ghost status = { λ done. done };

    fn status(self) -> u8 {
        self
    }
}

/// Does work that prints, on a file that is there; where it was not done, or could not be told, that is told behind it.
pub(crate) fn work_and_tell<'a, S: Start, T: Exits, K: Works<Done = T, Why = Stop>, W: Write>(
    rt: &HostRuntime,
    path: &'a str,
    start: S,
    work: &mut K,
    output: &mut Io<W>,
) -> (u8, Left<'a, FileFrom<S>, S>)
    requires ends { (old new : Written) (done : Result T Why)
        → K.comes_to work.now old new done → StatusEnds T.status old new done }
    ensures declined { TellsDecline (written W.contents output.old)
        (written W.contents output.new) result.0 }
    ensures told { TellsWork ⟦<FileFrom<S> as Disk>⟧ (image_at S.Start) path.now
        (written W.contents output.old) (written W.contents output.new) result.0 result.1 T.status
        (K.comes_to work.old) (λ found between done.
        K.tells work.old found (written W.contents output.old) between done)
        (λ found after between done.
        K.leaves work.old found after (written W.contents output.old) between done) (closes_behind K.closes) }
    ensures status { result.0 ≤ 4 }
    ensures unprinted { TellsFailure (has_failed output.old) (has_failed output.new) result.0 }
    ensures out { IsOut output.old → IsOut output.new }
{
    let (done, left) = on_old(rt, path, start, work, output);
    match done {
        Ok(it) => (it.status(), left),
        Err(why) => (tell_stop(output, why), left),
    }
}
