//! A session on the package of a connection, and the run of records on it.

ghost use Rattle.std.specs.Prelude.{◌≡◌, ◌≤◌, ◌⊎◌, false, IfOk, IfErr};
ghost use Rattle.sqlite.specs.Held.{state};
ghost use Rattle.sqlite.specs.State.{HasCleanDisk};
ghost use Rattle.mm_definitions.specs.Bounds.{current};
ghost use Rattle.mm_definitions.specs.Streams.{has_failed, inside, written};
ghost use Rattle.mm_io.specs.Sending.{IsOut};
ghost use Rattle.mm_store.specs.Stands.{IsSettled};
ghost use Rattle.mm_core.specs.Runs.{OnRun};
ghost use Rattle.mm_core.specs.Adopted.{IsAdopted};
ghost use Rattle.mm_core.specs.Parts.{connection};
ghost use Rattle.mm_core.specs.Parts as sessions;
ghost use Rattle.mm_work.specs.Declined.{IsDeclined};
ghost use Rattle.mm_work.specs.Ran.{IsListRun, KeepsRules};

use crate::stop::Stop;
use crate::tell::{DONE, FAULT, REFUSED};
use mm_core::Session;
use mm_definitions::moments::Moment;
use mm_definitions::streams::Io;
use sqlite::{Alter, Connection};
use std::alloc::Global;
use std::io::{Read, Write};

/// A session on a package that is there and meets all rules. Else the connection is handed back, with why it is not
/// adopted.
pub fn adopt_package<S: Alter + Drop>(
    alloc: Global,
    conn: Connection<S>,
) -> Result<Session<S>, (Connection<S>, Stop)>
    requires { conn.in_transaction ≡ false }
    ensures working { IfOk result (λ session. sessions.must_reopen session ≡ false) }
    ensures adopted { IfOk result
        (λ session. IsAdopted (state S.Store conn) (state S.Store (connection session))) }
    ensures declined { IfErr result (λ e. IsDeclined (state S.Store conn) (state S.Store e.0) e.1) }
    ensures handed_back { IfErr result (λ e. e.0.in_transaction ≡ false) }
{
    match Session::adopt(alloc, conn) {
        Ok(session) => Ok(session),
        Err((conn, cause)) => Err((conn, Stop::from(cause))),
    }
}

/// Runs the records of the input on a session, and answers the exit status.
pub fn run_session<S: Alter, R: Read, W: Write>(
    session: &mut Session<S>,
    input: &mut Io<R>,
    output: &mut Io<W>,
    at: Moment,
) -> u8
    ensures status { result ≤ 3 }
    ensures working { (result ≡ 3) ⊎ (has_failed output.new ≡ has_failed output.old) }
    ensures clean { HasCleanDisk (state S.Store (connection session.new))
        → HasCleanDisk (state S.Store (connection session.old)) }
    ensures ran { OnRun (HasCleanDisk (state S.Store (connection session.new)))
        (λ p. IsSettled current (state S.Store (connection session.old)) p)
        (R.remaining (inside input.old))
        (λ p bytes. IsListRun p at bytes (state S.Store (connection session.new))
        (written W.contents output.old) (written W.contents output.new) result) }
    ensures kept { KeepsRules (state S.Store (connection session.old))
        (state S.Store (connection session.new)) }
    ensures out { IsOut output.old → IsOut output.new }
{
    match session.run_list(input, output, at) {
        Ok(tally) if tally.refused == 0 => DONE,
        Ok(_) => REFUSED,
        Err(_) => FAULT,
    }
}
