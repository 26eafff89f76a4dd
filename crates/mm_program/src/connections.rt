//! Connections that are served one after another.

ghost use Rattle.std.specs.Prelude.{◌≡◌, ◌∷◌, [], IfErr, List, Option};
ghost use Rattle.sqlite.specs.Held.{state};
ghost use Rattle.mm_definitions.specs.Streams.{written};
ghost use Rattle.mm_definitions.specs.Streams as streams;
ghost use Rattle.mm_core.specs.Parts.{connection, must_reopen};
ghost use Rattle.mm_core.specs.Viewers.{LeavesPackage};
ghost use Rattle.mm_core.specs.Writing.{IsOut};
ghost use Rattle.mm_work.specs.Pages.{IsServed, IsServiceFault, Outcome, TellsMore};

use mm_core::Session;
use mm_definitions::answers::PageFault;
use mm_definitions::streams::Io;
use mm_work::{DONE, FAULT, tell_page_fault};
use sqlite::Alter;
use std::alloc::Global;
use std::io::Write;

/// A thing that serves the page to one connection after another.
pub trait Serves<S: Alter> {
    // What became of the connections that were served, where it tells.
    ghost outcomes: { Self → Option (List Outcome) };

    /// Serves the next connection; the session stays as it is.
    fn serve_next(&mut self, alloc: Global, session: &mut Session<S>) -> Result<(), PageFault>
        ensures same { must_reopen session.new ≡ must_reopen session.old }
        ensures kept { LeavesPackage
            (state S.Store (connection session.old)) (state S.Store (connection session.new)) }
        ensures fault { IfErr result (λ why. IsServiceFault why.0) }
        ensures told { TellsMore (outcomes self.old) (outcomes self.new) (result ∷ []) };
}

/// Serves so many connections, one after another. The fault of a connection is printed as `page fault NUMBER`, and the
/// next is served. It answers the exit status: 0, or 3 where a connection met a fault, or where a fault couldn't be
/// printed, which ends it. The session stays as it is.
pub fn serve_on<S: Alter, L: Serves<S>, W: Write>(
    alloc: Global,
    session: &mut Session<S>,
    listener: &mut L,
    count: u32,
    output: &mut Io<W>,
) -> u8
    ensures same { must_reopen session.new ≡ must_reopen session.old }
    ensures kept { LeavesPackage
        (state S.Store (connection session.old)) (state S.Store (connection session.new)) }
    ensures served { (outcomes : List Outcome)
        × TellsMore (L.outcomes listener.old) (L.outcomes listener.new) outcomes
        × IsServed count outcomes (written W.contents output.old)
        (written W.contents output.new) result }
    ensures out { IsOut output.old → IsOut output.new }
{
    let mut status = DONE;
    for served in 0..count {
        match listener.serve_next(alloc, session) {
            Ok(()) => {}
            Err(fault) => {
                if !tell_page_fault(output, fault) {
                    return FAULT;
                }
                status = FAULT;
            }
        }
    }
    status
}
