//! Requests that a desk answers one after another.

ghost use Rattle.std.specs.Prelude.{◌≡◌, ◌⊎◌, ◌∷◌, [], List, Ok, false, true};
ghost use Rattle.mm_definitions.specs.Streams.{written};
ghost use Rattle.mm_core.specs.Writing.{IsOut};
ghost use Rattle.mm_desk.specs.Exchanges.{IsDeskTurn};
ghost use Rattle.mm_desk.specs.Sittings.{Sat, Visit};
ghost use Rattle.mm_desk.specs.Told.{AddsTo, AreAnswered, AreVisitsOf, IsAnsweredAs, Told};
ghost use Rattle.mm_program.specs.Attended.{AreTold, TellsTurn};
ghost use Rattle.mm_program.specs.Desks.{IsAttended, PrintsTurn};

use mm_definitions::answers::{RunFault, Tally};
use mm_definitions::streams::Io;
use mm_desk::{Comes, Desk, Done};
use mm_work::{DONE, FAULT, tell_list_fault, tell_page_fault};
use std::alloc::Global;
use std::io::Write;

/// What comes behind a request.
pub enum Turn {
    /// The next one.
    Next,
    /// The end, with this exit status.
    Last(u8),
}

/// The end with a fault, where the desk has to be opened again, and else the next request.
fn next_of<D: Desk>(desk: &D) -> Turn
    ensures ends { (result ≡ Turn.Next) ⊎ (result ≡ Turn.Last 3) }
    ensures goes { result ≡ Turn.Next → D.Apply.has_failed desk.now ≡ false }
    ensures over { result ≡ Turn.Last 3 → D.Apply.has_failed desk.now ≡ true }
{
    if desk.is_over() {
        return Turn::Last(FAULT);
    }
    Turn::Next
}

/// Prints the fault of a list that was ended, if one was. The desk ends behind a command that failed, or a line that
/// could not be printed.
fn tell_list<D: Desk, W: Write>(desk: &D, output: &mut Io<W>, run: Result<Tally, RunFault>) -> Turn
    ensures told { PrintsTurn (written W.contents output.old) (written W.contents output.new)
        result }
    ensures goes { result ≡ Turn.Next → D.Apply.has_failed desk.now ≡ false }
    ensures over { D.Apply.has_failed desk.now ≡ true → result ≡ Turn.Last 3 }
    ensures out { IsOut output.old → IsOut output.new }
    ensures tells { TellsTurn (D.Apply.has_failed desk.now) (Ok (Done.Ran run))
        (written W.contents output.old) (written W.contents output.new) result }
{
    match run {
        Ok(_) => next_of(desk),
        Err(stopped) => {
            if !tell_list_fault(output, stopped.fault) {
                return Turn::Last(FAULT);
            }
            next_of(desk)
        }
    }
}

/// Answers the next request, and prints its fault.
fn answer_and_tell<D: Desk, C: Comes<D>, W: Write>(
    alloc: Global,
    desk: &mut D,
    comes: &mut C,
    output: &mut Io<W>,
) -> Turn
    ensures one { IsDeskTurn D.Apply desk.old desk.new }
    ensures goes { result ≡ Turn.Next → D.Apply.has_failed desk.old ≡ false
        → D.Apply.has_failed desk.new ≡ false }
    ensures over { D.Apply.has_failed desk.old ≡ false → D.Apply.has_failed desk.new ≡ true
        → result ≡ Turn.Last 3 }
    ensures out { IsOut output.old → IsOut output.new }
    ensures told { PrintsTurn (written W.contents output.old) (written W.contents output.new)
        result }
    ensures answered { (t : Told) × AddsTo (C.told comes.old) (C.told comes.new) (t ∷ [])
        × IsAnsweredAs D.Viewer D.Apply t desk.old desk.new
        × TellsTurn (D.Apply.has_failed desk.new) t.result
        (written W.contents output.old) (written W.contents output.new) result }
{
    let done = match comes.answer_next(alloc, desk) {
        Ok(done) => done,
        Err(fault) => {
            if !tell_page_fault(output, fault) {
                return Turn::Last(FAULT);
            }
            return Turn::Next;
        }
    };
    match done {
        Done::Shown => Turn::Next,
        Done::Ended => Turn::Last(DONE),
        Done::Ran(run) => tell_list(desk, output, run),
    }
}

/// Answers so many requests, one after another, or until one ends the desk. A fault of a request is printed as
/// `page fault NUMBER`: no record of it was run. One that ended a list is printed as `list fault NUMBER`. It answers
/// the exit status: 0, or 3 where a command failed, so that the desk has to be opened again, or where a line couldn't
/// be printed, which ends it.
pub fn attend<D: Desk, C: Comes<D>, W: Write>(
    alloc: Global,
    desk: &mut D,
    comes: &mut C,
    count: u32,
    output: &mut Io<W>,
) -> u8
    ensures sat { D.Apply.has_failed desk.old ≡ false
        → (visits : List Visit) × Sat D.Apply desk.old visits desk.new }
    ensures told { IsAttended count (written W.contents output.old)
        (written W.contents output.new) result }
    ensures over { D.Apply.has_failed desk.old ≡ false → D.Apply.has_failed desk.new ≡ true
        → result ≡ 3 }
    ensures out { IsOut output.old → IsOut output.new }
    ensures answered { (all : List Told) × AddsTo (C.told comes.old) (C.told comes.new) all
        × AreAnswered D.Viewer D.Apply desk.old all desk.new
        × AreTold count all (D.Apply.has_failed desk.new) (written W.contents output.old)
        (written W.contents output.new) result
        × (D.Apply.has_failed desk.old ≡ false → (visits : List Visit)
        × Sat D.Apply desk.old visits desk.new × AreVisitsOf all visits) }
{
    for answered in 0..count {
        match answer_and_tell(alloc, desk, comes, output) {
            Turn::Next => {}
            Turn::Last(status) => return status,
        }
    }
    DONE
}
