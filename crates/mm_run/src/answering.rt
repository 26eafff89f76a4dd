//! Answering a record.

ghost use Rattle.std.specs.Prelude.{◌≡◌, IfNone, IfSome, true};
ghost use Rattle.csv.specs.Reading.{reader_source};
ghost use Rattle.mm_definitions.specs.Package.{Package};
ghost use Rattle.mm_io.specs.Records.{IsSetUp, Record};
ghost use Rattle.mm_run.specs.Applied.{IsAnswer, IsApplyFault, IsSound, OnFault, TellsReopening};
ghost use Rattle.mm_run.specs.Ended.{IsEndedTurn, answer_unread, ended_answer};
ghost use Rattle.mm_run.specs.Readings.{IsCommandRead};
ghost use Rattle.mm_run.specs.Runs.{IsAnswered, IsKept, IsRunFault, OnSound, TellsTurn, Turns};
ghost use Rattle.mm_run.specs.Sessions.{shown_since};

use crate::apply::Apply;
use crate::reading::read_row;
use csv::Reader;
use mm_definitions::answers::{Answer, Fault, ReadFault};
use mm_definitions::commands::Command;
use mm_definitions::moments::Moment;
use mm_io::{Tells, next_row};
use std::alloc::Global;
use std::io::Read;

/// The answer to a record that was not read as a command.
fn unread_answer(fault: ReadFault) -> Answer
    ensures { result ≡ answer_unread fault }
{
    match fault {
        ReadFault::Refused(why) => Answer::Refused(why),
        ReadFault::Memory => Answer::Fault(Fault::MEMORY),
    }
}

/// Answers what was read of a record: applies the command that it spells. It wants no memory of its own, so a session
/// that has to be opened again answers 92 to a command and nothing else; 90 there is of the reading alone.
fn answer_row<A: Apply>(session: &mut A, read: Result<Command, ReadFault>, at: Moment) -> Answer
    ensures faults { OnFault result IsApplyFault }
    ensures session { TellsReopening (A.has_failed session.old) (A.has_failed session.new)
        (session.new ≡ session.old) result }
    ensures clean { A.is_clean session.new → A.is_clean session.old }
    ensures answered { A.is_clean session.new → (p : Package) → IsSound (A.seen session.old) p
        → (fields : Record) → IsCommandRead fields read
        → IsAnswered fields p at (A.has_failed session.old) result
        (shown_since A.Apply session.old p session.new) }
    ensures kept { (fields : Record) → IsCommandRead fields read
        → OnSound (A.is_clean session.new) (A.seen session.old)
        (λ p. IsKept (A.has_failed session.old) (shown_since A.Apply session.old p session.new)) }
    ensures ended { A.has_failed session.old ≡ true → result ≡ ended_answer read }
{
    // The proof reads from this that the moment is within its limits.
    let _milliseconds = at.milliseconds();
    match read {
        Ok(command) => session.apply(&command, at),
        Err(fault) => unread_answer(fault),
    }
}

/// The answer to the next record, or none at the end.
pub(crate) fn turn<A: Apply, T: Read + Tells>(
    alloc: Global,
    session: &mut A,
    rows: &mut Reader<T>,
    at: Moment,
) -> Option<Answer>
    requires { IsSetUp rows.old }
    ensures stays { IfSome result (λ a. IsAnswer a → IsSetUp rows.new) }
    ensures faults { IfSome result
        (λ a. OnFault a (λ f. IsRunFault f (T.has_failed (reader_source rows.new)))) }
    ensures reader { TellsTurn (T.has_failed (reader_source rows.old))
        (T.has_failed (reader_source rows.new)) result }
    ensures going { IfSome result
        (TellsReopening (A.has_failed session.old) (A.has_failed session.new)
        (session.new ≡ session.old)) }
    ensures still { IfNone result (session.new ≡ session.old) }
    ensures clean { A.is_clean session.new → A.is_clean session.old }
    ensures turns { A.is_clean session.new → (p : Package) → IsSound (A.seen session.old) p
        → Turns T.remaining rows.old rows.new p at (A.has_failed session.old) result
        (shown_since A.Apply session.old p session.new) }
    ensures kept { OnSound (A.is_clean session.new) (A.seen session.old)
        (λ p. IsKept (A.has_failed session.old) (shown_since A.Apply session.old p session.new)) }
    ensures ended { A.has_failed session.old ≡ true
        → IsEndedTurn T.remaining rows.old rows.new result }
{
    match next_row(alloc, rows) {
        Ok(Some(row)) => Some(answer_row(session, read_row(alloc, row), at)),
        Ok(None) => None,
        Err(fault) => Some(Answer::Fault(fault)),
    }
}
