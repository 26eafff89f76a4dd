//! One command in a transaction of its own.

ghost use Rattle.std.specs.Prelude.{◌≡◌, ◌⊎◌, false, true};
ghost use Rattle.sqlite.specs.Held.{state};
ghost use Rattle.mm_definitions.specs.Stamp.{IsStamp};
ghost use Rattle.mm_run.specs.Applied.{OnFault};
ghost use Rattle.mm_definitions.specs.declared.commands.Command.TheVariants as commands;
ghost use Rattle.mm_core.specs.Applied.{IsAppliedTo};
ghost use Rattle.mm_definitions.specs.CommandGroups.{rehearses};
ghost use Rattle.mm_definitions.specs.Faults.{memory, store};

use crate::dispatching::run_command;
use mm_definitions::answers::{Answer, Fault, Outcome};
use mm_definitions::commands::Command;
use mm_definitions::moments::{Moment, stamp};
use mm_definitions::names::Name;
use mm_edition::rehearse;
use mm_store::faults::fault_of;
use sqlite::{Alter, Connection};
use std::alloc::Global;

/// One command in one transaction, whose commit is the last call of the store. A refusal rolls it back. `last_change`
/// is the stamp of the moment.
fn run_transaction<S: Alter>(
    conn: &mut Connection<S>,
    command: &Command,
    moment: Moment,
    last_change: &str,
) -> Answer
    requires idle { conn.old.in_transaction ≡ false }
    requires lasting { rehearses command.now ≡ false }
    requires stamped { IsStamp moment last_change.now }
    ensures mode { conn.new.in_transaction ≡ false }
    ensures faults { OnFault result (λ fault. (fault ≡ memory.0) ⊎ (fault ≡ store.0)) }
    ensures applied { IsAppliedTo command.now moment
        (state S.Store conn.old) (state S.Store conn.new) result }
{
    let mut tx = conn.transaction();
    match run_command(&mut tx, command, last_change) {
        Ok(outcome) => match outcome {
            Outcome::Done => match tx.commit() {
                Ok(()) => Answer::Ok,
                Err(error) => Answer::Fault(fault_of(error)),
            },
            Outcome::Refused(why) => {
                tx.rollback();
                Answer::Refused(why)
            }
        },
        Err(fault) => {
            tx.rollback();
            Answer::Fault(fault)
        }
    }
}

/// A rehearsal, whose transaction is rolled back. `last_change` is the stamp of the moment.
fn rehearse_once<S: Alter>(
    conn: &mut Connection<S>,
    edition: &Name,
    moment: Moment,
    last_change: &str,
) -> Answer
    requires idle { conn.old.in_transaction ≡ false }
    requires stamped { IsStamp moment last_change.now }
    ensures mode { conn.new.in_transaction ≡ false }
    ensures faults { OnFault result (λ fault. (fault ≡ memory.0) ⊎ (fault ≡ store.0)) }
    ensures applied { IsAppliedTo (commands.Rehearse edition.now) moment
        (state S.Store conn.old) (state S.Store conn.new) result }
{
    match rehearse(conn, edition, last_change) {
        Ok(outcome) => match outcome {
            Outcome::Done => Answer::Ok,
            Outcome::Refused(why) => Answer::Refused(why),
        },
        Err(fault) => Answer::Fault(fault),
    }
}

/// One command at a moment, in one transaction whose commit is the last call of the store. Want of memory for the
/// moment's stamp is a fault before the transaction begins.
pub(crate) fn apply_once<S: Alter>(
    alloc: Global,
    conn: &mut Connection<S>,
    command: &Command,
    moment: Moment,
) -> Answer
    requires idle { conn.old.in_transaction ≡ false }
    ensures mode { conn.new.in_transaction ≡ false }
    ensures faults { OnFault result (λ fault. (fault ≡ memory.0) ⊎ (fault ≡ store.0)) }
    ensures applied { IsAppliedTo command.now moment
        (state S.Store conn.old) (state S.Store conn.new) result }
{
    let at = match stamp(alloc, moment) {
        Ok(at) => at,
        Err(_) => return Answer::Fault(Fault::MEMORY),
    };
    match command {
        Command::Rehearse { edition } => rehearse_once(conn, edition, moment, at.as_str()),
        _ => run_transaction(conn, command, moment, at.as_str()),
    }
}
