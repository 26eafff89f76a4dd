//! Sessions: how one begins, what it answers to a command, and when it has to be opened again.

ghost use Rattle.std.specs.Prelude.{◌≡◌, false};

use crate::applying::apply_once;
use mm_check::check_whole;
use mm_definitions::answers::{Answer, Fault, Open, RunFault, Tally};
use mm_definitions::commands::Command;
use mm_definitions::moments::Moment;
use mm_definitions::streams::Io;
use mm_definitions::units::CURRENT;
use mm_meta::{init, look};
use mm_migrate::migrate;
use mm_run::{Apply, run_list};
use sqlite::{Alter, Connection};
use std::alloc::Global;
use std::io::{Read, Write};

/// A connection to a package that only this session writes. After a fault of `apply` it has failed: every later command
/// is answered 92, and the package has to be opened again.
#[derive(Drop)]
pub struct Session<S: Alter> {
    pub(crate) conn: Connection<S>,
    pub(crate) alloc: Global,
    pub(crate) failed: bool,
    ghost idle: { conn.in_transaction ≡ false },
}

impl<S: Alter> Session<S> {
    ghost use Rattle.std.specs.Prelude.{◌≡◌, ◌⊎◌, Ok, Err, IfOk, IfErr, false, true};
    ghost use Rattle.sqlite.specs.Held.{state};
    ghost use Rattle.mm_definitions.specs.Faults.{memory, store};
    ghost use Rattle.mm_core.specs.Adopted.{IsAdopted, IsNotAdopted};
    ghost use Rattle.mm_core.specs.Sessions.{IsCreated, IsNotCreated};
    ghost use Rattle.mm_migrate.specs.Migrations.{IsMigration};
    ghost use Rattle.mm_core.specs.Parts.{connection, must_reopen, readiness};

    /// Makes a new package on a connection whose database has no table, in one commit that is the last call of the store. On a
    /// fault the connection is handed back, and each database that may be left has no table or stands for the new package.
    pub fn create(alloc: Global, conn: Connection<S>) -> Result<Session<S>, (Connection<S>, Fault)>
        requires { conn.in_transaction ≡ false }
        ensures working { IfOk result (λ session. must_reopen session ≡ false) }
        ensures created { IfOk result
            (λ session. IsCreated (state S.Store conn) (state S.Store (connection session))) }
        ensures faults { IfErr result (λ e. (e.1.0 ≡ memory.0) ⊎ (e.1.0 ≡ store.0)) }
        ensures handed_back { IfErr result (λ e. e.0.in_transaction ≡ false) }
        ensures not_created { IfErr result
            (λ e. IsNotCreated (state S.Store conn) (state S.Store e.0)) }
    {
        let mut conn = conn;
        match init(&mut conn) {
            Ok(()) => Ok(Session {
                conn,
                alloc,
                failed: false,
            }),
            Err(fault) => Err((conn, fault)),
        }
    }

    /// Takes a connection to a package that meets all sixteen rules, and writes nothing: it asks for the profile's row,
    /// then for the form of the blobs, and then checks the whole package. What may be left is as it was, so a connection
    /// that is settled for a package gives a session that is settled for it.
    ///
    /// # Errors
    ///
    /// The connection is handed back with 93, 94 or 95 as `look` tells them, with 98 exactly where bytes are not kept once
    /// each, with `Open::Rule` for the rule that fails (16 where it fails, else the least), or with a fault: 90 where
    /// memory was refused, and else 91.
    pub fn adopt(alloc: Global, conn: Connection<S>) -> Result<Session<S>, (Connection<S>, Open)>
        requires { conn.in_transaction ≡ false }
        ensures working { IfOk result (λ session. must_reopen session ≡ false) }
        ensures adopted { IfOk result
            (λ session. IsAdopted (state S.Store conn) (state S.Store (connection session))) }
        ensures handed_back { IfErr result (λ e. e.0.in_transaction ≡ false) }
        ensures not_adopted { IfErr result
            (λ e. IsNotAdopted (state S.Store conn) (state S.Store e.0) e.1) }
    {
        let mut conn = conn;
        match look(&mut conn) {
            Ok(()) => {}
            Err(open) => return Err((conn, open)),
        }
        match check_whole(&mut conn, CURRENT) {
            Ok(()) => Ok(Session {
                conn,
                alloc,
                failed: false,
            }),
            Err(why) => Err((conn, why)),
        }
    }

    /// Takes a connection to a package as `adopt` does, one of profile 1 too: that is checked by the rules of its own
    /// profile, and then told in micrometres in one transaction, whose commit is the last call of the store.
    ///
    /// # Errors
    ///
    /// The connection is handed back, with no transaction open on it, with 93 for any other version, 94 or 95 as `look`
    /// tells them, with 98 where bytes are not kept once each, with `Open::Rule` for the rule that fails of the package in
    /// its own unit, and nothing has changed; or with a fault, and each database that may be left stands for the package as
    /// it was or wholly for it in micrometres.
    pub fn migrate(alloc: Global, conn: Connection<S>) -> Result<Session<S>, (Connection<S>, Open)>
        requires { conn.in_transaction ≡ false }
        ensures working { IfOk result (λ session. must_reopen session ≡ false) }
        ensures migrated { IfOk result
            (λ session. IsMigration (state S.Store conn) (state S.Store (connection session)) (Ok tt)) }
        ensures handed_back { IfErr result (λ e. e.0.in_transaction ≡ false) }
        ensures not_migrated { IfErr result
            (λ e. IsMigration (state S.Store conn) (state S.Store e.0) (Err e.1)) }
    {
        let conn = migrate(conn)?;
        Ok(Session {
            conn,
            alloc,
            failed: false,
        })
    }

    /// 92 where the session has to be opened again.
    pub(crate) fn ready(&self) -> Result<(), Fault>
        ensures { result ≡ readiness (must_reopen self.now) }
    {
        if self.failed {
            return Err(Fault::REOPEN);
        }
        Ok(())
    }

    /// Hands the connection back, and makes no call of the store.
    pub fn close(self) -> Connection<S>
        ensures { result ≡ connection self }
    {
        let Session {
            conn,
            alloc: _,
            failed: _,
        } = self;
        conn
    }
}

impl<S: Alter> Session<S> {
    ghost use Rattle.std.specs.Prelude.{◌≡◌, ◌⊎◌, None, false, true};
    ghost use Rattle.sqlite.specs.Held.{state};
    ghost use Rattle.mm_definitions.specs.Bounds.{current};
    ghost use Rattle.mm_definitions.specs.Faults.{memory, store, reopen};
    ghost use Rattle.mm_definitions.specs.Package.{Package};
    ghost use Rattle.mm_definitions.specs.Rules.{Meets};
    ghost use Rattle.mm_definitions.specs.Step.{step};
    ghost use Rattle.mm_run.specs.Answers.{is_fault};
    ghost use Rattle.mm_run.specs.Applied.{OnFault};
    ghost use Rattle.mm_core.specs.Applied.{IsAppliedTo};
    ghost use Rattle.mm_core.specs.Parts.{connection, must_reopen};

    /// Applies one command at a moment, in one transaction whose commit is the last call of the store; that of a
    /// rehearsal is rolled back. `Ok` where it is
    /// done for good, `Refused` where nothing changed. A fault, 90 or 91, ends the session: each later call is answered
    /// 92 and makes no call of the store. The fields of each command are within their limits, by their types, so that the
    /// package after it keeps the rules.
    pub fn apply(&mut self, command: &Command, at: Moment) -> Answer
        ensures ended { must_reopen self.old ≡ true → (result ≡ Answer.Fault reopen)
            × (self.new ≡ self.old) }
        ensures working { must_reopen self.old ≡ false
            → OnFault result (λ fault. (fault ≡ memory.0) ⊎ (fault ≡ store.0)) }
        ensures fails { must_reopen self.old ≡ false → must_reopen self.new ≡ is_fault result }
        ensures applied { must_reopen self.old ≡ false
            → IsAppliedTo command.now at
            (state S.Store (connection self.old)) (state S.Store (connection self.new)) result }
        ensures keeps { (p : Package) → Meets current p → Meets current (step p command.now at) }
    {
        // The proof reads from these that the moment and the command are within their limits.
        let _milliseconds = at.milliseconds();
        command.is_within();
        if let Err(fault) = self.ready() {
            return Answer::Fault(fault);
        }
        let answer = apply_once(self.alloc, &mut self.conn, command, at);
        self.failed = matches!(answer, Answer::Fault(_));
        answer
    }
}

impl<S: Alter> Session<S> {
    ghost use Rattle.sqlite.specs.Held.{state};
    ghost use Rattle.sqlite.specs.State.{HasCleanDisk};
    ghost use Rattle.mm_definitions.specs.Bounds.{current};
    ghost use Rattle.mm_definitions.specs.Streams.{inside, written};
    ghost use Rattle.mm_run.specs.Promised.{KeepsRun, RunsList};
    ghost use Rattle.mm_store.specs.Stands.{IsSettled};
    ghost use Rattle.mm_core.specs.Parts.{connection, must_reopen, shown};

    /// Reads records to the end and answers each with a line, which is written and flushed before the next record is
    /// answered. Each command is applied at the moment that is handed in. At each exit every database that may be left is
    /// that of a first part of the accepted commands, with every acknowledged one in it. Unless a command failed, the
    /// session works on: it is settled for the package after the answers that were given, and can run a second list.
    /// One that only reads as a package, whatever a crash would leave, is answered the same, and reads then as the package
    /// after the answers; a database that might be left before may be left as long as the package is the one it read as.
    ///
    /// A fault ends the run, with the line of the next record's number where it can be written: 90 want of memory, 91
    /// the store, 92 where the session has to be opened again, 96 where the reader fails, and 97, without a line, where
    /// the writer does. A session that has to be opened again still answers the records that spell no command, and tells
    /// 92 for the first that spells one; memory grows before that for reading records alone.
    pub fn run_list<R: Read, W: Write>(
        &mut self,
        reader: &mut Io<R>,
        writer: &mut Io<W>,
        at: Moment,
    ) -> Result<Tally, RunFault>
        ensures runs { RunsList ⟦<Session<S> as Apply>⟧ R.Read W.Write at self.old self.new
            reader.old reader.new writer.old writer.new result }
        ensures settled { KeepsRun at (HasCleanDisk (state S.Store (connection self.new)))
            (λ p. IsSettled current (state S.Store (connection self.old)) p)
            (R.remaining (inside reader.old)) (must_reopen self.old) (λ p. shown S.Store self.new)
            (written W.contents writer.old) (written W.contents writer.new) result }
    {
        let alloc = self.alloc;
        run_list(alloc, self, reader, writer, at)
    }
}
