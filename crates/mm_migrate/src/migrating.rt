//! How a package comes from one profile to the other.

ghost use Rattle.std.specs.Prelude.{◌≡◌, ◌↔◌, pos, false, IfOk, IfErr, IsTrue, Ok, Err};
ghost use Rattle.sqlite.specs.Held.{state};
ghost use Rattle.mm_definitions.specs.Bounds.{millimetres};
ghost use Rattle.mm_definitions.specs.declared.answers.Open.TheVariants as opens;
ghost use Rattle.mm_migrate.specs.Migrations.{IsMigration, IsOlder};

use crate::scaling::rescale;
use mm_check::check_whole;
use mm_definitions::answers::Open;
use mm_definitions::units::{CURRENT, Unit};
use mm_meta::look;
use sqlite::{Alter, Connection};

/// Checks a package in millimetres, and tells it in micrometres.
fn migrate_older<S: Alter>(conn: &mut Connection<S>) -> Result<(), Open>
    requires { conn.old.in_transaction ≡ false }
    ensures mode { conn.new.in_transaction ≡ false }
    ensures older { IsOlder (state S.Store conn.old) (state S.Store conn.new) result }
{
    check_whole(conn, Unit::Millimetre)?;
    match rescale(conn) {
        Ok(()) => Ok(()),
        Err(fault) => Err(Open::Fault(fault)),
    }
}

/// Whether the profile is that of millimetres.
fn is_older(why: &Open) -> bool
    ensures { IsTrue result ↔ why.now ≡ opens.Version millimetres.version }
{
    match why {
        Open::Version(version) => *version == 1,
        _ => false,
    }
}

/// The same of a connection that has no transaction.
fn migrate_on<S: Alter>(conn: &mut Connection<S>) -> Result<(), Open>
    requires { conn.old.in_transaction ≡ false }
    ensures mode { conn.new.in_transaction ≡ false }
    ensures migrated { IsMigration (state S.Store conn.old) (state S.Store conn.new) result }
{
    match look(conn) {
        Ok(()) => check_whole(conn, CURRENT),
        Err(why) => {
            if is_older(&why) {
                migrate_older(conn)
            } else {
                Err(why)
            }
        }
    }
}

/// Tells a package of whole millimetres in whole micrometres, in one transaction whose commit is the last call of the
/// store; a package in micrometres is left as it is. Either is checked first, and one that breaks a rule is left as it is.
///
/// # Errors
///
/// The connection is handed back with 93 for any other version, 94 or 95 as `look` tells them, with 98 where bytes are not
/// kept once each, with the rule that fails, or with a fault. After a fault each database that may be left stands for the package in the one unit or in the other.
pub fn migrate<S: Alter>(conn: Connection<S>) -> Result<Connection<S>, (Connection<S>, Open)>
    requires { conn.in_transaction ≡ false }
    ensures mode { IfOk result (λ now. now.in_transaction ≡ false) }
    ensures migrated { IfOk result
        (λ now. IsMigration (state S.Store conn) (state S.Store now) (Ok tt)) }
    ensures handed_back { IfErr result (λ e. e.0.in_transaction ≡ false) }
    ensures not_migrated { IfErr result
        (λ e. IsMigration (state S.Store conn) (state S.Store e.0) (Err e.1)) }
{
    let mut conn = conn;
    match migrate_on(&mut conn) {
        Ok(()) => Ok(conn),
        Err(why) => Err((conn, why)),
    }
}
