//! How a package begins.

ghost use Rattle.std.specs.Prelude.{◌≡◌, false};
ghost use Rattle.sqlite.specs.Held.{state};
ghost use Rattle.mm_definitions.specs.Bounds.{current};
ghost use Rattle.mm_definitions.specs.Opening.{opening};
ghost use Rattle.mm_store.specs.Tables.{schema};
ghost use Rattle.mm_store.specs.Made.{first_tables};
ghost use Rattle.mm_meta.specs.Opening.{IsInit, given_systems};
ghost use Rattle.mm_meta.specs.Handed.{Makes, MakesNone};

use crate::profile::insert_profile;
use crate::schema::create_tables;
use crate::systems::insert_system;
use mm_definitions::answers::Fault;
use mm_layout::insert_related_row;
use mm_store::faults::fault_of;
use sqlite::{Alter, Connection, Transaction};

/// Puts the profile's row and the three given systems into tables without a row.
fn put_systems<S: Alter>(tx: &mut Transaction<'_, S>) -> Result<(), Fault>
    ensures { Makes S.Store tx.old tx.new schema current given_systems result }
{
    insert_profile(tx, 2)?;
    insert_system(
        tx,
        4326,
        "WGS 84 geographic",
        "EPSG",
        4326,
        "EPSG:4326",
        "longitude and latitude",
    )?;
    insert_system(
        tx,
        -1,
        "Undefined Cartesian",
        "NONE",
        -1,
        "undefined",
        "undefined Cartesian coordinates",
    )?;
    insert_system(
        tx,
        0,
        "Undefined geographic",
        "NONE",
        0,
        "undefined",
        "undefined geographic coordinates",
    )
}

/// Makes the tables where there is none, and puts what every package has into them. Where the tables stand already it fails.
fn make<S: Alter>(tx: &mut Transaction<'_, S>) -> Result<(), Fault>
    ensures makes { Makes S.Store tx.old tx.new (first_tables 0) current opening result }
    ensures again { MakesNone S.Store tx.old tx.new result }
{
    create_tables(tx)?;
    put_systems(tx)?;
    insert_related_row(tx, "gpkgext_relations")
}

/// Makes a package in a database that has no table: the 15 tables with their indexes, the three given systems, the row of the
/// profile and the extension row that always stands, in one commit. After a fault the database has no table; only a commit that answered
/// the fault may still survive a crash, as a whole. Where the tables of a package stand already it answers a fault, and nothing is committed.
pub fn init<S: Alter>(conn: &mut Connection<S>) -> Result<(), Fault>
    requires { conn.old.in_transaction ≡ false }
    ensures mode { conn.new.in_transaction ≡ false }
    ensures init { IsInit current (state S.Store conn.old) (state S.Store conn.new) result }
{
    let mut tx = conn.transaction();
    match make(&mut tx) {
        Ok(()) => {}
        Err(fault) => {
            tx.rollback();
            return Err(fault);
        }
    }
    match tx.commit() {
        Ok(()) => Ok(()),
        Err(error) => Err(fault_of(error)),
    }
}
