//! The row that says which profile a file has.

ghost use Rattle.std.specs.Prelude.{◌≡◌, ◌≢◌, ℤ, false, IfOk, IfErr, MatchOption};
ghost use Rattle.sqlite.specs.Held.{state};
ghost use Rattle.sqlite.specs.Order.{column};
ghost use Rattle.sqlite.specs.declared.types.Value.TheVariants.{Int};
ghost use Rattle.mm_store.specs.Tables.{schema};
ghost use Rattle.mm_definitions.specs.Faults.{memory};
ghost use Rattle.mm_meta.specs.Opening.{nothing};
ghost use Rattle.mm_meta.specs.Look.{Judges, TellsError, IsLooked, stops};
ghost use Rattle.mm_meta.specs.Handed.{MakesOfVersion};

use mm_definitions::answers::{Fault, Open};
use mm_store::faults::{fault_of, wants_memory};
use mm_store::statements::run;
use sqlite::{Alter, Connection, Error, ErrorCode, Row, Transaction, params};

/// Puts the row of the profile into tables without a row.
pub(crate) fn insert_profile<S: Alter>(
    tx: &mut Transaction<'_, S>,
    version: i64,
) -> Result<(), Fault>
    ensures { MakesOfVersion S.Store tx.old tx.new schema version nothing result }
{
    run(
        tx,
        "INSERT INTO mm_profile (id, version) VALUES (?1, ?2)",
        params![1i64, version],
    )
}

/// The number in a column, if it holds one.
fn number_if_any(row: &Row, at: usize) -> Result<Option<i64>, Fault>
    ensures number { IfOk result
        (λ found. MatchOption found ((number : ℤ) → column row.now at ≢ Int number)
        (λ number. column row.now at ≡ Int number)) }
    ensures fault { IfErr result (λ fault. fault ≡ memory) }
{
    match row.get(at) {
        Ok(number) => Ok(Some(number)),
        Err(error) => {
            if wants_memory(&error) {
                Err(Fault::MEMORY)
            } else {
                Ok(None)
            }
        }
    }
}

/// Whether the rows are the one row (1, 2).
fn judge(rows: &[Row]) -> Result<(), Open>
    ensures { Judges rows.now result }
{
    let [row] = rows else {
        return Err(Open::BadProfile);
    };
    match number_if_any(row, 0) {
        Ok(Some(id)) => {
            if id != 1 {
                return Err(Open::BadProfile);
            }
        }
        Ok(None) => return Err(Open::BadProfile),
        Err(fault) => return Err(Open::Fault(fault)),
    }
    match number_if_any(row, 1) {
        Ok(Some(version)) => {
            if version == 2 {
                Ok(())
            } else {
                Err(Open::Version(version))
            }
        }
        Ok(None) => Err(Open::BadProfile),
        Err(fault) => Err(Open::Fault(fault)),
    }
}

/// Whether memory, the disk or a limit on steps stopped a query.
fn is_stop(error: &Error) -> bool
    ensures { result ≡ stops error.now }
{
    matches!(
        error,
        Error::SqliteFailure(
            ErrorCode::OutOfMemory
                | ErrorCode::SystemIoFailure
                | ErrorCode::DatabaseCorrupt
                | ErrorCode::DiskFull
                | ErrorCode::Closed
                | ErrorCode::OperationInterrupted
        )
    )
}

/// How an error of the query is told.
fn refusal_of(error: Error) -> Result<(), Open>
    ensures { TellsError error result }
{
    if is_stop(&error) {
        Err(Open::Fault(fault_of(error)))
    } else {
        Err(Open::NoProfile)
    }
}

/// Whether the database holds a package of this profile: `Ok` where the profile's table has exactly the row (1, 2), 93
/// where it has exactly the row (1, v) with another v, 95 where it answers otherwise, and 94 where the query is refused for
/// another cause than memory, the disk or a limit on steps. It writes nothing.
pub fn look<S: Alter>(conn: &mut Connection<S>) -> Result<(), Open>
    requires { conn.old.in_transaction ≡ false }
    ensures mode { conn.new.in_transaction ≡ false }
    ensures looked { IsLooked (state S.Store conn.old) (state S.Store conn.new) result }
{
    match conn.query_all("SELECT id, version FROM mm_profile", &[]) {
        Ok(rows) => judge(rows.as_slice()),
        Err(error) => refusal_of(error),
    }
}
