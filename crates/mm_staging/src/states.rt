//! The read of an edition: whether it is open or published, and how many pieces an open one has.

ghost use Rattle.std.specs.Prelude.{◌≡◌, false};
ghost use Rattle.sqlite.specs.Values.{bound};
ghost use Rattle.mm_definitions.specs.Standing.{TellsState};
ghost use Rattle.mm_staging.specs.States.{GivesPieceNumber, IsLast};
ghost use Rattle.mm_store.specs.Handed.{Asks, Looks, LooksByRules};
ghost use Rattle.mm_store.specs.Seen.{ReadsOn};

use crate::editions::{Standing, standing_of};
use mm_definitions::answers::Fault;
use mm_definitions::entries::EditionState;
use mm_definitions::names::Name;
use mm_store::faults::fault_of;
use mm_store::statements::first;
use sqlite::types::ValueRef;
use sqlite::{Alter, Connection, Transaction, params};

/// The number in the first column of the first row of a query. One that no piece has is a fault, 91.
fn first_number<S: Alter>(
    tx: &mut Transaction<'_, S>,
    sql: &str,
    params: &[ValueRef<'_>],
) -> Result<Option<u32>, Fault>
    ensures { Asks S.Store tx.old tx.new sql.now (bound params.now) GivesPieceNumber result }
{
    match first(tx, sql, params)? {
        Some(row) => Ok(Some(row.get(0).map_err(fault_of)?)),
        None => Ok(None),
    }
}

/// The last piece's number, if the edition has a piece.
fn last_number<S: Alter>(tx: &mut Transaction<'_, S>, edition: &str) -> Result<Option<u32>, Fault>
    ensures { Looks S.Store tx.old tx.new (λ p last. IsLast p.pieces edition.now last) result }
{
    first_number(
        tx,
        "SELECT piece_no FROM mm_pieces WHERE edition = ?1 ORDER BY piece_no DESC LIMIT 1",
        params![edition],
    )
}

/// How an edition stands, inside a transaction.
fn state_of<S: Alter>(
    tx: &mut Transaction<'_, S>,
    edition: &str,
) -> Result<Option<EditionState>, Fault>
    ensures { LooksByRules S.Store tx.old tx.new (λ p found. TellsState p edition.now found) result }
{
    match standing_of(tx, edition)? {
        Some(Standing::Open) => match last_number(tx, edition)? {
            Some(number) => Ok(Some(EditionState::Open(number))),
            None => Ok(Some(EditionState::Open(0))),
        },
        Some(Standing::Published) => Ok(Some(EditionState::Published)),
        None => Ok(None),
    }
}

/// How an edition stands, or None where none has the name: open with so many pieces, or published. A fault is 90 where
/// memory was refused, and else 91, also where a state stands that no package has; the connection is then as settled as
/// before.
pub fn edition<S: Alter>(
    conn: &mut Connection<S>,
    edition: &Name,
) -> Result<Option<EditionState>, Fault>
    requires idle { conn.old.in_transaction ≡ false }
    ensures mode { conn.new.in_transaction ≡ false }
    ensures read { ReadsOn S.Store conn.old conn.new (λ p found. TellsState p edition.now found)
        result }
{
    let mut tx = conn.transaction();
    let found = state_of(&mut tx, edition.as_str());
    tx.rollback();
    found
}
