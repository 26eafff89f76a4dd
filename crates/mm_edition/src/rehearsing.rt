//! Rehearsing the publishing of an edition.

ghost use Rattle.std.specs.Prelude.{◌≡◌, ℕ, false};
ghost use Rattle.sqlite.specs.Held.{state};
ghost use Rattle.mm_definitions.specs.Bounds.{Profile};
ghost use Rattle.mm_definitions.specs.Stamp.{IsStamp};
ghost use Rattle.mm_edition.specs.Quiet.{IsQuiet};
ghost use Rattle.mm_edition.specs.Rehearsals.{IsRehearsal};

use crate::publishing::publish;
use mm_definitions::answers::{Fault, Outcome};
use mm_definitions::names::Name;
use sqlite::{Alter, Connection};

/// The command `rehearse`: answers what `publish` would, and changes nothing, since the transaction that it publishes
/// in is rolled back. `last_change` is the stamp of any moment.
pub fn rehearse<S: Alter>(
    conn: &mut Connection<S>,
    edition: &Name,
    last_change: &str,
) -> Result<Outcome, Fault>
    requires idle { conn.old.in_transaction ≡ false }
    ensures mode { conn.new.in_transaction ≡ false }
    ensures any_text { IsQuiet (state S.Store conn.old) (state S.Store conn.new) result }
    ensures rehearsed { (profile : Profile) (moment : ℕ) → IsStamp moment last_change.now →
        IsRehearsal profile edition.now (state S.Store conn.old) (state S.Store conn.new) result }
{
    let mut tx = conn.transaction();
    let outcome = publish(&mut tx, edition, last_change);
    tx.rollback();
    outcome
}
