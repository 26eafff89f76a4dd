//! Spatial reference systems.

ghost use Rattle.std.specs.FinMap.{contains_key};
ghost use Rattle.mm_store.specs.Handed.{Tells};

use crate::statements::exists;
use mm_definitions::answers::Fault;
use sqlite::{Alter, Transaction, params};

/// Whether a system has this number.
pub fn has_system<S: Alter>(tx: &mut Transaction<'_, S>, id: i64) -> Result<bool, Fault>
    ensures { Tells S.Store tx.old tx.new (λ p. contains_key p.systems id) result }
{
    exists(
        tx,
        "SELECT 1 FROM gpkg_spatial_ref_sys WHERE srs_id = ?1 LIMIT 1",
        params![id],
    )
}
