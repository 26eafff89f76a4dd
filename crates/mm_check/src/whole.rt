//! The form of the blobs, and then the rules.

ghost use Rattle.sqlite.specs.Held.{state};
ghost use Rattle.mm_definitions.specs.Units.{profile_of};
ghost use Rattle.mm_check.specs.Checked.{IsChecked};

use crate::form::blobs_stand;
use crate::verdict::verify_known;
use mm_definitions::answers::Open;
use mm_definitions::units::Unit;
use sqlite::{Alter, Connection};

/// Checks wholly what a connection with no transaction shows in a unit: the form of the blobs, and then all sixteen
/// rules. Bytes are read once, for their digests: where the longest are few enough for each entry, rule 16 reads none.
///
/// # Errors
///
/// 98 where bytes are not kept once each; the rule that fails, 16 where it fails, and else the least; or a fault: 90
/// where memory was refused, and 91 where the store failed.
pub fn check_whole<S: Alter>(conn: &mut Connection<S>, unit: Unit) -> Result<(), Open>
    ensures { IsChecked (profile_of unit) (state S.Store conn.old) (state S.Store conn.new) result }
{
    let longest = match blobs_stand(conn) {
        Ok(Some(longest)) => longest,
        Ok(None) => return Err(Open::BadBlobs),
        Err(fault) => return Err(Open::Fault(fault)),
    };
    match verify_known(conn, unit, Some(longest)) {
        Ok(None) => Ok(()),
        Ok(Some(rule)) => Err(Open::Rule(rule)),
        Err(fault) => Err(Open::Fault(fault)),
    }
}
