//! All rules in turn.

ghost use Rattle.std.specs.Prelude.{◌≤◌, ◌<◌};
ghost use Rattle.sqlite.specs.Held.{state};
ghost use Rattle.mm_walk.specs.Check.{IsCheck};
ghost use Rattle.mm_definitions.specs.Units.{profile_of};
ghost use Rattle.mm_check.specs.Verdict.{rule, Before, IsVerified, IsVerifiedWhere};
ghost use Rattle.mm_column_limits.specs.Longest.{AreFew};

use mm_column_limits::{editions, limits};
use mm_definitions::answers::{Fault, RuleNumber};
use mm_definitions::units::Unit;
use mm_rules::{contents, extensions, items, matrices, systems, tiles};
use sqlite::{Alter, Connection};

/// Rule k of those from 1 to 15, where rule 16 and all before it hold.
fn one_rule<S: Alter>(conn: &mut Connection<S>, unit: Unit, k: u8) -> Result<bool, Fault>
    requires low { 1 ≤ k }
    requires high { k < 16 }
    ensures { IsCheck (profile_of unit) (state S.Store conn.old) (state S.Store conn.new)
        (Before (profile_of unit) k) (rule (profile_of unit) k) result }
{
    match k {
        1 => systems::given_systems(conn),
        2 => contents::named_systems(conn),
        3 => contents::distinct_identifiers(conn),
        4 => contents::names(conn),
        5 => contents::registry(conn),
        6 => contents::extents(conn),
        7 => matrices::matrices_fit(conn),
        8 => matrices::higher_is_finer(conn),
        9 => matrices::next_is_halved(conn),
        10 => tiles::tiles_inside(conn),
        11 => items::items(conn),
        12 => items::relations_suited(conn),
        13 => items::pairings_join(conn),
        14 => extensions::extensions(conn),
        15 => editions::editions(conn, unit),
        _ => unreachable!(),
    }
}

/// The whole check of the package that a connection with no transaction shows, where it is known how many bytes the
/// longest tile or media item has, or nothing.
pub(crate) fn verify_known<S: Alter>(
    conn: &mut Connection<S>,
    unit: Unit,
    longest: Option<usize>,
) -> Result<Option<RuleNumber>, Fault>
    ensures { IsVerifiedWhere (profile_of unit) (AreFew longest)
        (state S.Store conn.old) (state S.Store conn.new) result }
{
    if !limits(conn, unit, longest)? {
        return Ok(Some(RuleNumber::LIMITS));
    }
    'rules: for k in 1..16u8 {
        if !one_rule(conn, unit, k)? {
            return Ok(Some(RuleNumber::of(k)));
        }
    }
    Ok(None)
}

/// The whole check of the package that a connection with no transaction shows, whatever that package is: None where it
/// meets all sixteen rules, 16 where rule 16 fails, else the least rule that fails. It writes nothing. A fault is 90 where
/// memory was refused and 91 where the store failed, and never stands for a rule that fails.
pub fn verify<S: Alter>(conn: &mut Connection<S>, unit: Unit) -> Result<Option<RuleNumber>, Fault>
    ensures { IsVerified (profile_of unit)
        (state S.Store conn.old) (state S.Store conn.new) result }
{
    verify_known(conn, unit, None)
}
