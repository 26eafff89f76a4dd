//! Which paths ask for the rows of a table.

ghost use Rattle.std.specs.Prelude.{◌≡◌, ◌≢◌, ◌++◌, ◌∷◌, ℤ, false, MatchOption, codes};
ghost use Rattle.matchit.specs.Seek.{has_slash};
ghost use Rattle.mm_definitions.specs.Keys.{Text};
ghost use Rattle.mm_desk.specs.Replies.{AsksRows};

use mm_definitions::limits::LAST_ID;
use mm_definitions::names::Name;
use mm_definitions::numbers::read_number;

/// The parts of a text around its first slash.
fn at_slash(text: &str) -> Option<(&str, &str)>
    ensures { MatchOption result ((front back : Text) → text.now ≢ (front ++ 47 ∷ back))
        (λ r. (text.now ≡ r.0.now ++ 47 ∷ r.1.now) × (has_slash r.0.now ≡ false)) }
{
    text.split_once('/')
}

/// What stands behind the slash at the front of a path.
fn behind_slash(path: &str) -> Option<&str>
    ensures { MatchOption result ((rest : Text) → path.now ≢ (47 ∷ rest))
        (λ rest. path.now ≡ 47 ∷ rest.now) }
{
    path.strip_prefix('/')
}

/// The table and the id from which a path asks for its rows, or None where it asks for no rows.
pub fn rows_wanted(path: &str) -> Option<(Name, i64)>
    ensures { MatchOption result ((table : Text) (first : ℤ) → ¬ (AsksRows path.now table first))
        (λ r. AsksRows path.now r.0 r.1) }
{
    let Some(parts) = behind_slash(path) else {
        return None;
    };
    let Some((word, rest)) = at_slash(parts) else {
        return None;
    };
    if word != "rows" {
        return None;
    }
    let Some((front, back)) = at_slash(rest) else {
        return None;
    };
    let Some(table) = Name::read(front) else {
        return None;
    };
    match read_number(back, 1, LAST_ID as i64) {
        Ok(first) => Some((table, first)),
        Err(_) => None,
    }
}
