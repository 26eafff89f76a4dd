//! Spatial reference systems.

ghost use Rattle.std.specs.Prelude.{◌≡◌, ◌||◌, pos};
ghost use Rattle.mm_definitions.specs.Keys.{same_number};

/// Whether the number is that of a given system that no pyramid may name: 0 and 4326 are geographic.
pub(crate) fn is_geographic(id: i64) -> bool
    ensures { result ≡ (same_number id (pos 0) || same_number id (pos 4326)) }
{
    id == 0 || id == 4326
}
