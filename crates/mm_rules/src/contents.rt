//! The rules of contents, of the registry of kinds and of matrix sets.

ghost use Rattle.std.specs.Prelude.{◌↔◌, IsTrue};
ghost use Rattle.mm_definitions.specs.Rules.{NamedSystems, DistinctIdentifiers, ProperNames, Registry, Extents, IsPlane, IsOrdered};
ghost use Rattle.sqlite.specs.Order.{column};
ghost use Rattle.mm_walk.specs.Columns.{number_of};
ghost use Rattle.mm_rules.specs.Parts.{ContentsSystems, SetSystems, MappingNames, Registered, KindsHaveContents, SetsHaveContents, SetExtents, ContentsExtents};
ghost use Rattle.mm_rules.specs.ContentsRows.{MayNameRow, IsSameRow, IsThereRow, IsAbsentRow, IsOrderedRow, IsPlacedRow, IsUnplacedRow, IsRegisteredRow};
ghost use Rattle.mm_walk.specs.Check.{Decides, DecidesWithin};

use mm_definitions::answers::Fault;
use mm_walk::columns::{is_pyramid, number, same_number, same_text, stands, text_is};
use mm_walk::row_tests::{RowTest, each_passes};
use sqlite::{Alter, Connection, Row};

/// Whether a system is none of the geographic ones.
fn is_plane(system: i64) -> bool
    ensures { IsTrue result ↔ IsPlane system }
{
    system != 0 && system != 4326
}

/// The system that a table names, if any, with the table's kind.
struct MayName;

impl MayName {
    const NAMED: usize = 0;

    const STANDS: usize = 1;

    const KIND: usize = 2;
}

impl RowTest for MayName {
    ghost good = { λ _ row. MayNameRow row };

    fn passes(&self, row: &Row) -> bool {
        match number(row, Self::NAMED) {
            Some(system) => {
                stands(row, Self::STANDS) && (!is_pyramid(row, Self::KIND) || is_plane(system))
            }
            None => true,
        }
    }
}

/// Of rule 2, what it asks of contents.
pub fn contents_systems<S: Alter>(conn: &mut Connection<S>) -> Result<bool, Fault>
    ensures { Decides S.Store conn.old conn.new (λ p. ContentsSystems p) result }
{
    each_passes(
        conn,
        "SELECT c.srs_id, s.srs_id, k.kind FROM gpkg_contents AS c LEFT JOIN gpkg_spatial_ref_sys AS s ON s.srs_id = c.srs_id LEFT JOIN mm_tables AS k ON k.table_name = c.table_name ORDER BY c.table_name",
        &[],
        &MayName,
    )
}

/// Of rule 2, what it asks of matrix sets.
pub fn set_systems<S: Alter>(conn: &mut Connection<S>) -> Result<bool, Fault>
    ensures { Decides S.Store conn.old conn.new (λ p. SetSystems p) result }
{
    each_passes(
        conn,
        "SELECT m.srs_id, s.srs_id, k.kind FROM gpkg_tile_matrix_set AS m LEFT JOIN gpkg_spatial_ref_sys AS s ON s.srs_id = m.srs_id LEFT JOIN mm_tables AS k ON k.table_name = m.table_name ORDER BY m.table_name",
        &[],
        &MayName,
    )
}

/// Rule 2: each system that is named stands, and no pyramid names a geographic one.
pub fn named_systems<S: Alter>(conn: &mut Connection<S>) -> Result<bool, Fault>
    ensures { Decides S.Store conn.old conn.new
        (λ p. NamedSystems p.systems p.contents p.kinds p.sets) result }
{
    if contents_systems(conn)? {
        set_systems(conn)
    } else {
        Ok(false)
    }
}

/// The tables of two contents rows with one identifier.
struct Same;

impl Same {
    const TABLE: usize = 0;

    const OTHER_TABLE: usize = 1;
}

impl RowTest for Same {
    ghost good = { λ _ row. IsSameRow row };

    fn passes(&self, row: &Row) -> bool {
        same_text(row, Self::TABLE, Self::OTHER_TABLE)
    }
}

/// Rule 3: identifiers differ.
pub fn distinct_identifiers<S: Alter>(conn: &mut Connection<S>) -> Result<bool, Fault>
    ensures { Decides S.Store conn.old conn.new (λ p. DistinctIdentifiers p.contents) result }
{
    each_passes(
        conn,
        "SELECT a.table_name, b.table_name FROM gpkg_contents AS a JOIN gpkg_contents AS b ON b.identifier = a.identifier ORDER BY a.table_name",
        &[],
        &Same,
    )
}

/// No row of another table beside this one.
struct Absent;

impl Absent {
    const TABLE: usize = 0;
}

impl RowTest for Absent {
    ghost good = { λ _ row. IsAbsentRow row };

    fn passes(&self, row: &Row) -> bool {
        !stands(row, Self::TABLE)
    }
}

/// Of rule 4, that no mapping has the name of a table.
pub fn mapping_names<S: Alter>(conn: &mut Connection<S>) -> Result<bool, Fault>
    ensures { Decides S.Store conn.old conn.new (λ p. MappingNames p) result }
{
    each_passes(
        conn,
        "SELECT c.table_name FROM gpkgext_relations AS r LEFT JOIN gpkg_contents AS c ON c.table_name = r.mapping_table_name ORDER BY r.mapping_table_name",
        &[],
        &Absent,
    )
}

/// Rule 4, where rule 16 holds: no mapping has the name of a table.
pub fn names<S: Alter>(conn: &mut Connection<S>) -> Result<bool, Fault>
    ensures { DecidesWithin S.Store conn.old conn.new (λ p. ProperNames p.contents p.relations p.editions)
        result }
{
    mapping_names(conn)
}

/// A row of another table beside this one.
struct There;

impl There {
    const TABLE: usize = 0;
}

impl RowTest for There {
    ghost good = { λ _ row. IsThereRow row };

    fn passes(&self, row: &Row) -> bool {
        stands(row, Self::TABLE)
    }
}

/// Whether a contents row is that of a pyramid, and its matrix set says the same.
fn is_placed(row: &Row) -> bool
    ensures { IsTrue result ↔ IsPlacedRow row.now }
{
    text_is(row, Suited::DATA_TYPE, "tiles")
        && stands(row, Suited::SET_SYSTEM)
        && same_number(row, Suited::MIN_X, Suited::SET_MIN_X)
        && same_number(row, Suited::MIN_Y, Suited::SET_MIN_Y)
        && same_number(row, Suited::MAX_X, Suited::SET_MAX_X)
        && same_number(row, Suited::MAX_Y, Suited::SET_MAX_Y)
        && same_number(row, Suited::SYSTEM, Suited::SET_SYSTEM)
}

/// Whether a contents row is that of a table without extent and without matrix set.
fn is_unplaced(row: &Row) -> bool
    ensures { IsTrue result ↔ IsUnplacedRow row.now }
{
    text_is(row, Suited::DATA_TYPE, "attributes")
        && !stands(row, Suited::MIN_X)
        && !stands(row, Suited::MIN_Y)
        && !stands(row, Suited::MAX_X)
        && !stands(row, Suited::MAX_Y)
        && !stands(row, Suited::SYSTEM)
        && !stands(row, Suited::SET_SYSTEM)
}

/// A contents row with its kind and its matrix set.
struct Suited;

impl Suited {
    const KIND: usize = 0;

    const DATA_TYPE: usize = 1;

    const MIN_X: usize = 2;

    const MIN_Y: usize = 3;

    const MAX_X: usize = 4;

    const MAX_Y: usize = 5;

    const SYSTEM: usize = 6;

    const SET_MIN_X: usize = 7;

    const SET_MIN_Y: usize = 8;

    const SET_MAX_X: usize = 9;

    const SET_MAX_Y: usize = 10;

    const SET_SYSTEM: usize = 11;
}

impl RowTest for Suited {
    ghost good = { λ _ row. IsRegisteredRow row };

    fn passes(&self, row: &Row) -> bool {
        let is_plain = text_is(row, Self::KIND, "attributes") || text_is(row, Self::KIND, "media");
        is_pyramid(row, Self::KIND) && is_placed(row) || is_plain && is_unplaced(row)
    }
}

/// Of rule 5, that each table has a kind that suits it.
pub fn registered<S: Alter>(conn: &mut Connection<S>) -> Result<bool, Fault>
    ensures { Decides S.Store conn.old conn.new (λ p. Registered p) result }
{
    each_passes(
        conn,
        "SELECT k.kind, c.data_type, c.min_x, c.min_y, c.max_x, c.max_y, c.srs_id, s.min_x, s.min_y, s.max_x, s.max_y, s.srs_id FROM gpkg_contents AS c LEFT JOIN mm_tables AS k ON k.table_name = c.table_name LEFT JOIN gpkg_tile_matrix_set AS s ON s.table_name = c.table_name ORDER BY c.table_name",
        &[],
        &Suited,
    )
}

/// Of rule 5, that each kind is that of a table.
pub fn kinds_have_contents<S: Alter>(conn: &mut Connection<S>) -> Result<bool, Fault>
    ensures { Decides S.Store conn.old conn.new (λ p. KindsHaveContents p) result }
{
    each_passes(
        conn,
        "SELECT c.table_name FROM mm_tables AS k LEFT JOIN gpkg_contents AS c ON c.table_name = k.table_name ORDER BY k.table_name",
        &[],
        &There,
    )
}

/// Of rule 5, that each matrix set is that of a table.
pub fn sets_have_contents<S: Alter>(conn: &mut Connection<S>) -> Result<bool, Fault>
    ensures { Decides S.Store conn.old conn.new (λ p. SetsHaveContents p) result }
{
    each_passes(
        conn,
        "SELECT c.table_name FROM gpkg_tile_matrix_set AS s LEFT JOIN gpkg_contents AS c ON c.table_name = s.table_name ORDER BY s.table_name",
        &[],
        &There,
    )
}

/// Of rule 5, that kinds and matrix sets are those of tables.
pub fn have_contents<S: Alter>(conn: &mut Connection<S>) -> Result<bool, Fault>
    ensures { Decides S.Store conn.old conn.new (λ p. KindsHaveContents p × SetsHaveContents p)
        result }
{
    if kinds_have_contents(conn)? {
        sets_have_contents(conn)
    } else {
        Ok(false)
    }
}

/// Rule 5: the registry, the contents and the matrix sets speak of the same tables.
pub fn registry<S: Alter>(conn: &mut Connection<S>) -> Result<bool, Fault>
    ensures { Decides S.Store conn.old conn.new (λ p. Registry p.contents p.kinds p.sets) result }
{
    if registered(conn)? {
        have_contents(conn)
    } else {
        Ok(false)
    }
}

/// Whether one column is below another, where both hold numbers.
fn are_ordered(row: &Row, low: usize, high: usize) -> bool
    ensures { IsTrue result ↔ IsOrdered (number_of (column row.now low))
        (number_of (column row.now high)) }
{
    match (number(row, low), number(row, high)) {
        (Some(low), Some(high)) => low < high,
        _ => true,
    }
}

/// Bounds of which each low one is below its high one.
struct Ordered;

impl Ordered {
    const MIN_X: usize = 0;

    const MIN_Y: usize = 1;

    const MAX_X: usize = 2;

    const MAX_Y: usize = 3;
}

impl RowTest for Ordered {
    ghost good = { λ _ row. IsOrderedRow row };

    fn passes(&self, row: &Row) -> bool {
        are_ordered(row, Self::MIN_X, Self::MAX_X) && are_ordered(row, Self::MIN_Y, Self::MAX_Y)
    }
}

/// Of rule 6, what it asks of matrix sets.
pub fn set_extents<S: Alter>(conn: &mut Connection<S>) -> Result<bool, Fault>
    ensures { Decides S.Store conn.old conn.new (λ p. SetExtents p) result }
{
    each_passes(
        conn,
        "SELECT s.min_x, s.min_y, s.max_x, s.max_y FROM gpkg_tile_matrix_set AS s ORDER BY s.table_name",
        &[],
        &Ordered,
    )
}

/// Of rule 6, what it asks of contents.
pub fn contents_extents<S: Alter>(conn: &mut Connection<S>) -> Result<bool, Fault>
    ensures { Decides S.Store conn.old conn.new (λ p. ContentsExtents p) result }
{
    each_passes(
        conn,
        "SELECT c.min_x, c.min_y, c.max_x, c.max_y FROM gpkg_contents AS c ORDER BY c.table_name",
        &[],
        &Ordered,
    )
}

/// Rule 6: extents are not empty.
pub fn extents<S: Alter>(conn: &mut Connection<S>) -> Result<bool, Fault>
    ensures { Decides S.Store conn.old conn.new (λ p. Extents p.contents p.sets) result }
{
    if set_extents(conn)? {
        contents_extents(conn)
    } else {
        Ok(false)
    }
}
