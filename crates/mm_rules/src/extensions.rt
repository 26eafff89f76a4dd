//! The rule of extension rows.

ghost use Rattle.std.specs.Prelude.{◌↔◌, IsTrue};
ghost use Rattle.mm_definitions.specs.Rules.{ExactExtensions};
ghost use Rattle.mm_rules.specs.Parts.{ExtensionsWanted, NamedOnce, UnnamedOnce, ExtensionsOnce, GeneralExtension, MappingExtensions, ZoomExtensions};
ghost use Rattle.mm_rules.specs.ExtensionRows.{NoRow, IsWantedRow, IsStandingRow, IsMarkedRow, IsRelated, IsZoomOther};
ghost use Rattle.mm_walk.specs.Check.{Decides};

use mm_definitions::answers::Fault;
use mm_walk::columns::{stands, text_is};
use mm_walk::row_tests::{RowTest, each_passes};
use sqlite::{Alter, Connection, Row};

fn is_related(row: &Row) -> bool
    ensures { IsTrue result ↔ IsRelated row.now }
{
    !stands(row, WantedRow::COLUMN)
        && text_is(row, WantedRow::NAME, "gpkg_related_tables")
        && text_is(row, WantedRow::DEFINITION, "OGC 18-000")
        && text_is(row, WantedRow::SCOPE, "read-write")
}

fn is_zoom_other(row: &Row) -> bool
    ensures { IsTrue result ↔ IsZoomOther row.now }
{
    text_is(row, WantedRow::COLUMN, "tile_data")
        && text_is(row, WantedRow::NAME, "gpkg_zoom_other")
        && text_is(row, WantedRow::DEFINITION, "OGC 12-128r17")
        && text_is(row, WantedRow::SCOPE, "read-write")
}

/// An extension row with what may want it.
struct WantedRow;

impl WantedRow {
    const TABLE: usize = 0;

    const COLUMN: usize = 1;

    const NAME: usize = 2;

    const DEFINITION: usize = 3;

    const SCOPE: usize = 4;

    const MAPPING: usize = 5;

    const KIND: usize = 6;
}

impl RowTest for WantedRow {
    ghost good = { λ _ row. IsWantedRow row };

    fn passes(&self, row: &Row) -> bool {
        let is_of_table = stands(row, Self::TABLE);
        text_is(row, Self::TABLE, "gpkgext_relations") && is_related(row)
            || is_of_table && stands(row, Self::MAPPING) && is_related(row)
            || is_of_table && text_is(row, Self::KIND, "other") && is_zoom_other(row)
    }
}

/// Of rule 14, that each extension row is wanted.
pub fn extensions_wanted<S: Alter>(conn: &mut Connection<S>) -> Result<bool, Fault>
    ensures { Decides S.Store conn.old conn.new (λ p. ExtensionsWanted p) result }
{
    each_passes(
        conn,
        "SELECT e.table_name, e.column_name, e.extension_name, e.definition, e.scope, r.mapping_table_name, k.kind FROM gpkg_extensions AS e LEFT JOIN gpkgext_relations AS r ON r.mapping_table_name = e.table_name LEFT JOIN mm_tables AS k ON k.table_name = e.table_name",
        &[],
        &WantedRow,
    )
}

/// No row at all.
struct Never;

impl RowTest for Never {
    ghost good = { λ _ row. NoRow row };

    fn passes(&self, _: &Row) -> bool {
        false
    }
}

/// Of rule 14, that no extension row of a table stands twice.
pub fn named_once<S: Alter>(conn: &mut Connection<S>) -> Result<bool, Fault>
    ensures { Decides S.Store conn.old conn.new (λ p. NamedOnce p) result }
{
    each_passes(
        conn,
        "SELECT 1 FROM gpkg_extensions AS a JOIN gpkg_extensions AS b ON a.rowid < b.rowid AND b.table_name = a.table_name AND b.column_name IS a.column_name AND b.extension_name IS a.extension_name AND b.definition IS a.definition AND b.scope IS a.scope",
        &[],
        &Never,
    )
}

/// Of rule 14, that no extension row without a table stands twice.
pub fn unnamed_once<S: Alter>(conn: &mut Connection<S>) -> Result<bool, Fault>
    ensures { Decides S.Store conn.old conn.new (λ p. UnnamedOnce p) result }
{
    each_passes(
        conn,
        "SELECT 1 FROM gpkg_extensions AS a JOIN gpkg_extensions AS b ON a.rowid < b.rowid AND a.table_name IS NULL AND b.table_name IS NULL AND b.column_name IS a.column_name AND b.extension_name IS a.extension_name AND b.definition IS a.definition AND b.scope IS a.scope",
        &[],
        &Never,
    )
}

/// Of rule 14, that no extension row stands twice. The rows of tables are found by their index, which IS can't use; there are
/// no others in a package that keeps the rule.
pub fn extensions_once<S: Alter>(conn: &mut Connection<S>) -> Result<bool, Fault>
    ensures { Decides S.Store conn.old conn.new (λ p. ExtensionsOnce p) result }
{
    if named_once(conn)? {
        unnamed_once(conn)
    } else {
        Ok(false)
    }
}

/// A row of another table beside this one.
struct Standing;

impl Standing {
    const EXTENSION: usize = 0;
}

impl RowTest for Standing {
    ghost good = { λ _ row. IsStandingRow row };

    fn passes(&self, row: &Row) -> bool {
        stands(row, Self::EXTENSION)
    }
}

/// Of rule 14, that the row of related tables stands.
pub fn general_extension<S: Alter>(conn: &mut Connection<S>) -> Result<bool, Fault>
    ensures { Decides S.Store conn.old conn.new (λ p. GeneralExtension p) result }
{
    each_passes(
        conn,
        "SELECT e.extension_name FROM mm_profile AS v LEFT JOIN gpkg_extensions AS e ON e.table_name IS 'gpkgext_relations' AND e.column_name IS NULL AND e.extension_name IS 'gpkg_related_tables' AND e.definition IS 'OGC 18-000' AND e.scope IS 'read-write'",
        &[],
        &Standing,
    )
}

/// Of rule 14, that each mapping has its row.
pub fn mapping_extensions<S: Alter>(conn: &mut Connection<S>) -> Result<bool, Fault>
    ensures { Decides S.Store conn.old conn.new (λ p. MappingExtensions p) result }
{
    each_passes(
        conn,
        "SELECT e.extension_name FROM gpkgext_relations AS r LEFT JOIN gpkg_extensions AS e ON e.table_name = r.mapping_table_name AND e.column_name IS NULL AND e.extension_name IS 'gpkg_related_tables' AND e.definition IS 'OGC 18-000' AND e.scope IS 'read-write' ORDER BY r.mapping_table_name",
        &[],
        &Standing,
    )
}

/// A kind with the row of other zoom intervals.
struct Marked;

impl Marked {
    const KIND: usize = 0;

    const EXTENSION: usize = 1;
}

impl RowTest for Marked {
    ghost good = { λ _ row. IsMarkedRow row };

    fn passes(&self, row: &Row) -> bool {
        !text_is(row, Self::KIND, "other") || stands(row, Self::EXTENSION)
    }
}

/// Of rule 14, that each pyramid of kind `other` has its row.
pub fn zoom_extensions<S: Alter>(conn: &mut Connection<S>) -> Result<bool, Fault>
    ensures { Decides S.Store conn.old conn.new (λ p. ZoomExtensions p) result }
{
    each_passes(
        conn,
        "SELECT k.kind, e.extension_name FROM mm_tables AS k LEFT JOIN gpkg_extensions AS e ON e.table_name = k.table_name AND e.column_name IS 'tile_data' AND e.extension_name IS 'gpkg_zoom_other' AND e.definition IS 'OGC 12-128r17' AND e.scope IS 'read-write' ORDER BY k.table_name",
        &[],
        &Marked,
    )
}

/// Of rule 14, that each mapping and each pyramid of kind `other` has its row.
pub fn pyramids_marked<S: Alter>(conn: &mut Connection<S>) -> Result<bool, Fault>
    ensures { Decides S.Store conn.old conn.new (λ p. MappingExtensions p × ZoomExtensions p)
        result }
{
    if mapping_extensions(conn)? {
        zoom_extensions(conn)
    } else {
        Ok(false)
    }
}

/// Of rule 14, that each row that is wanted stands.
pub fn all_stand<S: Alter>(conn: &mut Connection<S>) -> Result<bool, Fault>
    ensures { Decides S.Store conn.old conn.new
        (λ p. GeneralExtension p × (MappingExtensions p × ZoomExtensions p)) result }
{
    if general_extension(conn)? {
        pyramids_marked(conn)
    } else {
        Ok(false)
    }
}

/// Of rule 14, that each row that is wanted stands, and no row twice.
pub fn all_stand_once<S: Alter>(conn: &mut Connection<S>) -> Result<bool, Fault>
    ensures { Decides S.Store conn.old conn.new
        (λ p. ExtensionsOnce p × (GeneralExtension p × (MappingExtensions p × ZoomExtensions p)))
        result }
{
    if extensions_once(conn)? {
        all_stand(conn)
    } else {
        Ok(false)
    }
}

/// Rule 14: the extension rows are exactly those that are wanted, each once.
pub fn extensions<S: Alter>(conn: &mut Connection<S>) -> Result<bool, Fault>
    ensures { Decides S.Store conn.old conn.new
        (λ p. ExactExtensions p.kinds p.relations p.extensions) result }
{
    if extensions_wanted(conn)? {
        all_stand_once(conn)
    } else {
        Ok(false)
    }
}
