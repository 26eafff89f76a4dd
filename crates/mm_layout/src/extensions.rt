//! The rows of `gpkg_extensions`.

ghost use Rattle.std.specs.Prelude.{◌≡◌, None};
ghost use Rattle.std.specs.FinMap.{get, insert, remove};
ghost use Rattle.mm_definitions.specs.Package.{mapping_extension, zoom_extension};
ghost use Rattle.mm_store.specs.Handed.{Changes, ChangesWhere};

use mm_definitions::answers::Fault;
use mm_store::statements::run;
use sqlite::{Alter, Transaction, params};

/// Puts the extension row of a new pyramid of kind `other`. (Zoom Other Intervals.)
pub(crate) fn insert_zoom_row<S: Alter>(
    tx: &mut Transaction<'_, S>,
    table: &str,
) -> Result<(), Fault>
    ensures { ChangesWhere S.Store tx.old tx.new
        (λ p. get p.extensions (zoom_extension table.now) ≡ None)
        (λ p. record p { extensions = insert p.extensions (zoom_extension table.now) 1 }) result }
{
    run(
        tx,
        "INSERT INTO gpkg_extensions (table_name, column_name, extension_name, definition, scope) VALUES (?1, 'tile_data', 'gpkg_zoom_other', 'OGC 12-128r17', 'read-write')",
        params![table],
    )
}

/// Removes the extension row of a pyramid of kind `other`, where there is one.
pub(crate) fn delete_zoom_row<S: Alter>(
    tx: &mut Transaction<'_, S>,
    table: &str,
) -> Result<(), Fault>
    ensures { Changes S.Store tx.old tx.new
        (λ p. record p { extensions = remove p.extensions (zoom_extension table.now) }) result }
{
    run(
        tx,
        "DELETE FROM gpkg_extensions WHERE table_name = ?1 AND column_name = 'tile_data' AND extension_name = 'gpkg_zoom_other' AND definition = 'OGC 12-128r17' AND scope = 'read-write'",
        params![table],
    )
}

/// Puts the extension row of a mapping, or that of the list of mappings. (Related Tables Extension.)
pub fn insert_related_row<S: Alter>(tx: &mut Transaction<'_, S>, table: &str) -> Result<(), Fault>
    ensures { ChangesWhere S.Store tx.old tx.new
        (λ p. get p.extensions (mapping_extension table.now) ≡ None)
        (λ p. record p { extensions = insert p.extensions (mapping_extension table.now) 1 })
        result }
{
    run(
        tx,
        "INSERT INTO gpkg_extensions (table_name, column_name, extension_name, definition, scope) VALUES (?1, NULL, 'gpkg_related_tables', 'OGC 18-000', 'read-write')",
        params![table],
    )
}

/// Removes the extension row of a mapping. (Related Tables Extension.)
pub fn delete_related_row<S: Alter>(tx: &mut Transaction<'_, S>, mapping: &str) -> Result<(), Fault>
    ensures { Changes S.Store tx.old tx.new
        (λ p. record p { extensions = remove p.extensions (mapping_extension mapping.now) })
        result }
{
    run(
        tx,
        "DELETE FROM gpkg_extensions WHERE table_name = ?1 AND column_name IS NULL AND extension_name = 'gpkg_related_tables' AND definition = 'OGC 18-000' AND scope = 'read-write'",
        params![mapping],
    )
}
