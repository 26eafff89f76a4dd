//! The tables of a package, as they are made.

ghost use Rattle.mm_store.specs.Tables.{schema};
ghost use Rattle.mm_store.specs.Made.{first_tables, with_pieces};
ghost use Rattle.mm_meta.specs.Handed.{Creates, MakesNone};

use mm_definitions::answers::Fault;
use mm_store::statements::run;
use sqlite::{Alter, Transaction};

/// Makes the tables of systems, contents, matrix sets and matrices. Where the tables stand already it fails.
fn create_pyramid_tables<S: Alter>(tx: &mut Transaction<'_, S>) -> Result<(), Fault>
    ensures makes { Creates S.Store tx.old tx.new (first_tables 0) (first_tables 4) result }
    ensures again { MakesNone S.Store tx.old tx.new result }
{
    run(
        tx,
        "CREATE TABLE gpkg_spatial_ref_sys (srs_name TEXT NOT NULL, srs_id INTEGER NOT NULL PRIMARY KEY, organization TEXT NOT NULL, organization_coordsys_id INTEGER NOT NULL, definition TEXT NOT NULL, description TEXT NOT NULL) STRICT",
        &[],
    )?;
    run(
        tx,
        "CREATE TABLE gpkg_contents (table_name TEXT NOT NULL PRIMARY KEY, data_type TEXT NOT NULL, identifier TEXT NOT NULL UNIQUE, description TEXT NOT NULL, last_change TEXT NOT NULL, min_x INTEGER, min_y INTEGER, max_x INTEGER, max_y INTEGER, srs_id INTEGER, FOREIGN KEY (srs_id) REFERENCES gpkg_spatial_ref_sys (srs_id)) STRICT",
        &[],
    )?;
    run(
        tx,
        "CREATE TABLE gpkg_tile_matrix_set (table_name TEXT NOT NULL PRIMARY KEY, srs_id INTEGER NOT NULL, min_x INTEGER NOT NULL, min_y INTEGER NOT NULL, max_x INTEGER NOT NULL, max_y INTEGER NOT NULL, FOREIGN KEY (table_name) REFERENCES gpkg_contents (table_name) ON DELETE CASCADE, FOREIGN KEY (srs_id) REFERENCES gpkg_spatial_ref_sys (srs_id)) STRICT",
        &[],
    )?;
    run(
        tx,
        "CREATE TABLE gpkg_tile_matrix (table_name TEXT NOT NULL, zoom_level INTEGER NOT NULL, matrix_width INTEGER NOT NULL, matrix_height INTEGER NOT NULL, tile_width INTEGER NOT NULL, tile_height INTEGER NOT NULL, pixel_x_size INTEGER NOT NULL, pixel_y_size INTEGER NOT NULL, PRIMARY KEY (table_name, zoom_level), FOREIGN KEY (table_name) REFERENCES gpkg_contents (table_name) ON DELETE CASCADE) STRICT",
        &[],
    )
}

/// Makes the tables of extensions, relations and the profile.
fn create_further_tables<S: Alter>(tx: &mut Transaction<'_, S>) -> Result<(), Fault>
    ensures { Creates S.Store tx.old tx.new (first_tables 4) (first_tables 7) result }
{
    run(
        tx,
        "CREATE TABLE gpkg_extensions (table_name TEXT, column_name TEXT, extension_name TEXT NOT NULL, definition TEXT NOT NULL, scope TEXT NOT NULL, UNIQUE (table_name, column_name, extension_name)) STRICT",
        &[],
    )?;
    run(
        tx,
        "CREATE TABLE gpkgext_relations (id INTEGER NOT NULL PRIMARY KEY, base_table_name TEXT NOT NULL, base_primary_column TEXT NOT NULL, related_table_name TEXT NOT NULL, related_primary_column TEXT NOT NULL, relation_name TEXT NOT NULL, mapping_table_name TEXT NOT NULL UNIQUE, FOREIGN KEY (base_table_name) REFERENCES gpkg_contents (table_name) ON DELETE RESTRICT, FOREIGN KEY (related_table_name) REFERENCES gpkg_contents (table_name) ON DELETE RESTRICT) STRICT",
        &[],
    )?;
    run(
        tx,
        "CREATE TABLE mm_profile (id INTEGER NOT NULL PRIMARY KEY, version INTEGER NOT NULL) STRICT",
        &[],
    )
}

/// Makes the tables of kinds, tiles, attribute rows and media.
fn create_content_tables<S: Alter>(tx: &mut Transaction<'_, S>) -> Result<(), Fault>
    ensures { Creates S.Store tx.old tx.new (first_tables 7) (first_tables 11) result }
{
    run(
        tx,
        "CREATE TABLE mm_tables (table_name TEXT NOT NULL PRIMARY KEY, kind TEXT NOT NULL, FOREIGN KEY (table_name) REFERENCES gpkg_contents (table_name) ON DELETE CASCADE) STRICT",
        &[],
    )?;
    run(
        tx,
        "CREATE TABLE mm_tiles (table_name TEXT NOT NULL, zoom_level INTEGER NOT NULL, tile_column INTEGER NOT NULL, tile_row INTEGER NOT NULL, blob INTEGER NOT NULL, PRIMARY KEY (table_name, zoom_level, tile_column, tile_row), FOREIGN KEY (table_name, zoom_level) REFERENCES gpkg_tile_matrix (table_name, zoom_level) ON DELETE CASCADE, FOREIGN KEY (blob) REFERENCES mm_blobs (id) ON DELETE RESTRICT) STRICT",
        &[],
    )?;
    run(
        tx,
        "CREATE TABLE mm_rows (table_name TEXT NOT NULL, id INTEGER NOT NULL, title TEXT NOT NULL, note TEXT NOT NULL, amount INTEGER NOT NULL, PRIMARY KEY (table_name, id), FOREIGN KEY (table_name) REFERENCES gpkg_contents (table_name) ON DELETE CASCADE) STRICT",
        &[],
    )?;
    run(
        tx,
        "CREATE TABLE mm_media (table_name TEXT NOT NULL, id INTEGER NOT NULL, blob INTEGER NOT NULL, content_type TEXT NOT NULL, PRIMARY KEY (table_name, id), FOREIGN KEY (table_name) REFERENCES gpkg_contents (table_name) ON DELETE CASCADE, FOREIGN KEY (blob) REFERENCES mm_blobs (id) ON DELETE RESTRICT) STRICT",
        &[],
    )
}

/// Makes the tables of mapping rows, editions and pieces.
fn create_edition_tables<S: Alter>(tx: &mut Transaction<'_, S>) -> Result<(), Fault>
    ensures { Creates S.Store tx.old tx.new (first_tables 11) (first_tables 14) result }
{
    run(
        tx,
        "CREATE TABLE mm_map (mapping TEXT NOT NULL, base_id INTEGER NOT NULL, related_id INTEGER NOT NULL, PRIMARY KEY (mapping, base_id, related_id), FOREIGN KEY (mapping) REFERENCES gpkgext_relations (mapping_table_name) ON DELETE CASCADE) STRICT",
        &[],
    )?;
    run(
        tx,
        "CREATE TABLE mm_editions (name TEXT NOT NULL PRIMARY KEY, state TEXT NOT NULL) STRICT",
        &[],
    )?;
    run(
        tx,
        "CREATE TABLE mm_pieces (edition TEXT NOT NULL, piece_no INTEGER NOT NULL, kind TEXT NOT NULL, name TEXT NOT NULL, k1 INTEGER NOT NULL, k2 INTEGER NOT NULL, k3 INTEGER NOT NULL, k4 INTEGER NOT NULL, k5 INTEGER NOT NULL, k6 INTEGER NOT NULL, k7 INTEGER NOT NULL, t1 TEXT NOT NULL, t2 TEXT NOT NULL, blob INTEGER, PRIMARY KEY (edition, piece_no), FOREIGN KEY (edition) REFERENCES mm_editions (name) ON DELETE CASCADE, FOREIGN KEY (blob) REFERENCES mm_blobs (id) ON DELETE RESTRICT) STRICT",
        &[],
    )
}

/// Makes the table of blobs, and the indexes that find a blob by its digest and what names it.
fn create_blob_table<S: Alter>(tx: &mut Transaction<'_, S>) -> Result<(), Fault>
    ensures { Creates S.Store tx.old tx.new (first_tables 14) with_pieces result }
{
    run(
        tx,
        "CREATE TABLE mm_blobs (id INTEGER NOT NULL PRIMARY KEY, digest TEXT NOT NULL, data BLOB NOT NULL) STRICT",
        &[],
    )?;
    run(tx, "CREATE INDEX mm_blobs_digest ON mm_blobs (digest)", &[])?;
    run(tx, "CREATE INDEX mm_tiles_blob ON mm_tiles (blob)", &[])?;
    run(tx, "CREATE INDEX mm_media_blob ON mm_media (blob)", &[])?;
    run(tx, "CREATE INDEX mm_pieces_blob ON mm_pieces (blob)", &[])
}

/// Makes the index that finds the mapping rows of a relation by their related id.
fn create_mapping_index<S: Alter>(tx: &mut Transaction<'_, S>) -> Result<(), Fault>
    ensures { Creates S.Store tx.old tx.new with_pieces schema result }
{
    run(
        tx,
        "CREATE INDEX mm_map_related ON mm_map (mapping, related_id)",
        &[],
    )
}

/// Makes the 15 tables and the five indexes where there is none. Where they stand already it fails.
pub(crate) fn create_tables<S: Alter>(tx: &mut Transaction<'_, S>) -> Result<(), Fault>
    ensures makes { Creates S.Store tx.old tx.new (first_tables 0) schema result }
    ensures again { MakesNone S.Store tx.old tx.new result }
{
    create_pyramid_tables(tx)?;
    create_further_tables(tx)?;
    create_content_tables(tx)?;
    create_edition_tables(tx)?;
    create_blob_table(tx)?;
    create_mapping_index(tx)
}
