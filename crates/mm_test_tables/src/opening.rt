//! New packages, how they are recognised, and reference systems.

use crate::commands::{FIRST, LATER};
use crate::scripts::{told, told_apart, told_on};
use mm_definitions::answers::Fault;
use mm_meta::create_in_memory;
use mm_store::statements::{first_pair, first_text};
use sqlite::{Connection, MemStore};
use std::test::Fail;

/// The rows that every package has, and what is told of it.
const GIVEN: &str = "\
? SELECT srs_name, srs_id, organization, organization_coordsys_id, definition, description FROM gpkg_spatial_ref_sys ORDER BY srs_id DESC
WGS 84 geographic|4326|EPSG|4326|EPSG:4326|longitude and latitude|
Undefined geographic|0|NONE|0|undefined|undefined geographic coordinates|
Undefined Cartesian|-1|NONE|-1|undefined|undefined Cartesian coordinates|
? SELECT id, version FROM mm_profile
1|2|
? SELECT table_name, column_name, extension_name, definition, scope FROM gpkg_extensions
gpkgext_relations|null|gpkg_related_tables|OGC 18-000|read-write|
= look
a package|
= verify
none|
= contents
";

/// The other tables are there, and empty.
const EMPTY: &str = "\
? SELECT table_name, data_type, identifier, description, last_change, min_x, min_y, max_x, max_y, srs_id FROM gpkg_contents
? SELECT table_name, srs_id, min_x, min_y, max_x, max_y FROM gpkg_tile_matrix_set
? SELECT table_name, zoom_level, matrix_width, matrix_height, tile_width, tile_height, pixel_x_size, pixel_y_size FROM gpkg_tile_matrix
? SELECT id, base_table_name, base_primary_column, related_table_name, related_primary_column, relation_name, mapping_table_name FROM gpkgext_relations
? SELECT table_name, kind FROM mm_tables
? SELECT table_name, zoom_level, tile_column, tile_row, blob FROM mm_tiles
? SELECT table_name, id, title, note, amount FROM mm_rows
? SELECT table_name, id, blob, content_type FROM mm_media
? SELECT mapping, base_id, related_id FROM mm_map
? SELECT name, state FROM mm_editions
? SELECT edition, piece_no, kind, name, k1, k2, k3, k4, k5, k6, k7, t1, t2, blob FROM mm_pieces
? SELECT id, digest, data FROM mm_blobs
? SELECT name FROM sqlite_schema WHERE type = 'table' ORDER BY name
gpkg_contents|
gpkg_extensions|
gpkg_spatial_ref_sys|
gpkg_tile_matrix|
gpkg_tile_matrix_set|
gpkgext_relations|
mm_blobs|
mm_editions|
mm_map|
mm_media|
mm_pieces|
mm_profile|
mm_rows|
mm_tables|
mm_tiles|
? SELECT name, tbl_name FROM sqlite_schema WHERE type = 'index' AND name >= 'mm' AND name < 'mn' ORDER BY name
mm_blobs_digest|mm_blobs|
mm_map_related|mm_map|
mm_media_blob|mm_media|
mm_pieces_blob|mm_pieces|
mm_tiles_blob|mm_tiles|
";

/// A reference system is added once.
const SYSTEMS: &str = "\
0 srs,25832,ETRS89 / UTM zone 32N,EPSG,25832,projected metres,
20 srs,25832,ETRS89 / UTM zone 32N,EPSG,25832,projected metres,
20 srs,4326,ETRS89 / UTM zone 32N,EPSG,25832,projected metres,
20 srs,0,ETRS89 / UTM zone 32N,EPSG,25832,projected metres,
20 srs,-1,ETRS89 / UTM zone 32N,EPSG,25832,projected metres,
? SELECT srs_name, srs_id, organization, organization_coordsys_id, definition, description FROM gpkg_spatial_ref_sys WHERE srs_id = 25832
ETRS89 / UTM zone 32N|25832|EPSG|25832|projected metres||
";

#[test]
fn a_new_package_is_as_the_profile_says(rt: HostRuntime) {
    for script in [GIVEN, EMPTY, SYSTEMS] {
        let text = told_on(rt.alloc(), &[], script, LATER).expect(&rt, "answers");
        assert_eq!(rt; text.as_str(), script);
    }
}

const OTHER_PROFILES: &str = "\
! UPDATE mm_profile SET version = 7
version 7|
! DELETE FROM mm_profile
bad profile|
! UPDATE mm_profile SET id = 2
bad profile|
! INSERT INTO mm_profile (id, version) VALUES (2, 1)
bad profile|
! DROP TABLE mm_profile
no profile|
";

#[test]
fn other_profiles_are_told_apart(rt: HostRuntime) {
    let text = told_apart(rt.alloc(), &[], "look", OTHER_PROFILES).expect(&rt, "answers");
    assert_eq!(rt; text.as_str(), OTHER_PROFILES);
}

const MADE: &str = "\
= look
no profile|
= init
done|
= look
a package|
";

#[test]
fn a_database_without_tables_is_made_a_package(rt: HostRuntime) {
    let mut conn = Connection::open_in_memory(rt.alloc()).expect(&rt, "a connection");
    let text = told(rt.alloc(), &mut conn, MADE, FIRST).expect(&rt, "answers");
    assert_eq!(rt; text.as_str(), MADE);
}

/// The first text of one query and the first two numbers of another, where no transaction is open.
fn shown(conn: &mut Connection<MemStore>) -> Result<(Option<String>, Option<(i64, i64)>), Fault> {
    if !conn.is_autocommit() {
        return Err(Fault::STORE);
    }
    let mut tx = conn.transaction();
    let text = first_text(
        &mut tx,
        "SELECT srs_name FROM gpkg_spatial_ref_sys ORDER BY srs_id DESC",
        &[],
    )?;
    let pair = first_pair(
        &mut tx,
        "SELECT srs_id, organization_coordsys_id + 1 FROM gpkg_spatial_ref_sys ORDER BY srs_id",
        &[],
    )?;
    Ok((text, pair))
}

#[test]
fn the_first_row_is_shown(rt: HostRuntime) -> Result<(), Fail> {
    let mut conn = create_in_memory(rt.alloc())?;
    let (text, pair) = shown(&mut conn)?;
    match &text {
        Some(text) => assert_eq!(rt; text.as_str(), "WGS 84 geographic"),
        None => assert!(rt; false),
    }
    assert_eq!(rt; pair, Some((-1, 0)));
    Ok(())
}
