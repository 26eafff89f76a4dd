//! The check of a package. Each package is changed by statements that the store takes, and the expected numbers are worked out from
//! the rules by hand. That a new package meets them is told by `opening`.

use crate::commands::FIRST;
use crate::packages::WHOLE;
use crate::scripts::{told_apart, told_on};

const KEPT: &str = "\
= verify
none|
";

#[test]
fn a_package_of_all_parts_meets_the_rules(rt: HostRuntime) {
    let text = told_on(rt.alloc(), &[WHOLE], KEPT, FIRST).expect(&rt, "answers");
    assert_eq!(rt; text.as_str(), KEPT);
}

const SYSTEMS: &str = "\
! UPDATE gpkg_spatial_ref_sys SET description = 'x' WHERE srs_id = 0
1|
! DELETE FROM gpkg_spatial_ref_sys WHERE srs_id = -1
1|
! UPDATE gpkg_contents SET srs_id = 4326 WHERE table_name = 'base'; UPDATE gpkg_tile_matrix_set SET srs_id = 4326
2|
! UPDATE gpkg_contents SET srs_id = 0 WHERE table_name = 'base'
2|
";

const CONTENTS: &str = "\
! DELETE FROM mm_map; UPDATE gpkgext_relations SET mapping_table_name = 'spots'; UPDATE gpkg_extensions SET table_name = 'spots' WHERE table_name = 'spot_photos'
4|
! DELETE FROM mm_map; UPDATE gpkgext_relations SET mapping_table_name = 'base'; UPDATE gpkg_extensions SET table_name = 'base' WHERE table_name = 'spot_photos'
4|
! DELETE FROM mm_tables WHERE table_name = 'spots'
5|
! UPDATE gpkg_contents SET min_x = 1 WHERE table_name = 'base'
5|
! UPDATE mm_tables SET kind = 'three' WHERE table_name = 'base'
5|
! UPDATE gpkg_contents SET min_x = 1000 WHERE table_name = 'base'; UPDATE gpkg_tile_matrix_set SET min_x = 1000
6|
! UPDATE gpkg_contents SET max_y = -1 WHERE table_name = 'base'; UPDATE gpkg_tile_matrix_set SET max_y = -1
6|
";

const MATRICES: &str = "\
! UPDATE gpkg_tile_matrix SET tile_width = 21 WHERE zoom_level = 1
7|
! INSERT INTO gpkg_tile_matrix VALUES ('spots', 0, 1, 1, 10, 10, 100, 100)
7|
! UPDATE gpkg_tile_matrix SET tile_width = 5, tile_height = 5, pixel_x_size = 200, pixel_y_size = 200 WHERE zoom_level = 1
8|
! UPDATE gpkg_tile_matrix SET tile_width = 10, pixel_x_size = 100 WHERE zoom_level = 1
8|
! UPDATE gpkg_tile_matrix SET tile_width = 40, tile_height = 40, pixel_x_size = 25, pixel_y_size = 25 WHERE zoom_level = 1
9|
! UPDATE gpkg_tile_matrix SET tile_height = 40, pixel_y_size = 25 WHERE zoom_level = 1
9|
";

const TILES_AND_ITEMS: &str = "\
! INSERT INTO mm_tiles VALUES ('base', 0, 1, 0, 1)
10|
! INSERT INTO mm_tiles VALUES ('base', 1, 0, 1, 1)
10|
! INSERT INTO mm_rows VALUES ('photos', 1, '', '', 0)
11|
! INSERT INTO mm_media VALUES ('base', 1, 1, 'image/png')
11|
";

const RELATIONS: &str = "\
! UPDATE gpkgext_relations SET base_primary_column = 'no'
12|
! UPDATE gpkgext_relations SET relation_name = 'simple_attributes'
12|
! INSERT INTO mm_map VALUES ('spot_photos', 2, 1)
13|
! INSERT INTO mm_map VALUES ('spot_photos', 1, 2)
13|
";

const EXTENSIONS: &str = "\
! DELETE FROM gpkg_extensions WHERE table_name = 'gpkgext_relations'
14|
! INSERT INTO gpkg_extensions VALUES ('base', 'tile_data', 'gpkg_zoom_other', 'OGC 12-128r17', 'read-write')
14|
! INSERT INTO gpkg_extensions VALUES ('spot_photos', NULL, 'gpkg_related_tables', 'OGC 18-000', 'read-write')
14|
! UPDATE mm_tables SET kind = 'other' WHERE table_name = 'base'
14|
";

const EDITIONS: &str = "\
! UPDATE mm_editions SET state = 'shut' WHERE name = 'f'
15|
! UPDATE mm_editions SET state = 'published' WHERE name = 'e'
15|
! DELETE FROM mm_pieces WHERE piece_no = 1
15|
! UPDATE mm_pieces SET k2 = 1 WHERE piece_no = 1
15|
! UPDATE mm_pieces SET k1 = 31 WHERE piece_no = 2
15|
! UPDATE mm_pieces SET blob = NULL WHERE piece_no = 2
15|
! UPDATE mm_pieces SET blob = 1 WHERE piece_no = 1
15|
";

const LIMITS: &str = "\
! UPDATE gpkg_contents SET last_change = '1970-02-29T00:00:00.000Z' WHERE table_name = 'base'
16|
! UPDATE mm_rows SET amount = 1000000000000001
16|
! UPDATE mm_rows SET title = CAST(x'ff' AS TEXT)
16|
! UPDATE mm_blobs SET data = x'' WHERE id = 1
16|
! UPDATE mm_rows SET amount = 1000000000000001; DELETE FROM gpkg_spatial_ref_sys WHERE srs_id = -1
16|
";

#[test]
fn each_rule_is_told(rt: HostRuntime) {
    for script in [
        SYSTEMS,
        CONTENTS,
        MATRICES,
        TILES_AND_ITEMS,
        RELATIONS,
        EXTENSIONS,
        EDITIONS,
        LIMITS,
    ] {
        let text = told_apart(rt.alloc(), &[WHOLE], "verify", script).expect(&rt, "answers");
        assert_eq!(rt; text.as_str(), script);
    }
}

/// The tables keep identifiers apart, so contents without that key stand in for them.
const WITHOUT_KEY: &str = "\
! DROP TABLE gpkg_contents; CREATE TABLE gpkg_contents (table_name TEXT NOT NULL PRIMARY KEY, data_type TEXT NOT NULL, identifier TEXT NOT NULL, description TEXT NOT NULL, last_change TEXT NOT NULL, min_x INTEGER, min_y INTEGER, max_x INTEGER, max_y INTEGER, srs_id INTEGER) STRICT;
";

const IDENTIFIERS: &str = "\
! UPDATE gpkg_contents SET identifier = 'Spots'
3|
! UPDATE gpkg_contents SET identifier = 'Photos' WHERE table_name = 'base'; DELETE FROM mm_map WHERE mapping = 'spot_photos'
3|
";

#[test]
fn equal_identifiers_are_told(rt: HostRuntime) {
    let text = told_apart(rt.alloc(), &[WITHOUT_KEY, WHOLE], "verify", IDENTIFIERS).expect(
        &rt, "answers",
    );
    assert_eq!(rt; text.as_str(), IDENTIFIERS);
}
