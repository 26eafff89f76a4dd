//! Reference systems, pyramids, tables and matrices are laid out and dropped.

use crate::commands::LATER;
use crate::packages::PYRAMIDS;
use crate::scripts::told_on;

/// Pyramids and tables have their rows.
const ROWS: &str = "\
? SELECT table_name, data_type, identifier, description, last_change, min_x, min_y, max_x, max_y, srs_id FROM gpkg_contents WHERE table_name IN ('base', 'loose', 'spots') ORDER BY table_name
base|tiles|Base map||1970-01-01T00:00:00.000Z|500000000000|5600000000000|501024000000|5601024000000|25832|
loose|tiles|Loose||1970-01-01T00:00:00.000Z|-5000|-10000|5000|10000|25832|
spots|attributes|Spots||1970-01-01T00:00:00.000Z|null|null|null|null|null|
? SELECT table_name, srs_id, min_x, min_y, max_x, max_y FROM gpkg_tile_matrix_set WHERE table_name IN ('base', 'loose') ORDER BY table_name
base|25832|500000000000|5600000000000|501024000000|5601024000000|
loose|25832|-5000|-10000|5000|10000|
? SELECT table_name, kind FROM mm_tables ORDER BY table_name
base|two|
free|other|
gap|two|
loose|other|
photos|media|
spots|attributes|
wide|two|
? SELECT table_name, column_name, extension_name, definition, scope FROM gpkg_extensions ORDER BY table_name
free|tile_data|gpkg_zoom_other|OGC 12-128r17|read-write|
gpkgext_relations|null|gpkg_related_tables|OGC 18-000|read-write|
loose|tile_data|gpkg_zoom_other|OGC 12-128r17|read-write|
";

/// A pyramid is refused with the least number.
const REFUSED_PYRAMIDS: &str = "\
21 pyramid,p,P,31467,0,0,1000000,1000000,two
22 pyramid,p,P,4326,0,0,1000000,1000000,two
22 pyramid,p,P,0,0,0,1000000,1000000,two
23 pyramid,base,Base map,25832,0,0,0,10000,two
24 pyramid,p,Base map,25832,0,0,0,10000,two
27 pyramid,p,P,25832,5000,0,5000,10000,two
27 pyramid,p,P,25832,0,11000,5000,10000,two
0 pyramid,p,P,-1,0,0,1000,1000,two
";

/// A table is refused with the least number, and dropped where nothing names it.
const REFUSED_TABLES: &str = "\
! INSERT INTO gpkgext_relations (base_table_name, base_primary_column, related_table_name, related_primary_column, relation_name, mapping_table_name) VALUES ('spots', 'id', 'photos', 'id', 'media', 'links')
23 table,base,media,Base map
23 table,links,media,Links
24 table,more,media,Spots
0 table,more,media,spots
48 drop,spots
48 drop,photos
25 drop,links
0 drop,more
";

/// A matrix covers its pyramid, and suits the nearest zooms.
const MATRICES: &str = "\
25 matrix,none,0,1,1,256,256,4000000,4000000
26 matrix,spots,0,1,1,256,256,4000000,4000000
0 matrix,base,0,1,1,256,256,4000000,4000000
31 matrix,base,1,2,2,256,256,1999000,1999000
0 matrix,base,2,4,4,256,256,1000000,1000000
32 matrix,base,1,8,8,32,32,4000000,4000000
0 matrix,base,1,2,2,256,256,2000000,2000000
30 matrix,base,1,2,2,256,256,2000000,2000000
31 matrix,base,3,1073741824,1073741824,4096,4096,1000000000000,1000000000000
0 matrix,gap,0,1,1,256,256,4000000,4000000
0 matrix,gap,2,2,2,256,256,2000000,2000000
32 matrix,gap,1,2,2,256,256,2000000,2000000
31 matrix,wide,0,1073741824,1073741824,18,18,954437177000,954437177000
0 matrix,free,0,1,1,100,100,10000,10000
0 matrix,free,1,5,5,100,100,2000,2000
? SELECT table_name, zoom_level, matrix_width, matrix_height, tile_width, tile_height, pixel_x_size, pixel_y_size FROM gpkg_tile_matrix WHERE table_name IN ('base', 'free') ORDER BY table_name, zoom_level
base|0|1|1|256|256|4000000|4000000|
base|1|2|2|256|256|2000000|2000000|
base|2|4|4|256|256|1000000|1000000|
free|0|1|1|100|100|10000|10000|
free|1|5|5|100|100|2000|2000|
? SELECT table_name, last_change FROM gpkg_contents WHERE table_name IN ('free', 'wide') ORDER BY table_name
free|2000-02-29T23:59:59.999Z|
wide|1970-01-01T00:00:00.000Z|
";

/// A touch changes one table alone, and is refused where no table has the name.
const TOUCHED: &str = "\
25 touch,none
0 touch,base
? SELECT table_name FROM gpkg_contents WHERE last_change = '2000-02-29T23:59:59.999Z'
base|
";

/// A dropped pyramid leaves its staged pieces alone.
const DROPPED: &str = "\
0 matrix,free,0,1,1,100,100,10000,10000
! INSERT INTO mm_blobs (id, digest, data) VALUES (1, 'bceef655b5a034911f1c3718ce056531b45ef03b4c7b1f15629e867294011a7d', x'aa')
! INSERT INTO mm_tiles (table_name, zoom_level, tile_column, tile_row, blob) VALUES ('free', 0, 0, 0, 1)
! INSERT INTO mm_editions (name, state) VALUES ('spring', 'open')
! INSERT INTO mm_pieces (edition, piece_no, kind, name, k1, k2, k3, k4, k5, k6, k7, t1, t2, blob) VALUES ('spring', 1, 'tile-drop', 'free', 0, 0, 0, 0, 0, 0, 0, '', '', NULL)
0 drop,free
25 drop,free
? SELECT table_name FROM gpkg_contents WHERE table_name = 'free'
? SELECT table_name FROM mm_tables WHERE table_name = 'free'
? SELECT table_name FROM gpkg_tile_matrix_set WHERE table_name = 'free'
? SELECT table_name FROM gpkg_tile_matrix
? SELECT table_name FROM mm_tiles
? SELECT id FROM mm_blobs
? SELECT table_name FROM gpkg_extensions ORDER BY table_name
gpkgext_relations|
loose|
? SELECT edition, piece_no, kind, name FROM mm_pieces
spring|1|tile-drop|free|
";

#[test]
fn packages_are_laid_out_as_their_records_say(rt: HostRuntime) {
    for script in [
        ROWS,
        REFUSED_PYRAMIDS,
        REFUSED_TABLES,
        MATRICES,
        TOUCHED,
        DROPPED,
    ] {
        let text = told_on(rt.alloc(), &[PYRAMIDS], script, LATER).expect(&rt, "answers");
        assert_eq!(rt; text.as_str(), script);
    }
}
