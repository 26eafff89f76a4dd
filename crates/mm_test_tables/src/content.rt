//! Tiles, attribute rows and media are put, replaced and removed, and a call loads no more than it names.

use crate::commands::{LATER, answers_in_one};
use crate::packages::BASE;
use crate::scripts::{package, told, told_on};

/// Tiles lie inside their matrix.
const TILES: &str = "\
0 tile,base,1,1,1,aa
34 tile,base,1,2,1,aa
34 tile,base,1,1,2,aa
33 tile,base,5,0,0,aa
25 tile,none,1,0,0,aa
26 tile,spots,1,0,0,aa
25 tile-drop,none,1,1,1
26 tile-drop,photos,1,1,1
35 tile-drop,base,0,1,1
? SELECT t.table_name, t.zoom_level, t.tile_column, t.tile_row, b.data FROM mm_tiles AS t JOIN mm_blobs AS b ON b.id = t.blob
base|1|1|1|aa|
? SELECT table_name, last_change FROM gpkg_contents ORDER BY table_name
base|2000-02-29T23:59:59.999Z|
photos|1970-01-01T00:00:00.000Z|
spots|1970-01-01T00:00:00.000Z|
";

/// A tile is replaced, and dropped once.
const REPLACED_TILES: &str = "\
0 tile,base,1,0,1,89504e
? SELECT t.zoom_level, t.tile_column, t.tile_row, b.data FROM mm_tiles AS t JOIN mm_blobs AS b ON b.id = t.blob ORDER BY t.zoom_level
1|0|1|89504e|
0 tile,base,1,0,1,ffd8
? SELECT t.zoom_level, t.tile_column, t.tile_row, b.data FROM mm_tiles AS t JOIN mm_blobs AS b ON b.id = t.blob ORDER BY t.zoom_level
1|0|1|ffd8|
0 tile,base,0,0,0,01
? SELECT t.zoom_level, t.tile_column, t.tile_row, b.data FROM mm_tiles AS t JOIN mm_blobs AS b ON b.id = t.blob ORDER BY t.zoom_level
0|0|0|01|
1|0|1|ffd8|
0 tile-drop,base,1,0,1
? SELECT t.zoom_level, t.tile_column, t.tile_row, b.data FROM mm_tiles AS t JOIN mm_blobs AS b ON b.id = t.blob ORDER BY t.zoom_level
0|0|0|01|
35 tile-drop,base,1,0,1
? SELECT t.zoom_level, t.tile_column, t.tile_row, b.data FROM mm_tiles AS t JOIN mm_blobs AS b ON b.id = t.blob ORDER BY t.zoom_level
0|0|0|01|
";

/// Rows are put, replaced, and dropped once.
const REPLACED_ROWS: &str = "\
25 row,none,7,Well,,3
? SELECT id, title, note, amount FROM mm_rows ORDER BY id
26 row,photos,7,Well,,3
? SELECT id, title, note, amount FROM mm_rows ORDER BY id
0 row,spots,7,Well,,3
? SELECT id, title, note, amount FROM mm_rows ORDER BY id
7|Well||3|
0 row,spots,7,Gate,shut,-1000000000000000
? SELECT id, title, note, amount FROM mm_rows ORDER BY id
7|Gate|shut|-1000000000000000|
0 row,spots,8,,,1000000000000000
? SELECT id, title, note, amount FROM mm_rows ORDER BY id
7|Gate|shut|-1000000000000000|
8|||1000000000000000|
25 row-drop,none,7
? SELECT id, title, note, amount FROM mm_rows ORDER BY id
7|Gate|shut|-1000000000000000|
8|||1000000000000000|
26 row-drop,base,7
? SELECT id, title, note, amount FROM mm_rows ORDER BY id
7|Gate|shut|-1000000000000000|
8|||1000000000000000|
0 row-drop,spots,7
? SELECT id, title, note, amount FROM mm_rows ORDER BY id
8|||1000000000000000|
40 row-drop,spots,7
? SELECT id, title, note, amount FROM mm_rows ORDER BY id
8|||1000000000000000|
";

/// Media are put, replaced, and dropped once.
const REPLACED_MEDIA: &str = "\
25 media,none,3,image/jpeg,ffd8ff
? SELECT m.id, m.content_type, b.data FROM mm_media AS m JOIN mm_blobs AS b ON b.id = m.blob ORDER BY m.id
26 media,spots,3,image/jpeg,ffd8ff
? SELECT m.id, m.content_type, b.data FROM mm_media AS m JOIN mm_blobs AS b ON b.id = m.blob ORDER BY m.id
0 media,photos,3,image/jpeg,ffd8ff
? SELECT m.id, m.content_type, b.data FROM mm_media AS m JOIN mm_blobs AS b ON b.id = m.blob ORDER BY m.id
3|image/jpeg|ffd8ff|
0 media,photos,3,image/png,89
? SELECT m.id, m.content_type, b.data FROM mm_media AS m JOIN mm_blobs AS b ON b.id = m.blob ORDER BY m.id
3|image/png|89|
25 media-drop,none,3
? SELECT m.id, m.content_type, b.data FROM mm_media AS m JOIN mm_blobs AS b ON b.id = m.blob ORDER BY m.id
3|image/png|89|
26 media-drop,spots,3
? SELECT m.id, m.content_type, b.data FROM mm_media AS m JOIN mm_blobs AS b ON b.id = m.blob ORDER BY m.id
3|image/png|89|
0 media-drop,photos,3
? SELECT m.id, m.content_type, b.data FROM mm_media AS m JOIN mm_blobs AS b ON b.id = m.blob ORDER BY m.id
41 media-drop,photos,3
? SELECT m.id, m.content_type, b.data FROM mm_media AS m JOIN mm_blobs AS b ON b.id = m.blob ORDER BY m.id
";

/// An item that a mapping row names stays.
const MAPPED_ITEMS: &str = "\
0 row,spots,7,Well,,3
0 row,spots,3,Gate,,0
0 media,photos,3,image/jpeg,ff
0 media,photos,7,image/jpeg,ff
! INSERT INTO gpkgext_relations (base_table_name, base_primary_column, related_table_name, related_primary_column, relation_name, mapping_table_name) VALUES ('spots', 'id', 'photos', 'id', 'media', 'links')
! INSERT INTO mm_map (mapping, base_id, related_id) VALUES ('links', 7, 3)
42 row-drop,spots,7
0 row-drop,spots,3
42 media-drop,photos,3
0 media-drop,photos,7
! DELETE FROM mm_map
0 row-drop,spots,7
0 media-drop,photos,3
";

/// Equal bytes are kept once, and go with the last entry that names them.
const KEPT_ONCE: &str = "\
0 tile,base,1,0,0,616263
0 tile,base,1,1,0,616263
? SELECT digest, data FROM mm_blobs
ba7816bf8f01cfea414140de5dae2223b00361a396177a9cb410ff61f20015ad|616263|
0 media,photos,3,image/jpeg,616263
0 tile-drop,base,1,0,0
0 tile,base,1,1,0,616263
? SELECT data FROM mm_blobs
616263|
0 tile,base,1,1,0,00
? SELECT data FROM mm_blobs ORDER BY data
00|
616263|
0 media,photos,3,image/png,00
? SELECT data FROM mm_blobs
00|
0 drop,base
? SELECT data FROM mm_blobs
00|
0 media-drop,photos,3
? SELECT data FROM mm_blobs
";

/// Bytes are not found by their digest alone.
const ONE_DIGEST: &str = "\
! INSERT INTO mm_blobs (id, digest, data) VALUES (5, 'ba7816bf8f01cfea414140de5dae2223b00361a396177a9cb410ff61f20015ad', x'aa')
! INSERT INTO mm_tiles (table_name, zoom_level, tile_column, tile_row, blob) VALUES ('base', 1, 0, 0, 5)
0 tile,base,1,1,0,616263
? SELECT digest, data FROM mm_blobs ORDER BY data
ba7816bf8f01cfea414140de5dae2223b00361a396177a9cb410ff61f20015ad|616263|
ba7816bf8f01cfea414140de5dae2223b00361a396177a9cb410ff61f20015ad|aa|
0 tile-drop,base,1,1,0
? SELECT data FROM mm_blobs
aa|
";

#[test]
fn content_is_changed_as_its_records_say(rt: HostRuntime) {
    for script in [
        TILES,
        REPLACED_TILES,
        REPLACED_ROWS,
        REPLACED_MEDIA,
        MAPPED_ITEMS,
        KEPT_ONCE,
        ONE_DIGEST,
    ] {
        let text = told_on(rt.alloc(), &[BASE], script, LATER).expect(&rt, "answers");
        assert_eq!(rt; text.as_str(), script);
    }
}

/// A row over the limit stands where a call would find it that loads the table, and a key of the test's own names rows 7 and 8
/// where a call would remove them that writes the table back.
const WATCHED: &str = "\
! INSERT INTO mm_rows (table_name, id, title, note, amount) VALUES ('spots', 7, 'Well', '', 3), ('spots', 8, 'Gate', '', 2000000000000000)
! CREATE TABLE watch (name TEXT, id INTEGER, FOREIGN KEY (name, id) REFERENCES mm_rows (table_name, id) ON DELETE RESTRICT ON UPDATE RESTRICT)
! INSERT INTO watch (name, id) VALUES ('spots', 7), ('spots', 8)
";

const FIVE: &str = "\
0 row,spots,9,X,,0
0 media,photos,4,image/png,01
0 tile,base,1,0,0,aa
0 tile-drop,base,1,0,0
0 row-drop,spots,9
";

const LEFT: &str = "\
? SELECT id, title, note, amount FROM mm_rows ORDER BY id
7|Well||3|
8|Gate||2000000000000000|
";

#[test]
fn a_lent_call_touches_only_its_own_rows(rt: HostRuntime) {
    let mut conn = package(rt.alloc(), &[BASE, WATCHED]).expect(&rt, "a package");
    let text = answers_in_one(rt.alloc(), &mut conn, FIVE, LATER).expect(&rt, "answers");
    assert_eq!(rt; text.as_str(), FIVE);
    let text = told(rt.alloc(), &mut conn, LEFT, LATER).expect(&rt, "answers");
    assert_eq!(rt; text.as_str(), LEFT);
}
