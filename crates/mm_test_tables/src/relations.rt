//! Relations and mapping rows, and what an item is related to.

use crate::commands::{FIRST, answers_in_one};
use crate::packages::{BASE, MAPPED};
use crate::scripts::{package, told, told_on};

/// A mapped row stands until it is unmapped.
const UNMAPPED: &str = "\
42 row-drop,spots,7
45 map,spot_photos,7,3
48 drop,spots
0 map-drop,spot_photos,7,3
0 row-drop,spots,7
40 row-drop,spots,7
0 relation-drop,spot_photos
0 drop,spots
25 drop,spots
";

/// A relation and a mapping row are refused, and nothing changes.
const REFUSED: &str = "\
43 relation,spot_photos,spots,photos,media
43 relation,base,spots,photos,media
23 table,spot_photos,media,X
47 relation,r,spots,photos,simple_attributes
47 relation,r,base,photos,media
47 relation,r,spots,base,media
25 relation,r,spots,nope,media
25 relation,spot_photos,nope,base,media
40 map,spot_photos,8,3
41 map,spot_photos,7,4
40 map,spot_photos,8,4
44 map,nope,7,3
44 map-drop,nope,7,3
46 map-drop,spot_photos,7,4
46 map-drop,spot_photos,3,7
44 relation-drop,nope
42 media-drop,photos,3
? SELECT base_table_name, base_primary_column, related_table_name, related_primary_column, relation_name, mapping_table_name FROM gpkgext_relations
spots|id|photos|id|media|spot_photos|
? SELECT mapping, base_id, related_id FROM mm_map
spot_photos|7|3|
? SELECT table_name, column_name, extension_name, definition, scope FROM gpkg_extensions ORDER BY table_name
gpkgext_relations|null|gpkg_related_tables|OGC 18-000|read-write|
spot_photos|null|gpkg_related_tables|OGC 18-000|read-write|
";

/// A table is related to itself.
const ITSELF: &str = "\
0 relation,rr,spots,spots,simple_attributes
0 map,rr,7,7
0 relation-drop,spot_photos
0 media-drop,photos,3
42 row-drop,spots,7
0 relation-drop,rr
0 row-drop,spots,7
? SELECT mapping_table_name FROM gpkgext_relations
? SELECT mapping FROM mm_map
? SELECT table_name FROM gpkg_extensions
gpkgext_relations|
? SELECT table_name, last_change FROM gpkg_contents WHERE table_name = 'photos'
photos|1970-01-01T00:00:00.000Z|
";

/// Items are related from the base, by mapping and id.
const ITEMS: &str = "\
0 media,photos,12,image/png,01
0 media,photos,1,image/png,02
0 row,spots,9,Mill,,0
0 table,aside,attributes,Aside
0 row,aside,7,Other,,0
0 relation,a_first,spots,spots,simple_attributes
0 relation,zz_aside,aside,photos,media
0 map,spot_photos,7,12
0 map,spot_photos,7,1
0 map,spot_photos,9,12
0 map,a_first,7,9
0 map,a_first,7,7
0 map,zz_aside,7,3
= related spots 7
a_first|simple_attributes|spots|7|
a_first|simple_attributes|spots|9|
spot_photos|media|photos|1|
spot_photos|media|photos|3|
spot_photos|media|photos|12|
= related spots 9
spot_photos|media|photos|12|
= related aside 7
zz_aside|media|photos|3|
= related photos 3
= related spots 8
none|
= related photos 7
none|
= related base 7
none|
= related nope 7
none|
";

#[test]
fn items_are_related_as_their_records_say(rt: HostRuntime) {
    for script in [UNMAPPED, REFUSED, ITSELF, ITEMS] {
        let text = told_on(rt.alloc(), &[BASE, MAPPED], script, FIRST).expect(&rt, "answers");
        assert_eq!(rt; text.as_str(), script);
    }
}

/// A row breaks a rule, and a table of the test's own keeps two rows from being removed: so a call that wrote more rows than
/// its own would fail.
const GUARDED: &str = "\
! INSERT INTO mm_rows (table_name, id, title, note, amount) VALUES ('spots', 8, 'Spring', '', 2000000000000000)
! CREATE TABLE guard (id INTEGER PRIMARY KEY, name TEXT NOT NULL, number INTEGER NOT NULL, FOREIGN KEY (name, number) REFERENCES mm_rows (table_name, id) ON DELETE RESTRICT ON UPDATE RESTRICT) STRICT
! INSERT INTO guard (name, number) VALUES ('spots', 7), ('spots', 8)
";

const FIVE: &str = "\
0 row,spots,9,X,,0
0 media,photos,4,image/png,01
0 map,spot_photos,9,4
0 tile,base,1,0,0,aa
0 matrix,base,2,4,4,256,256,1000000,1000000
";

const LEFT: &str = "\
? SELECT table_name, id, title, note, amount FROM mm_rows ORDER BY id
spots|7|Well||3|
spots|8|Spring||2000000000000000|
spots|9|X||0|
";

#[test]
fn a_call_touches_its_own_rows_alone(rt: HostRuntime) {
    let mut conn = package(rt.alloc(), &[BASE, MAPPED, GUARDED]).expect(&rt, "a package");
    let text = answers_in_one(rt.alloc(), &mut conn, FIVE, FIRST).expect(&rt, "answers");
    assert_eq!(rt; text.as_str(), FIVE);
    let text = told(rt.alloc(), &mut conn, LEFT, FIRST).expect(&rt, "answers");
    assert_eq!(rt; text.as_str(), LEFT);
}
