//! What is read of a package, and what is answered of a value that no package has.

use crate::commands::LATER;
use crate::packages::UNORDERED;
use crate::scripts::told_on;

/// A tile is told by its place.
const TILES: &str = "\
= tile base 1 0 1
ffd8|
= tile base 1 1 1
aa|
= tile base 1 1 0
89504e|
= tile base 1 0 0
none|
= tile base 0 0 1
none|
= tile bas 1 0 1
none|
= tile none 1 0 1
none|
";

/// An item is told by its table and id.
const ITEMS: &str = "\
= row spots 7
Well||3|
= row spots 8
Gate|shut|-1000000000000000|
= row photos 7
X||0|
= row spots 3
none|
= row base 7
none|
= media photos 3
image/jpeg|ffd8ff|
= media photos 4
image/png|01|
= media spots 3
text/plain|00|
= media photos 7
none|
= media base 3
none|
";

/// The tables are listed by name.
const CONTENTS: &str = "\
= contents
base|two|1970-01-01T00:00:00.000Z|Base map|25832|500000000000|5600000000000|501024000000|5601024000000|
photos|media|1970-01-01T00:00:00.000Z|Photos|
spots|attributes|2000-02-29T23:59:59.999Z|Spots|
";

/// A value that no package has is a fault.
const FAULTS: &str = "\
! UPDATE mm_rows SET title = CAST(x'6100' AS TEXT) WHERE id = 7
! UPDATE mm_media SET content_type = 'image' WHERE id = 3
! UPDATE mm_blobs SET data = x'' WHERE id = 5
= row spots 7
fault 91|
= media photos 3
fault 91|
= media photos 4
fault 91|
! UPDATE gpkg_contents SET max_x = min_x WHERE table_name = 'base'
= contents
fault 91|
! UPDATE gpkg_contents SET max_x = 100000000000001 WHERE table_name = 'base'
= contents
fault 91|
! UPDATE gpkg_contents SET max_x = 501024000000 WHERE table_name = 'base'
! UPDATE mm_tables SET kind = 'three' WHERE table_name = 'photos'
= contents
fault 91|
! DELETE FROM mm_tables WHERE table_name = 'photos'
= contents
fault 91|
= tile base 1 1 1
aa|
";

#[test]
fn what_stands_is_told(rt: HostRuntime) {
    for script in [TILES, ITEMS, CONTENTS, FAULTS] {
        let text = told_on(rt.alloc(), &[UNORDERED], script, LATER).expect(&rt, "answers");
        assert_eq!(rt; text.as_str(), script);
    }
}
