//! Rule 16 by its parts: every name, number, text and length is within its limits.

ghost use Rattle.std.specs.Prelude.{◌≡◌, ◌≤◌, ◌<◌};
ghost use Rattle.sqlite.specs.Held.{state};
ghost use Rattle.mm_definitions.specs.Rules.{Limits};
ghost use Rattle.mm_definitions.specs.Units.{profile_of};
ghost use Rattle.mm_column_limits.specs.LimitParts.{query_of, limits_of, part};
ghost use Rattle.mm_column_limits.specs.Longest as bytes;
ghost use Rattle.mm_walk.specs.Check.{IsCheck};

use crate::row_limits::Limit::{
    self, Amount, Any, Clean, CleanIfAny, ContentType, Coordinate, CoordinateIfAny, Definition, Id,
    Identifier, MatrixSide, MediaBytes, Name, NoText, PixelSize, Remark, Stamp, SystemName,
    SystemNumber, SystemNumberIfAny, SystemNumbers, TileBytes, TilePlace, TileSide, Zoom,
};
use crate::row_limits::Limited;
use mm_definitions::answers::Fault;
use mm_definitions::limits::{MOST_MEDIA_BYTES, MOST_TILE_BYTES};
use mm_definitions::units::Unit;
use mm_walk::row_tests::each_passes;
use sqlite::{Alter, Connection};

/// The query of the rows of a table, and the limit of each of its columns in turn.
type Table = (&'static str, &'static [Limit]);

/// Reference systems.
const SYSTEMS: Table = (
    "SELECT t.srs_id, t.srs_name, t.organization, t.organization_coordsys_id, t.definition, t.description \
     FROM gpkg_spatial_ref_sys AS t ORDER BY t.srs_id",
    &[
        SystemNumbers(3),
        SystemName,
        SystemName,
        Any,
        Definition,
        Remark,
    ],
);

/// Contents.
const CONTENTS: Table = (
    "SELECT t.table_name, t.data_type, t.identifier, t.description, t.last_change, t.min_x, t.min_y, t.max_x, \
     t.max_y, t.srs_id FROM gpkg_contents AS t ORDER BY t.table_name",
    &[
        Name,
        Clean,
        Identifier,
        NoText,
        Stamp,
        CoordinateIfAny,
        CoordinateIfAny,
        CoordinateIfAny,
        CoordinateIfAny,
        SystemNumberIfAny,
    ],
);

/// The registry.
const KINDS: Table = (
    "SELECT t.table_name, t.kind FROM mm_tables AS t ORDER BY t.table_name",
    &[Name, Clean],
);

/// Matrix sets.
const SETS: Table = (
    "SELECT t.table_name, t.srs_id, t.min_x, t.min_y, t.max_x, t.max_y FROM gpkg_tile_matrix_set AS t \
     ORDER BY t.table_name",
    &[
        Name,
        SystemNumber,
        Coordinate,
        Coordinate,
        Coordinate,
        Coordinate,
    ],
);

/// Matrices.
const MATRICES: Table = (
    "SELECT t.table_name, t.zoom_level, t.matrix_width, t.matrix_height, t.tile_width, t.tile_height, \
     t.pixel_x_size, t.pixel_y_size FROM gpkg_tile_matrix AS t ORDER BY t.table_name, t.zoom_level",
    &[
        Name, Zoom, MatrixSide, MatrixSide, TileSide, TileSide, PixelSize, PixelSize,
    ],
);

/// Extension rows.
const EXTENSIONS: Table = (
    "SELECT t.table_name, t.column_name, t.extension_name, t.definition, t.scope FROM gpkg_extensions AS t",
    &[CleanIfAny, CleanIfAny, Clean, Clean, Clean],
);

/// Tiles.
const TILES: Table = (
    "SELECT t.table_name, t.zoom_level, t.tile_column, t.tile_row, b.data \
     FROM mm_tiles AS t LEFT JOIN mm_blobs AS b ON b.id = t.blob ORDER BY t.table_name, t.zoom_level, \
     t.tile_column, t.tile_row",
    &[Name, Zoom, TilePlace, TilePlace, TileBytes],
);

/// Tiles whose bytes are known to be few enough: it reads none.
const TILE_PLACES: Table = (
    "SELECT t.table_name, t.zoom_level, t.tile_column, t.tile_row FROM mm_tiles AS t",
    &[Name, Zoom, TilePlace, TilePlace],
);

/// Attribute rows.
const ROWS: Table = (
    "SELECT t.table_name, t.id, t.title, t.note, t.amount FROM mm_rows AS t ORDER BY t.table_name, t.id",
    &[Name, Id, Remark, Remark, Amount],
);

/// Media.
const MEDIA: Table = (
    "SELECT t.table_name, t.id, b.data, t.content_type \
     FROM mm_media AS t LEFT JOIN mm_blobs AS b ON b.id = t.blob ORDER BY t.table_name, t.id",
    &[Name, Id, MediaBytes, ContentType],
);

/// Media whose bytes are known to be few enough: it reads none.
const MEDIA_TYPES: Table = (
    "SELECT t.table_name, t.id, t.content_type FROM mm_media AS t",
    &[Name, Id, ContentType],
);

/// Relations.
const RELATIONS: Table = (
    "SELECT t.mapping_table_name, t.base_table_name, t.base_primary_column, t.related_table_name, \
     t.related_primary_column, t.relation_name FROM gpkgext_relations AS t ORDER BY t.mapping_table_name",
    &[Name, Name, Clean, Name, Clean, Clean],
);

/// Mapping rows.
const PAIRINGS: Table = (
    "SELECT t.mapping, t.base_id, t.related_id FROM mm_map AS t ORDER BY t.mapping, t.base_id, t.related_id",
    &[Name, Id, Id],
);

/// Editions.
const EDITIONS: Table = (
    "SELECT t.name, t.state FROM mm_editions AS t ORDER BY t.name",
    &[Name, Clean],
);

/// Staged pieces.
const PIECES: Table = (
    "SELECT t.edition, t.piece_no FROM mm_pieces AS t ORDER BY t.edition, t.piece_no",
    &[Name, Id],
);

/// Whether it is known that no entry has more bytes than `most`, by the most that one has.
fn is_few(longest: Option<usize>, most: usize) -> bool
    ensures { result ≡ bytes.is_few longest most }
{
    match longest {
        Some(longest) => longest <= most,
        None => false,
    }
}

/// Table k of those from 1 to 13, by what is known of bytes.
fn table_of(k: u8, longest: Option<usize>) -> Table
    requires low { 1 ≤ k }
    requires high { k < 14 }
    ensures query { result.0.now ≡ query_of longest k }
    ensures limits { result.1.now ≡ limits_of longest k }
{
    match k {
        1 => SYSTEMS,
        2 => CONTENTS,
        3 => KINDS,
        4 => SETS,
        5 => MATRICES,
        6 => EXTENSIONS,
        7 if is_few(longest, MOST_TILE_BYTES) => TILE_PLACES,
        7 => TILES,
        8 => ROWS,
        9 if is_few(longest, MOST_MEDIA_BYTES) => MEDIA_TYPES,
        9 => MEDIA,
        10 => RELATIONS,
        11 => PAIRINGS,
        12 => EDITIONS,
        13 => PIECES,
        _ => unreachable!(),
    }
}

/// Part k of rule 16, of those from 1 to 13: what it asks of one table.
fn one_limit<S: Alter>(
    conn: &mut Connection<S>,
    unit: Unit,
    longest: Option<usize>,
    k: u8,
) -> Result<bool, Fault>
    requires low { 1 ≤ k }
    requires high { k < 14 }
    ensures { IsCheck (profile_of unit) (state S.Store conn.old) (state S.Store conn.new)
        (bytes.AreFew longest) (part (profile_of unit) k) result }
{
    let (query, limits) = table_of(k, longest);
    each_passes(conn, query, &[], &Limited { limits, unit })
}

/// Rule 16: every name, number, text and length is within its limits. Where it is known how many bytes the longest
/// tile or media item has, and that is few enough, no bytes are read.
pub fn limits<S: Alter>(
    conn: &mut Connection<S>,
    unit: Unit,
    longest: Option<usize>,
) -> Result<bool, Fault>
    ensures { IsCheck (profile_of unit) (state S.Store conn.old) (state S.Store conn.new)
        (bytes.AreFew longest) (λ p. Limits (profile_of unit) p) result }
{
    'parts: for k in 1..14u8 {
        if !one_limit(conn, unit, longest, k)? {
            return Ok(false);
        }
    }
    Ok(true)
}
