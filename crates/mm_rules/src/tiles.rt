//! Tiles lie in their matrices.

ghost use Rattle.mm_definitions.specs.Rules.{TilesInside};
ghost use Rattle.mm_rules.specs.TileRows.{IsInsideRow};
ghost use Rattle.mm_walk.specs.Check.{Decides};

use mm_definitions::answers::Fault;
use mm_walk::columns::number;
use mm_walk::row_tests::{RowTest, each_passes};
use sqlite::{Alter, Connection, Row};

/// A tile with the sides of the matrix at its zoom.
struct Inside;

impl Inside {
    const COLUMN: usize = 0;

    const ROW: usize = 1;

    const WIDTH: usize = 2;

    const HEIGHT: usize = 3;
}

impl RowTest for Inside {
    ghost good = { λ _ row. IsInsideRow row };

    fn passes(&self, row: &Row) -> bool {
        let place = (number(row, Self::COLUMN), number(row, Self::ROW));
        let sides = (number(row, Self::WIDTH), number(row, Self::HEIGHT));
        match (place, sides) {
            ((Some(column), Some(line)), (Some(width), Some(height))) => {
                0 <= column && column < width && 0 <= line && line < height
            }
            _ => false,
        }
    }
}

/// Rule 10: each tile lies in the matrix at its zoom.
pub fn tiles_inside<S: Alter>(conn: &mut Connection<S>) -> Result<bool, Fault>
    ensures { Decides S.Store conn.old conn.new (λ p. TilesInside p.matrices p.tiles) result }
{
    each_passes(
        conn,
        "SELECT t.tile_column, t.tile_row, m.matrix_width, m.matrix_height FROM mm_tiles AS t LEFT JOIN gpkg_tile_matrix AS m ON m.table_name = t.table_name AND m.zoom_level = t.zoom_level ORDER BY t.table_name, t.zoom_level, t.tile_column, t.tile_row",
        &[],
        &Inside,
    )
}
