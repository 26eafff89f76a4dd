//! The rules of tile matrices.

ghost use Rattle.std.specs.Prelude.{◌≡◌, ◌↔◌, pos, ◌-ℤ◌, ◌*ℤ◌, IsTrue, MatchOption, FitsSigned};
ghost use Rattle.mm_definitions.specs.Rules.{MatricesFit, HigherIsFiner, NextIsHalved};
ghost use Rattle.std.specs.Int.{w128};
ghost use Rattle.mm_walk.specs.Columns.{number_of};
ghost use Rattle.mm_rules.specs.MatrixRows.{IsFittingRow, IsFinerRow, IsHalvedRow, covered_by, next_by, halved_by};
ghost use Rattle.sqlite.specs.Order.{column};
ghost use Rattle.mm_walk.specs.Check.{Decides};

use mm_definitions::answers::Fault;
use mm_walk::columns::{is_pyramid, number, text_is};
use mm_walk::row_tests::{RowTest, each_passes};
use sqlite::{Alter, Connection, Row};

/// How far apart two numbers are.
fn distance(low: i64, high: i64) -> i128
    ensures { result ≡ high -ℤ low }
{
    high as i128 - low as i128
}

/// What so many tiles of so many pixels of this size measure, where a number of 128 bits holds it.
fn measure(tiles: i64, pixels: i64, size: i64) -> Option<i128>
    ensures { MatchOption result (¬ (FitsSigned w128 ((tiles *ℤ pixels) *ℤ size)))
        (λ length. length ≡ (tiles *ℤ pixels) *ℤ size) }
{
    let count = tiles as i128 * pixels as i128;
    count.checked_mul(size as i128)
}

fn is_same(one: i128, other: i128) -> bool
    ensures { IsTrue result ↔ one ≡ other }
{
    one == other
}

/// Whether so many tiles of so many pixels of this size reach exactly from low to high.
fn reaches(low: i64, high: i64, tiles: i64, pixels: i64, size: i64) -> bool
    ensures { IsTrue result ↔ high -ℤ low ≡ (tiles *ℤ pixels) *ℤ size }
{
    let wanted = distance(low, high);
    match measure(tiles, pixels, size) {
        Some(length) => is_same(wanted, length),
        None => false,
    }
}

/// The same of the numbers in five columns.
fn covers(row: &Row, low: usize, high: usize, tiles: usize, pixels: usize, size: usize) -> bool
    ensures { IsTrue result ↔ covered_by (number_of (column row.now low))
        (number_of (column row.now high)) (number_of (column row.now tiles))
        (number_of (column row.now pixels)) (number_of (column row.now size)) }
{
    let ends = (number(row, low), number(row, high));
    let sides = (number(row, tiles), number(row, pixels), number(row, size));
    match (ends, sides) {
        ((Some(low), Some(high)), (Some(tiles), Some(pixels), Some(size))) => {
            reaches(low, high, tiles, pixels, size)
        }
        _ => false,
    }
}

/// A matrix with the kind of its table and the extent of its matrix set.
struct Fitting;

impl Fitting {
    const KIND: usize = 0;

    const MIN_X: usize = 1;

    const MIN_Y: usize = 2;

    const MAX_X: usize = 3;

    const MAX_Y: usize = 4;

    const WIDTH: usize = 5;

    const HEIGHT: usize = 6;

    const TILE_WIDTH: usize = 7;

    const TILE_HEIGHT: usize = 8;

    const PIXEL_X: usize = 9;

    const PIXEL_Y: usize = 10;
}

impl RowTest for Fitting {
    ghost good = { λ _ row. IsFittingRow row };

    fn passes(&self, row: &Row) -> bool {
        is_pyramid(row, Self::KIND)
            && covers(
                row,
                Self::MIN_X,
                Self::MAX_X,
                Self::WIDTH,
                Self::TILE_WIDTH,
                Self::PIXEL_X,
            )
            && covers(
                row,
                Self::MIN_Y,
                Self::MAX_Y,
                Self::HEIGHT,
                Self::TILE_HEIGHT,
                Self::PIXEL_Y,
            )
    }
}

/// Rule 7: each matrix belongs to a pyramid and covers its extent exactly.
pub fn matrices_fit<S: Alter>(conn: &mut Connection<S>) -> Result<bool, Fault>
    ensures { Decides S.Store conn.old conn.new (λ p. MatricesFit p.kinds p.sets p.matrices)
        result }
{
    each_passes(
        conn,
        "SELECT k.kind, s.min_x, s.min_y, s.max_x, s.max_y, m.matrix_width, m.matrix_height, m.tile_width, m.tile_height, m.pixel_x_size, m.pixel_y_size FROM gpkg_tile_matrix AS m LEFT JOIN mm_tables AS k ON k.table_name = m.table_name LEFT JOIN gpkg_tile_matrix_set AS s ON s.table_name = m.table_name ORDER BY m.table_name, m.zoom_level",
        &[],
        &Fitting,
    )
}

/// A matrix and one of the same pyramid at a higher zoom.
struct Finer;

impl Finer {
    const LOW_X: usize = 0;

    const LOW_Y: usize = 1;

    const HIGH_X: usize = 2;

    const HIGH_Y: usize = 3;
}

impl RowTest for Finer {
    ghost good = { λ _ row. IsFinerRow row };

    fn passes(&self, row: &Row) -> bool {
        let low = (number(row, Self::LOW_X), number(row, Self::LOW_Y));
        let high = (number(row, Self::HIGH_X), number(row, Self::HIGH_Y));
        match (low, high) {
            ((Some(low_x), Some(low_y)), (Some(high_x), Some(high_y))) => {
                high_x < low_x && high_y < low_y
            }
            _ => false,
        }
    }
}

/// Rule 8: of any two zooms of a pyramid the higher has the smaller pixels.
pub fn higher_is_finer<S: Alter>(conn: &mut Connection<S>) -> Result<bool, Fault>
    ensures { Decides S.Store conn.old conn.new (λ p. HigherIsFiner p.matrices) result }
{
    each_passes(
        conn,
        "SELECT a.pixel_x_size, a.pixel_y_size, b.pixel_x_size, b.pixel_y_size FROM gpkg_tile_matrix AS a JOIN gpkg_tile_matrix AS b ON b.table_name = a.table_name AND a.zoom_level < b.zoom_level ORDER BY a.table_name, a.zoom_level",
        &[],
        &Finer,
    )
}

/// Whether two columns hold a zoom and the one after it.
fn are_next(row: &Row, low: usize, high: usize) -> bool
    ensures { IsTrue result ↔ next_by (number_of (column row.now low))
        (number_of (column row.now high)) }
{
    match (number(row, low), number(row, high)) {
        (Some(low), Some(high)) => high as i128 == low as i128 + 1,
        _ => false,
    }
}

fn is_twice(size: i64, half: i64) -> bool
    ensures { IsTrue result ↔ size ≡ pos 2 *ℤ half }
{
    size as i128 == 2 * half as i128
}

/// Whether the pixel sizes at the higher zoom are half of those at the lower one.
fn are_halved(row: &Row) -> bool
    ensures { IsTrue result ↔ halved_by (number_of (column row.now 3))
        (number_of (column row.now 4)) (number_of (column row.now 5))
        (number_of (column row.now 6)) }
{
    let low = (number(row, Halved::LOW_X), number(row, Halved::LOW_Y));
    let high = (number(row, Halved::HIGH_X), number(row, Halved::HIGH_Y));
    match (low, high) {
        ((Some(low_x), Some(low_y)), (Some(high_x), Some(high_y))) => {
            is_twice(low_x, high_x) && is_twice(low_y, high_y)
        }
        _ => false,
    }
}

/// A matrix and one of the same pyramid at a higher zoom, with the kind of their table.
struct Halved;

impl Halved {
    const KIND: usize = 0;

    const LOW_ZOOM: usize = 1;

    const HIGH_ZOOM: usize = 2;

    const LOW_X: usize = 3;

    const LOW_Y: usize = 4;

    const HIGH_X: usize = 5;

    const HIGH_Y: usize = 6;
}

impl RowTest for Halved {
    ghost good = { λ _ row. IsHalvedRow row };

    fn passes(&self, row: &Row) -> bool {
        if !text_is(row, Self::KIND, "two") {
            return true;
        }
        if !are_next(row, Self::LOW_ZOOM, Self::HIGH_ZOOM) {
            return true;
        }
        are_halved(row)
    }
}

/// Rule 9: in a pyramid of kind `two` the next zoom halves the pixels.
pub fn next_is_halved<S: Alter>(conn: &mut Connection<S>) -> Result<bool, Fault>
    ensures { Decides S.Store conn.old conn.new (λ p. NextIsHalved p.kinds p.matrices) result }
{
    each_passes(
        conn,
        "SELECT k.kind, a.zoom_level, b.zoom_level, a.pixel_x_size, a.pixel_y_size, b.pixel_x_size, b.pixel_y_size FROM gpkg_tile_matrix AS a JOIN gpkg_tile_matrix AS b ON b.table_name = a.table_name AND a.zoom_level < b.zoom_level LEFT JOIN mm_tables AS k ON k.table_name = a.table_name ORDER BY a.table_name, a.zoom_level",
        &[],
        &Halved,
    )
}
