//! Extents, and whether a matrix covers one exactly.

ghost use Rattle.std.specs.Prelude.{◌≡◌, ◌↔◌, ℕ, pos, ◌<ℤ◌, ◌-ℤ◌, ◌*ℤ◌, IsSome, IfSome, IsTrue};
ghost use Rattle.mm_definitions.specs.Bounds.{IsCoordinate, current};
ghost use Rattle.mm_definitions.specs.Rules.{Fits};
ghost use Rattle.mm_definitions.specs.Conditions.{grid};

use crate::bounded::{Coordinate, MatrixSide, PixelSize, TileSide};
use crate::commands::Matrix;
use crate::limits::FARTHEST;
use std::marker::Model;

/// The extent of a pyramid, in whole micrometres: within the limits, and not empty. (Tile Matrix Set: min_x, min_y,
/// max_x, max_y.)
#[derive(Clone, Copy, Debug, PartialEq, Eq)]
pub struct Extent {
    min_x: i64,
    min_y: i64,
    max_x: i64,
    max_y: i64,
}

impl Model for Extent {
    ghost use Rattle.mm_definitions.specs.Bounds.{current};
    ghost use Rattle.mm_definitions.specs.Checks.{IsExtent};
    ghost use Rattle.mm_definitions.specs.Package.{Box};

    ghost Value = { Box };

    ghost view = { λ e. record {
      min_x = e.min_x;
      min_y = e.min_y;
      max_x = e.max_x;
      max_y = e.max_y;
    } };

    ghost inverse = { λ b. record {
      min_x = b.min_x;
      min_y = b.min_y;
      max_x = b.max_x;
      max_y = b.max_y;
    } };

    ghost invariant = { λ e. IsExtent current
        (record { min_x = e.min_x; min_y = e.min_y; max_x = e.max_x; max_y = e.max_y }) };
}

fn is_coordinate(number: i64) -> bool
    ensures { IsTrue result ↔ IsCoordinate current number }
{
    number.unsigned_abs() <= FARTHEST
}

impl Extent {
    ghost use Rattle.std.specs.Prelude.{◌≡◌, ◌↔◌, IsSome, IfSome};
    ghost use Rattle.mm_definitions.specs.Bounds.{current};
    ghost use Rattle.mm_definitions.specs.Checks.{IsExtent};

    /// The extent with these bounds, where they are within the limits and it is not empty.
    pub fn new(min_x: i64, min_y: i64, max_x: i64, max_y: i64) -> Option<Extent>
        ensures within { IsSome result
            ↔ IsExtent current
            (record { min_x = min_x; min_y = min_y; max_x = max_x; max_y = max_y }) }
        ensures value { IfSome result
            (λ e. e ≡ record { min_x = min_x; min_y = min_y; max_x = max_x; max_y = max_y }) }
    {
        if !is_coordinate(min_x) {
            return None;
        }
        if !is_coordinate(min_y) {
            return None;
        }
        if !is_coordinate(max_x) {
            return None;
        }
        if !is_coordinate(max_y) {
            return None;
        }
        if min_x < max_x && min_y < max_y {
            Some(Extent {
                min_x,
                min_y,
                max_x,
                max_y,
            })
        } else {
            None
        }
    }

    /// The least x.
    pub fn min_x(&self) -> i64
        ensures number { result ≡ self.now.min_x }
        ensures within { IsExtent current self.now }
    {
        self.min_x
    }

    /// The least y.
    pub fn min_y(&self) -> i64
        ensures number { result ≡ self.now.min_y }
    {
        self.min_y
    }

    /// The greatest x.
    pub fn max_x(&self) -> i64
        ensures number { result ≡ self.now.max_x }
    {
        self.max_x
    }

    /// The greatest y.
    pub fn max_y(&self) -> i64
        ensures number { result ≡ self.now.max_y }
    {
        self.max_y
    }
}

/// The bounds that a record gives a pyramid: within the limits, and perhaps with nothing between them.
#[derive(Clone, Copy, Debug, PartialEq, Eq)]
pub struct Bounds {
    pub min_x: Coordinate,
    pub min_y: Coordinate,
    pub max_x: Coordinate,
    pub max_y: Coordinate,
}

impl Bounds {
    /// The extent between them, or None where it is empty.
    pub fn extent(&self) -> Option<Extent>
        ensures within { IsSome result
            ↔ (self.now.min_x <ℤ self.now.max_x) × (self.now.min_y <ℤ self.now.max_y) }
        ensures value { IfSome result
            (λ e. e ≡ record {
              min_x = self.now.min_x;
              min_y = self.now.min_y;
              max_x = self.now.max_x;
              max_y = self.now.max_y;
            }) }
    {
        Extent::new(
            self.min_x.get(),
            self.min_y.get(),
            self.max_x.get(),
            self.max_y.get(),
        )
    }
}

/// What so many tiles of so many pixels of that size measure.
fn product(tiles: u32, pixels: u32, size: i64) -> i128
    ensures { result ≡ (pos tiles *ℤ pos pixels) *ℤ size }
{
    let count = tiles as u64 * pixels as u64;
    count as i128 * size as i128
}

/// What a side of a matrix measures.
fn measure(tiles: MatrixSide, pixels: TileSide, size: PixelSize) -> i128
    ensures { result ≡ (pos tiles *ℤ pos pixels) *ℤ size }
{
    product(tiles.get(), pixels.get(), size.get())
}

/// How far apart two coordinates are.
fn distance(low: i64, high: i64) -> i128
    ensures { result ≡ high -ℤ low }
{
    high as i128 - low as i128
}

/// Whether two measures are equal.
fn is_same(one: i128, other: i128) -> bool
    ensures { IsTrue result ↔ one ≡ other }
{
    one == other
}

/// Whether the matrix covers the extent exactly.
pub fn fits(extent: &Extent, matrix: &Matrix) -> bool
    ensures { IsTrue result ↔ Fits extent.now (grid matrix.now) }
{
    let across = is_same(
        distance(extent.min_x, extent.max_x),
        measure(matrix.mw, matrix.tw, matrix.px),
    );
    let down = is_same(
        distance(extent.min_y, extent.max_y),
        measure(matrix.mh, matrix.th, matrix.py),
    );
    across && down
}
