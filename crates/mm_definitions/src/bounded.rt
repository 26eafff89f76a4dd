//! Whole numbers that carry their limits.

ghost use Rattle.std.specs.Prelude.{◌≡◌, ◌↔◌, pos, neg_ℤ, IsSome, IfSome};
ghost use Rattle.mm_definitions.specs.Bounds.{IsFrom, IsZoom, IsSystemNumber};

use crate::limits::{
    FARTHEST, LARGEST_PIXEL, LAST_ID, LAST_PLACE, LAST_ZOOM, MOST_AMOUNT, MOST_PIXELS, MOST_TILES,
};
use std::marker::Model;

/// A zoom level. (Tile matrix: zoom_level.)
#[derive(Clone, Copy, Debug, PartialEq, Eq)]
pub struct Zoom {
    level: u8,
}

impl Model for Zoom {
    ghost use Rattle.std.specs.Prelude.{ℕ, pos};
    ghost use Rattle.mm_definitions.specs.Bounds.{IsZoom};

    ghost Value = { ℕ };

    ghost view = { λ zoom. zoom.level };

    ghost inverse = { λ number. record { level = number } };

    ghost invariant = { λ zoom. IsZoom (pos zoom.level) };
}

impl Zoom {
    ghost use Rattle.std.specs.Prelude.{◌≡◌, ◌↔◌, pos, IsSome, IfSome};
    ghost use Rattle.mm_definitions.specs.Bounds.{IsZoom};

    /// The zoom level of this number, or None where it is outside the limits.
    pub fn new(number: i64) -> Option<Zoom>
        ensures within { IsSome result ↔ IsZoom number }
        ensures value { IfSome result (λ zoom. pos zoom ≡ number) }
    {
        if number < 0 || number > LAST_ZOOM as i64 {
            return None;
        }
        Some(Zoom {
            level: number as u8,
        })
    }

    /// The number.
    pub fn get(&self) -> u8
        ensures number { result ≡ self.now }
        ensures within { IsZoom (pos self.now) }
    {
        self.level
    }
}

/// A number of tiles or pixels from `LEAST` to `MOST`, or a place among so many.
#[derive(Clone, Copy, Debug, PartialEq, Eq)]
pub struct Count<const LEAST: u32, const MOST: u32> {
    number: u32,
}

/// A column or row of tiles, from 0.
pub type Place = Count<0, LAST_PLACE>;

/// The width or height of a matrix, in tiles.
pub type MatrixSide = Count<1, MOST_TILES>;

/// The width or height of a tile, in pixels.
pub type TileSide = Count<1, MOST_PIXELS>;

impl<const LEAST: u32, const MOST: u32> Model for Count<LEAST, MOST> {
    ghost use Rattle.std.specs.Prelude.{ℕ, pos};
    ghost use Rattle.mm_definitions.specs.Bounds.{IsFrom};

    ghost Value = { ℕ };

    ghost view = { λ count. count.number };

    ghost inverse = { λ number. record { number = number } };

    ghost invariant = { λ count. IsFrom (pos LEAST) (pos MOST) (pos count.number) };
}

impl<const LEAST: u32, const MOST: u32> Count<LEAST, MOST> {
    /// The count of this number, or None where it is outside the limits.
    pub fn new(number: i64) -> Option<Self>
        ensures within { IsSome result ↔ IsFrom (pos LEAST) (pos MOST) number }
        ensures value { IfSome result (λ count. pos count ≡ number) }
    {
        if number < LEAST as i64 || number > MOST as i64 {
            return None;
        }
        Some(Count {
            number: number as u32,
        })
    }

    /// The number.
    pub fn get(&self) -> u32
        ensures number { result ≡ self.now }
        ensures within { IsFrom (pos LEAST) (pos MOST) (pos self.now) }
    {
        self.number
    }
}

/// A number from 1 to `MOST`.
#[derive(Clone, Copy, Debug, PartialEq, Eq)]
pub struct Positive<const MOST: u64> {
    number: i64,
}

/// The number of a row, a medium, a piece, or a reference system that is not given.
pub type Id = Positive<LAST_ID>;

/// The size of a pixel, in micrometres.
pub type PixelSize = Positive<LARGEST_PIXEL>;

impl<const MOST: u64> Model for Positive<MOST> {
    ghost use Rattle.std.specs.Prelude.{ℤ, pos};
    ghost use Rattle.mm_definitions.specs.Bounds.{IsFrom};

    ghost Value = { ℤ };

    ghost view = { λ it. it.number };

    ghost inverse = { λ number. record { number = number } };

    ghost invariant = { λ it. IsFrom (pos 1) (pos MOST) it.number };
}

impl<const MOST: u64> Positive<MOST> {
    /// The number, or None where it is outside the limits.
    pub fn new(number: i64) -> Option<Self>
        ensures within { IsSome result ↔ IsFrom (pos 1) (pos MOST) number }
        ensures value { IfSome result (λ it. it ≡ number) }
    {
        if number < 1 || number as u64 > MOST {
            return None;
        }
        Some(Positive { number })
    }

    /// The number.
    pub fn get(&self) -> i64
        ensures number { result ≡ self.now }
        ensures within { IsFrom (pos 1) (pos MOST) self.now }
    {
        self.number
    }
}

/// A number that is at most `MOST` away from 0.
#[derive(Clone, Copy, Debug, PartialEq, Eq)]
pub struct Signed<const MOST: u64> {
    number: i64,
}

/// The amount of an attribute row.
pub type Amount = Signed<MOST_AMOUNT>;

/// A coordinate, in micrometres.
pub type Coordinate = Signed<FARTHEST>;

impl<const MOST: u64> Model for Signed<MOST> {
    ghost use Rattle.std.specs.Prelude.{ℤ, pos, neg_ℤ};
    ghost use Rattle.mm_definitions.specs.Bounds.{IsFrom};

    ghost Value = { ℤ };

    ghost view = { λ it. it.number };

    ghost inverse = { λ number. record { number = number } };

    ghost invariant = { λ it. IsFrom (neg_ℤ (pos MOST)) (pos MOST) it.number };
}

impl<const MOST: u64> Signed<MOST> {
    /// The number, or None where it is outside the limits.
    pub fn new(number: i64) -> Option<Self>
        ensures within { IsSome result ↔ IsFrom (neg_ℤ (pos MOST)) (pos MOST) number }
        ensures value { IfSome result (λ it. it ≡ number) }
    {
        if number.unsigned_abs() > MOST {
            return None;
        }
        Some(Signed { number })
    }

    /// The number.
    pub fn get(&self) -> i64
        ensures number { result ≡ self.now }
        ensures within { IsFrom (neg_ℤ (pos MOST)) (pos MOST) self.now }
    {
        self.number
    }
}

/// The number of any reference system, one of the three given among them.
#[derive(Clone, Copy, Debug, PartialEq, Eq)]
pub struct SystemNumber {
    number: i64,
}

impl Model for SystemNumber {
    ghost use Rattle.std.specs.Prelude.{ℤ};
    ghost use Rattle.mm_definitions.specs.Bounds.{IsSystemNumber};

    ghost Value = { ℤ };

    ghost view = { λ it. it.number };

    ghost inverse = { λ number. record { number = number } };

    ghost invariant = { λ it. IsSystemNumber it.number };
}

impl SystemNumber {
    ghost use Rattle.std.specs.Prelude.{◌≡◌, ◌↔◌, IsSome, IfSome};
    ghost use Rattle.mm_definitions.specs.Bounds.{IsSystemNumber};

    /// The number, or None where it is outside the limits.
    pub fn new(number: i64) -> Option<SystemNumber>
        ensures within { IsSome result ↔ IsSystemNumber number }
        ensures value { IfSome result (λ it. it ≡ number) }
    {
        if number < -1 || number > LAST_ID as i64 {
            return None;
        }
        Some(SystemNumber { number })
    }

    /// The number.
    pub fn get(&self) -> i64
        ensures number { result ≡ self.now }
        ensures within { IsSystemNumber self.now }
    {
        self.number
    }
}
