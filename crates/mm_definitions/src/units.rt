//! The unit in which the numbers of a package are told.

ghost use Rattle.std.specs.Prelude.{◌≡◌, pos};
ghost use Rattle.mm_definitions.specs.Units.{profile_of};

use crate::limits::{
    FARTHEST, FARTHEST_IN_MILLIMETRES, LARGEST_PIXEL, LARGEST_PIXEL_IN_MILLIMETRES,
};

/// The unit in which the numbers of a package are told.
#[derive(Clone, Copy, Debug, PartialEq, Eq)]
pub enum Unit {
    /// Of profile 1, from which a package is migrated.
    Millimetre,
    /// Of profile 2, which a new package has.
    Micrometre,
}

/// The unit of the profile in use.
pub const CURRENT: Unit = Unit::Micrometre;

impl Unit {
    ghost use Rattle.std.specs.Prelude.{◌≡◌, pos};
    ghost use Rattle.mm_definitions.specs.Units.{profile_of};

    /// The farthest coordinate, in either direction.
    pub fn farthest(self) -> i64
        ensures { result ≡ pos (profile_of self).coordinate }
    {
        match self {
            Unit::Millimetre => FARTHEST_IN_MILLIMETRES as i64,
            Unit::Micrometre => FARTHEST as i64,
        }
    }

    /// The largest pixel size.
    pub fn largest_pixel(self) -> i64
        ensures { result ≡ pos (profile_of self).pixel_size }
    {
        match self {
            Unit::Millimetre => LARGEST_PIXEL_IN_MILLIMETRES as i64,
            Unit::Micrometre => LARGEST_PIXEL as i64,
        }
    }

    /// Whether an edition can hold matrices.
    pub fn takes_matrices(self) -> bool
        ensures { result ≡ (profile_of self).matrix_pieces }
    {
        match self {
            Unit::Millimetre => false,
            Unit::Micrometre => true,
        }
    }
}
