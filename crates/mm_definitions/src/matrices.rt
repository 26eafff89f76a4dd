//! Whether a new tile matrix suits the zooms next to its own.

ghost use Rattle.std.specs.Prelude.{◌≡◌, ◌↔◌, pos, ◌*ℤ◌, ◌+ℤ◌, int_lt, IsTrue};
ghost use Rattle.mm_definitions.specs.Keys.{same_number};
ghost use Rattle.mm_definitions.specs.Conditions.{grid};
ghost use Rattle.mm_definitions.specs.Conditions as conditions;
ghost use Rattle.mm_definitions.specs.Neighbours.{zoomed, is_halved};
ghost use Rattle.mm_definitions.specs.Neighbours as spec;

use crate::commands::{Matrix, Step};

/// Whether the second matrix has the smaller pixels, both ways.
fn is_finer(coarse: &Matrix, fine: &Matrix) -> bool
    ensures { result ≡ conditions.is_finer (grid coarse.now) (grid fine.now) }
{
    fine.px.get() < coarse.px.get() && fine.py.get() < coarse.py.get()
}

/// Whether one size is twice the other.
fn is_twice(size: i64, half: i64) -> bool
    ensures { result ≡ same_number size (pos 2 *ℤ half) }
{
    size as i128 == 2 * half as i128
}

/// Whether the first matrix has pixels twice as large, both ways.
fn is_double(coarse: &Matrix, fine: &Matrix) -> bool
    ensures { result ≡ conditions.is_double (grid coarse.now) (grid fine.now) }
{
    is_twice(coarse.px.get(), fine.px.get()) && is_twice(coarse.py.get(), fine.py.get())
}

/// Whether the second zoom is the one after the first.
fn is_next(low: u8, high: u8) -> bool
    ensures { result ≡ same_number (pos high) (pos low +ℤ pos 1) }
{
    high as u16 == low as u16 + 1
}

/// Whether two matrices of one pyramid suit each other, the first at the lower zoom.
fn suits_above(halved: bool, low: u8, coarse: &Matrix, high: u8, fine: &Matrix) -> bool
    ensures { result ≡ conditions.suits_above halved (pos low) (grid coarse.now) (pos high)
        (grid fine.now) }
{
    if !is_finer(coarse, fine) {
        return false;
    }
    if halved && is_next(low, high) {
        return is_double(coarse, fine);
    }
    true
}

/// Whether a pyramid of this kind halves the pixel sizes from zoom to zoom.
fn is_two(step: Step) -> bool
    ensures { result ≡ is_halved step }
{
    match step {
        Step::Two => true,
        Step::Other => false,
    }
}

/// Whether a matrix at zoom `z` suits those at the nearest lower and the nearest higher zoom that have one: its
/// pixels are smaller than below and larger than above, and where the step is `Two` and the other zoom is the next
/// one, half or twice as large. The two nearest zooms decide for all zooms of the pyramid. (Tile matrix: zoom levels
/// and pixel sizes.)
pub fn neighbours(
    below: Option<(u8, Matrix)>,
    z: u8,
    m: &Matrix,
    above: Option<(u8, Matrix)>,
    step: Step,
) -> bool
    ensures { result ≡ spec.neighbours (zoomed below) (pos z) (grid m.now) (zoomed above)
        (is_halved step) }
{
    let halved = is_two(step);
    if let Some((low, coarse)) = below {
        if !suits_above(halved, low, &coarse, z, m) {
            return false;
        }
    }
    match above {
        Some((high, fine)) => suits_above(halved, z, m, high, &fine),
        None => true,
    }
}
