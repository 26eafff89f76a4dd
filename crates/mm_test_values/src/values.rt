//! Worked values from outside: stamps, products and numbers at their limits. A list has a line `QUESTION: ANSWER` each.

use crate::lines::{fields_of, number};
use mm_definitions::bounded::{MatrixSide, PixelSize, TileSide};
use mm_definitions::commands::{Matrix, Step};
use mm_definitions::extents::{Extent, fits};
use mm_definitions::matrices::neighbours;
use mm_definitions::moments::{Moment, is_stamp, stamp};
use mm_definitions::numbers::read_number;
use mm_definitions::refusals::Reason;
use std::alloc::Global;
use std::fmt::Write;

/// What the first four fields are of an extent, or None where they are no numbers.
fn extent(fields: &[&str]) -> Option<Option<Extent>> {
    Some(Extent::new(
        number(fields, 0)?,
        number(fields, 1)?,
        number(fields, 2)?,
        number(fields, 3)?,
    ))
}

/// The matrix that the fields from the fifth on spell.
fn matrix(fields: &[&str]) -> Option<Matrix> {
    Some(Matrix {
        mw: MatrixSide::new(number(fields, 4)?)?,
        mh: MatrixSide::new(number(fields, 5)?)?,
        tw: TileSide::new(number(fields, 6)?)?,
        th: TileSide::new(number(fields, 7)?)?,
        px: PixelSize::new(number(fields, 8)?)?,
        py: PixelSize::new(number(fields, 9)?)?,
    })
}

/// A matrix of one tile with pixels of a size.
fn one_tile(pixel: i64) -> Option<Matrix> {
    Some(Matrix {
        mw: MatrixSide::new(1)?,
        mh: MatrixSide::new(1)?,
        tw: TileSide::new(256)?,
        th: TileSide::new(256)?,
        px: PixelSize::new(pixel)?,
        py: PixelSize::new(pixel)?,
    })
}

/// `ZOOM/PIXEL` is a zoom of one tile, and `-` is none.
fn zoom(text: &str) -> Option<(u8, Matrix)> {
    let (level, pixel) = text.split_once('/')?;
    Some((
        level.parse::<u8>().ok()?,
        one_tile(pixel.parse::<i64>().ok()?)?,
    ))
}

fn step(text: &str) -> Option<Step> {
    match text {
        "two" => Some(Step::Two),
        "other" => Some(Step::Other),
        _ => None,
    }
}

/// `BELOW ZOOM/PIXEL ABOVE STEP`
fn are_neighbours(fields: &[&str]) -> Option<bool> {
    let [below, at, above, kind] = fields else {
        return None;
    };
    let (level, matrix) = zoom(at)?;
    Some(neighbours(zoom(below), level, &matrix, zoom(above), step(kind)?))
}

/// `TEXT LEAST MOST`
fn number_read(fields: &[&str]) -> Option<Result<i64, Reason>> {
    let text = fields.get(0)?;
    Some(read_number(text, number(fields, 1)?, number(fields, 2)?))
}

/// The stamp of so many milliseconds, or None where they are no moment.
fn stamp_of(alloc: Global, milliseconds: i64) -> Option<String> {
    stamp(alloc, Moment::new(milliseconds)?).ok()
}

fn tell_stamp(alloc: Global, text: &mut String, question: &str) -> Option<()> {
    match stamp_of(alloc, question.parse::<i64>().ok()?) {
        Some(told) => text.push_str(told.as_str()).ok(),
        None => text.push_str("none").ok(),
    }
}

fn tell_number(text: &mut String, fields: &[&str]) -> Option<()> {
    match number_read(fields)? {
        Ok(number) => write!(text, "{number}").ok(),
        Err(reason) => write!(text, "refused {}", reason.get()).ok(),
    }
}

/// Whether what the fields say of extents, matrices or zooms holds.
fn holds(word: &str, fields: &[&str]) -> Option<bool> {
    match word {
        "fits" => Some(fits(&extent(fields)??, &matrix(fields)?)),
        "extent" => Some(extent(fields)?.is_some()),
        "neighbours" => are_neighbours(fields),
        _ => None,
    }
}

fn tell(alloc: Global, text: &mut String, question: &str) -> Option<()> {
    let (word, rest) = question.split_once(' ')?;
    match word {
        "stamp" => tell_stamp(alloc, text, rest),
        "is_stamp" => write!(text, "{}", is_stamp(rest)).ok(),
        "number" => tell_number(text, fields_of(alloc, rest, ' ')?.as_slice()),
        _ => {
            let fields = fields_of(alloc, rest, ' ')?;
            write!(text, "{}", holds(word, fields.as_slice())?).ok()
        }
    }
}

/// The list with the answers that are given.
fn told(alloc: Global, list: &str) -> Option<String> {
    let mut text = String::new(alloc);
    for line in list.lines() {
        let (question, _) = line.split_once(": ")?;
        write!(text, "{question}: ").ok()?;
        tell(alloc, &mut text, question)?;
        text.push_str("\n").ok()?;
    }
    Some(text)
}

const STAMPS: &str = "\
stamp 0: 1970-01-01T00:00:00.000Z
stamp 951868799999: 2000-02-29T23:59:59.999Z
stamp 1000000000000: 2001-09-09T01:46:40.000Z
stamp 4107542399999: 2100-02-28T23:59:59.999Z
stamp 253402300799999: 9999-12-31T23:59:59.999Z
stamp 253402300800000: none
stamp -1: none
is_stamp 1970-01-01T00:00:00.000Z: true
is_stamp 2000-02-29T23:59:59.999Z: true
is_stamp 2001-09-09T01:46:40.000Z: true
is_stamp 2100-02-28T23:59:59.999Z: true
is_stamp 9999-12-31T23:59:59.999Z: true
is_stamp : false
is_stamp 1970-01-01T00:00:00.000: false
is_stamp 1970-01-01T00:00:60.000Z: false
is_stamp 1970-01-01T24:00:00.000Z: false
is_stamp 1970-02-29T00:00:00.000Z: false
is_stamp 1969-12-31T23:59:59.999Z: false
is_stamp 1970-01-01 00:00:00.000Z: false
is_stamp 1970-1-01T00:00:00.0000Z: false
";

/// The product of the fourth line is 2 to the power of 64 too large.
const EXTENTS: &str = "\
fits 500000000000 5600000000000 501024000000 5601024000000 1 1 256 256 4000000 4000000: true
fits 500000000000 5600000000000 501024000000 5601024000000 2 2 256 256 1999000 1999000: false
fits 500000000000 5600000000000 501024000000 5601024000000 1 1 256 256 4000000 4001000: false
fits 0 0 2147483648000 2147483648000 1073741824 1073741824 18 18 954437177000 954437177000: false
extent 0 0 10000 10000: true
extent 5000 0 5000 10000: false
extent 0 0 10000 100000000000001: false
";

const ZOOMS: &str = "\
neighbours - 1/2000000 - two: true
neighbours 0/4000000 1/2000000 - two: true
neighbours 0/4000000 1/1999000 - two: false
neighbours 0/4000000 1/1999000 - other: true
neighbours 0/4000000 1/4000000 - other: false
neighbours 0/4000000 2/2000000 - two: true
neighbours 0/4000000 1/2000000 2/1000000 two: true
neighbours 0/4000000 1/2000000 2/2000000 two: false
neighbours - 1/2000000 2/2000000 other: false
neighbours - 1/2000000 3/1 two: true
neighbours - 1/2000000 2/1 two: false
";

const NUMBERS: &str = "\
number 0 0 9: 0
number -1 -1 9: -1
number 10 0 9: refused 11
number -0 0 9: refused 10
number 00 0 9: refused 10
number +1 0 9: refused 10
number 1.0 0 9: refused 10
number -9223372036854775808 -9223372036854775808 9223372036854775807: -9223372036854775808
number 9223372036854775808 -9223372036854775808 9223372036854775807: refused 11
number -99999999999999999999999999999999 -9223372036854775808 9223372036854775807: refused 11
";

#[test]
fn values_are_as_worked_by_hand(rt: HostRuntime) {
    for list in [STAMPS, EXTENTS, ZOOMS, NUMBERS] {
        let text = told(rt.alloc(), list).expect(&rt, "answers");
        assert_eq!(&rt; text.as_str(), list);
    }
}
