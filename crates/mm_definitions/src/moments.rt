//! Moments and their texts.

ghost use Rattle.std.specs.Prelude.{◌≡◌, ◌↔◌, ℕ, ◌+◌, ◌/◌, ◌%◌, ◌<◌, ◌≤◌, ◌≤ℤ◌, pos, IsSome, IfSome, IfOk, string_bytes, unsigned_abs};
ghost use Rattle.mm_definitions.specs.Bounds.{IsMoment};
ghost use Rattle.jiff.specs.Words.{epoch_day};
ghost use Rattle.mm_definitions.specs.Stamp.{IsStamp, IsSomeStamp, stamp_text};
ghost use Rattle.mm_definitions.specs.Stamp as spec;
ghost use Rattle.jiff.specs.Words.{IsDate, IsYmd};
ghost use Rattle.std.specs.Prelude.{IsTrue, length};

use jiff::ToSpan;
use jiff::civil::{Date, date};
use std::alloc::{AllocError, Global};
use std::marker::Model;

/// A moment, in milliseconds since 1970-01-01T00:00:00Z, of a year up to 9999.
#[derive(Clone, Copy, Debug)]
pub struct Moment {
    milliseconds: u64,
}

impl Model for Moment {
    ghost use Rattle.std.specs.Prelude.{ℕ};
    ghost use Rattle.mm_definitions.specs.Bounds.{IsMoment};

    ghost Value = { ℕ };

    ghost view = { λ m. m.milliseconds };

    ghost invariant = { λ m. IsMoment m.milliseconds };

    ghost inverse = { λ n. record { milliseconds = n } };
}

impl Moment {
    /// The moment, where it is within the limits.
    pub fn new(milliseconds: i64) -> Option<Moment>
        ensures within { IsSome result
            ↔ (pos 0 ≤ℤ milliseconds × milliseconds ≤ℤ pos 253402300799999) }
        ensures value { IfSome result (λ m. pos m ≡ milliseconds) }
    {
        if milliseconds < 0 || milliseconds > 253402300799999 {
            return None;
        }
        Some(Moment {
            milliseconds: milliseconds as u64,
        })
    }

    /// Its milliseconds since 1970-01-01T00:00:00Z.
    pub fn milliseconds(self) -> u64
        ensures value { result ≡ self }
        ensures within { IsMoment self }
    {
        self.milliseconds
    }
}

/// The last digit of a number.
fn digit(number: u64) -> u8
    ensures { result ≡ 48 + number % 10 }
{
    b'0' + (number % 10) as u8
}

/// The bytes of a stamp.
fn stamp_bytes(year: u64, month: u64, day: u64, time: u64) -> [u8; 24]
    ensures { result ≡ stamp_text year month day time }
{
    [
        digit(year / 1000),
        digit(year / 100),
        digit(year / 10),
        digit(year),
        b'-',
        digit(month / 10),
        digit(month),
        b'-',
        digit(day / 10),
        digit(day),
        b'T',
        digit(time / 3600000 / 10),
        digit(time / 3600000),
        b':',
        digit(time / 60000 % 60 / 10),
        digit(time / 60000 % 60),
        b':',
        digit(time / 1000 % 60 / 10),
        digit(time / 1000 % 60),
        b'.',
        digit(time % 1000 / 100),
        digit(time % 1000 / 10),
        digit(time % 1000),
        b'Z',
    ]
}

/// The date with that day number, from 0 for 1970-01-01.
fn date_of(day: u64) -> Date
    requires { day ≤ 2932896 }
    ensures { epoch_day result ≡ pos day }
{
    date(1970, 1, 1).checked_add((day as i64).days()).unwrap()
}

/// The bytes of a stamp on that date.
fn bytes_on(date: Date, time: u64) -> [u8; 24]
    ensures { result ≡ stamp_text (unsigned_abs date.year) date.month date.day time }
{
    stamp_bytes(
        date.year().unsigned_abs() as u64,
        date.month() as u64,
        date.day() as u64,
        time,
    )
}

/// The text of a moment, as `2000-02-29T23:59:59.999Z`.
pub fn stamp(alloc: Global, moment: Moment) -> Result<String, AllocError>
    ensures { IfOk result (λ text. IsStamp moment (string_bytes text)) }
{
    let milliseconds = moment.milliseconds;
    let date = date_of(milliseconds / 86400000);
    let bytes = bytes_on(date, milliseconds % 86400000);
    let text = std::str::from_utf8(&bytes).unwrap();
    String::from_str(alloc, text)
}

/// The digit there, or some digit.
fn digit_at(bytes: &[u8], at: usize) -> u64
    requires { at < length bytes.now }
    ensures { result ≡ spec.digit_at bytes.now at }
{
    (bytes[at] as u64 + 2) % 10
}

fn pair_at(bytes: &[u8], at: usize) -> u64
    requires { at + 1 < length bytes.now }
    ensures { result ≡ spec.pair_at bytes.now at }
{
    digit_at(bytes, at) * 10 + digit_at(bytes, at + 1)
}

fn year_in(bytes: &[u8]) -> u64
    requires { length bytes.now ≡ 24 }
    ensures { result ≡ spec.year_in bytes.now }
{
    digit_at(bytes, 0) * 1000
        + digit_at(bytes, 1) * 100
        + digit_at(bytes, 2) * 10
        + digit_at(bytes, 3)
}

fn time_in(bytes: &[u8]) -> u64
    requires { length bytes.now ≡ 24 }
    ensures { result ≡ spec.time_in bytes.now }
{
    pair_at(bytes, 11) * 3600000
        + pair_at(bytes, 14) * 60000
        + pair_at(bytes, 17) * 1000
        + digit_at(bytes, 20) * 100
        + pair_at(bytes, 21)
}

/// The date that the bytes show, where they show one.
fn date_in(bytes: &[u8]) -> Option<Date>
    requires { length bytes.now ≡ 24 }
    ensures stands { IsSome result
        ↔ IsDate (pos (spec.year_in bytes.now)) (pos (spec.pair_at bytes.now 5))
        (pos (spec.pair_at bytes.now 8)) }
    ensures value { IfSome result
        (IsYmd (pos (spec.year_in bytes.now)) (pos (spec.pair_at bytes.now 5))
        (pos (spec.pair_at bytes.now 8))) }
{
    Date::new(
        year_in(bytes) as i16,
        pair_at(bytes, 5) as i8,
        pair_at(bytes, 8) as i8,
    )
    .ok()
}

fn is_from_1970(date: Date) -> bool
    ensures { IsTrue result ↔ (pos 0 ≤ℤ epoch_day date) }
{
    civil_start() <= date
}

fn civil_start() -> Date
    ensures { epoch_day result ≡ pos 0 }
{
    date(1970, 1, 1)
}

/// Whether a text is the stamp of some moment.
pub fn is_stamp(text: &str) -> bool
    ensures { IsTrue result ↔ IsSomeStamp text.now }
{
    let bytes = text.as_bytes();
    if bytes.len() != 24 {
        return false;
    }
    let time = time_in(bytes);
    if time >= 86400000 {
        return false;
    }
    let Some(date) = date_in(bytes) else {
        return false;
    };
    if !is_from_1970(date) {
        return false;
    }
    let shown = bytes_on(date, time);
    bytes == &shown[..]
}
