//! Names of the files of a kit.

ghost use Rattle.std.specs.Prelude.{◌≡◌, ◌↔◌, IsSome, IfSome, IsTrue, not};
ghost use Rattle.std.specs.List.{list_any};
ghost use Rattle.mm_kit.specs.FileNames.{IsFileName};
ghost use Rattle.mm_kit.specs.FileNames as names;

use arrayvec::ArrayString;
use std::marker::Model;

/// The most bytes of a file's name.
const MOST_FILE_NAME_BYTES: usize = 100;

/// The name of a file of a kit: 1 to 100 letters, digits and `_`, `-`, `.`, of which the first is no dot. So it names no
/// file outside the folder. It is held in place.
#[derive(Drop)]
pub struct FileName {
    text: ArrayString<MOST_FILE_NAME_BYTES>,
}

impl Model for FileName {
    ghost use Rattle.std.specs.Prelude.{ℕ, List};
    ghost use Rattle.mm_kit.specs.FileNames.{IsFileName};

    ghost Value = { List ℕ };

    ghost view = { λ name. name.text.bytes };

    ghost invariant = { λ name. IsFileName name.text.bytes };
}

/// Whether a byte is a letter, a digit, `_` or `-`.
fn is_first(byte: u8) -> bool
    ensures { result ≡ names.is_first byte }
{
    byte.is_ascii_alphanumeric() || byte == b'_' || byte == b'-'
}

/// Whether a byte is one of these, or a dot.
fn is_further(byte: u8) -> bool
    ensures { result ≡ names.is_further byte }
{
    is_first(byte) || byte == b'.'
}

fn begins_well(text: &[u8]) -> bool
    ensures { result ≡ names.begins_well text.now }
{
    match text {
        [first, ..] => is_first(*first),
        [] => false,
    }
}

fn has_other_byte(text: &[u8]) -> bool
    ensures { result ≡ list_any (λ c. not (names.is_further c)) text.now }
{
    text.iter().any(|c| !is_further(*c))
}

/// Whether a text is the name of a file of a kit.
fn is_file_name(text: &str) -> bool
    ensures { IsTrue result ↔ IsFileName text.now }
{
    let bytes = text.as_bytes();
    if bytes.len() > MOST_FILE_NAME_BYTES {
        return false;
    }
    if !begins_well(bytes) {
        return false;
    }
    !has_other_byte(bytes)
}

impl FileName {
    /// The name that a text is, or None where it is none.
    pub fn read(text: &str) -> Option<FileName>
        ensures named { IsSome result ↔ IsFileName text.now }
        ensures value { IfSome result (λ name. name ≡ text.now) }
    {
        if !is_file_name(text) {
            return None;
        }
        match ArrayString::from(text) {
            Ok(text) => Some(FileName { text }),
            Err(_) => unreachable!(),
        }
    }

    /// The name as text.
    pub fn as_str(&self) -> &str
        ensures text { result.now ≡ self.now }
        ensures named { IsFileName self.now }
    {
        self.text.as_str()
    }
}
