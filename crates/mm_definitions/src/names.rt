//! Names of tables, mappings and editions.

ghost use Rattle.std.specs.Prelude.{◌≡◌, ◌↔◌, ◌||◌, ℕ, List, IsSome, IfSome, IsTrue, codes, not, nat_eq};
ghost use Rattle.std.specs.List.{list_any, starts_with};
ghost use Rattle.mm_definitions.specs.Bounds.{IsName};
ghost use Rattle.mm_definitions.specs.Bounds as bounds;

use crate::limits::MOST_NAME_BYTES;
use arrayvec::ArrayString;
use std::alloc::AllocError;
use std::marker::Model;

/// The name of a table, a mapping or an edition: 1 to 60 of the letters `a` to `z`, digits and `_`, of which the
/// first is no digit, and which do not begin with `gpkg`, `sqlite` or `mm_`. It is held in place.
#[derive(Drop)]
pub struct Name {
    text: ArrayString<MOST_NAME_BYTES>,
}

impl Model for Name {
    ghost use Rattle.std.specs.Prelude.{ℕ, List};
    ghost use Rattle.mm_definitions.specs.Bounds.{IsName};

    ghost Value = { List ℕ };

    ghost view = { λ name. name.text.bytes };

    ghost invariant = { λ name. IsName name.text.bytes };
}

impl Clone for Name {
    ghost use Rattle.std.specs.Prelude.{◌≡◌, ⊤};

    ghost is_clone = { λ name same. same ≡ name };

    ghost is_infallible = { λ _. ⊤ };

    fn clone(&self) -> Result<Name, AllocError> {
        Ok(Name { text: self.text })
    }
}

/// Whether a byte is a letter from `a` to `z`, or `_`.
fn is_letter(byte: u8) -> bool
    ensures { result ≡ bounds.is_letter byte }
{
    byte >= b'a' && byte <= b'z' || byte == b'_'
}

/// Whether a byte is such a letter, or a digit.
fn is_letter_or_digit(byte: u8) -> bool
    ensures { result ≡ bounds.is_letter_or_digit byte }
{
    is_letter(byte) || byte >= b'0' && byte <= b'9'
}

fn begins_with_letter(text: &[u8]) -> bool
    ensures { result ≡ bounds.begins_with_letter text.now }
{
    match text {
        [first, ..] => is_letter(*first),
        [] => false,
    }
}

fn has_other_byte(text: &[u8]) -> bool
    ensures { result ≡ list_any (λ c. not (bounds.is_letter_or_digit c)) text.now }
{
    text.iter().any(|c| !is_letter_or_digit(*c))
}

/// Whether a name would be one of the standard's, the store's or this editor's own tables.
fn is_reserved(text: &[u8]) -> bool
    ensures { result
        ≡ (starts_with nat_eq text.now (codes "gpkg")
        || starts_with nat_eq text.now (codes "sqlite")
        || starts_with nat_eq text.now (codes "mm_")) }
{
    text.starts_with(b"gpkg") || text.starts_with(b"sqlite") || text.starts_with(b"mm_")
}

/// Whether a text is a name.
pub fn is_name(text: &str) -> bool
    ensures { IsTrue result ↔ IsName text.now }
{
    let bytes = text.as_bytes();
    if bytes.len() > MOST_NAME_BYTES {
        return false;
    }
    if !begins_with_letter(bytes) {
        return false;
    }
    if has_other_byte(bytes) {
        return false;
    }
    !is_reserved(bytes)
}

impl Name {
    /// The name that a text is, or None where it is none.
    pub fn read(text: &str) -> Option<Name>
        ensures named { IsSome result ↔ IsName text.now }
        ensures value { IfSome result (λ name. name ≡ text.now) }
    {
        if !is_name(text) {
            return None;
        }
        match ArrayString::from(text) {
            Ok(text) => Some(Name { text }),
            Err(_) => unreachable!(),
        }
    }

    /// The name as text.
    pub fn as_str(&self) -> &str
        ensures text { result.now ≡ self.now }
        ensures named { IsName self.now }
    {
        self.text.as_str()
    }
}
