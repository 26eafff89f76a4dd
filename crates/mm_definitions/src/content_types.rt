//! Content types without parameters.

ghost use Rattle.std.specs.Prelude.{◌≡◌, ◌↔◌, string_bytes, IsSome, IfSome, IsTrue, not};
ghost use Rattle.std.specs.List.{list_any};
ghost use Rattle.mm_definitions.specs.Bounds.{IsContentType, IsWord};
ghost use Rattle.mm_definitions.specs.Bounds as bounds;
ghost use Rattle.mm_definitions.specs.Reading.{ReadsTo, reads_text, refuses_unless};

use crate::answers::ReadFault;
use crate::limits::MOST_WORD_BYTES;
use crate::refusals::{OUT_OF_LIMITS, Reason};
use std::alloc::Global;
use std::marker::Model;

/// A content type without parameters, as `image/png`: two words of 1 to 64 letters, digits and `!#$&^_.+-`.
#[derive(Drop)]
pub struct ContentType {
    text: String,
}

impl Model for ContentType {
    ghost use Rattle.std.specs.Prelude.{ℕ, List, string_bytes};
    ghost use Rattle.mm_definitions.specs.Bounds.{IsContentType};

    ghost Value = { List ℕ };

    ghost view = { λ t. string_bytes t.text };

    ghost invariant = { λ t. IsContentType (string_bytes t.text) };
}

fn is_mark(byte: u8) -> bool
    ensures { result ≡ bounds.is_mark byte }
{
    b"!#$&^_.+-".iter().any(|mark| *mark == byte)
}

fn is_word_byte(byte: u8) -> bool
    ensures { result ≡ bounds.is_word_byte byte }
{
    byte >= b'0' && byte <= b'9'
        || byte >= b'A' && byte <= b'Z'
        || byte >= b'a' && byte <= b'z'
        || is_mark(byte)
}

fn has_other_byte(text: &str) -> bool
    ensures { result ≡ list_any (λ c. not (bounds.is_word_byte c)) text.now }
{
    text.as_bytes().iter().any(|c| !is_word_byte(*c))
}

fn is_word(text: &str) -> bool
    ensures { IsTrue result ↔ IsWord text.now }
{
    if text.is_empty() {
        return false;
    }
    if text.len() > MOST_WORD_BYTES {
        return false;
    }
    !has_other_byte(text)
}

/// Whether a text is a content type.
pub fn is_content_type(text: &str) -> bool
    ensures { IsTrue result ↔ IsContentType text.now }
{
    let Some((kind, form)) = text.split_once('/') else {
        return false;
    };
    if !is_word(kind) {
        return false;
    }
    is_word(form)
}

impl ContentType {
    /// The content type, or None where the text is none.
    pub fn new(text: String) -> Option<ContentType>
        ensures within { IsSome result ↔ IsContentType (string_bytes text) }
        ensures value { IfSome result (λ t. t ≡ string_bytes text) }
    {
        if !is_content_type(text.as_str()) {
            return None;
        }
        Some(ContentType { text })
    }

    /// A copy of the text: 11 where it is no content type.
    pub fn read(alloc: Global, text: &str) -> Result<ContentType, ReadFault>
        ensures { ReadsTo (reads_text IsContentType text.now)
            (refuses_unless IsContentType OUT_OF_LIMITS text.now) result }
    {
        if !is_content_type(text) {
            return Err(ReadFault::refused(Reason::OUT_OF_LIMITS));
        }
        let text = String::from_str(alloc, text)?;
        Ok(ContentType { text })
    }

    /// The content type as text.
    pub fn as_str(&self) -> &str
        ensures text { result.now ≡ self.now }
        ensures within { IsContentType self.now }
    {
        self.text.as_str()
    }
}
