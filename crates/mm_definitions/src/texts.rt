//! Texts that carry the limits of their length, in bytes.

ghost use Rattle.std.specs.Prelude.{◌≡◌, ◌↔◌, string_bytes, IsSome, IfSome, IsTrue};
ghost use Rattle.mm_definitions.specs.Bounds.{IsClean, IsText};
ghost use Rattle.mm_definitions.specs.Bounds as bounds;
ghost use Rattle.mm_definitions.specs.Reading.{ReadsTo, reads_text, refuses_unless};

use crate::answers::ReadFault;
use crate::limits::{MOST_DEFINITION_BYTES, MOST_TEXT_BYTES};
use crate::refusals::{OUT_OF_LIMITS, Reason};
use std::alloc::Global;
use std::marker::Model;

/// A text of `LEAST` to `MOST` bytes, none of them 0.
#[derive(Drop)]
pub struct Text<const LEAST: usize, const MOST: usize> {
    text: String,
}

impl<const LEAST: usize, const MOST: usize> Model for Text<LEAST, MOST> {
    ghost use Rattle.std.specs.Prelude.{ℕ, List, string_bytes};
    ghost use Rattle.mm_definitions.specs.Bounds.{IsText};

    ghost Value = { List ℕ };

    ghost view = { λ t. string_bytes t.text };

    ghost invariant = { λ t. IsText LEAST MOST (string_bytes t.text) };
}

/// The name of a reference system, or the organization that defines it.
pub type SystemName = Text<1, MOST_TEXT_BYTES>;

/// The definition of a reference system, which is opaque.
pub type Definition = Text<1, MOST_DEFINITION_BYTES>;

/// A reference system's description, or the title or note of an attribute row.
pub type Remark = Text<0, MOST_TEXT_BYTES>;

fn has_zero(text: &str) -> bool
    ensures { result ≡ bounds.has_zero text.now }
{
    text.as_bytes().iter().any(|c| *c == 0)
}

/// Whether none of a text's bytes is 0.
pub fn is_clean(text: &str) -> bool
    ensures { IsTrue result ↔ IsClean text.now }
{
    !has_zero(text)
}

/// Whether a text has so many bytes, none of them 0.
pub fn is_text(text: &str, least: usize, most: usize) -> bool
    ensures { IsTrue result ↔ IsText least most text.now }
{
    if text.len() < least {
        return false;
    }
    if text.len() > most {
        return false;
    }
    is_clean(text)
}

impl<const LEAST: usize, const MOST: usize> Text<LEAST, MOST> {
    /// The text, or None where it is outside the limits.
    pub fn new(text: String) -> Option<Self>
        ensures within { IsSome result ↔ IsText LEAST MOST (string_bytes text) }
        ensures value { IfSome result (λ t. t ≡ string_bytes text) }
    {
        if !is_text(text.as_str(), LEAST, MOST) {
            return None;
        }
        Some(Text { text })
    }

    /// A copy of the text: 11 where it is outside the limits.
    pub fn read(alloc: Global, text: &str) -> Result<Self, ReadFault>
        ensures { ReadsTo (reads_text (IsText LEAST MOST) text.now)
            (refuses_unless (IsText LEAST MOST) OUT_OF_LIMITS text.now) result }
    {
        if !is_text(text, LEAST, MOST) {
            return Err(ReadFault::refused(Reason::OUT_OF_LIMITS));
        }
        let text = String::from_str(alloc, text)?;
        Ok(Text { text })
    }

    /// The text.
    pub fn as_str(&self) -> &str
        ensures text { result.now ≡ self.now }
        ensures within { IsText LEAST MOST self.now }
    {
        self.text.as_str()
    }
}
