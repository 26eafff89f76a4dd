//! The identifiers of contents rows.

ghost use Rattle.std.specs.Prelude.{◌≡◌, ◌↔◌, string_bytes, IsSome, IfSome, IsTrue};
ghost use Rattle.std.specs.List.{list_any};
ghost use Rattle.mm_definitions.specs.Bounds.{IsIdentifier};
ghost use Rattle.mm_definitions.specs.Bounds as bounds;
ghost use Rattle.mm_definitions.specs.Reading.{ReadsTo, reads_text, refuses_unless};

use crate::answers::ReadFault;
use crate::limits::MOST_TEXT_BYTES;
use crate::refusals::{OUT_OF_LIMITS, Reason};
use std::alloc::Global;
use std::marker::Model;

/// The identifier of a contents row: 1 to 1,000 bytes, none below 0x20 and none 0x7f.
#[derive(Drop)]
pub struct Identifier {
    text: String,
}

impl Model for Identifier {
    ghost use Rattle.std.specs.Prelude.{ℕ, List, string_bytes};
    ghost use Rattle.mm_definitions.specs.Bounds.{IsIdentifier};

    ghost Value = { List ℕ };

    ghost view = { λ t. string_bytes t.text };

    ghost invariant = { λ t. IsIdentifier (string_bytes t.text) };
}

fn is_control(byte: u8) -> bool
    ensures { result ≡ bounds.is_control byte }
{
    byte <= 31 || byte == 127
}

fn has_control(text: &str) -> bool
    ensures { result ≡ list_any bounds.is_control text.now }
{
    text.as_bytes().iter().any(|c| is_control(*c))
}

/// Whether a text may be an identifier.
pub fn is_identifier(text: &str) -> bool
    ensures { IsTrue result ↔ IsIdentifier text.now }
{
    if text.is_empty() {
        return false;
    }
    if text.len() > MOST_TEXT_BYTES {
        return false;
    }
    !has_control(text)
}

impl Identifier {
    /// The identifier, or None where the text is outside the limits.
    pub fn new(text: String) -> Option<Identifier>
        ensures within { IsSome result ↔ IsIdentifier (string_bytes text) }
        ensures value { IfSome result (λ t. t ≡ string_bytes text) }
    {
        if !is_identifier(text.as_str()) {
            return None;
        }
        Some(Identifier { text })
    }

    /// A copy of the text: 11 where it is outside the limits.
    pub fn read(alloc: Global, text: &str) -> Result<Identifier, ReadFault>
        ensures { ReadsTo (reads_text IsIdentifier text.now)
            (refuses_unless IsIdentifier OUT_OF_LIMITS text.now) result }
    {
        if !is_identifier(text) {
            return Err(ReadFault::refused(Reason::OUT_OF_LIMITS));
        }
        let text = String::from_str(alloc, text)?;
        Ok(Identifier { text })
    }

    /// The identifier as text.
    pub fn as_str(&self) -> &str
        ensures text { result.now ≡ self.now }
        ensures within { IsIdentifier self.now }
    {
        self.text.as_str()
    }
}
