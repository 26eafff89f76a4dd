//! The bytes of tiles and media, which carry the limits of their number.

ghost use Rattle.std.specs.Prelude.{◌≡◌, ◌↔◌, IsSome, IfSome};
ghost use Rattle.mm_definitions.specs.Bounds.{IsLong};
ghost use Rattle.mm_definitions.specs.Reading.{ReadsTo, refuses_bytes, reads_bytes};

use crate::answers::ReadFault;
use crate::hexadecimal::decoded;
use crate::limits::{MOST_MEDIA_BYTES, MOST_TILE_BYTES};
use crate::refusals::Reason;
use std::alloc::Global;
use std::marker::Model;

/// 1 to `MOST` bytes.
#[derive(Drop)]
pub struct Bytes<const MOST: usize> {
    bytes: Vec<u8>,
}

impl<const MOST: usize> Model for Bytes<MOST> {
    ghost use Rattle.std.specs.Prelude.{ℕ, List};
    ghost use Rattle.mm_definitions.specs.Bounds.{IsLong};

    ghost Value = { List ℕ };

    ghost view = { λ b. b.bytes.items };

    ghost invariant = { λ b. IsLong 1 MOST b.bytes.items };
}

/// The bytes of a tile.
pub type TileBytes = Bytes<MOST_TILE_BYTES>;

/// The bytes of a media item.
pub type MediaBytes = Bytes<MOST_MEDIA_BYTES>;

impl<const MOST: usize> Bytes<MOST> {
    /// The bytes, or None where there are none or more than `MOST`.
    pub fn new(bytes: Vec<u8>) -> Option<Self>
        ensures within { IsSome result ↔ IsLong 1 MOST bytes.items }
        ensures value { IfSome result (λ b. b ≡ bytes.items) }
    {
        if bytes.is_empty() {
            return None;
        }
        if bytes.len() > MOST {
            return None;
        }
        Some(Bytes { bytes })
    }

    /// The bytes that a text spells in hexadecimal digits of either case: 10 where it spells none, and 11 where
    /// they are none or more than `MOST`.
    pub fn read(alloc: Global, text: &str) -> Result<Self, ReadFault>
        ensures { ReadsTo (reads_bytes MOST text.now) (refuses_bytes MOST text.now) result }
    {
        let Some(bytes) = decoded(alloc, text)? else {
            return Err(ReadFault::refused(Reason::NO_SUCH_RECORD));
        };
        match Bytes::new(bytes) {
            Some(bytes) => Ok(bytes),
            None => Err(ReadFault::refused(Reason::OUT_OF_LIMITS)),
        }
    }

    /// The bytes.
    pub fn as_slice(&self) -> &[u8]
        ensures bytes { result.now ≡ self.now }
        ensures within { IsLong 1 MOST self.now }
    {
        self.bytes.as_slice()
    }
}
