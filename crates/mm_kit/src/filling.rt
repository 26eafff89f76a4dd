//! A piece with the bytes of its file.

ghost use Rattle.mm_definitions.specs.Bounds.{current};
ghost use Rattle.std.specs.Prelude.{◌≡◌, ◌≤◌, ◌||◌, List, Option, IfSome, ℕ};
ghost use Rattle.mm_kit.specs.Folders.{Files};
ghost use Rattle.mm_kit.specs.Filling.{full_of, is_folders};
ghost use Rattle.mm_kit.specs.Kits.{filled, made, with_file};
ghost use Rattle.mm_definitions.specs.declared.commands.Piece.{Piece as SpecPiece};

use crate::entries::KitEntry;
use crate::file_names::FileName;
use crate::folders::{Folder, FolderFault, Found};
use mm_definitions::bytes::Bytes;
use mm_definitions::commands::Piece;
use mm_definitions::refusals::Reason;
use std::alloc::Global;

/// Why a piece has no bytes.
#[derive(Clone, Copy, Debug, PartialEq, Eq)]
pub(crate) enum Unfilled {
    /// What refuses the file: 57 where there is none, 11 where its length is outside the limits.
    Refused(Reason),
    /// The folder's own fault.
    Folder(FolderFault),
}

impl From<FolderFault> for Unfilled {
    ghost use Rattle.std.specs.Prelude.{◌≡◌};
    ghost use Rattle.mm_kit.specs.declared.filling.Unfilled.TheVariants as reasons;

    ghost from_gives = { λ fault reason. reason ≡ reasons.Folder fault };

    fn from(fault: FolderFault) -> Unfilled {
        Unfilled::Folder(fault)
    }
}

/// The bytes of a file, from 1 to `MOST`: 57 where there is no such file, 11 where it has none or too many.
fn read_bytes<const MOST: usize, F: Folder>(
    alloc: Global,
    folder: &mut F,
    name: &FileName,
) -> Result<Bytes<MOST>, Unfilled>
    ensures reads { IfSome (full_of result)
        (λ r. IfSome (F.files folder.old)
        (λ these. (make : List ℕ → SpecPiece)
        → made make r ≡ with_file MOST make (these name.now))) }
    ensures stays { F.files folder.new ≡ F.files folder.old }
    ensures fails { F.has_failed folder.new ≡ (F.has_failed folder.old || is_folders result) }
{
    match folder.read(alloc, name.as_str(), MOST as u64)? {
        Found::Bytes(bytes) => match Bytes::new(bytes) {
            Some(bytes) => Ok(bytes),
            None => Err(Unfilled::Refused(Reason::OUT_OF_LIMITS)),
        },
        Found::TooLong => Err(Unfilled::Refused(Reason::OUT_OF_LIMITS)),
        Found::Missing => Err(Unfilled::Refused(Reason::NO_FILE)),
    }
}

/// The piece of an entry, with the bytes of its file: 57 where there is no such file, 11 where its length is outside the
/// limits of a tile or a media item.
pub(crate) fn fill<F: Folder>(
    alloc: Global,
    folder: &mut F,
    entry: KitEntry,
) -> Result<Piece, Unfilled>
    ensures fills { IfSome (full_of result)
        (λ r. IfSome (F.files folder.old) (λ these. r ≡ filled these entry)) }
    ensures stays { F.files folder.new ≡ F.files folder.old }
    ensures fails { F.has_failed folder.new ≡ (F.has_failed folder.old || is_folders result) }
{
    match entry {
        KitEntry::Ready(piece) => Ok(piece),
        KitEntry::Tile { table, place, file } => {
            let bytes = read_bytes(alloc, folder, &file)?;
            Ok(Piece::Tile {
                table,
                place,
                bytes,
            })
        }
        KitEntry::Media {
            table,
            id,
            content_type,
            file,
        } => {
            let bytes = read_bytes(alloc, folder, &file)?;
            Ok(Piece::Media {
                table,
                id,
                content_type,
                bytes,
            })
        }
    }
}
