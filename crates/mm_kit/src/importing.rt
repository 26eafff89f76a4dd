//! The import of a kit, in the order of its steps.

ghost use Rattle.std.specs.Prelude.{◌≡◌, ◌||◌, IfOk, Some};
ghost use Rattle.mm_kit.specs.Folders.{Files, is_failure};
ghost use Rattle.mm_kit.specs.Lists.{AreFew, AreSound, IsKitList, list_read};
ghost use Rattle.mm_kit.specs.Promised.{ImportsEntries, ImportsKit};

use crate::entries::KitEntry;
use crate::folders::{Folder, FolderFault, Found};
use crate::lists::{Listed, read_list};
use crate::staging::{folder_fault, stage_all};
use mm_definitions::answers::{KitFault, Staged};
use mm_definitions::entries::EditionState;
use mm_definitions::moments::Moment;
use mm_definitions::names::Name;
use mm_definitions::refusals::Reason;
use mm_run::Editor;
use std::alloc::Global;

/// The most bytes of a kit's list.
pub const MOST_LIST_BYTES: u64 = 16_777_216;

/// The entries of the folder's list, or the answer where there are none.
fn find_list<F: Folder>(alloc: Global, folder: &mut F) -> Result<Listed, FolderFault>
    ensures lists { IfOk result
        (λ l. (files : Files) → F.files folder.old ≡ Some files → IsKitList files (list_read l)) }
    ensures sound { IfOk result AreSound }
    ensures stays { F.files folder.new ≡ F.files folder.old }
    ensures fails { F.has_failed folder.new ≡ (F.has_failed folder.old || is_failure result) }
{
    match folder.read(alloc, "kit.csv", MOST_LIST_BYTES)? {
        Found::Bytes(list) => match read_list(alloc, list.as_slice()) {
            Ok(listed) => Ok(listed),
            Err(_) => Err(FolderFault::Memory),
        },
        Found::TooLong => Ok(Listed::Refused(0, Reason::OUT_OF_LIMITS)),
        Found::Missing => Ok(Listed::Refused(0, Reason::NO_FILE)),
    }
}

/// The import of a list's entries: the edition, then each piece.
fn import_entries<A: Editor, F: Folder>(
    alloc: Global,
    editor: &mut A,
    name: &Name,
    folder: &mut F,
    entries: Vec<KitEntry>,
    at: Moment,
) -> Result<Staged, KitFault>
    requires { AreFew entries.items }
    ensures { ImportsEntries A.Apply F.Folder name.now entries.items editor.old editor.new
        folder.old folder.new result }
{
    let records = entries.len() as u32;
    match editor.edition(name) {
        Ok(Some(EditionState::Open(pieces))) => {
            if records < pieces {
                return Ok(Staged::Refused {
                    piece: records + 1,
                    number: Reason::NOT_THE_NEXT_PIECE,
                });
            }
            stage_all(alloc, editor, name, folder, entries, at)
        }
        Ok(Some(EditionState::Published)) => Ok(Staged::Refused {
            piece: 0,
            number: Reason::PUBLISHED_ALREADY,
        }),
        Ok(None) => Ok(Staged::Refused {
            piece: 0,
            number: Reason::NO_EDITION,
        }),
        Err(fault) => Err(KitFault { fault, staged: 0 }),
    }
}

/// Stages the pieces of a folder's kit in an edition that is open, and answers `Complete` where the edition's pieces are
/// the kit. An import that was stopped is done again, as often as is wanted: pieces that stand already are passed over.
///
/// The list `kit.csv` is read first, then the edition, then for each record in order its file. `Refused` tells the record's
/// place, or 0 of the list itself: 57 where there is no list and 11 where it is too long; the first record that is refused;
/// 51 or 55 of the edition; 57 or 11 of a record's file, 52 where another piece stands at its number.
///
/// # Errors
///
/// 90 want of memory, 91 the store, 92 where the editor has failed (a session has to be opened again then), 96 where the folder
/// failed; each with the number of pieces that were answered ok in this call. 92 comes where the edition is looked up:
/// memory grows before that for the list and its records alone. Unless a command failed the editor works on, and the
/// import can be begun again.
pub fn import_kit<A: Editor, F: Folder>(
    alloc: Global,
    editor: &mut A,
    name: &Name,
    folder: &mut F,
    at: Moment,
) -> Result<Staged, KitFault>
    ensures { ImportsKit A.Apply F.Folder name.now editor.old editor.new folder.old folder.new
        result }
{
    match find_list(alloc, folder) {
        Ok(listed) => match listed {
            Listed::Entries(entries) => import_entries(alloc, editor, name, folder, entries, at),
            Listed::Refused(piece, number) => Ok(Staged::Refused { piece, number }),
        },
        Err(fault) => Err(KitFault {
            fault: folder_fault(fault),
            staged: 0,
        }),
    }
}
