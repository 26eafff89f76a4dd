//! Imports of a kit in memory, one of whose reads fails, into the edition of a package in memory.

use crate::fakes::torn_folder;
use mm_core::Session;
use mm_definitions::answers::{KitFault, Staged};
use mm_definitions::entries::EditionState;
use mm_definitions::moments::Moment;
use mm_definitions::names::Name;
use mm_kit::{Folder, MemoryFile, MemoryFolder, import_kit};
use mm_test_packages::{FINER, PYRAMID, RELATED, session_after};
use sqlite::MemStore;
use std::alloc::Global;
use std::fmt::Write;
use std::test::Fail;

/// Puts a file on a folder.
pub(crate) fn put(alloc: Global, files: &mut MemoryFolder, name: &str, bytes: &[u8]) -> Option<()> {
    let mut file = MemoryFile {
        name: String::new(alloc),
        bytes: Vec::new(alloc),
    };
    file.name.push_str(name).ok()?;
    file.bytes.extend_from_slice(bytes).ok()?;
    files.files.push(file).ok()
}

/// Five pieces, three of them with files.
const FIVE: &[u8] = b"1,tile,base,1,0,0,a.bin
2,tile,base,1,1,0,b.bin
3,row,spots,8,Gate,,0
4,media,photos,4,image/png,c.bin
5,map,spot_photos,8,4
";

/// The kit of the five pieces, with this byte in `b.bin`.
fn kit_of(alloc: Global, second: u8) -> Option<MemoryFolder> {
    let mut files = MemoryFolder {
        files: Vec::new(alloc),
    };
    put(alloc, &mut files, "kit.csv", FIVE)?;
    put(alloc, &mut files, "a.bin", b"\x01")?;
    put(alloc, &mut files, "b.bin", &[second])?;
    put(alloc, &mut files, "c.bin", b"\x03")?;
    Some(files)
}

/// What an import came to, as a text.
pub(crate) fn import_text(alloc: Global, import: Result<Staged, KitFault>) -> Option<String> {
    match import {
        Ok(staged) => match staged {
            Staged::Complete(count) => format!(in alloc; "complete {count}").ok(),
            Staged::Refused { piece, number } => {
                format!(in alloc; "refused {piece} {}", number.get()).ok()
            }
        },
        Err(stopped) => {
            format!(in alloc; "fault {} after {}", stopped.fault.number(), stopped.staged).ok()
        }
    }
}

/// How many pieces an edition that is open has.
fn pieces_in(session: &mut Session<MemStore>, name: &Name) -> Option<u32> {
    match session.edition(name).ok()?? {
        EditionState::Open(pieces) => Some(pieces),
        EditionState::Published => None,
    }
}

/// What the import of a kit comes to whose read of this number fails, where it is not 0, and how many pieces then stand.
fn imported(
    alloc: Global,
    session: &mut Session<MemStore>,
    failing: u32,
    second: u8,
) -> Option<String> {
    let name = Name::read("k")?;
    let mut folder = torn_folder(kit_of(alloc, second)?, failing);
    let import = import_kit(alloc, session, &name, &mut folder, Moment::new(0)?);
    if folder.failed() != (failing > 0) {
        return None;
    }
    let told = import_text(alloc, import)?;
    let pieces = pieces_in(session, &name)?;
    format!(in alloc; "{}, {pieces} stand", told.as_str()).ok()
}

/// The number of the read that fails, the byte in `b.bin`, and what is told. The first read is that of the list.
const IMPORTS: [(u32, u8, &str); 6] = [
    (1, 2, "fault 96 after 0, 0 stand"),
    (3, 2, "fault 96 after 1, 1 stand"),
    (4, 2, "fault 96 after 3, 3 stand"),
    (0, 2, "complete 5, 5 stand"),
    (0, 2, "complete 5, 5 stand"),
    (0, 9, "refused 2 52, 5 stand"),
];

/// The imports, one after another, that are told something else, with what that is.
fn others(alloc: Global) -> Option<String> {
    let mut session = session_after(alloc, &[PYRAMID, FINER, RELATED, "edition,k\n"])?;
    let mut text = String::new(alloc);
    for (failing, second, wanted) in IMPORTS {
        let told = imported(alloc, &mut session, failing, second)?;
        if told.as_str() != wanted {
            writeln!(text, "{failing} {second} > {}", told.as_str()).ok()?;
        }
    }
    Some(text)
}

#[test]
fn goes_on_after_a_stop_and_stages_nothing_twice(rt: HostRuntime) -> Result<(), Fail> {
    let told = others(rt.alloc()).expect(&rt, "imports");
    assert_eq!(rt; told.as_str(), "");
    Ok(())
}
