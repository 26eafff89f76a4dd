//! A folder in memory.

ghost use Rattle.std.specs.Prelude.{◌≡◌, IfErr, IfOk, Some};
ghost use Rattle.mm_kit.specs.declared.folders.FolderFault.TheVariants as folder_faults;
ghost use Rattle.mm_kit.specs.MemoryFolders.{IsInFolder, file_at};
ghost use Rattle.mm_kit.specs.Folders.{FindsFile};

use crate::folders::{Folder, FolderFault, Found};
use std::alloc::Global;

/// A file in memory.
#[derive(Drop)]
pub struct MemoryFile {
    pub name: String,
    pub bytes: Vec<u8>,
}

/// A folder of files in memory, which tells them. Of files of one name the first is found.
#[derive(Drop)]
pub struct MemoryFolder {
    pub files: Vec<MemoryFile>,
}

/// The first file of a name.
fn find_file<'a>(files: &'a [MemoryFile], name: &str) -> Option<&'a MemoryFile>
    ensures { IsInFolder (file_at files.now name.now) result }
{
    'files: for i in 0..files.len() {
        let file = &files[i];
        if file.name.as_str() == name {
            return Some(file);
        }
    }
    None
}

/// A copy of a file's bytes, where they are not too many.
fn copy_file(alloc: Global, file: &MemoryFile, most: u64) -> Result<Found, FolderFault>
    ensures finds { IfOk result (λ found. FindsFile (Some file.now.bytes.items) most found) }
    ensures memory { IfErr result (λ fault. fault ≡ folder_faults.Memory) }
{
    if file.bytes.len() as u64 > most {
        return Ok(Found::TooLong);
    }
    let mut bytes = Vec::new(alloc);
    match bytes.extend_from_slice(file.bytes.as_slice()) {
        Ok(()) => Ok(Found::Bytes(bytes)),
        Err(_) => Err(FolderFault::Memory),
    }
}

impl Folder for MemoryFolder {
    ghost use Rattle.std.specs.Prelude.{Some, false};
    ghost use Rattle.mm_kit.specs.MemoryFolders.{file_at};

    ghost files = { λ s. Some (file_at s.files.items) };

    ghost has_failed = { λ s. false };

    fn read(&mut self, alloc: Global, name: &str, most: u64) -> Result<Found, FolderFault> {
        match find_file(self.files.as_slice(), name) {
            Some(file) => copy_file(alloc, file, most),
            None => Ok(Found::Missing),
        }
    }

    fn failed(&self) -> bool {
        false
    }
}
