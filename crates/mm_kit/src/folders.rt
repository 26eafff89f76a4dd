//! Where a kit's files lie.

ghost use Rattle.std.specs.Prelude.{◌≡◌, ◌||◌, Bool, Option, IfOk, IfSome};
ghost use Rattle.mm_kit.specs.Folders.{Files, FindsFile, is_failure};

use std::alloc::Global;

/// What stands under the name of a file.
#[derive(Drop)]
pub enum Found {
    /// Its bytes.
    Bytes(Vec<u8>),
    /// More bytes than were asked for.
    TooLong,
    /// There is no such file.
    Missing,
}

/// Why a file was not read.
#[derive(Clone, Copy, Debug, PartialEq, Eq)]
pub enum FolderFault {
    Memory,
    Failed,
}

/// A folder of files. One that tells its files, as one in memory does, answers from them and leaves them as they are; one
/// of real files tells nothing.
pub trait Folder {
    // The files by their names, of a folder that tells them.
    ghost files: { Self → Option Files };

    ghost has_failed: { Self → Bool };

    /// The bytes of a file, where they are `most` at most.
    fn read(&mut self, alloc: Global, name: &str, most: u64) -> Result<Found, FolderFault>
        ensures finds { IfOk result
            (λ found. IfSome (files self.old) (λ these. FindsFile (these name.now) most found)) }
        ensures stays { files self.new ≡ files self.old }
        ensures fails { has_failed self.new ≡ (has_failed self.old || is_failure result) };

    /// Whether a read has answered `Failed`.
    fn failed(&self) -> bool
        ensures { result ≡ has_failed self.now };
}
