//! What is left of a file and its journal.

use mm_definitions::answers::Fault;
use sqlite::{FileStore, Files, Leftover};
use sqlite_disk::Disk;

/// Why work on a file was not done, or not told.
#[derive(Clone, Copy, Debug, PartialEq, Eq)]
pub enum NotDone {
    /// The file, or its journal, holds bytes where neither is to hold one.
    NotEmpty,
    Fault(Fault),
}

/// A file and its journal that were opened at a path.
#[derive(Drop)]
pub struct Opened<'a, D: Disk> {
    /// The path that the system was given.
    pub path: &'a str,
    pub files: Files<D>,
}

/// A file and its journal that could not be closed behind work that came to its end.
#[derive(Drop)]
pub struct Unclosed<'a, D: Disk> {
    /// The path that the system was given.
    pub path: &'a str,
    /// The store of them. The fault left it open, as one does that comes while pages are copied; one that comes as the
    /// journal is begun anew shuts it.
    pub store: FileStore<D>,
}

/// What is left of the file at a path, and of its journal, where `S` stands for what they held.
#[derive(Drop)]
pub enum Left<'a, D: Disk, S> {
    /// No file was opened: what stands for them is handed back.
    Untouched(S),
    /// The system did not open them.
    Unopened,
    /// They hold no database, or bytes where none are wanted, or an open failed: what it left.
    Refused(Leftover<D>),
    /// Work on them came to its end, and then they could not be closed.
    Unclosed(Unclosed<'a, D>),
    /// Work on them was done.
    Worked(Opened<'a, D>),
}

impl<'a, D: Disk + Drop, S: Drop> Left<'a, D, S> {
    /// Lets the files go, which gives up their lock.
    pub fn let_go(self) {}
}
