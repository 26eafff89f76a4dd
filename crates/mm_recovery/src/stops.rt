//! Why no session has begun on two files, with what is left of them.

ghost use Rattle.std.specs.Prelude.{◌≡◌};
ghost use Rattle.sqlite.specs.Closing.{files_left};
ghost use Rattle.mm_store.specs.Faults.{told_as};
ghost use Rattle.mm_recovery.specs.Stops.{fault_in, rest_of};

use mm_definitions::answers::{Fault, Open};
use mm_store::faults::fault_of;
use sqlite::{Connection, Error, FileStore, Files, Leftover};
use sqlite_disk::Disk;

/// Two files that could not be opened or closed: the fault, and what is left of them. One can go on with them.
#[derive(Drop)]
pub struct Stopped<D: Disk> {
    fault: Fault,
    rest: Leftover<D>,
}

impl<D: Disk> Stopped<D> {
    /// 90 for want of memory, and 91 for each other failure of the store.
    pub fn fault(&self) -> Fault
        ensures { result ≡ fault_in self.now }
    {
        self.fault
    }

    /// Gives the two files back, with no call of them.
    pub fn into_files(self) -> Files<D>
        ensures { (result.log, result.db) ≡ files_left (rest_of self) }
    {
        self.rest.into_files()
    }
}

/// An error of the store, with what is left of its files.
pub(crate) fn stop_at<D: Disk>(error: Error, rest: Leftover<D>) -> Stopped<D>
    ensures fault { fault_in result ≡ told_as error }
    ensures rest { rest_of result ≡ rest }
{
    Stopped {
        fault: fault_of(error),
        rest,
    }
}

/// Why no session has begun.
#[derive(Drop)]
pub enum NotBegun<D: Disk> {
    /// The files could not be opened, or closed before: what is left of them.
    Unopened(Stopped<D>),
    /// They were opened, and the package is declined: the connection, with no transaction open on it, and why.
    Declined(Connection<FileStore<D>>, Open),
}
